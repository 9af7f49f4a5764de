// Figures of amounts and hour files, computed from the definitions. Nothing here runs.
#![tactic(auto)]

ghost use Rattle.std.specs.Prelude.{◌≡◌};

// A crate holds a function; this one has nothing to compute.
pub fn nothing() -> u32
    ensures { result ≡ 0 }
{
    0
}
