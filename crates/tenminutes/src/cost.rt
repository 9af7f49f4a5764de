// What a net deviation costs.
ghost use Rattle.std.specs.Prelude.{◌≡◌, cond, pos, ◌*ℤ◌};
ghost use Rattle.std.specs.Int.Signed.{lt_z};
ghost use Rattle.whole.specs.Signed.{Under};

// The decremental price if the net is below zero, the incremental if above; zero costs nothing.
pub fn cost(net: i64, incremental: i64, decremental: i64) -> i64
    requires { Under net 6144000000000 × Under incremental 100000 × Under decremental 100000 }
    ensures { result ≡ net *ℤ cond (lt_z net (pos 0)) decremental (cond (lt_z (pos 0) net) incremental (pos 0)) }
{
    if net < 0 {
        net * decremental
    } else {
        net * incremental
    }
}
