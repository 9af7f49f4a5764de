// What programs in C link of `explain` (include/sneupelaar.h), with the clauses of the function it calls. The archive stands apart from the one
// with settling: what is called from two functions of one archive is compiled as a function apart.
#![tactic(auto)]

ghost use Rattle.std.specs.Prelude.{◌≡◌};
ghost use Rattle.rules.specs.Explanation as Explanation;
ghost use Rattle.explain.specs.HandedOut.{explanation_of};

use explain::boundary::NumberedExplained;

// Explains a member's charge.
#[unsafe(no_mangle)]
pub extern "C" fn sneupelaar_explain(file: &[u8], member: u32) -> NumberedExplained
    ensures { explanation_of result ≡ Explanation.explain file.now member }
{
    explain::boundary::sneupelaar_explain(file, member)
}
