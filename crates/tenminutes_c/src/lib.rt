// What programs in C link of `tenminutes` (include/sneupelaar.h), with the clauses of the function it calls.
#![tactic(auto)]

ghost use Rattle.std.specs.Prelude.{◌≡◌};
ghost use Rattle.rules.specs.TenMinutes.{settle_ten_minutes};
ghost use Rattle.tenminutes.specs.HandedOut.{settlement};

use tenminutes::boundary::NumberedAnswer;

// Settles a ten-minute file.
#[unsafe(no_mangle)]
pub extern "C" fn sneupelaar_settle_ten_minutes(file: &[u8], charges: &mut [i64]) -> NumberedAnswer
    ensures { settlement result charges.new ≡ settle_ten_minutes file.now charges.old }
{
    tenminutes::boundary::sneupelaar_settle_ten_minutes(file, charges)
}
