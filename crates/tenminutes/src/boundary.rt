// Ten-minute settling for programs in C (include/sneupelaar.h): the answer goes out as its number and place. It has no `requires`: nothing
// would check it for C.
ghost use Rattle.std.specs.Prelude.{◌≡◌};
ghost use Rattle.rules.specs.TenMinutes.{settle_ten_minutes};
ghost use Rattle.tenminutes.specs.HandedOut.{settlement};

pub use answer::NumberedAnswer;

// Settles a ten-minute file.
pub fn sneupelaar_settle_ten_minutes(file: &[u8], charges: &mut [i64]) -> NumberedAnswer
    ensures { settlement result charges.new ≡ settle_ten_minutes file.now charges.old }
{
    NumberedAnswer::from(crate::settle(file, charges))
}
