// Laws of whole numbers, for the crates above: definitions in specs/, laws in proofs/. And as code a signed number's size, and a size with
// a number's sign.
#![tactic(auto)]

ghost use Rattle.std.specs.Prelude.{◌≡◌, ◌<◌, nat_abs};
ghost use Rattle.whole.specs.Signed.{with_sign_of};

// A number without its sign. The least i64 has a size too: one more than that of the next.
pub fn size_of(z: i64) -> u64
    ensures { result ≡ nat_abs z }
{
    z.unsigned_abs()
}

// A size with the sign of another number.
pub fn with_sign_of(z: i64, size: u64) -> i64
    requires { size < 9223372036854775808 }
    ensures { result ≡ with_sign_of z size }
{
    if z < 0 { -(size as i64) } else { size as i64 }
}
