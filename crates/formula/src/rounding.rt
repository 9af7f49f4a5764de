// An exact amount in cents, whatever its unit: grains of an hour, 24ths of grains of a ten-minute hour.
ghost use Rattle.std.specs.Prelude.{◌≡◌, ◌*◌, ◌<◌};
ghost use Rattle.rules.specs.Charge as Charge;

// The nearest cent, of 2 × `half` parts, halves to the even one. `/` and `%` go toward zero, so the rest, and the 1 or -1 of an odd number of
// whole cents, have the amount's sign. A cent more is due exactly where their sum is above `half` in size; the last quotient is then 1 or -1.
pub fn cents_of(amount: i64, half: u32) -> i64
    requires { 0 < half }
    ensures { result ≡ Charge.cents_of (2 * half) amount }
{
    let h = i64::from(half);
    let cent = 2 * h;
    let whole = amount / cent;
    whole + (amount % cent + whole % 2) / (h + 1)
}
