// Shares of a number over demands: whole parts, then a unit each to the largest remainders, on equal ones to the earlier.
ghost use Rattle.std.specs.Prelude.{◌≡◌, ℕ, ◌≤◌, ◌<◌, nat_abs, length, get_or};
ghost use Rattle.trial_figures.specs.Small.{Small};

use std::io::Write;
use streams::{Trouble, print, print_signed};

// Sizes, each with the sign of `u`.
fn print_sizes<W: Write>(output: &mut W, u: i64, sizes: &[u64]) -> Result<(), Trouble>
    requires { (i : ℕ) → i < length sizes.now → get_or sizes.now i 0 < 9223372036854775808 }
{
    for size in sizes {
        print(output, b" ")?;
        print_signed(output, whole::with_sign_of(u, *size))?;
    }
    Ok(())
}

// The demands, and then the sizes of their shares, which come to stand in their places.
fn show_in<W: Write>(output: &mut W, u: i64, places: &mut [u64]) -> Result<(), Trouble>
    requires { Small places.old × (length places.old ≤ 3) × (nat_abs u ≤ 1000) }
{
    print(output, b"U ")?;
    print_signed(output, u)?;
    print(output, b" over D")?;
    print_sizes(output, 0, places)?;
    share::share_in_place(places, whole::size_of(u));
    print(output, b":")?;
    print_sizes(output, u, places)?;
    print(output, b"\n")
}

// The first `n` of three demands.
fn show<W: Write>(
    output: &mut W,
    u: i64,
    n: usize,
    first: u64,
    second: u64,
    third: u64,
) -> Result<(), Trouble>
    requires { (nat_abs u ≤ 1000) × (n ≤ 3) × (first ≤ 1000) × (second ≤ 1000) × (third ≤ 1000) }
{
    let mut places = [first, second, third];
    show_in(output, u, &mut places[..n])
}

// U 5 over D 2, 1: the second has the larger remainder. U 2 over D 3, 1 and over D 1, 3: equal remainders, the first has the unit.
pub fn show_shares<W: Write>(output: &mut W) -> Result<(), Trouble> {
    show(output, 10, 3, 1, 1, 1)?;
    show(output, -10, 3, 1, 1, 1)?;
    show(output, 11, 3, 1, 1, 1)?;
    show(output, 1, 3, 1, 1, 1)?;
    show(output, 5, 2, 2, 1, 0)?;
    show(output, -5, 2, 2, 1, 0)?;
    show(output, 2, 2, 3, 1, 0)?;
    show(output, 2, 2, 1, 3, 0)?;
    show(output, -2, 2, 1, 3, 0)?;
    show(output, 7, 2, 0, 5, 0)?;
    show(output, 0, 2, 0, 0, 0)
}
