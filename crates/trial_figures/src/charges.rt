// Charges: grains to the nearest cent, halves to the even one.
use std::io::Write;
use streams::{Trouble, print, print_signed};

fn show<W: Write>(output: &mut W, grains: i64) -> Result<(), Trouble> {
    print(output, b"grains ")?;
    print_signed(output, grains)?;
    print(output, b": ")?;
    print_signed(output, formula::posting::cents(grains))?;
    print(output, b" cents\n")
}

pub fn show_charges<W: Write>(output: &mut W) -> Result<(), Trouble> {
    show(output, 4999999)?;
    show(output, 5000000)?;
    show(output, -4999999)?;
    show(output, -5000000)?;
    show(output, 14999999)?;
    show(output, -14999999)?;
    show(output, 15000000)?;
    show(output, -15000000)?;
    show(output, 25000000)?;
    show(output, -25000000)
}
