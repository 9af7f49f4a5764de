// Amounts as text (document 01, "Text amounts"): `write` puts an amount of cents into the caller's field, `read` takes one out.
// Both take every number and every field; what they refuse is rows 8 to 10 of the table, and a refused field is unchanged to the byte.
#![tactic(auto)]

ghost use Rattle.std.specs.Prelude.{◌≡◌};
ghost use Rattle.rules.specs.Refusals.{verdict_of};
ghost use Rattle.rules.specs.Settling as Settling;
ghost use Rattle.rules.specs.Settling.{amount_of};

pub mod decimal;
mod reading;
mod text;
mod writing;

use rules::Refusal;

// Writes an amount of cents into the whole field, whose length is the width.
pub fn write(cents: i64, field: &mut [u8]) -> Result<(), Refusal>
    ensures verdict { verdict_of result ≡ (Settling.write field.old cents).verdict }
    ensures field { field.new ≡ (Settling.write field.old cents).field }
{
    if 999999999999 < cents.unsigned_abs() {
        return Err(Refusal::OutOfRange);
    }
    let mut text = [b' '; 20];
    let length = writing::write_amount(&mut text, cents);
    if field.len() < length {
        return Err(Refusal::TooNarrow);
    }
    writing::put(field, &text);
    Ok(())
}

// Reads the amount that stands in the whole field: blanks, a sign, dollars, cents, and nothing after them.
pub fn read(field: &[u8]) -> Result<i64, Refusal>
    ensures verdict { verdict_of result ≡ (Settling.read field.now).verdict }
    ensures amount { amount_of result ≡ (Settling.read field.now).amount }
{
    reading::amount(field).ok_or(Refusal::NotAnAmount)
}
