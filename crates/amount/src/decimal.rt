// A number's decimal digits, as a statement's counts have them.
ghost use Rattle.std.specs.Prelude.{◌≡◌, ◌-◌, ◌%◌, ◌≤◌, length};
ghost use Rattle.std.proofs.lemmas.List.Edits.{sets};
ghost use Rattle.rules.specs.Text.{decimal, digit_byte};

use crate::text;

// The last digit of a number.
pub fn digit(number: u64) -> u8
    ensures { result ≡ digit_byte (number % 10) }
{
    text::last_digit(number, number / 10)
}

// How many digits a number is written with.
pub fn digits(left: u64) -> usize
    ensures { result ≡ length (decimal left) }
{
    let mut text = [0u8; 20];
    20 - text::write_digits(&mut text, 20, left)
}

// The digits before `end`.
pub fn put_digits(field: &mut [u8], end: usize, left: u64)
    requires { (length (decimal left) ≤ end) × (end ≤ length field.old) }
    ensures { field.new ≡ sets field.old (end - length (decimal left)) (decimal left) }
{
    let mut text = [0u8; 20];
    let first = text::write_digits(&mut text, 20, left);
    text::put_text(field, end, &text, 20 - first)
}
