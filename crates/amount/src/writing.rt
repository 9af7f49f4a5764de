// The parts of `write`: an amount's sign, its text in twenty bytes, and the text in its place at the field's right end.
ghost use Rattle.std.specs.Prelude.{◌++◌, ◌≡◌, ◌+◌, ◌-◌, ◌≤◌, nat_abs, drop, length, replicate};
ghost use Rattle.rules.specs.Text.{amount_field, amount_text, sign_byte};

use crate::text;

fn sign_byte(cents: i64) -> u8
    ensures { result ≡ sign_byte cents }
{
    if cents < 0 { b'-' } else { b'+' }
}

// An amount at the end of twenty blanks. Hands back the length of its text.
pub fn write_amount(text: &mut [u8; 20], cents: i64) -> usize
    requires { (nat_abs cents ≤ 999999999999) × (text.old ≡ replicate 20 32) }
    ensures length { result ≡ length (amount_text cents) }
    ensures text { text.new ≡ amount_field 20 cents }
{
    let size = cents.unsigned_abs();
    let tenth = size / 10;
    let dollars = size / 100;
    text[17] = b'.';
    text[18] = text::last_digit(tenth, dollars);
    text[19] = text::last_digit(size, tenth);
    let at = text::write_digits(text, 17, dollars) - 1;
    text[at] = sign_byte(cents);
    20 - at
}

// A text at the right end of the field: its last 14 bytes, which hold every amount, with blanks before them; in a narrower field as many
// as there is room for. `write` has seen that the others are blanks.
pub fn put(field: &mut [u8], text: &[u8; 20])
    ensures { field.new ≡
        replicate (length field.old - 14) 32 ++ drop (6 + (14 - length field.old)) text.now }
{
    let width = field.len();
    if width < 14 {
        text::put_text(field, width, text, width);
        return;
    }
    field[..width - 14].fill(b' ');
    text::put_text(field, width, text, 14)
}
