// Twenty bytes in which a number or an amount is written before it goes to its field. It is written from the right, so its length shows
// only when it is whole; till then no byte of the field is touched. Every number of 64 bits has room, and every amount.
ghost use Rattle.std.specs.Prelude.{◌≡◌, ◌-◌, ◌/◌, ◌%◌, ◌≤◌, drop, length};
ghost use Rattle.std.proofs.lemmas.List.Edits.{sets};
ghost use Rattle.rules.specs.Text.{decimal, digit_byte};

// The last digit of a number whose tenth is known: one division serves for both.
pub fn last_digit(number: u64, tenth: u64) -> u8
    requires { tenth ≡ number / 10 }
    ensures { result ≡ digit_byte (number % 10) }
{
    b'0' + (number - 10 * tenth) as u8
}

// The digits before `end`: digit by digit from the right, each time a tenth of what is left, until nothing is left. Hands back the
// place of the first. The text is an array and no slice, since the compiler makes a loop of the recursion only then.
pub fn write_digits(text: &mut [u8; 20], end: usize, left: u64) -> usize
    requires { (length (decimal left) ≤ end) × (end ≤ 20) }
    ensures first { result ≡ end - length (decimal left) }
    ensures text { text.new ≡ sets text.old (end - length (decimal left)) (decimal left) }
{
    let at = end - 1;
    let tenth = left / 10;
    text[at] = last_digit(left, tenth);
    if tenth == 0 {
        return at;
    }
    write_digits(text, at, tenth)
}

// A text's last bytes, so many, before `end`.
pub fn put_text(field: &mut [u8], end: usize, text: &[u8; 20], count: usize)
    requires { (count ≤ end) × (end ≤ length field.old) × (count ≤ 20) }
    ensures { field.new ≡ sets field.old (end - count) (drop (20 - count) text.now) }
{
    field[end - count..end].copy_from_slice(&text[20 - count..]);
}
