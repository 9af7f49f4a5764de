// The parts of `read`: a reading place moves on, and each part hands it back with its value, or is missing.
ghost use Rattle.std.specs.Prelude.{◌≡◌, ◌≤◌, min, drop, get_or, length};
ghost use Rattle.rules.specs.Text.{amount_in, blank_count, cents_at, digit_count, digits_value, dollars_at, sign_at, with_minus};
ghost use Rattle.amount.specs.Parts.{part_of, taken};

// The reading place, as what is left of the field.
#[derive(Clone, Copy)]
struct Cursor<'a> {
    left: &'a [u8],
}

// The byte at a place. Past the end it is 0, which is no digit.
// Stays a 0, and no Option: tried with slice patterns, and a reading takes 201 instructions for 161, since the loop of `digits` isn't unrolled.
fn byte_at(field: &[u8], at: usize) -> u8
    ensures { result ≡ get_or field.now at 0 }
{
    field.get(at).copied().unwrap_or(0)
}

// The number that the first digits make, and how many they are, at most eleven: dollars have at most ten.
fn digits(field: &[u8]) -> (u64, usize)
    ensures value { result.0 ≡ digits_value field.now result.1 }
    ensures count { result.1 ≡ min 11 (digit_count field.now) }
    ensures inside { result.1 ≤ length field.now }
{
    let mut value = 0;
    for count in 0..11 {
        let byte = byte_at(field, count);
        if !byte.is_ascii_digit() {
            return (value, count);
        }
        value = 10 * value + u64::from(byte - b'0');
    }
    (value, 11)
}

impl<'a> Cursor<'a> {
    fn start(field: &'a [u8]) -> Self
        ensures { result.left.now ≡ field.now }
    {
        Cursor { left: field }
    }

    // None or more blanks: they are never missing.
    fn blanks(self) -> Self
        ensures { result.left.now ≡ drop (blank_count self.entry.left.now) self.entry.left.now }
    {
        let mut rest = self.left;
        while let [b' ', after @ ..] = rest {
            rest = after;
        }
        Cursor { left: rest }
    }

    // Whether the sign is a minus.
    fn sign(self) -> Option<(bool, Self)>
        ensures { taken result ≡ part_of self.entry.left.now (sign_at self.entry.left.now 0) }
    {
        let field = self.left;
        match field {
            [b'+', left @ ..] => Some((false, Cursor { left })),
            [b'-', left @ ..] => Some((true, Cursor { left })),
            _ => None,
        }
    }

    // One to ten digits, the first of several no zero.
    fn dollars(self) -> Option<(u64, Self)>
        ensures { taken result ≡ part_of self.entry.left.now (dollars_at self.entry.left.now 0) }
    {
        let field = self.left;
        let (value, count) = digits(field);
        if count == 0 || 10 < count {
            return None;
        }
        if 1 < count && field[0] == b'0' {
            return None;
        }
        let left = &field[count..];
        Some((value, Cursor { left }))
    }

    // A point and two digits.
    fn cents(self) -> Option<(u64, Self)>
        ensures { taken result ≡ part_of self.entry.left.now (cents_at self.entry.left.now 0) }
    {
        let field = self.left;
        let [b'.', tens @ b'0'..=b'9', ones @ b'0'..=b'9', left @ ..] = field else {
            return None;
        };
        let value = 10 * u64::from(*tens - b'0') + u64::from(*ones - b'0');
        Some((value, Cursor { left }))
    }
}

// The amount of this sign and size; there is no minus zero.
fn signed(is_minus: bool, size: u64) -> Option<i64>
    requires { size ≤ 999999999999 }
    ensures { result ≡ with_minus is_minus size }
{
    if !is_minus {
        return Some(size as i64);
    }
    if size == 0 {
        return None;
    }
    Some(-(size as i64))
}

// The amount that stands in the whole field.
pub fn amount(field: &[u8]) -> Option<i64>
    ensures { result ≡ amount_in field.now }
{
    let Some((is_minus, after_sign)) = Cursor::start(field).blanks().sign() else {
        return None;
    };
    let Some((dollars, after_dollars)) = after_sign.dollars() else {
        return None;
    };
    let Some((cents, after_cents)) = after_dollars.cents() else {
        return None;
    };
    if !after_cents.left.is_empty() {
        return None;
    }
    signed(is_minus, 100 * dollars + cents)
}
