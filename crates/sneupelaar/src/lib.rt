// The library for programs in C (include/sneupelaar.h): an answer goes out as its number and place, a body as where it stands in the file.
// No function here has a `requires`: nothing would check it for C.
#![tactic(auto)]

ghost use Rattle.std.specs.Prelude.{◌≡◌, drop, take};
ghost use Rattle.rules.specs.HourFile.{body, hourly};
ghost use Rattle.rules.specs.Refusals.{number_of, place_of};
ghost use Rattle.rules.specs.Settling as Settling;
ghost use Rattle.rules.specs.Settling.{amount_of, figures_of};
ghost use Rattle.pool.specs.Buffers.{buffers};
ghost use Rattle.sneupelaar.specs.HandedOut.{body_part, read_amount, settlement, written};

pub use answer::NumberedAnswer;
use rules::{Line, Refusal};

#[repr(C)]
#[derive(Clone, Copy, Debug, PartialEq, Eq)]
pub struct NumberedSettled {
    pub number: u64,
    pub place: u64,
    pub ufe: [i64; 8],
}

#[repr(C)]
#[derive(Clone, Copy, Debug, PartialEq, Eq)]
pub struct NumberedReading {
    pub number: u64,
    pub place: u64,
    pub amount: i64,
}

// A part of a file: its first byte's place, and how many bytes it has.
#[repr(C)]
#[derive(Clone, Copy, Debug, PartialEq, Eq)]
pub struct Part {
    pub from: usize,
    pub length: usize,
}

// All UFE figures are 0 on refusal.
impl From<Result<[i64; 8], Refusal>> for NumberedSettled {
    ghost from_gives = { λ settled r. r ≡ record { number = number_of settled; place = place_of settled; ufe = figures_of settled } };

    fn from(settled: Result<[i64; 8], Refusal>) -> Self {
        match settled {
            Ok(ufe) => NumberedSettled {
                number: 0,
                place: 0,
                ufe,
            },
            Err(refusal) => NumberedSettled {
                number: refusal.number(),
                place: refusal.place() as u64,
                ufe: [0i64; 8],
            },
        }
    }
}

// The amount is 0 on refusal.
impl From<Result<i64, Refusal>> for NumberedReading {
    ghost from_gives = { λ reading r. r ≡ record { number = number_of reading; place = place_of reading; amount = amount_of reading } };

    fn from(reading: Result<i64, Refusal>) -> Self {
        match reading {
            Ok(amount) => NumberedReading {
                number: 0,
                place: 0,
                amount,
            },
            Err(unread) => NumberedReading {
                number: unread.number(),
                place: unread.place() as u64,
                amount: 0,
            },
        }
    }
}

// Settling for programs in C: the answer goes out as its number and place.
pub fn sneupelaar_settle(
    file: &[u8],
    lines: &mut [Line],
    charges: &mut [i64],
    finals: &mut [i64],
    shares: &mut [i64],
    deviations: &mut [i64],
) -> NumberedSettled
    ensures { settlement result
        (buffers charges.new finals.new shares.new deviations.new lines.new)
        ≡ Settling.settle file.now
        (buffers charges.old finals.old shares.old deviations.old lines.old) }
{
    NumberedSettled::from(pool::settle(file, lines, charges, finals, shares, deviations))
}

// Writes an amount of cents into the whole field.
pub fn sneupelaar_write(cents: i64, field: &mut [u8]) -> NumberedAnswer
    ensures { written result field.new ≡ Settling.write field.old cents }
{
    NumberedAnswer::from(amount::write(cents, field))
}

// Reads the amount that stands in the whole field.
pub fn sneupelaar_read(field: &[u8]) -> NumberedReading
    ensures { read_amount result ≡ Settling.read field.now }
{
    NumberedReading::from(amount::read(field))
}

// The block reader: which bytes of the file are the body of a block.
pub fn sneupelaar_body(file: &[u8], block: usize) -> Part
    ensures part { result ≡ body_part file.now block }
    ensures bytes { take result.length (drop result.from file.now) ≡ body hourly file.now block }
{
    let length = hour::body(file, block).len();
    if length == 0 {
        return Part { from: 0, length: 0 };
    }
    Part {
        from: 512 * block + 32,
        length: length,
    }
}
