// What programs in C link of `sneupelaar` (include/sneupelaar.h): each function under the name of its symbol, with the clauses of the one it
// calls.
#![tactic(auto)]

ghost use Rattle.std.specs.Prelude.{◌≡◌, drop, take};
ghost use Rattle.rules.specs.HourFile.{body, hourly};
ghost use Rattle.rules.specs.Settling as Settling;
ghost use Rattle.pool.specs.Buffers.{buffers};
ghost use Rattle.sneupelaar.specs.HandedOut.{body_part, read_amount, settlement, written};

use rules::Line;
use sneupelaar::{NumberedAnswer, NumberedReading, NumberedSettled, Part};

// Settling for programs in C: the answer goes out as its number and place.
#[unsafe(no_mangle)]
pub extern "C" fn sneupelaar_settle(
    file: &[u8],
    lines: &mut [Line],
    charges: &mut [i64],
    finals: &mut [i64],
    shares: &mut [i64],
    deviations: &mut [i64],
) -> NumberedSettled
    ensures { settlement result
        (buffers charges.new finals.new shares.new deviations.new lines.new)
        ≡ Settling.settle file.now
        (buffers charges.old finals.old shares.old deviations.old lines.old) }
{
    sneupelaar::sneupelaar_settle(file, lines, charges, finals, shares, deviations)
}

// Writes an amount of cents into the whole field.
#[unsafe(no_mangle)]
pub extern "C" fn sneupelaar_write(cents: i64, field: &mut [u8]) -> NumberedAnswer
    ensures { written result field.new ≡ Settling.write field.old cents }
{
    sneupelaar::sneupelaar_write(cents, field)
}

// Reads the amount that stands in the whole field.
#[unsafe(no_mangle)]
pub extern "C" fn sneupelaar_read(field: &[u8]) -> NumberedReading
    ensures { read_amount result ≡ Settling.read field.now }
{
    sneupelaar::sneupelaar_read(field)
}

// The block reader: which bytes of the file are the body of a block.
#[unsafe(no_mangle)]
pub extern "C" fn sneupelaar_body(file: &[u8], block: usize) -> Part
    ensures part { result ≡ body_part file.now block }
    ensures bytes { take result.length (drop result.from file.now) ≡ body hourly file.now block }
{
    sneupelaar::sneupelaar_body(file, block)
}
