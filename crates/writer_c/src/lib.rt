// What programs in C link of `writer` (include/sneupelaar.h), with the clauses of the function it calls. The archive stands apart from the one
// with settling: reader and writer search by the same functions.
#![tactic(auto)]

ghost use Rattle.std.specs.Prelude.{◌≡◌};
ghost use Rattle.rules.specs.Settling as Settling;
ghost use Rattle.rules.specs.Promised.Writing.{AreWords};
ghost use Rattle.writer.specs.HandedOut.{hour_written};

use writer::boundary::NumberedFiled;

// Writes the hour file of a head and records at the start of the buffer.
#[unsafe(no_mangle)]
pub extern "C" fn sneupelaar_write_hour(
    head: &[u32],
    records: &[u32],
    file: &mut [u8],
) -> NumberedFiled
    ensures file { hour_written result file.new
        ≡ Settling.write_hour head.now records.now file.old }
    ensures words { AreWords head.now × AreWords records.now }
{
    writer::boundary::sneupelaar_write_hour(head, records, file)
}
