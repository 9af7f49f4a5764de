// Writing hour files for programs in C (include/sneupelaar.h): the answer goes out as its number and place. It stands here and not in
// `sneupelaar`: what is called from two functions of one archive is compiled as a function apart, and reader and writer search by the same
// functions. In one archive settling the worst hour would take 4,485 instructions more, and writing an hour 2,665.
ghost use Rattle.std.specs.Prelude.{◌≡◌};
ghost use Rattle.rules.specs.Settling as Settling;
ghost use Rattle.rules.specs.Promised.Writing.{AreWords};
ghost use Rattle.writer.specs.HandedOut.{hour_written};

#[repr(C)]
#[derive(Drop)]
pub struct NumberedFiled {
    pub number: u64,
    pub place: u64,
    pub length: usize,
}

// Writes the hour file of a head and records at the start of the buffer.
pub fn sneupelaar_write_hour(head: &[u32], records: &[u32], file: &mut [u8]) -> NumberedFiled
    ensures file { hour_written result file.new
        ≡ Settling.write_hour head.now records.now file.old }
    ensures words { AreWords head.now × AreWords records.now }
{
    match crate::write_hour(head, records, file) {
        Ok(length) => NumberedFiled {
            number: 0,
            place: 0,
            length,
        },
        Err(refusal) => NumberedFiled {
            number: refusal.number(),
            place: refusal.place() as u64,
            length: 0,
        },
    }
}
