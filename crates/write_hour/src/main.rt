// Reads a head and records as raw words from standard input and prints the hour file that says them, or the line of a refusal.
#![tactic(auto)]

ghost use Rattle.std.specs.Prelude.{IfSome, OnOk};
ghost use Rattle.std.specs.Io.KnownBytes.{Appends};
ghost use Rattle.rules.specs.RawHour.{raw_written};
ghost use Rattle.rules.proofs.Raw.{cut_input_same};

use report::written::{LONGEST, put_written_hour};
use std::io::{Read, Write};
use streams::{Text, Trouble};

// One byte more than a head and 250 records have, so that a longer input is seen.
const ROOM: usize = 12481;

struct Written;

impl Text<ROOM, LONGEST> for Written {
    ghost text = { raw_written };

    fn put(input: &[u8], room: &mut [u8]) -> usize {
        put_written_hour(input, room)
    }

    ghost of_first = { cut_input_same };
}

fn write<R: Read, W: Write>(input: &mut R, output: &mut W) -> Result<(), Trouble>
    ensures { OnOk result (IfSome (R.remaining input.old) (λ xs. Appends (W.contents output.old) (W.contents output.new) (raw_written xs))) }
{
    Written::print_all(input, output)
}

fn main(rt: HostRuntime) {
    let done = write(&mut rt.stdin(), &mut rt.stdout());
    streams::tell(&rt, done);
}
