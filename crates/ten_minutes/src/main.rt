// Reads a ten-minute file from standard input and prints its statement.
#![tactic(auto)]

ghost use Rattle.std.specs.Prelude.{IfSome, OnOk};
ghost use Rattle.std.specs.Io.KnownBytes.{Appends};
ghost use Rattle.rules.specs.Statement.{ten_minutes_statement};
ghost use Rattle.rules.proofs.TenMinutesSheet.{cut_sheet_same};

use report::ten_minutes::{LONGEST, put_ten_minutes_statement};
use std::io::{Read, Write};
use streams::{Text, Trouble};

// One byte more than the longest file has, so that a longer input is seen.
const ROOM: usize = 8705;

struct Statement;

impl Text<ROOM, LONGEST> for Statement {
    ghost text = { ten_minutes_statement };

    fn put(file: &[u8], room: &mut [u8]) -> usize {
        put_ten_minutes_statement(file, room)
    }

    ghost of_first = { cut_sheet_same };
}

fn settle<R: Read, W: Write>(input: &mut R, output: &mut W) -> Result<(), Trouble>
    ensures { OnOk result (IfSome (R.remaining input.old) (λ xs. Appends (W.contents output.old) (W.contents output.new) (ten_minutes_statement xs))) }
{
    Statement::print_all(input, output)
}

fn main(rt: HostRuntime) {
    let done = settle(&mut rt.stdin(), &mut rt.stdout());
    streams::tell(&rt, done);
}
