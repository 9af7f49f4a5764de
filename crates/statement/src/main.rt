// Reads an hour file from standard input and prints its statement. With an argument, whatever it says, it reads hours one behind the
// other, each with its length in front, and prints a statement for each.
#![tactic(auto)]

ghost use Rattle.std.specs.Prelude.{IfSome, OnOk};
ghost use Rattle.std.specs.Io.KnownBytes.{Appends};
ghost use Rattle.rules.specs.Statement.{statement};
ghost use Rattle.rules.proofs.Stated.{cut_input_same};

use report::statement::{LONGEST, put_statement};
use std::env::FillError;
use std::io::{Read, Write};
use std::rt::Env;
use streams::{Text, Trouble};

// One byte more than the longest file has, so that a longer input is seen.
const ROOM: usize = 13313;

struct Statement;

impl Text<ROOM, LONGEST> for Statement {
    ghost text = { statement };

    fn put(file: &[u8], room: &mut [u8]) -> usize {
        put_statement(file, room)
    }

    ghost of_first = { cut_input_same };
}

// All that comes is one hour.
fn print_one<R: Read, W: Write>(input: &mut R, output: &mut W) -> Result<(), Trouble>
    ensures { OnOk result (IfSome (R.remaining input.old) (λ xs. Appends (W.contents output.old) (W.contents output.new) (statement xs))) }
{
    Statement::print_all(input, output)
}

// The next hour behind its length, a word. False where nothing comes any more, or the length is more than there is room for: then as much
// is read as fits, which is too long for an hour, and nothing behind it.
fn print_next<R: Read, W: Write>(
    input: &mut R,
    output: &mut W,
    room: &mut [u8],
) -> Result<bool, Trouble> {
    let mut front = [0u8; 4];
    if streams::read_all(input, &mut front)? == 0 {
        return Ok(false);
    }
    let length = blocks::word(&front, 0) as usize;
    if length > room.len() {
        Statement::print_read(input, output, room)?;
        return Ok(false);
    }
    Statement::print_read(input, output, &mut room[..length])?;
    Ok(true)
}

// A proved loop has to end, and nothing says that the input does. So it counts up to a number that no run reaches.
fn print_each<R: Read, W: Write>(input: &mut R, output: &mut W) -> Result<(), Trouble> {
    let mut room = [0u8; ROOM];
    for _ in 0..u64::MAX {
        if !print_next(input, output, &mut room)? {
            break;
        }
    }
    Ok(())
}

// Whether the program has an argument: it is there, or too long for no room.
fn is_argued(rt: &impl Env) -> bool {
    !matches!(rt.arg(1, &mut []), Err(FillError::NotPresent))
}

fn main(rt: HostRuntime) {
    let mut input = rt.stdin();
    let mut output = rt.stdout();
    let done = if is_argued(&rt) {
        print_each(&mut input, &mut output)
    } else {
        print_one(&mut input, &mut output)
    };
    streams::tell(&rt, done);
}
