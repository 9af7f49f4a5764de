// What the programs read and print with, at any reader and any writer. What fails is said on standard error, and the exit status stays 0.
#![tactic(auto)]

ghost use Rattle.std.specs.Prelude.{◌≡◌, ◌<◌, ◌≤◌, ◌^◌, List, ℕ, IfOk, IfErr, OnOk, IfSome, length, take};
ghost use Rattle.std.specs.Fmt.{signed_decimal};
ghost use Rattle.std.specs.Io.{ReadsAtMost};
ghost use Rattle.std.specs.Io.KnownBytes.{Appends, Consumes, IsAtEnd};
ghost use Rattle.streams.specs.Failed.{OfInput, OfOutput};
ghost use Rattle.streams.specs.Texts.{Puts, IsOfFirst};

use std::io;
use std::io::{Read, Write};

// Which of a program's two streams failed, and why.
#[derive(Clone, Copy, Debug)]
pub enum Trouble {
    Input(io::Error),
    Output(io::Error),
}

// Reads what is left until it ends, which a read of no bytes tells, or `room` is full, and answers how many bytes it put at the start of
// `room`.
pub fn read_all<R: Read>(input: &mut R, room: &mut [u8]) -> Result<usize, Trouble>
    ensures bound { ReadsAtMost result room.new }
    ensures bytes { IfOk result (λ n. Consumes (R.remaining input.old) (R.remaining input.new) (take n room.new)) }
    ensures whole { IfOk result (λ n. n < length room.new → IsAtEnd (R.remaining input.new)) }
    ensures first { IfOk result (λ n. IfSome (R.remaining input.old) (λ xs. take n room.new ≡ take (length room.new) xs)) }
    ensures failed { IfErr result OfInput }
{
    // Stays a while: a `for` cannot say how far it has come, since each read adds as many bytes as it gave.
    let mut length = 0;
    while length < room.len() {
        let more = input.read(&mut room[length..]).map_err(Trouble::Input)?;
        if more == 0 {
            return Ok(length);
        }
        length += more;
    }
    Ok(length)
}

pub fn print<W: Write>(output: &mut W, text: &[u8]) -> Result<(), Trouble>
    ensures bytes { OnOk result (Appends (W.contents output.old) (W.contents output.new) text.now) }
    ensures failed { IfErr result OfOutput }
{
    output.write_all(text).map_err(Trouble::Output)
}

// A number whole, with its minus.
pub fn print_signed<W: Write>(output: &mut W, number: i64) -> Result<(), Trouble>
    ensures bytes { OnOk result (Appends (W.contents output.old) (W.contents output.new) (signed_decimal number)) }
    ensures failed { IfErr result OfOutput }
{
    write!(output, "{number}").map_err(Trouble::Output)
}

// What a program prints of the bytes that it reads: at most `LONGEST` bytes, of the first `ROOM` that come.
pub trait Text<const ROOM: usize, const LONGEST: usize> {
    ghost text: { List ℕ → List ℕ };

    // Puts the text at the start of `room`, and answers how many bytes it has.
    fn put(input: &[u8], room: &mut [u8]) -> usize
        requires { LONGEST ≤ length room.old }
        ensures { Puts (text input.now) result room.new };

    ghost of_first: { IsOfFirst ROOM text };

    // Prints the text of what comes, up to as many bytes as there is room.
    final fn print_read<R: Read, W: Write>(
        input: &mut R,
        output: &mut W,
        room: &mut [u8],
    ) -> Result<(), Trouble>
        requires { LONGEST < 2 ^ 63 }
        ensures { OnOk result (IfSome (R.remaining input.old) (λ xs. Appends (W.contents output.old) (W.contents output.new) (text (take (length room.old) xs)))) }
    {
        let length = read_all(input, room)?;
        let mut text = [0u8; LONGEST];
        let count = Self::put(&room[..length], &mut text);
        print(output, &text[..count])
    }

    // Prints the text of all that comes.
    final fn print_all<R: Read, W: Write>(input: &mut R, output: &mut W) -> Result<(), Trouble>
        requires { (ROOM < 2 ^ 63) × (LONGEST < 2 ^ 63) }
        ensures { OnOk result (IfSome (R.remaining input.old) (λ xs. Appends (W.contents output.old) (W.contents output.new) (text xs))) }
    {
        let mut room = [0u8; ROOM];
        Self::print_read(input, output, &mut room)
    }
}

// Says what failed, as far as it can be said.
pub fn tell<R: Eprint + Alloc>(rt: &R, done: Result<(), Trouble>) {
    let said = match done {
        Ok(()) => Ok(()),
        Err(Trouble::Input(why)) => say(rt, "standard input", why),
        Err(Trouble::Output(why)) => say(rt, "standard output", why),
    };
    let _ = said;
}

// A line: the stream and the system's words; with the error's number behind them where there is no memory to leave it out.
fn say<R: Eprint + Alloc>(rt: &R, stream: &str, why: io::Error) -> io::Result<()> {
    let Ok(text) = format!(in rt.alloc(); "{why}") else {
        return eprintln!(rt; "{stream}: {why}");
    };
    let words = without_number(text.as_str());
    eprintln!(rt; "{stream}: {words}")
}

// What stands before an error's number, as std shows it behind the system's words.
fn without_number(text: &str) -> &str {
    match text.split_once(" (os error ") {
        Some((words, _)) => words,
        None => text,
    }
}
