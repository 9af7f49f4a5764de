// Reads four bytes of member number and an hour file from standard input and prints why the member's charge is what it is.
#![tactic(auto)]

ghost use Rattle.std.specs.Prelude.{IfSome, OnOk};
ghost use Rattle.std.specs.Io.KnownBytes.{Appends};
ghost use Rattle.rules.specs.Explanation.{explanation};
ghost use Rattle.rules.proofs.Worded.{cut_input_same};

use report::explanation::{LONGEST, put_explanation};
use std::io::{Read, Write};
use streams::{Text, Trouble};

// One byte more than a member number and the longest file have, so that a longer input is seen.
const ROOM: usize = 13317;

struct Explanation;

impl Text<ROOM, LONGEST> for Explanation {
    ghost text = { explanation };

    fn put(input: &[u8], room: &mut [u8]) -> usize {
        put_explanation(input, room)
    }

    ghost of_first = { cut_input_same };
}

fn explain<R: Read, W: Write>(input: &mut R, output: &mut W) -> Result<(), Trouble>
    ensures { OnOk result (IfSome (R.remaining input.old) (λ xs. Appends (W.contents output.old) (W.contents output.new) (explanation xs))) }
{
    Explanation::print_all(input, output)
}

fn main(rt: HostRuntime) {
    let done = explain(&mut rt.stdin(), &mut rt.stdout());
    streams::tell(&rt, done);
}
