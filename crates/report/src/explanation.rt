// What the program explanation prints of its input (document 02, A5): why a member's charge is what it is, as bytes in the caller's slice, of
// every byte string, and whole or not at all.
ghost use Rattle.std.specs.Prelude.{◌≡◌};
ghost use Rattle.rules.specs.Explanation as Explanation;
ghost use Rattle.printing.specs.Page.{Adds, HasRoom};
ghost use Rattle.report.specs.Worded.{explained};

use printing::page::Page;
use rules::{Explained, Refusal};

// The most bytes that the explanation of any byte string has: six lines of five numbers of 64 bits (`explanation_fits` of `rules`).
pub const LONGEST: usize = 165;

fn put_explained(page: &mut Page, explained: Result<Explained, Refusal>)
    requires { HasRoom page.old 165 }
    ensures { Adds page.old page.new 165 (Explanation.worded (Explanation.explanation_of explained)) }
{
    match explained {
        Ok(told) => printing::explanation::put_six_lines(page, told.heads, told.decided),
        Err(refusal) => printing::put_refused(page, refusal),
    }
}

// The explanation that the input asks for, four bytes of member number and an hour file.
fn put_asked(page: &mut Page, input: &[u8])
    requires { HasRoom page.old 165 }
    ensures { Adds page.old page.new 165 (Explanation.explanation input.now) }
{
    if input.len() < 4 {
        return printing::put_refused(page, Refusal::BadLength);
    }
    let member = blocks::whole_word(input, 0);
    let explained = explain::explain(&input[4..], member);
    put_explained(page, explained);
}

// Puts the explanation that the input asks for at the start of `out`, and hands back how many bytes it has. Where `out` is shorter than the
// longest explanation nothing is put, and the answer is 0.
pub fn put_explanation(input: &[u8], out: &mut [u8]) -> usize
    ensures count { result ≡ (explained input.now out.old).count }
    ensures out { out.new ≡ (explained input.now out.old).out }
{
    if out.len() < LONGEST {
        return 0;
    }
    let mut page = Page::new(out);
    put_asked(&mut page, input);
    page.at
}
