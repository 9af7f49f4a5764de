// What the program write_hour makes of its input (document 02, A2): a head and records as raw words, little-endian, become an hour file, or
// the line of a refusal, as bytes in the caller's slice: of every byte string, and whole or not at all.
ghost use Rattle.std.specs.Prelude.{◌≡◌, false, ◌*◌, ◌/◌, ◌≤◌, length};
ghost use Rattle.whole.specs.Below.{values_below};
ghost use Rattle.rules.specs.HourFile as HourFile;
ghost use Rattle.rules.specs.RawHour as RawHour;
ghost use Rattle.rules.specs.Refusals.{refusal_verdict};
ghost use Rattle.rules.specs.Statement.{refused_line};
ghost use Rattle.printing.specs.Put.{Put};
ghost use Rattle.report.specs.Filing.{input_bad, filing, words_written};

use printing::page::Page;
use rules::Refusal;

// The most bytes that are put: a file of 26 blocks.
pub const LONGEST: usize = 13312;

// Whether so many bytes are no whole words, fewer than a head's, or more than a head's and 250 records'.
#[tactic(auto, unfolding(crate::specs::Filing::input_bad))]
fn input_bad(bytes: usize) -> bool
    ensures { result ≡ input_bad bytes }
{
    bytes % 4 != 0 || bytes < 480 || 12480 < bytes
}

// The first words of the input, as many as `words` has places.
fn put_words(input: &[u8], words: &mut [u32])
    requires { 4 * length words.old ≤ length input.now }
    ensures { words.new ≡ values_below (HourFile.word input.now) (length words.old) }
{
    for (k, word) in words.iter_mut().enumerate() {
        *word = blocks::whole_word(input, k);
    }
}

// The line of a refusal alone.
fn put_refusal(refusal: Refusal, out: &mut [u8]) -> usize
    requires { 53 ≤ length out.old }
    ensures { Put out.old 0 (refused_line (refusal_verdict refusal)) result out.new }
{
    let mut page = Page::new(out);
    printing::put_refused(&mut page, refusal);
    page.at
}

// The file of a head, the first 120 words, and records, the others; or the line of the refusal.
fn put_hour(words: &[u32], out: &mut [u8]) -> usize
    requires { (120 ≤ length words.now) × (13312 ≤ length out.old) }
    ensures { Put out.old 0 (words_written words.now) result out.new }
{
    match writer::write_hour(&words[..120], &words[120..], out) {
        Ok(length) => length,
        Err(refusal) => put_refusal(refusal, out),
    }
}

// The same of the input's words, for which as many places are lent.
fn put_input(input: &[u8], words: &mut [u32], out: &mut [u8]) -> usize
    requires { (input_bad (length input.now) ≡ false) × (length words.old ≡ length input.now / 4) × (13312 ≤ length out.old) }
    ensures { Put out.old 0 (RawHour.raw_written input.now) result out.new }
{
    put_words(input, words);
    put_hour(words, out)
}

// Puts the hour file of the input, or the line of its refusal, at the start of `out`, and hands back how many bytes it has. Where `out` is
// shorter than the longest file nothing is put, and the answer is 0.
pub fn put_written_hour(input: &[u8], out: &mut [u8]) -> usize
    ensures count { result ≡ (filing input.now out.old).count }
    ensures out { out.new ≡ (filing input.now out.old).out }
{
    if out.len() < LONGEST {
        return 0;
    }
    if input_bad(input.len()) {
        return put_refusal(Refusal::BadLength, out);
    }
    let mut words = [0u32; 3120];
    let n = input.len() / 4;
    put_input(input, &mut words[..n], out)
}
