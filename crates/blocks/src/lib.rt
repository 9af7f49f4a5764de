// Files of blocks, in any layout whose records fit into a body: the words of a part, the block reader, the sums of the blocks and their
// layout (refusals 1 to 3), and the part of a body that is a record. Any byte string and any position is taken; where a part has no such
// word, the word is 0. Only `whole_word`, `block`, `whole_body` and `record` ask that what they hand out is there, and test nothing: in a
// file that was accepted it is, and the sums read thousands of words. A layout comes as a value: where the caller names it, the compiler
// folds its numbers in.
// Layout and file stay two arguments: callers hold the file alone and name the layout at one call each, so a struct of both would be made
// anew for every call.
#![tactic(auto)]

ghost use Rattle.std.specs.Prelude.{◌≡◌, ◌+◌, ◌*◌, ◌<◌, ◌≤◌, length, take, drop, slice_index};
ghost use Rattle.rules.specs.Record as Record;
ghost use Rattle.rules.specs.declared.Layout as LayoutOf;
ghost use Rattle.rules.specs.HourFile as HourFile;
ghost use Rattle.rules.specs.Inner.Layouts.{FitsBody};
ghost use Rattle.rules.specs.Refusals as Refusals;
ghost use Rattle.blocks.specs.Part.{record_part, RecordThere};
ghost use Rattle.blocks.specs.Broken.{broken_below};

use rules::Layout;

// ---- words

// Byte `i` of a part; 0 past its end.
fn byte(part: &[u8], i: usize) -> u8
    ensures { result ≡ slice_index part.now i }
{
    part.get(i).copied().unwrap_or(0)
}

// Word `k` where all its bytes are there: one load.
pub fn whole_word(part: &[u8], k: usize) -> u32
    requires { 4 * k + 3 < length part.now }
    ensures { result ≡ HourFile.word part.now k }
{
    let at = 4 * k;
    u32::from_le_bytes([part[at], part[at + 1], part[at + 2], part[at + 3]])
}

// Word `k` where the part ends in it.
fn cut_word(part: &[u8], k: usize) -> u32
    requires { 4 * k ≤ length part.now }
    ensures { result ≡ HourFile.word part.now k }
{
    let at = 4 * k;
    u32::from_le_bytes([
        byte(part, at),
        byte(part, at + 1),
        byte(part, at + 2),
        byte(part, at + 3),
    ])
}

// Word `k` of a part, little-endian; bytes past the end are 0.
pub fn word(part: &[u8], k: usize) -> u32
    ensures { result ≡ HourFile.word part.now k }
{
    let whole = part.len() / 4;
    if k < whole {
        whole_word(part, k)
    } else if k == whole {
        cut_word(part, k)
    } else {
        0
    }
}

// A word in two's complement.
pub fn signed(w: u32) -> i64
    ensures { result ≡ Record.signed w }
{
    i64::from(w.cast_signed())
}

// ---- blocks and bodies

// Refusal 1: whether the length is not that of whole blocks, at least one and at most so many.
pub fn length_bad(layout: Layout, file: &[u8]) -> bool
    ensures { result ≡ HourFile.length_bad layout file.now }
{
    let n = file.len();
    n == 0 || n % 512 != 0 || layout.blocks < n / 512
}

// How many blocks a file has.
pub fn count(file: &[u8]) -> usize
    ensures { result ≡ HourFile.blocks file.now }
{
    file.len() / 512
}

// Block `b`, a part of the file itself.
fn block(file: &[u8], b: usize) -> &[u8]
    requires { 512 * b + 512 ≤ length file.now }
    ensures { result.now ≡ take 512 (drop (512 * b) file.now) }
{
    &file[512 * b..512 * b + 512]
}

// The body of block `b`: the 480 bytes behind the block's own words.
fn whole_body(file: &[u8], b: usize) -> &[u8]
    requires { 512 * b + 512 ≤ length file.now }
    ensures { result.now ≡ take 480 (drop (512 * b + 32) file.now) }
{
    &file[512 * b + 32..512 * b + 512]
}

// The block reader: the body of block `b`, a part of the file itself, or an empty part.
pub fn body(layout: Layout, file: &[u8], b: usize) -> &[u8]
    ensures { result.now ≡ HourFile.body layout file.now b }
{
    if length_bad(layout, file) || count(file) <= b {
        return &[];
    }
    whole_body(file, b)
}

// Word `w` of block `b`.
fn block_word(file: &[u8], b: usize, w: usize) -> u32
    ensures { result ≡ HourFile.block_word file.now b w }
{
    if count(file) < b || file.len() <= w {
        return 0;
    }
    word(file, 128 * b + w)
}

// Word `w` of the head: words 8 to 127 of the first block, whatever the layout.
pub fn head_word(file: &[u8], w: usize) -> u32
    ensures { (l : LayoutOf.Layout) → result ≡ (HourFile.hour_of l file.now).head w }
{
    if (8..128).contains(&w) {
        block_word(file, 0, w)
    } else {
        0
    }
}

// ---- refusal 2: the sums of the blocks

// The sum of the 128 words of block `b`, modulo 2^32.
fn block_sum(file: &[u8], b: usize) -> u32
    requires { 512 * b + 512 ≤ length file.now }
    ensures { result ≡ HourFile.block_sum file.now b }
{
    let words = block(file, b);
    (0..128).fold(0u32, |sum, w| sum.wrapping_add(word(words, w)))
}

// The first block whose sum isn't zero.
pub fn bad_sum(file: &[u8]) -> Option<usize>
    ensures { result ≡ Refusals.bad_sum file.now }
{
    (0..count(file)).find(|&b| block_sum(file, b) != 0)
}

// ---- refusal 3: the layout of the blocks

// Whether block `b` of `n` breaks the layout. The body of the first block is for refusal 4; of another block it is zero past the records.
fn block_bad(layout: Layout, block: &[u8], n: u32, b: u32) -> bool
    requires { FitsBody layout }
    ensures { result ≡ broken_below layout 128 n (HourFile.word block.now 2) b block.now }
{
    let held = word(block, 2);
    let past = 8 + layout.words * held as usize;
    let front_bad = (0..7).any(|w| {
        let rule = wordrules::block_rule(layout, n, held, b, w);
        !wordrules::keeps(rule, word(block, w))
    });
    front_bad || b != 0 && (past..128).any(|w| word(block, w) != 0)
}

// The first block that breaks the layout.
pub fn bad_block(layout: Layout, file: &[u8]) -> Option<usize>
    requires { FitsBody layout × (HourFile.blocks file.now < 0x1_0000_0000) }
    ensures { result ≡ Refusals.bad_block layout file.now }
{
    let n = count(file);
    (0..n).find(|&b| block_bad(layout, block(file, b), n as u32, b as u32))
}

// ---- records

// How many records a file says it holds, by the count of its last block.
pub fn records(layout: Layout, file: &[u8]) -> usize
    requires { FitsBody layout }
    ensures { result ≡ HourFile.record_count layout file.now }
{
    let n = count(file);
    if n <= 1 {
        return 0;
    }
    layout.records * (n - 2) + block_word(file, n - 1, 2) as usize
}

// Record `i`, a part of its block's body. Whoever reads several words of a record takes this part once.
pub fn record(layout: Layout, file: &[u8], i: usize) -> &[u8]
    requires { FitsBody layout × RecordThere layout file.now i }
    ensures { result.now ≡ record_part layout file.now i }
{
    let full = layout.records;
    let size = 4 * layout.words;
    let own = whole_body(file, 1 + i / full);
    let from = size * (i % full);
    &own[from..from + size]
}
