// One block of a file, written into its 512 bytes: its front, the words of its body, zeros past them. Word 7 stands before the body, so the
// sum is taken first, over the words that are lent: then the bytes are stored once, in their order, and none is read.
ghost use Rattle.std.specs.Prelude.{◌≡◌, ◌+◌, ◌*◌, ◌%◌, ◌≤◌, length, slice_index};
ghost use Rattle.whole.specs.Below.{sum_below};
ghost use Rattle.rules.specs.HourWords as HourWords;
ghost use Rattle.writer.specs.Stored.{word_stored, words_stored, open_list, block_bytes};

// ---- words into bytes

// Four bytes, the lowest first, which the compiler stores as one.
fn put_word(block: &mut [u8], k: usize, v: u32)
    requires { 4 * k + 4 ≤ length block.old }
    ensures { block.new ≡ word_stored block.old k v }
{
    block[4 * k..4 * k + 4].copy_from_slice(&v.to_le_bytes());
}

// Words from word `from` on.
fn put_words(block: &mut [u8], from: usize, words: &[u32])
    requires { 4 * (from + length words.now) ≤ length block.old }
    ensures { block.new
        ≡ words_stored (λ k. slice_index words.now k) from (length words.now) block.old }
{
    for (k, word) in words.iter().enumerate() {
        put_word(block, from + k, *word);
    }
}

// ---- the word that makes the sum zero

// The sum of words, modulo 2^32.
fn sum_of(words: &[u32]) -> u32
    ensures { result ≡ sum_below (λ k. slice_index words.now k) (length words.now) % 0x1_0000_0000 }
{
    words.iter().fold(0u32, |sum, word| sum.wrapping_add(*word))
}

// Word 7 of the block with these numbers in front and this body.
fn closing_word(mark: u32, position: u32, count: u32, body: &[u32]) -> u32
    requires { length body.now ≤ 120 }
    ensures { result ≡ HourWords.closing (sum_below (open_list mark position count body.now) 128) }
{
    let sum = sum_of(body)
        .wrapping_add(mark)
        .wrapping_add(position)
        .wrapping_add(count);
    sum.wrapping_neg()
}

// ---- the block

// All the bytes of a block.
pub fn put_block(block: &mut [u8], mark: u32, position: u32, count: u32, body: &[u32])
    requires { (length block.old ≡ 512) × (length body.now ≤ 120) }
    ensures { block.new ≡ block_bytes mark position count body.now }
{
    let closing = closing_word(mark, position, count, body);
    put_words(block, 0, &[mark, position, count, 0, 0, 0, 0, closing]);
    put_words(block, 8, body);
    block[32 + 4 * body.len()..].fill(0);
}
