// Hour files written from a head and records (document 02, A2): the writer beside the reader. The first block has the head, every other the
// words of ten records or, in the last, of those that are left; each is written whole, at its place in the caller's buffer. The numbers
// are those of the hourly layout: blocks of 512 bytes, at most 26, marked 1 and 2, with 120 words of body; twelve words to a record.
#![tactic(auto)]

ghost use Rattle.std.specs.Prelude.{◌≡◌, ◌+◌, ◌*◌, ◌<◌, ◌≤◌, length};
ghost use Rattle.whole.specs.Below.{replacing_first};
ghost use Rattle.rules.specs.HourFile.{hourly};
ghost use Rattle.rules.specs.HourWords as HourWords;
ghost use Rattle.rules.specs.Refusals as Refusals;
ghost use Rattle.rules.specs.Settling as Settling;
ghost use Rattle.rules.specs.Promised.Writing.{AreWords};
ghost use Rattle.writer.specs.Lists.{hour_of_lists};
ghost use Rattle.writer.specs.Stored.{block_bytes, block_placed};

mod block;
pub mod boundary;
mod lists;

use lists::Lists;
use rules::Refusal;

// Block `b` at its place in the file.
fn put_at(file: &mut [u8], b: usize, mark: u32, count: u32, body: &[u32])
    requires { (512 * b + 512 ≤ length file.old) × (b < 26) × (length body.now ≤ 120) }
    ensures { file.new ≡ block_placed b (block_bytes mark b count body.now) file.old }
{
    block::put_block(
        &mut file[512 * b..512 * b + 512],
        mark,
        b as u32,
        count,
        body,
    )
}

// The whole file at the start of the buffer; its length is handed back.
fn put_file(lists: &Lists, file: &mut [u8]) -> usize
    requires { HourWords.file_length hourly (hour_of_lists lists.now.head.now lists.now.records.now) ≤ length file.old }
    ensures length { result
        ≡ HourWords.file_length hourly (hour_of_lists lists.now.head.now lists.now.records.now) }
    ensures file { file.new
        ≡ replacing_first (HourWords.file_byte hourly (hour_of_lists lists.now.head.now lists.now.records.now))
        (HourWords.file_length hourly (hour_of_lists lists.now.head.now lists.now.records.now)) file.old }
{
    let Lists { head, records } = *lists;
    let blocks = lists.blocks();
    put_at(file, 0, 1, (blocks - 1) as u32, head);
    for (i, held) in records.chunks(120).enumerate() {
        put_at(file, 1 + i, 2, (held.len() / 12) as u32, held);
    }
    512 * blocks
}

// Writes the hour file of a head and records at the start of `file`; its length is handed back.
pub fn write_hour(head: &[u32], records: &[u32], file: &mut [u8]) -> Result<usize, Refusal>
    ensures verdict { Refusals.verdict_of result
        ≡ (Settling.write_hour head.now records.now file.old).verdict }
    ensures length { Settling.length_of result
        ≡ (Settling.write_hour head.now records.now file.old).length }
    ensures file { file.new ≡ (Settling.write_hour head.now records.now file.old).file }
    ensures words { AreWords head.now × AreWords records.now }
{
    let lists = Lists::new(head, records)?;
    lists.first_refusal(file.len())?;
    Ok(put_file(&lists, file))
}
