// A record of an hour file, read from its part of the file without a test: a word costs one load.
ghost use Rattle.std.specs.Prelude.{◌≡◌, length};
ghost use Rattle.rules.specs.Record.{kind_of, actual, entry};
ghost use Rattle.rules.specs.HourFile.{word};
ghost use Rattle.rules.specs.Inner.Posting.{demand_by};
ghost use Rattle.formula.specs.Meant.{meant};

use formula::entry::Entry;
use rules::Kind;

// A record's part of the file, twelve words.
#[derive(Clone, Copy)]
pub struct Record<'a> {
    pub words: &'a [u8],
    pub ghost is_whole: { length words.now ≡ 48 },
}

// A: what was metered; an import's is deemed to be S. Both are handed over, so that the compiler chooses between two words that it has read
// and not between two places to read from.
fn actual(kind: Kind, scheduled: u32, metered: u32) -> u32
    ensures { result ≡ actual kind scheduled metered }
{
    if let Kind::Import = kind {
        return scheduled;
    }
    metered
}

impl<'a> Record<'a> {
    pub fn kind(&self) -> Kind
        ensures { result ≡ kind_of (word self.now.words.now 0) }
    {
        Kind::from(blocks::whole_word(self.words, 0))
    }

    pub fn member(&self) -> usize
        ensures { result ≡ word self.now.words.now 1 }
    {
        blocks::whole_word(self.words, 1) as usize
    }

    pub fn area(&self) -> usize
        ensures { result ≡ word self.now.words.now 2 }
    {
        blocks::whole_word(self.words, 2) as usize
    }

    // Its numbers under document 01's letters.
    pub fn entry(&self) -> Entry
        ensures { meant result ≡ entry (word self.now.words.now) }
    {
        let kind = self.kind();
        let scheduled = blocks::whole_word(self.words, 3);
        Entry {
            kind,
            s: i64::from(scheduled),
            a: i64::from(actual(kind, scheduled, blocks::whole_word(self.words, 4))),
            j: blocks::signed(blocks::whole_word(self.words, 5)),
            n: i64::from(blocks::whole_word(self.words, 6)),
            o: i64::from(blocks::whole_word(self.words, 7)),
            m: i64::from(blocks::whole_word(self.words, 8)),
            f: i64::from(blocks::whole_word(self.words, 9)),
            h: i64::from(blocks::whole_word(self.words, 10)),
        }
    }

    // What it demands of its area's UFE: only a load demands.
    pub fn demand(&self) -> u32
        ensures { result ≡ demand_by (entry (word self.now.words.now)) }
    {
        if self.kind().is_load() {
            return blocks::whole_word(self.words, 4);
        }
        0
    }
}
