// The types that several crates share: kinds, refusals with their numbers and places, the layouts of files. The definitions of document 01 stand in specs/,
// the theorems about them in proofs/.
#![tactic(auto)]

ghost use Rattle.std.specs.Prelude.{◌≡◌};
ghost use Rattle.rules.specs.HourFile as HourFile;
ghost use Rattle.rules.specs.Record.{kind_of, is_load};
ghost use Rattle.rules.specs.Refusals.{refusal_verdict};

// What a record is about (document 01, "The hour file", record words). A number that names none of the five is Unknown; row 5 refuses it.
#[derive(Clone, Copy, Debug, PartialEq, Eq)]
pub enum Kind {
    Generator,
    RealTimeLoad,
    ProfileLoad,
    Import,
    Export,
    Unknown,
}

// A member's line: its exact amount in grains and its record count. It is laid out as in C, for callers that lend lines from there.
#[repr(C)]
#[derive(Clone, Copy, Debug, PartialEq, Eq)]
pub struct Line {
    pub amount: i64,
    pub records: u32,
}

// The hour's tally: the records seen, and each area's demand and energy.
#[derive(Clone, Copy, Debug, PartialEq, Eq)]
pub struct Tally {
    pub records: u32,
    pub demand: [u32; 8],
    pub energy: [i64; 8],
}

// What a word may be: anything, from the first to the second, below, or in two's complement at most so large.
#[derive(Clone, Copy, Debug, PartialEq, Eq)]
pub enum Rule {
    Any,
    Between(u32, u32),
    LessThan(u32),
    AtMostInSize(u32),
}

// What one kind of file lays down: word 0 of the first and of every other block, the most blocks, records to a block, words to a record.
#[derive(Clone, Copy, Debug, PartialEq, Eq)]
pub struct Layout {
    pub first: u32,
    pub other: u32,
    pub blocks: usize,
    pub records: usize,
    pub words: usize,
}

// What explaining a member's charge answers: its exact amount under the five heads, in grains, and which head decided, by its place among
// them.
#[derive(Clone, Copy, Debug, PartialEq, Eq)]
pub struct Explained {
    pub heads: [i64; 5],
    pub decided: Option<usize>,
}

// ---- refusals

// Why an entry point refuses: a case for each row of the table of refusals, with its place where the row has one.
#[derive(Clone, Copy, Debug, PartialEq, Eq)]
pub enum Refusal {
    BadLength,
    BadSum(usize),
    BadBlock(usize),
    BadHead(usize),
    BadRecord(usize),
    BadArea(usize),
    BadAmount(usize),
    OutOfRange,
    TooNarrow,
    NotAnAmount,
    TooShort,
    NoDemand,
    NoMember,
    AboveMaximum(usize),
}

impl Refusal {
    // The row's number in the table of refusals.
    pub fn number(self) -> u64
        ensures { result ≡ (refusal_verdict self).number }
    {
        match self {
            Refusal::BadLength => 1,
            Refusal::BadSum(_) => 2,
            Refusal::BadBlock(_) => 3,
            Refusal::BadHead(_) => 4,
            Refusal::BadRecord(_) => 5,
            Refusal::BadArea(_) => 6,
            Refusal::BadAmount(_) => 7,
            Refusal::OutOfRange => 8,
            Refusal::TooNarrow => 9,
            Refusal::NotAnAmount => 10,
            Refusal::TooShort => 11,
            Refusal::NoDemand => 12,
            Refusal::NoMember => 13,
            Refusal::AboveMaximum(_) => 14,
        }
    }

    // 0 where the row has no other place.
    pub fn place(self) -> usize
        ensures { result ≡ (refusal_verdict self).place }
    {
        match self {
            Refusal::BadSum(block) | Refusal::BadBlock(block) => block,
            Refusal::BadHead(word) => word,
            Refusal::BadRecord(record) | Refusal::AboveMaximum(record) => record,
            Refusal::BadArea(area) => area,
            Refusal::BadAmount(member) => member,
            _ => 0,
        }
    }
}

// ---- kinds

// A record's word 0 as a kind; Unknown where it names none of the five.
impl From<u32> for Kind {
    ghost from_gives = { λ word kind. kind ≡ kind_of word };

    fn from(word: u32) -> Self {
        match word {
            1 => Kind::Generator,
            2 => Kind::RealTimeLoad,
            3 => Kind::ProfileLoad,
            4 => Kind::Import,
            5 => Kind::Export,
            _ => Kind::Unknown,
        }
    }
}

impl Kind {
    // Both kinds of load.
    pub fn is_load(self) -> bool
        ensures { result ≡ is_load self }
    {
        matches!(self, Kind::RealTimeLoad | Kind::ProfileLoad)
    }
}

// ---- layouts

// The first release's hour file.
pub fn hourly() -> Layout
    ensures { result ≡ HourFile.hourly }
{
    Layout {
        first: 1,
        other: 2,
        blocks: 26,
        records: 10,
        words: 12,
    }
}

// The file of ten-minute settlement.
pub fn ten_minutes() -> Layout
    ensures { result ≡ HourFile.ten_minutes }
{
    Layout {
        first: 3,
        other: 4,
        blocks: 17,
        records: 4,
        words: 30,
    }
}
