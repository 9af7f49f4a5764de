// An hour file: blocks in the hourly layout, and its numbers as the sums take them, each under its name. The layout is handed to `blocks`, so
// that the compiler folds its numbers in. Nothing is summed here, and nothing is refused: the file was examined before.
#![tactic(auto)]

ghost use Rattle.std.specs.Prelude.{◌≡◌, ◌<◌};
ghost use Rattle.rules.specs.Record as Records;
ghost use Rattle.rules.specs.HourFile as HourFile;
ghost use Rattle.rules.specs.HourFile.{hourly, hour_in};
ghost use Rattle.rules.specs.Inner.Posting.{demand_of};
ghost use Rattle.rules.specs.Inner.Kept.{FileKept};
ghost use Rattle.blocks.specs.Part.{record_part, RecordThere};
ghost use Rattle.formula.specs.Meant.{meant};
ghost use Rattle.hour.specs.Prices.{prices_of};
ghost use Rattle.hour.specs.Held.{held};

mod examined;
mod part;

pub use examined::Hour;
use formula::entry::Entry;
pub use part::Record;
use rules::Kind;

// ---- the hourly layout, handed to `blocks`

// The block reader: the 480 bytes of the body of block `b`, a part of the file itself, or an empty part.
pub fn body(file: &[u8], b: usize) -> &[u8]
    ensures { result.now ≡ HourFile.body hourly file.now b }
{
    blocks::body(rules::hourly(), file, b)
}

// Word `w` of the head.
pub fn head_word(file: &[u8], w: usize) -> u32
    ensures { result ≡ (hour_in file.now).head w }
{
    blocks::head_word(file, w)
}

// How many records the file says it holds, by the count of its last block.
pub fn records(file: &[u8]) -> usize
    ensures { result ≡ (hour_in file.now).count }
{
    blocks::records(rules::hourly(), file)
}

// Record `i`, a part of the file itself. Whoever reads several words of a record takes this part once.
pub fn record(file: &[u8], i: usize) -> &[u8]
    requires { RecordThere hourly file.now i }
    ensures { result.now ≡ record_part hourly file.now i }
{
    blocks::record(rules::hourly(), file, i)
}

// ---- an hour that keeps its ranges

// The zone price of an area, in cents per MWh.
fn price(file: &[u8], a: usize) -> i64
    requires { FileKept file.now × (a < Records.areas (hour_in file.now)) }
    ensures { result ≡ Records.price (hour_in file.now) a }
{
    let zone = blocks::whole_word(file, 16 + 4 * a) as usize;
    blocks::signed(blocks::whole_word(file, 12 + zone))
}

// Eight prices, 0 past the areas.
fn prices(file: &[u8], areas: usize) -> [i64; 8]
    requires { FileKept file.now × (areas ≡ Records.areas (hour_in file.now)) }
    ensures { result ≡ prices_of (hour_in file.now) }
{
    let mut prices = [0i64; 8];
    for a in 0..areas {
        prices[a] = price(file, a);
    }
    prices
}

impl<'a> Hour<'a> {
    // The hour of a file that keeps its ranges.
    pub fn of(file: &'a [u8]) -> Hour<'a>
        requires { FileKept file.now }
        ensures { result.file.now ≡ file.now }
    {
        let areas = head_word(file, 11) as usize;
        Hour {
            file,
            members: head_word(file, 9) as usize,
            areas,
            records: records(file),
            prices: prices(file, areas),
        }
    }

    // Record `i`.
    pub fn record(&self, i: usize) -> Record<'a>
        requires { i < (held self.now).count }
        ensures { result.words.now ≡ record_part hourly self.now.file.now i }
    {
        Record {
            words: record(self.file, i),
        }
    }

    pub fn member_of(&self, i: usize) -> usize
        requires { i < (held self.now).count }
        ensures { result ≡ Records.member_of (held self.now) i }
    {
        self.record(i).member()
    }

    pub fn area_of(&self, i: usize) -> usize
        requires { i < (held self.now).count }
        ensures { result ≡ Records.area_of (held self.now) i }
    {
        self.record(i).area()
    }

    pub fn kind_of(&self, i: usize) -> Kind
        requires { i < (held self.now).count }
        ensures { result ≡ (Records.entry_of (held self.now) i).kind }
    {
        self.record(i).kind()
    }

    // The zone price of its area.
    pub fn price_of(&self, i: usize) -> i64
        requires { i < (held self.now).count }
        ensures { result ≡ Records.price (held self.now) (Records.area_of (held self.now) i) }
    {
        self.prices[self.area_of(i)]
    }

    // A record's numbers under document 01's letters.
    pub fn entry_of(&self, i: usize) -> Entry
        requires { i < (held self.now).count }
        ensures { meant result ≡ Records.entry_of (held self.now) i }
    {
        self.record(i).entry()
    }

    // What a record demands of its area's UFE: only a load demands.
    pub fn demand_of(&self, i: usize) -> u32
        requires { i < (held self.now).count }
        ensures { result ≡ demand_of (held self.now) i }
    {
        self.record(i).demand()
    }
}
