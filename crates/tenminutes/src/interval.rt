// An interval of a ten-minute record as an entry of document 01, in 24ths of its units: its numbers are read from the record's part of the
// file, and the formulas are those of `formula`.
ghost use Rattle.std.specs.Prelude.{◌≡◌, cond, ◌+◌, ◌*◌, ◌<◌, pos, neg_ℤ, ◌+ℤ◌, ◌-ℤ◌, eqb, length};
ghost use Rattle.whole.specs.Signed.{Under, Upto};
ghost use Rattle.rules.specs.Record as Record;
ghost use Rattle.rules.specs.HourFile.{word};
ghost use Rattle.rules.specs.Charge.{entering};
ghost use Rattle.rules.specs.TenMinutes as Ten;
ghost use Rattle.rules.specs.Inner.Kept.{IntervalWords};
ghost use Rattle.formula.specs.Meant.{meant};
ghost use Rattle.tenminutes.specs.Shared.{shared_of};

use formula::entry::Entry;
use rules::Kind;

// The schedule of interval `k` of what is ramped: a sixth of the hour's, and in the first and in the last interval a 24th of the step from
// the hour before, or to the next.
fn ramped(hour: i64, before: i64, next: i64, k: usize) -> i64
    requires { Upto hour 100000 × Upto before 100000 × Upto next 100000 }
    ensures { result ≡ Ten.a_sixth hour +ℤ cond (eqb k 0) (neg_ℤ (hour -ℤ before)) (cond (eqb k 5) (next -ℤ hour) (pos 0)) }
{
    match k {
        0 => 4 * hour - (hour - before),
        5 => 4 * hour + (next - hour),
        _ => 4 * hour,
    }
}

// Word `k` of a record's part as a number.
fn number(words: &[u8], k: usize) -> i64
    requires { 4 * k + 3 < length words.now }
    ensures { result ≡ pos (word words.now k) }
{
    i64::from(blocks::whole_word(words, k))
}

// An adjustment: word `k` in two's complement, times 24.
fn adjustment(words: &[u8], k: usize) -> i64
    requires { (4 * k + 3 < length words.now) × Under (Record.signed (word words.now k)) 100000 }
    ensures { result ≡ Ten.in_full (Record.signed (word words.now k)) }
{
    24 * blocks::signed(blocks::whole_word(words, k))
}

// What the six intervals of a record share: its kind, the schedules of this hour, the one before and the next, the hourly reading of a load
// by profile, and the multipliers. All this is read once a record, so that the compiler tells the kinds apart once a record too.
#[derive(Clone, Copy)]
pub struct Shared {
    pub kind: Kind,
    pub hour: i64,
    pub before: i64,
    pub next: i64,
    pub reading: i64,
    pub f: i64,
    pub h: i64,
}

impl Shared {
    // Generators and loads metered in real time.
    fn is_ramped(&self) -> bool
        ensures { result ≡ Ten.is_ramped self.now.kind }
    {
        matches!(self.kind, Kind::Generator | Kind::RealTimeLoad)
    }

    // The schedule of interval `k` of any kind.
    fn scheduled(&self, k: usize) -> i64
        requires { Upto self.now.hour 100000 × Upto self.now.before 100000 × Upto self.now.next 100000 }
        ensures { result ≡ Ten.a_sixth self.now.hour +ℤ cond (Ten.is_ramped self.now.kind)
            (cond (eqb k 0) (neg_ℤ (self.now.hour -ℤ self.now.before)) (cond (eqb k 5) (self.now.next -ℤ self.now.hour) (pos 0)))
            (pos 0) }
    {
        if self.is_ramped() {
            ramped(self.hour, self.before, self.next, k)
        } else {
            4 * self.hour
        }
    }

    // What an interval was metered at: an import a sixth of its schedule, a load by profile a sixth of its hourly reading.
    fn actual(&self, own: i64) -> i64
        requires { Upto self.now.hour 100000 × Upto self.now.reading 100000 × Upto own 100000 }
        ensures { result ≡ cond (Record.is_import self.now.kind) (Ten.a_sixth self.now.hour)
            (cond (Record.is_profile self.now.kind) (Ten.a_sixth self.now.reading) (Ten.in_full own)) }
    {
        // Stays a while: a kind an arm. Where kinds share one, settling takes 9 percent more instructions.
        match self.kind {
            Kind::Generator => 24 * own,
            Kind::RealTimeLoad => 24 * own,
            Kind::ProfileLoad => 4 * self.reading,
            Kind::Import => 4 * self.hour,
            Kind::Export => 24 * own,
            Kind::Unknown => 24 * own,
        }
    }
}

// A record's part of the file, and what its intervals share.
#[derive(Drop)]
pub struct Part<'a> {
    pub words: &'a [u8],
    pub shared: Shared,
    ghost whole: { length words.now ≡ 120 },
    ghost kept: { IntervalWords (word words.now) },
    ghost shared_is: { shared ≡ shared_of (word words.now) },
}

impl<'a> Part<'a> {
    pub fn new(words: &'a [u8]) -> Self
        requires { (length words.now ≡ 120) × IntervalWords (word words.now) }
        ensures { result.words.now ≡ words.now }
    {
        Part {
            words,
            shared: Shared {
                kind: Kind::from(blocks::whole_word(words, 0)),
                hour: number(words, 3),
                before: number(words, 4),
                next: number(words, 5),
                reading: number(words, 8),
                f: number(words, 6),
                h: number(words, 7),
            },
        }
    }

    // The record's area.
    pub fn area(&self) -> usize
        ensures { result ≡ word self.now.words.now 2 }
    {
        blocks::whole_word(self.words, 2) as usize
    }

    // Interval `k` as an entry. Nothing is owed, and the maximum is what was metered, so that nothing is unavailable.
    fn entry(&self, k: usize) -> Entry
        requires { k < 6 }
        ensures { meant result ≡ Ten.interval_entry (word self.now.words.now) k }
    {
        let metered = self.shared.actual(number(self.words, 8 + k));
        Entry {
            kind: self.shared.kind,
            s: self.shared.scheduled(k),
            a: metered,
            j: adjustment(self.words, 14 + k),
            n: 24 * number(self.words, 20 + k),
            o: 0,
            m: metered,
            f: self.shared.f,
            h: self.shared.h,
        }
    }

    // An interval's deviation, as it enters its member's net.
    pub fn deviation(&self, k: usize) -> i64
        requires { k < 6 }
        ensures { result ≡ entering (Ten.interval_entry (word self.now.words.now) k) }
    {
        let entry = self.entry(k);
        let kind = entry.kind;
        let units = formula::deviation::deviation(entry);
        formula::deviation::entering(kind, units)
    }
}
