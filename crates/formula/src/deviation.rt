// What a record was scheduled for, against what it did, in units of 1/10,000 kWh: document 01's formulas, a line each. What an entry's numbers
// keep stays a `requires`: `hour` makes entries of any words, and an invariant of `Entry` would ask more there.
ghost use Rattle.std.specs.Prelude.{◌≡◌};
ghost use Rattle.whole.specs.Signed.{Under};
ghost use Rattle.rules.specs.Deviation as Deviation;
ghost use Rattle.rules.specs.Charge.{entering_as};
ghost use Rattle.rules.specs.Inner.Posting as Posting;
ghost use Rattle.rules.specs.Inner.Kept.{EntryKept, EntryRoom};
ghost use Rattle.formula.specs.Meant.{meant};

use crate::entry::Entry;
use rules::Kind;

fn generator_deviation(r: Entry) -> i64
    requires { EntryRoom (meant r) }
    ensures { result ≡ Deviation.generator_deviation (meant r) }
{
    r.s * r.f - ((r.a - r.j) * r.h - 10000 * r.n) - 10000 * (r.m - r.a - (r.o - r.n)).min(0)
}

fn load_deviation(r: Entry) -> i64
    requires { EntryRoom (meant r) }
    ensures { result ≡ Deviation.load_deviation (meant r) }
{
    10000 * (r.s - ((r.a - r.j) + r.n) - ((r.o - r.n) - r.a).max(0))
}

fn import_deviation(r: Entry) -> i64
    requires { EntryRoom (meant r) }
    ensures { result ≡ Deviation.import_deviation (meant r) }
{
    r.s * r.f - (r.a - r.j) * r.h + 10000 * r.n
}

fn export_deviation(r: Entry) -> i64
    requires { EntryRoom (meant r) }
    ensures { result ≡ Deviation.export_deviation (meant r) }
{
    10000 * (r.s - r.a - r.j)
}

pub fn deviation(r: Entry) -> i64
    requires { EntryRoom (meant r) }
    ensures { result ≡ Deviation.deviation (meant r) }
{
    match r.kind {
        Kind::Generator => generator_deviation(r),
        Kind::RealTimeLoad | Kind::ProfileLoad => load_deviation(r),
        Kind::Import => import_deviation(r),
        Kind::Export => export_deviation(r),
        Kind::Unknown => 0,
    }
}

// A deviation, already worked, as it enters an amount: added for generators and imports, taken off for loads and exports.
pub fn entering(kind: Kind, deviation: i64) -> i64
    requires { Under deviation 144000000000 }
    ensures { result ≡ entering_as kind deviation }
{
    match kind {
        Kind::Generator | Kind::Import => deviation,
        Kind::RealTimeLoad | Kind::ProfileLoad | Kind::Export => -deviation,
        Kind::Unknown => 0,
    }
}

// What a record adds to its area's energy: generation less its losses, minus load, minus an import's losses.
pub fn accounted(r: Entry) -> i64
    requires { EntryKept (meant r) }
    ensures { result ≡ Posting.accounted (meant r) }
{
    let metered = 10000 * r.a;
    let lost = r.a * (10000 - r.h);
    match r.kind {
        Kind::Generator => metered - lost,
        Kind::RealTimeLoad | Kind::ProfileLoad => -metered,
        Kind::Import => -lost,
        Kind::Export | Kind::Unknown => 0,
    }
}
