// The deviation of each record, by document 01's formula for its kind. Each is worked once: `bymember` takes it from the buffer that is filled
// here. No area and no price is looked at, and nothing is refused.
ghost use Rattle.std.specs.Prelude.{◌≡◌, ◌≤◌, ◌<◌, length};
ghost use Rattle.whole.specs.Below.{replacing_first};
ghost use Rattle.rules.specs.Record.{entry_of};
ghost use Rattle.rules.specs.Deviation.{deviation};
ghost use Rattle.hour.specs.Held.{held};

use hour::Hour;

// Record `i`'s.
fn deviation_of(hour: &Hour, i: usize) -> i64
    requires { i < (held hour.now).count }
    ensures { result ≡ deviation (entry_of (held hour.now) i) }
{
    formula::deviation::deviation(hour.entry_of(i))
}

// One a record, into the first places; the places past them are unchanged.
pub fn put_deviations(hour: &Hour, out: &mut [i64])
    requires { (held hour.now).count ≤ length out.old }
    ensures { out.new
        ≡ replacing_first (λ i. deviation (entry_of (held hour.now) i)) (held hour.now).count out.old }
{
    for i in 0..hour.records {
        out[i] = deviation_of(hour, i);
    }
}
