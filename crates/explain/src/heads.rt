// A member's exact amount under the five heads, posted record by record, and the head that decided on its charge.
ghost use Rattle.std.specs.Prelude.{◌≡◌, ◌<◌};
ghost use Rattle.rules.specs.Explanation as Explanation;
ghost use Rattle.rules.specs.Inner.Posting as Posting;
ghost use Rattle.hour.specs.Held.{held};
ghost use Rattle.bymember.specs.Lined.{Worked, AllWorked};
ghost use Rattle.explain.specs.Posted.{AllUnder, with_record};

use hour::Hour;
use rules::Kind;

// ---- the heads

// Where among the five heads the deviation of a kind stands. An unknown kind enters with nothing.
fn head_place(kind: Kind) -> usize
    ensures { (result ≡ Posting.head_place kind) × (result < 5) }
{
    match kind {
        Kind::Generator => 0,
        Kind::RealTimeLoad | Kind::ProfileLoad => 1,
        Kind::Import => 2,
        Kind::Export => 3,
        Kind::Unknown => 4,
    }
}

// The grains of a record to the heads: of its deviation as it enters, and of its share.
fn post(hour: &Hour, i: usize, deviation: i64, share: i64, heads: &mut [i64; 5])
    requires { Worked (held hour.now) i deviation share × AllUnder 2800000000000000000 heads.old }
    ensures { heads.new ≡ with_record (held hour.now) i heads.old }
{
    let kind = hour.kind_of(i);
    let price = hour.price_of(i);
    heads[head_place(kind)] += price * formula::deviation::entering(kind, deviation);
    heads[4] += price * share;
}

// Of deviations and shares that are worked. No other member's record is added.
pub fn heads_of(hour: &Hour, member: usize, deviations: &[i64], shares: &[i64]) -> [i64; 5]
    requires { AllWorked (held hour.now) deviations.now shares.now }
    ensures { result ≡ Explanation.heads (held hour.now) member }
{
    let mut heads = [0; 5];
    for i in 0..hour.records {
        if hour.member_of(i) == member {
            post(hour, i, deviations[i], shares[i], &mut heads);
        }
    }
    heads
}

// ---- the head that decided

// Both above zero, or both below.
fn same_sign(charge: i64, head: i64) -> bool
    ensures { result ≡ Explanation.same_sign charge head }
{
    charge != 0 && charge.signum() == head.signum()
}

// Of the heads with the charge's sign the largest in size, on a tie the first; none where the charge is zero.
pub fn decided(charge: i64, heads: [i64; 5]) -> Option<usize>
    ensures { result ≡ Explanation.decided_by charge heads }
{
    let mut best = None;
    let mut most = 0;
    for (place, head) in heads.iter().enumerate() {
        if same_sign(charge, *head) && most < head.unsigned_abs() {
            best = Some(place);
            most = head.unsigned_abs();
        }
    }
    best
}
