// By member. The members' lines, lent by the caller: each record's grains posted to its member's line, in file order, and each member's
// charge from its line. No deviation and no share is worked here: the caller has them. A line is moved whole; its sums are `formula`'s.
// The module `neutrality` goes on from the charges.
#![tactic(auto)]

ghost use Rattle.std.specs.Prelude.{◌≡◌, ◌≤◌, ◌<◌, length, get_or};
ghost use Rattle.whole.specs.Below.{replacing_first};
ghost use Rattle.rules.specs.Record as Record;
ghost use Rattle.rules.specs.Charge as Charge;
ghost use Rattle.rules.specs.Settling.{empty_line};
ghost use Rattle.rules.specs.Inner.Posting as Posting;
ghost use Rattle.formula.specs.Room.{LineRoom};
ghost use Rattle.hour.specs.Held.{held};
ghost use Rattle.bymember.specs.Lined.{Worked, AllWorked};

use hour::Hour;
use rules::Line;

pub mod neutrality;

// A record in its member's amount: the zone price of its area times its deviation as it enters, plus its share. `neutrality` asks for it
// where no line may be written yet.
pub fn grains(hour: &Hour, i: usize, deviation: i64, share: i64) -> i64
    requires { Worked (held hour.now) i deviation share }
    ensures { result ≡ Charge.grains (held hour.now) i }
{
    let entering = formula::deviation::entering(hour.kind_of(i), deviation);
    hour.price_of(i) * (entering + share)
}

// Touches the member's line and no other.
fn post_line(lines: &mut [Line], member: usize, grains: i64)
    requires { (member < length lines.old) × LineRoom (get_or lines.old member empty_line) grains }
    ensures { lines.new ≡ Posting.lines_with lines.old member grains }
{
    lines[member] = formula::posting::line_with(lines[member], grains);
}

// Each record to its member's line, in file order. What a member's line held isn't read; the lines past the members' are unchanged.
pub fn put_lines(hour: &Hour, deviations: &[i64], shares: &[i64], lines: &mut [Line])
    requires { AllWorked (held hour.now) deviations.now shares.now × (Record.members (held hour.now) ≤ length lines.old) }
    ensures { lines.new ≡ Posting.lines_after (held hour.now) lines.old (held hour.now).count }
{
    lines[..hour.members].fill(formula::posting::empty_line());
    for i in 0..hour.records {
        let grains = grains(hour, i, deviations[i], shares[i]);
        post_line(lines, hour.member_of(i), grains);
    }
}

// The members' charges, from their lines; the places past them are unchanged.
pub fn put_charges(lines: &[Line], charges: &mut [i64])
    requires { length lines.now ≤ length charges.old }
    ensures { charges.new
        ≡ replacing_first (λ m. Charge.cents (get_or lines.now m empty_line).amount) (length lines.now)
        charges.old }
{
    for (m, line) in lines.iter().enumerate() {
        charges[m] = formula::posting::charge_of(*line);
    }
}
