// What a posting does, by value: the hour's tally and a member's line go in and come back with one record more. And a line's grains in
// cents. No file and no buffer is read or written here.
ghost use Rattle.std.specs.Prelude.{◌≡◌};
ghost use Rattle.rules.specs.Charge as Charge;
ghost use Rattle.rules.specs.Settling as Settling;
ghost use Rattle.rules.specs.Inner.Posting as Posting;
ghost use Rattle.formula.specs.Room.{TallyRoom, LineRoom};

use rules::{Line, Tally};

#[tactic(auto, unfolding(rules::specs::Inner::Posting::empty_tally))]
pub fn empty_tally() -> Tally
    ensures { result ≡ Posting.empty_tally }
{
    Tally {
        records: 0,
        demand: [0; 8],
        energy: [0; 8],
    }
}

// A record of an area, with its demand and its energy, brings the tally up to date. `t` is not read again once `next` is made: the compiler
// then makes a copy less of the tally at each posting.
#[tactic(auto, unfolding(rules::specs::Inner::Posting::tallied))]
pub fn tallied(t: Tally, area: usize, demand: u32, energy: i64) -> Tally
    requires { TallyRoom t area demand energy }
    ensures { result ≡ Posting.tallied t area demand energy }
{
    let mut next = t;
    next.records += 1;
    next.demand[area] += demand;
    next.energy[area] += energy;
    next
}

#[tactic(auto, unfolding(rules::specs::Settling::empty_line))]
pub fn empty_line() -> Line
    ensures { result ≡ Settling.empty_line }
{
    Line {
        amount: 0,
        records: 0,
    }
}

// A member's line with one record more, of so many grains.
#[tactic(auto, unfolding(rules::specs::Inner::Posting::line_with))]
pub fn line_with(l: Line, grains: i64) -> Line
    requires { LineRoom l grains }
    ensures { result ≡ Posting.line_with l grains }
{
    Line {
        amount: l.amount + grains,
        records: l.records + 1,
    }
}

// Grains to the nearest cent: half a cent is 5,000,000 grains.
#[tactic(auto, unfolding(rules::specs::Charge::cents))]
pub fn cents(grains: i64) -> i64
    ensures { result ≡ Charge.cents grains }
{
    crate::rounding::cents_of(grains, 5000000)
}

// A member's charge: its line's grains in cents.
pub fn charge_of(l: Line) -> i64
    ensures { result ≡ Charge.cents l.amount }
{
    cents(l.amount)
}
