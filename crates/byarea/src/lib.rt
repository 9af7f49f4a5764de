// By area: the hour's tally, lent to each posting in file order, and what it gives: each area's UFE, refusal 6, and whether
// anybody demands anything.
#![tactic(auto)]

ghost use Rattle.std.specs.Prelude.{◌≡◌, ◌≤◌, ◌<◌, eqb};
ghost use Rattle.whole.specs.Below.{first_below};
ghost use Rattle.rules.specs.Record as Record;
ghost use Rattle.rules.specs.Ufe.{ufe};
ghost use Rattle.rules.specs.Inner.Posting as Posting;
ghost use Rattle.rules.specs.Settling.{ufe_figures};
ghost use Rattle.formula.specs.Room.{TallyRoom};
ghost use Rattle.hour.specs.Held.{held};
ghost use Rattle.byarea.specs.Posted.{Tallied, unshared, demand_in};

use hour::Hour;
use rules::Tally;

// Brings the lent tally up to date.
fn post(tally: &mut Tally, area: usize, demand: u32, energy: i64)
    requires { TallyRoom tally.old area demand energy }
    ensures { tally.new ≡ Posting.tallied tally.old area demand energy }
{
    let before = *tally;
    *tally = formula::posting::tallied(before, area, demand, energy);
}

// All records, in file order, to one tally that is lent to each posting.
pub fn tally_of(hour: &Hour) -> Tally
    ensures { result ≡ Posting.tally_after (held hour.now) (held hour.now).count }
{
    let mut tally = formula::posting::empty_tally();
    for i in 0..hour.records {
        let energy = formula::deviation::accounted(hour.entry_of(i));
        post(&mut tally, hour.area_of(i), hour.demand_of(i), energy);
    }
    tally
}

// An area's UFE: its ties, and what its records are accounted for.
fn ufe_of(hour: &Hour, t: Tally, a: usize) -> i64
    requires { Tallied hour.now t × (a < Record.areas (held hour.now)) }
    ensures { result ≡ ufe (held hour.now) a }
{
    let tie_in = i64::from(hour::head_word(hour.file, 17 + 4 * a));
    let tie_out = i64::from(hour::head_word(hour.file, 18 + 4 * a));
    10000 * (tie_in - tie_out) + t.energy[a]
}

// Eight figures, 0 past the areas.
pub fn ufe_figures(hour: &Hour, t: Tally) -> [i64; 8]
    requires { Tallied hour.now t }
    ensures { result ≡ ufe_figures (held hour.now) }
{
    let mut ufe = [0i64; 8];
    for a in 0..hour.areas {
        ufe[a] = ufe_of(hour, t, a);
    }
    ufe
}

// Refusal 6: the first area where nobody demands anything and there is something to share.
pub fn area_without_demand(areas: usize, t: Tally, ufe: [i64; 8]) -> Option<usize>
    requires { areas ≤ 8 }
    ensures { result ≡ first_below (unshared t ufe) areas }
{
    for a in 0..areas {
        if t.demand[a] == 0 && ufe[a] != 0 {
            return Some(a);
        }
    }
    None
}

// Whether nobody demands anything in these areas: in an hour without demand there is nothing to share the neutrality amount by.
pub fn nobody_demands(areas: usize, t: Tally) -> bool
    requires { areas ≤ 8 }
    ensures { result ≡ eqb (demand_in t areas) 0 }
{
    for own in &t.demand[..areas] {
        if *own != 0 {
            return false;
        }
    }
    true
}
