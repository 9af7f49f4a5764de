// The neutrality amount N, the sum of all charges, shared over the members by what they demand; a member's final amount is its charge
// minus its share (document 02, A1). The sharing itself is the engine's, `share::share_in_place`. And refusal 12, which settling asks for
// before it writes to any buffer.
ghost use Rattle.std.specs.Prelude.{◌≡◌, not, ℕ, ◌≤◌, ◌<◌, eqb, pos, nat_abs, map, length, get_or};
ghost use Rattle.whole.specs.Below.{total_below, replacing_first};
ghost use Rattle.rules.specs.Record as Record;
ghost use Rattle.rules.specs.Charge as Charge;
ghost use Rattle.rules.specs.Neutrality.{member_demand, hour_demand, neutrality, final};
ghost use Rattle.rules.specs.Refusals.{place_zero_if, no_demand};
ghost use Rattle.hour.specs.Held.{held};
ghost use Rattle.byarea.specs.Posted.{Tallied};
ghost use Rattle.bymember.specs.Charged.{Charged, Deviated, Empty, Bounded, less_share};

use hour::Hour;
use rules::Tally;

// The sum of these charges: N, where they are an hour's. No charge of an hour is over 400,000,000,000 cents in size.
fn sum_of(charges: &[i64]) -> i64
    requires { Bounded charges.now (length charges.now) 400000000000 }
    ensures { result ≡ total_below (λ m. get_or charges.now m (pos 0)) (length charges.now) }
{
    let mut sum = 0;
    for own in charges {
        sum += *own;
    }
    sum
}

// ---- finals

// Each member's demand, of all its loads in all areas, added up in its place. Stays beside `put_amounts`: one function for both needs a trait of
// addition and a closure, longer than the two loops.
fn put_demands(hour: &Hour, demands: &mut [u64])
    requires { Empty 0 (held hour.now) demands.old }
    ensures { demands.new
        ≡ replacing_first (member_demand (held hour.now)) (Record.members (held hour.now)) demands.old }
{
    for i in 0..hour.records {
        demands[hour.member_of(i)] += u64::from(hour.demand_of(i));
    }
}

// Each member's share, which takes the sign of N, off its charge.
fn take_off(charges: &[i64], all: i64, sizes: &[u64], finals: &mut [i64])
    requires { Bounded charges.now (length sizes.now) 400000000000 × (length sizes.now ≤ length finals.old)
        × ((m : ℕ) → m < length sizes.now → get_or sizes.now m 0 ≤ 400000000000) }
    ensures { finals.new
        ≡ replacing_first (less_share charges.now all sizes.now) (length sizes.now) finals.old }
{
    for (m, size) in sizes.iter().enumerate() {
        finals[m] = charges[m] - whole::with_sign_of(all, *size);
    }
}

// One a member, into the first places; the places past them are unchanged. In the room of its own stand the members' demands, and then the
// sizes of their shares.
pub fn put_finals(hour: &Hour, charges: &[i64], finals: &mut [i64])
    requires { Charged (held hour.now) charges.now × (Record.members (held hour.now) ≤ length finals.old) }
    ensures { finals.new
        ≡ replacing_first (final (held hour.now)) (Record.members (held hour.now)) finals.old }
{
    let all = sum_of(&charges[..hour.members]);
    let mut room = [0u64; 32];
    let places = &mut room[..hour.members];
    put_demands(hour, places);
    share::share_in_place(places, all.unsigned_abs());
    take_off(charges, all, places, finals);
}

// ---- refusal 12

// Each member's exact amount, added up in its place, in an hour in which nobody demands anything: there every share is 0.
fn put_amounts(hour: &Hour, deviations: &[i64], amounts: &mut [i64])
    requires { (hour_demand (held hour.now) ≡ 0) × Deviated (held hour.now) deviations.now
        × Empty (pos 0) (held hour.now) amounts.old }
    ensures { amounts.new
        ≡ replacing_first (Charge.amount (held hour.now)) (Record.members (held hour.now)) amounts.old }
{
    for i in 0..hour.records {
        amounts[hour.member_of(i)] += crate::grains(hour, i, deviations[i], 0);
    }
}

// Each of these amounts rounded to cents in its place.
fn round(amounts: &mut [i64])
    ensures { amounts.new ≡ map Charge.cents amounts.old }
{
    for own in amounts.iter_mut() {
        *own = formula::posting::cents(*own);
    }
}

// Whether N isn't 0, in an hour in which nobody demands anything: then there is nothing to share it by. It is asked before the first store,
// so that no buffer of the caller has the charges yet. All deviations are worked at once: record by record the compiler would make a call
// of each, here and in every other hour.
fn left_to_share(hour: &Hour) -> bool
    requires { hour_demand (held hour.now) ≡ 0 }
    ensures { result ≡ not (eqb (nat_abs (neutrality (held hour.now))) 0) }
{
    let mut deviations = [0i64; 250];
    let mut room = [0i64; 32];
    let places = &mut room[..hour.members];
    byrecord::deviations::put_deviations(hour, &mut deviations);
    put_amounts(hour, &deviations, places);
    round(places);
    sum_of(places) != 0
}

// Refusal 12: nobody demands anything in the hour, and N isn't 0. N is worked only where nobody demands anything.
pub fn no_demand(hour: &Hour, t: Tally) -> bool
    requires { Tallied hour.now t }
    ensures { place_zero_if result ≡ no_demand (held hour.now) }
{
    byarea::nobody_demands(hour.areas, t) && left_to_share(hour)
}
