// The share of each record: an area's UFE over its loads, area by area; a record that is no load has 0. The sharing itself is the engine's,
// `share::share_in_place`, which knows no hours: here the demands of an area's loads, and of nobody else, are gathered from the file in a
// room that the caller lends, and the sizes that then stand there are put back with the UFE's sign. The UFE figures come from the caller
// and are not worked again, and refusal 6 was checked before. An area without UFE costs nothing.
ghost use Rattle.std.specs.Prelude.{◌≡◌, ◌+◌, ◌<◌, length};
ghost use Rattle.whole.specs.Below.{replacing_first, gathered_below};
ghost use Rattle.rules.specs.Record as Record;
ghost use Rattle.rules.specs.Record.{is_load};
ghost use Rattle.rules.specs.Ufe.{in_area, demand};
ghost use Rattle.rules.specs.Charge.{share_of};
ghost use Rattle.hour.specs.Held.{held};
ghost use Rattle.byrecord.specs.Shared.{loads_before, shares_below, with_sizes, Sharing, Cleared, SharedUpTo, Sized};

use hour::Hour;

// Whether a record is a load of this area: nobody else takes part in the area's UFE.
fn load_there(hour: &Hour, a: usize, i: usize) -> bool
    requires { i < (held hour.now).count }
    ensures { result ≡ in_area (held hour.now) a is_load i }
{
    let record = hour.record(i);
    record.area() == a && record.kind().is_load()
}

// The demands of an area's loads, in file order, to the first places of the room; how many loads there are.
fn put_demands(hour: &Hour, a: usize, demands: &mut [u64]) -> usize
    requires { length demands.old ≡ (held hour.now).count }
    ensures loads { result ≡ loads_before (held hour.now) a (held hour.now).count }
    ensures demands { demands.new
        ≡ gathered_below (in_area (held hour.now) a is_load) (demand (held hour.now)) (held hour.now).count demands.old }
{
    let mut loads = 0;
    for i in 0..hour.records {
        if load_there(hour, a, i) {
            demands[loads] = u64::from(hour.demand_of(i));
            loads += 1;
        }
    }
    loads
}

// An area's sizes, in the order of its loads, with the UFE's sign, to its loads.
fn put_area(hour: &Hour, a: usize, figure: i64, sizes: &[u64], out: &mut [i64])
    requires { Sized hour.now a sizes.now out.old }
    ensures { out.new ≡ replacing_first (with_sizes (held hour.now) a figure sizes.now out.old) (held hour.now).count out.old }
{
    let mut loads = 0;
    for i in 0..hour.records {
        if load_there(hour, a, i) {
            out[i] = whole::with_sign_of(figure, sizes[loads]);
            loads += 1;
        }
    }
}

// One area more: in the room lent stand its loads' demands, and then their sizes.
fn share_area(hour: &Hour, a: usize, figure: i64, room: &mut [u64], out: &mut [i64])
    requires { SharedUpTo hour.now a figure room.old out.old }
    ensures { out.new ≡ replacing_first (shares_below (held hour.now) (a + 1)) (held hour.now).count out.old }
{
    if figure == 0 {
        return;
    }
    let loads = put_demands(hour, a, room);
    share::share_in_place(&mut room[..loads], whole::size_of(figure));
    put_area(hour, a, figure, room, out);
}

// All areas, in the room lent.
fn share_areas(hour: &Hour, figures: [i64; 8], room: &mut [u64], out: &mut [i64])
    requires { Cleared hour.now figures room.old out.old }
    ensures { out.new ≡ replacing_first (share_of (held hour.now)) (held hour.now).count out.old }
{
    for a in 0..hour.areas {
        share_area(hour, a, figures[a], room, out);
    }
}

// One a record, into the first places; the places past them are unchanged. The room has a place a record, and holds 0 afterwards.
pub fn put_shares(hour: &Hour, figures: [i64; 8], room: &mut [u64], out: &mut [i64])
    requires { Sharing hour.now figures room.old out.old }
    ensures shares { out.new ≡ replacing_first (share_of (held hour.now)) (held hour.now).count out.old }
    ensures room { room.new ≡ replacing_first (λ i. 0) (held hour.now).count room.old }
{
    out[..hour.records].fill(0);
    share_areas(hour, figures, room, out);
    room.fill(0);
}
