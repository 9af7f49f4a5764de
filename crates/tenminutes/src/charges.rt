// A member's charge: what its nets cost, over all zones and intervals, rounded once.
ghost use Rattle.std.specs.Prelude.{◌≡◌, ◌≤◌, ◌<◌, ◌*ℤ◌, length};
ghost use Rattle.whole.specs.Below.{total_below, replacing_first};
ghost use Rattle.whole.specs.Signed.{Under};
ghost use Rattle.rules.specs.Record as Record;
ghost use Rattle.rules.specs.TenMinutes.{ten_minutes_in, ten_minutes_charge, interval_price};
ghost use Rattle.tenminutes.specs.Room.{NetsOfOne, NetsInZone, cost_in, zone_in};

use crate::chain::{Chain, Link};
use crate::words::Hour;

// What the net of a zone and interval costs.
fn interval_cost(hour: &Hour, z: usize, k: usize, net: i64) -> i64
    requires { (z < Record.zones (ten_minutes_in hour.now.file.now)) × (k < 6) × Under net 6144000000000 }
    ensures { result ≡ net *ℤ interval_price (ten_minutes_in hour.now.file.now) z k net }
{
    let at = 12 * z + k;
    let incremental = hour.price(48 + at);
    let decremental = hour.price(54 + at);
    crate::cost::cost(net, incremental, decremental)
}

// The six intervals of a zone.
fn zone_cost(hour: &Hour, z: usize, nets: &[i64; 6]) -> i64
    requires { (z < Record.zones (ten_minutes_in hour.now.file.now)) × NetsInZone (ten_minutes_in hour.now.file.now) z nets.now }
    ensures { result ≡ total_below (cost_in (ten_minutes_in hour.now.file.now) z nets.now) 6 }
{
    let mut sum: i64 = 0;
    for (k, net) in nets.iter().enumerate() {
        sum += interval_cost(hour, z, k, *net);
    }
    sum
}

// All zones.
fn amount(hour: &Hour, nets: &[[i64; 6]; 4]) -> i64
    requires { NetsOfOne (ten_minutes_in hour.now.file.now) nets.now }
    ensures { let h = ten_minutes_in hour.now.file.now in
        result ≡ total_below (λ z. total_below (cost_in h z (zone_in nets.now z)) 6) (Record.zones h) }
{
    let mut sum: i64 = 0;
    for (z, nets) in nets[..hour.zones].iter().enumerate() {
        sum += zone_cost(hour, z, nets);
    }
    sum
}

impl Chain<'_> {
    // A member's charge: half a cent is 120,000,000 24ths of grains.
    fn charge(&self, member: usize) -> i64
        requires { member < 32 }
        ensures { result ≡ ten_minutes_charge (ten_minutes_in self.now.hour.file.now) member }
    {
        let mut nets = [[0; 6]; 4];
        self.put_nets(member, &mut nets);
        formula::rounding::cents_of(amount(&self.hour, &nets), 120000000)
    }
}

// One a member, into the first places; the places past them are unchanged. The chain is made from the file's end.
pub fn put_charges(hour: Hour, charges: &mut [i64])
    requires { Record.members (ten_minutes_in hour.file.now) ≤ length charges.old }
    ensures { charges.new
        ≡ replacing_first (ten_minutes_charge (ten_minutes_in hour.entry.file.now)) (Record.members (ten_minutes_in hour.entry.file.now))
        charges.old }
{
    let mut firsts = [Link::NONE; 32];
    let mut nexts = [Link::NONE; 64];
    for i in (0..hour.records()).rev() {
        let member = hour.member_of(i);
        nexts[i] = firsts[member];
        firsts[member] = Link::to(i);
    }
    let chain = Chain {
        hour,
        firsts: &firsts,
        nexts: &nexts,
    };
    for (member, charge) in charges[..hour.members].iter_mut().enumerate() {
        *charge = chain.charge(member);
    }
}
