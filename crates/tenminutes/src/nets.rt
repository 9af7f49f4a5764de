// A member's net deviations: six intervals a zone. The member's records are found by their chain: those of others cost nothing.
ghost use Rattle.std.specs.Prelude.{◌≡◌, ◌+◌, ◌<◌, pos, ◌+ℤ◌, slice_index_or};
ghost use Rattle.whole.specs.Below.{values_below};
ghost use Rattle.rules.specs.Record as Record;
ghost use Rattle.rules.specs.HourFile.{word};
ghost use Rattle.rules.specs.Charge.{entering};
ghost use Rattle.rules.specs.TenMinutes as Ten;
ghost use Rattle.rules.specs.TenMinutes.{ten_minutes_in};
ghost use Rattle.tenminutes.specs.Room.{NetsAfter, Spare};

use crate::chain::Chain;
use crate::interval::Part;
use crate::words::Hour;

// The six intervals of a record, to the places of its zone.
fn add(part: &Part, nets: &mut [i64; 6])
    requires { Spare nets.old }
    ensures { nets.new ≡ values_below
        (λ k. slice_index_or nets.old k (pos 0) +ℤ entering (Ten.interval_entry (word part.now.words.now) k)) 6 }
{
    for (k, net) in nets.iter_mut().enumerate() {
        *net += part.deviation(k);
    }
}

// Record `i`, to the nets of its member.
fn post(hour: &Hour, i: usize, nets: &mut [[i64; 6]; 4])
    requires { (i < (ten_minutes_in hour.now.file.now).count)
        × NetsAfter (ten_minutes_in hour.now.file.now) (Record.member_of (ten_minutes_in hour.now.file.now) i) i nets.old }
    ensures { let h = ten_minutes_in hour.now.file.now in NetsAfter h (Record.member_of h i) (i + 1) nets.new }
{
    let part = Part::new(hour.record(i));
    let zone = hour.zone_of(part.area());
    add(&part, &mut nets[zone]);
}

impl Chain<'_> {
    // All records of a member, until its chain says that there is none.
    pub fn put_nets(&self, member: usize, nets: &mut [[i64; 6]; 4])
        requires { (member < 32) × NetsAfter (ten_minutes_in self.now.hour.file.now) member 0 nets.old }
        ensures { let h = ten_minutes_in self.now.hour.file.now in NetsAfter h member h.count nets.new }
    {
        let mut next = self.firsts[member].named();
        while let Some(i) = next {
            post(&self.hour, i, nets);
            next = self.nexts[i].named();
        }
    }
}
