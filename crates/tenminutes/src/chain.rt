// The chain of each member's records: a place a member for its first record, and a place a record for the next one of its member. It leads
// through the records in their order.
ghost use Rattle.std.specs.Prelude.{◌≡◌, ◌<◌, Some};
ghost use Rattle.rules.specs.TenMinutes.{ten_minutes_in};
ghost use Rattle.tenminutes.specs.Chain.{Chained};

use crate::words::Hour;
use std::marker::Model;

// A record or none, in one byte: a file has at most 64 records, so that 64 stands for none. An `Option<u8>` takes two.
#[derive(Clone, Copy)]
pub struct Link {
    place: u8,
}

const _: () = prove!(std::mem::size_of::<Link>() == 1);

impl Model for Link {
    ghost use Rattle.std.specs.Prelude.{ℕ, Option};
    ghost use Rattle.tenminutes.specs.Link.{named_by, byte_of, byte_kept};

    ghost Value = { Option ℕ };

    ghost view = { λ l. named_by l.place };

    ghost inverse = { λ named. record { place = byte_of named } };

    ghost inverse_ok = { λ l _ i. record { place = byte_kept l.place i } };
}

impl Link {
    pub const NONE: Link = Link { place: 64 };

    pub fn to(i: usize) -> Self
        requires { i < 64 }
        ensures { result ≡ Some i }
    {
        Link { place: i as u8 }
    }

    pub fn named(self) -> Option<usize>
        ensures { result ≡ self }
    {
        match self.place {
            64 => None,
            i => Some(usize::from(i)),
        }
    }
}

#[derive(Clone, Copy)]
pub struct Chain<'a> {
    pub hour: Hour<'a>,
    pub firsts: &'a [Link; 32],
    pub nexts: &'a [Link; 64],
    ghost chained: { Chained (ten_minutes_in hour.file.now) 0 firsts.now nexts.now },
}
