// An answer's number and place in the table of refusals, for whoever hands them on.
#![tactic(auto)]

ghost use Rattle.std.specs.Prelude.{◌≡◌};
ghost use Rattle.rules.specs.Refusals.{number_of, place_of};

use rules::Refusal;

// 0 where nothing is refused.
pub fn number_of(answer: Result<(), Refusal>) -> u64
    ensures { result ≡ number_of answer }
{
    match answer {
        Ok(()) => 0,
        Err(refusal) => refusal.number(),
    }
}

// 0 where nothing is refused, or the row has no other place.
pub fn place_of(answer: Result<(), Refusal>) -> usize
    ensures { result ≡ place_of answer }
{
    match answer {
        Ok(()) => 0,
        Err(refusal) => refusal.place(),
    }
}

// An answer as programs in C get it: its number and its place.
#[repr(C)]
#[derive(Clone, Copy, Debug, PartialEq, Eq)]
pub struct NumberedAnswer {
    pub number: u64,
    pub place: u64,
}

impl From<Result<(), Refusal>> for NumberedAnswer {
    ghost from_gives = { λ answer r. r ≡ record { number = number_of answer; place = place_of answer } };

    fn from(answer: Result<(), Refusal>) -> Self {
        NumberedAnswer {
            number: number_of(answer),
            place: place_of(answer) as u64,
        }
    }
}
