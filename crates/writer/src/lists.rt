// A head and records as lists of words, and the writer's refusals of them, 1, 4, 5, 14 and 11 in this order (document 02, A2 and A6): word `k`
// of the head is word 8 + k of the first block, and twelve words are a record. Rows 4, 5 and 14 are searched by the reader's functions.
ghost use Rattle.std.specs.Prelude.{◌≡◌, Some, MatchResult};
ghost use Rattle.rules.specs.HourWords as HourWords;
ghost use Rattle.rules.specs.HourFile.{hourly};
ghost use Rattle.rules.specs.Refusals as Refusals;
ghost use Rattle.rules.specs.declared.Refusal.TheVariants.{BadLength};
ghost use Rattle.writer.specs.Lists.{hour_of_lists, search_rows, ListsWhole};

use examine::words::ListHour;
use examine::{Hourly, search};
use rules::Refusal;

// A head and at most 250 whole records.
#[derive(Clone, Copy)]
pub struct Lists<'a> {
    pub head: &'a [u32; 120],
    pub records: &'a [u32],
    ghost whole: { ListsWhole head.now records.now },
}

impl<'a> Lists<'a> {
    // Refusal 1: the head has another length, the records aren't whole, or they are over 250.
    pub fn new(head: &'a [u32], records: &'a [u32]) -> Result<Self, Refusal>
        ensures { MatchResult result
            (λ lists. (lists.head.now ≡ head.now) × (lists.records.now ≡ records.now))
            (λ refusal. (refusal ≡ BadLength) × (Refusals.bad_lists head.now records.now ≡ Some 0)) }
    {
        let Ok(head) = <&[u32; 120]>::try_from(head) else {
            return Err(Refusal::BadLength);
        };
        if records.len() % 12 != 0 || 250 < records.len() / 12 {
            return Err(Refusal::BadLength);
        }
        Ok(Lists { head, records })
    }

    // How many blocks the file has: the first, and one for every ten records or part of them.
    pub fn blocks(&self) -> usize
        ensures { result ≡ HourWords.blocks_for hourly (hour_of_lists self.now.head.now self.now.records.now) }
    {
        1 + self.records.len().div_ceil(120)
    }

    // Accepted, or the first of refusals 4, 5 and 14 that the hour breaks, with its place.
    fn examine(&self) -> Result<(), Refusal>
        ensures { Refusals.verdict_of result
            ≡ Refusals.verdict (search_rows self.now.head.now self.now.records.now) }
    {
        search::examine_hour(&ListHour::<Hourly>::new(self.head, self.records))
    }

    // Accepted, or the first of the writer's refusals that the lists and so much room break, with its place.
    pub fn first_refusal(&self, room: usize) -> Result<(), Refusal>
        ensures { Refusals.verdict_of result
            ≡ Refusals.verdict (Refusals.write_hour_rows self.now.head.now self.now.records.now room) }
    {
        self.examine()?;
        if room < 512 * self.blocks() {
            return Err(Refusal::TooShort);
        }
        Ok(())
    }
}
