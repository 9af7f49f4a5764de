// Refusals 1 to 5 of either kind of file, and 14 of an hour file, in the order of the table. The first three, the length, the blocks' sums and
// their layout, are those of `blocks` in the file's layout. The others, the head, the records and the generators' schedules, are `search`'s,
// and the writer's too. Each row is looked through in its order and left at the first fault, so that a refused file costs no more than an
// accepted one.
#![tactic(auto)]

ghost use Rattle.std.specs.Prelude.{◌≡◌};
ghost use Rattle.rules.specs.Ranges.{ten_minutes_form};
ghost use Rattle.rules.specs.Refusals as Refusals;
ghost use Rattle.examine.specs.Fault.{examine_rows};

use rules::Refusal;

pub mod search;
mod spans;
pub mod words;

use search::Searched;
pub use wordrules::{Hourly, TenMinutes};
use words::FileHour;

// A file of this kind, any bytes: accepted, or the first of its rows that it breaks, with its place.
fn examine_form<F: Searched>(file: &[u8]) -> Result<(), Refusal>
    ensures { Refusals.verdict_of result ≡ Refusals.verdict (examine_rows F.Form.form F.compares file.now) }
{
    if blocks::length_bad(F::layout(), file) {
        return Err(Refusal::BadLength);
    }
    if let Some(b) = blocks::bad_sum(file) {
        return Err(Refusal::BadSum(b));
    }
    if let Some(b) = blocks::bad_block(F::layout(), file) {
        return Err(Refusal::BadBlock(b));
    }
    search::examine_hour(&FileHour::<F>::new(file))
}

// An hour file, any bytes: accepted, or the first of refusals 1 to 5 and 14.
pub fn examine(file: &[u8]) -> Result<(), Refusal>
    ensures { Refusals.verdict_of result ≡ Refusals.verdict (Refusals.file_rows file.now) }
{
    examine_form::<Hourly>(file)
}

// A ten-minute file, any bytes: accepted, or the first of refusals 1 to 5.
pub fn examine_ten_minutes(file: &[u8]) -> Result<(), Refusal>
    ensures { Refusals.verdict_of result ≡ Refusals.verdict (Refusals.form_rows ten_minutes_form file.now) }
{
    examine_form::<TenMinutes>(file)
}
