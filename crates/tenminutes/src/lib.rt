// Ten-minute settlement: a record's intervals, a member's nets by zone and interval, what they cost, and the charges.
#![tactic(auto)]

ghost use Rattle.std.specs.Prelude.{◌≡◌};
ghost use Rattle.rules.specs.Refusals.{verdict_of};
ghost use Rattle.rules.specs.TenMinutes.{settle_ten_minutes};

use crate::words::Hour;
use rules::Refusal;

pub mod boundary;
mod chain;
mod charges;
mod cost;
mod interval;
mod nets;
mod words;

// Settles a ten-minute file: any bytes, any length of the charges. Every check runs before the first store, so that a refusal changes
// nothing.
pub fn settle(file: &[u8], charges: &mut [i64]) -> Result<(), Refusal>
    ensures verdict { verdict_of result ≡ (settle_ten_minutes file.now charges.old).verdict }
    ensures charges { charges.new ≡ (settle_ten_minutes file.now charges.old).charges }
{
    examine::examine_ten_minutes(file)?;
    let hour = Hour::new(file);
    if charges.len() < hour.members {
        return Err(Refusal::TooShort);
    }
    charges::put_charges(hour, charges);
    Ok(())
}
