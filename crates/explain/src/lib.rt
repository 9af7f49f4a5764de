// Why a member's charge is what it is (document 02, A5): its exact amount under five heads, and the head that decided, of every file and
// every member number. The same as text is `report`'s.
#![tactic(auto)]

ghost use Rattle.std.specs.Prelude.{◌≡◌};
ghost use Rattle.rules.specs.Explanation as Explanation;
ghost use Rattle.rules.specs.Explanation.{explanation_of};
ghost use Rattle.explain.specs.Settled.{Settled};

use hour::Hour;
use rules::{Explained, Refusal};

pub mod boundary;
mod heads;

// Of an hour that settling has accepted: only a member number that isn't there is left to refuse. It is a function of its own, so that its
// hour takes no stack while settling is at work.
fn explain_settled(
    file: &[u8],
    member: usize,
    charges: &[i64],
    shares: &[i64],
    deviations: &[i64],
) -> Result<Explained, Refusal>
    requires { Settled file.now charges.now shares.now deviations.now }
    ensures { explanation_of result ≡ Explanation.explain file.now member }
{
    let hour = Hour::of(file);
    if hour.members <= member {
        return Err(Refusal::NoMember);
    }
    let heads = heads::heads_of(&hour, member, deviations, shares);
    let decided = heads::decided(charges[member], heads);
    Ok(Explained { heads, decided })
}

// Explains a member's charge, with room of its own for what settling leaves.
pub fn explain(file: &[u8], member: u32) -> Result<Explained, Refusal>
    ensures { explanation_of result ≡ Explanation.explain file.now member }
{
    let mut charges = [0; 32];
    let mut finals = [0; 32];
    let mut shares = [0; 250];
    let mut deviations = [0; 250];
    pool::settle_unlined(
        file,
        &mut charges,
        &mut finals,
        &mut shares,
        &mut deviations,
    )?;
    explain_settled(file, member as usize, &charges, &shares, &deviations)
}
