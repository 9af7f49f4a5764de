// Settling: the tally and the members' lines are lent to each posting, and the figures are written into the caller's own buffers.
// Structs are moved here, not computed with: the sums are worked by value in `formula`.
#![tactic(auto)]

ghost use Rattle.std.specs.Prelude.{◌≡◌, ◌≤◌, length};
ghost use Rattle.whole.specs.Below.{replacing_first};
ghost use Rattle.rules.specs.Settling as Settling;
ghost use Rattle.rules.specs.Charge.{share_of};
ghost use Rattle.rules.specs.Promised.Demands.{Fits};
ghost use Rattle.rules.specs.Refusals.{accepted, verdict, file_rows};
ghost use Rattle.hour.specs.Held.{held};
ghost use Rattle.pool.specs.Buffers.{buffers};
ghost use Rattle.pool.specs.AsSettled.{AsSettled, short_for};
ghost use Rattle.pool.specs.Unlined.{unlined, FitsUnlined};

use hour::Hour;
use rules::{Line, Refusal};

// How many places each of the caller's buffers has.
#[derive(Clone, Copy, Debug, PartialEq, Eq)]
struct Lengths {
    charges: usize,
    finals: usize,
    lines: usize,
    shares: usize,
    deviations: usize,
}

// Refusal 11: charges, finals or lines shorter than the members, or shares or deviations shorter than the records.
fn too_short(hour: &Hour, lengths: Lengths) -> bool
    ensures { result ≡ short_for hour.now.members hour.now.records lengths }
{
    lengths.charges < hour.members
        || lengths.finals < hour.members
        || lengths.lines < hour.members
        || lengths.shares < hour.records
        || lengths.deviations < hour.records
}

// What settling answers of an hour that passes rows 1 to 5 and 14, and of buffers of these lengths: rows 6, 12 and 11, and the UFE figures. Row
// 7 is not among them, since no such hour breaks it.
fn answered(hour: &Hour, lengths: Lengths) -> Result<[i64; 8], Refusal>
    requires { verdict (file_rows hour.now.file.now) ≡ accepted }
    ensures { AsSettled hour.now.file.now lengths result }
{
    let tally = byarea::tally_of(hour);
    let figures = byarea::ufe_figures(hour, tally);
    if let Some(a) = byarea::area_without_demand(hour.areas, tally, figures) {
        return Err(Refusal::BadArea(a));
    }
    if bymember::neutrality::no_demand(hour, tally) {
        return Err(Refusal::NoDemand);
    }
    if too_short(hour, lengths) {
        return Err(Refusal::TooShort);
    }
    Ok(figures)
}

// Each record's share, with a room of settling's own lent: a place for each record that an hour can have.
fn put_shares(hour: &Hour, figures: [i64; 8], shares: &mut [i64])
    requires { (figures ≡ Settling.ufe_figures (held hour.now)) × ((held hour.now).count ≤ length shares.old) }
    ensures { shares.new ≡ replacing_first (share_of (held hour.now)) (held hour.now).count shares.old }
{
    let mut room = [0u64; 250];
    byrecord::shares::put_shares(hour, figures, &mut room[..hour.records], shares);
}

// Settles an hour file: any bytes, any lengths of buffers. It answers the UFE of each area, 0 past the areas. Every check runs before the first
// store, so that "unchanged" is the absence of code; then each figure is worked once, in the caller's buffers. The buffers stay five slices, as C
// lends them: with a struct of them each caller's proof has to name its loans.
pub fn settle(
    file: &[u8],
    lines: &mut [Line],
    charges: &mut [i64],
    finals: &mut [i64],
    shares: &mut [i64],
    deviations: &mut [i64],
) -> Result<[i64; 8], Refusal>
    ensures { Fits file.now
        (buffers charges.old finals.old shares.old deviations.old lines.old) result
        (buffers charges.new finals.new shares.new deviations.new lines.new) }
{
    examine::examine(file)?;
    let hour = Hour::of(file);
    let lengths = Lengths {
        charges: charges.len(),
        finals: finals.len(),
        lines: lines.len(),
        shares: shares.len(),
        deviations: deviations.len(),
    };
    let figures = answered(&hour, lengths)?;
    byrecord::deviations::put_deviations(&hour, deviations);
    put_shares(&hour, figures, shares);
    bymember::put_lines(&hour, deviations, shares, lines);
    bymember::put_charges(&lines[..hour.members], charges);
    bymember::neutrality::put_finals(&hour, charges, finals);
    Ok(figures)
}

// The same with lines of its own, one for each member that an hour can have: for callers that want no lines.
pub fn settle_unlined(
    file: &[u8],
    charges: &mut [i64],
    finals: &mut [i64],
    shares: &mut [i64],
    deviations: &mut [i64],
) -> Result<[i64; 8], Refusal>
    ensures { FitsUnlined file.now
        (unlined charges.old finals.old shares.old deviations.old) result
        (unlined charges.new finals.new shares.new deviations.new) }
{
    let mut lines = [formula::posting::empty_line(); 32];
    settle(file, &mut lines, charges, finals, shares, deviations)
}
