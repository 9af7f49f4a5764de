// The printed statement of an hour file (document 01, "The printed statement"; document 02, A1), as bytes in the caller's slice: of every
// byte string, and whole or not at all.
ghost use Rattle.std.specs.Prelude.{◌≡◌, ◌*◌, ◌≤◌, length};
ghost use Rattle.rules.specs.Statement as Statement;
ghost use Rattle.rules.specs.HourFile.{hour_in};
ghost use Rattle.bymember.specs.Charged.{Bounded};
ghost use Rattle.printing.specs.Page.{Adds, HasRoom};
ghost use Rattle.report.specs.Stated.{member_lines_of, Printable, Answered, stated};

use printing::page::Page;
use rules::Refusal;

// The most bytes that the statement of any byte string has: 39 for line 1, and 33 for each of 32 members (`statement_fits` of `rules`).
pub const LONGEST: usize = 1095;

// A line a member, in order, with its charge and its final.
fn put_members(page: &mut Page, members: usize, charges: &[i64], finals: &[i64])
    requires { Bounded charges.now members 999999999999 × Bounded finals.now members 999999999999
        × HasRoom page.old (33 * members) }
    ensures { Adds page.old page.new (33 * members) (member_lines_of charges.now finals.now members) }
{
    for m in 0..members {
        printing::put_member(page, m, charges[m], finals[m]);
    }
}

// Line 1, with the hour's number and the counts as the file has them, and a line for each member.
fn put_accepted(page: &mut Page, file: &[u8], charges: &[i64], finals: &[i64])
    requires { Printable file.now charges.now finals.now × HasRoom page.old 1095 }
    ensures { Adds page.old page.new 1095 (Statement.accepted_lines (hour_in file.now)) }
{
    let hour = hour::head_word(file, 8) as u64;
    let members = hour::head_word(file, 9) as usize;
    let records = hour::records(file) as u64;
    printing::put_first_line(page, hour, members as u64, records);
    put_members(page, members, charges, finals);
}

// The statement of a file to which settling has given this answer and, where it is accepted, these charges and finals.
fn put_answered(
    page: &mut Page,
    file: &[u8],
    answer: Result<(), Refusal>,
    charges: &[i64],
    finals: &[i64],
)
    requires { Answered file.now answer charges.now finals.now × HasRoom page.old 1095 }
    ensures { Adds page.old page.new 1095 (Statement.statement file.now) }
{
    match answer {
        Ok(()) => put_accepted(page, file, charges, finals),
        Err(refusal) => printing::put_refused(page, refusal),
    }
}

// Settles the file, in buffers with room for every hour. Only charges and finals are printed; the others are let go.
fn settle_amounts(file: &[u8], charges: &mut [i64], finals: &mut [i64]) -> Result<(), Refusal>
    requires { (32 ≤ length charges.old) × (32 ≤ length finals.old) }
    ensures { Answered file.now result charges.new finals.new }
{
    let mut shares = [0i64; 250];
    let mut deviations = [0i64; 250];
    pool::settle_unlined(file, charges, finals, &mut shares, &mut deviations)?;
    Ok(())
}

// Puts the statement of a file at the start of `out`, and hands back how many bytes it has. Where `out` is shorter than the longest
// statement nothing is put, and the answer is 0.
pub fn put_statement(file: &[u8], out: &mut [u8]) -> usize
    ensures count { result ≡ (stated file.now out.old).count }
    ensures out { out.new ≡ (stated file.now out.old).out }
{
    if out.len() < LONGEST {
        return 0;
    }
    let mut charges = [0i64; 32];
    let mut finals = [0i64; 32];
    let answer = settle_amounts(file, &mut charges, &mut finals);
    let mut page = Page::new(out);
    put_answered(&mut page, file, answer, &charges, &finals);
    page.at
}
