// The printed statement of a ten-minute file (document 02, A7), as bytes in the caller's slice: of every byte string, and whole or not at all.
ghost use Rattle.std.specs.Prelude.{◌≡◌, ◌*◌, ◌≤◌, length};
ghost use Rattle.rules.specs.Statement as Statement;
ghost use Rattle.rules.specs.TenMinutes.{ten_minutes_in};
ghost use Rattle.bymember.specs.Charged.{Bounded};
ghost use Rattle.printing.specs.Page.{Adds, HasRoom};
ghost use Rattle.report.specs.TenMinutes.{charge_lines_of, ChargesPrintable, ten_minutes_stated};

use printing::page::Page;

// The most bytes that the statement of any byte string has: 38 for line 1, and 18 for each of 32 members (`sheet_fits` of `rules`).
pub const LONGEST: usize = 614;

// A line a member, in order, with its charge. Stays beside `statement::put_members`: one loop for both would take the line as a trait, longer
// than the two loops.
fn put_charges(page: &mut Page, members: usize, charges: &[i64])
    requires { Bounded charges.now members 999999999999 × HasRoom page.old (18 * members) }
    ensures { Adds page.old page.new (18 * members) (charge_lines_of charges.now members) }
{
    for m in 0..members {
        printing::put_charge(page, m, charges[m]);
    }
}

// Line 1, with the hour's number and the counts as the file has them, and a line for each member.
fn put_accepted(page: &mut Page, file: &[u8], charges: &[i64])
    requires { ChargesPrintable file.now charges.now × HasRoom page.old 614 }
    ensures { Adds page.old page.new 614 (Statement.charged_lines (ten_minutes_in file.now)) }
{
    let hour = blocks::head_word(file, 8) as u64;
    let members = blocks::head_word(file, 9) as usize;
    let records = blocks::records(rules::ten_minutes(), file) as u64;
    printing::put_first_line(page, hour, members as u64, records);
    put_charges(page, members, charges);
}

// Settles the file in the charges lent, which have room for every member, and puts the statement of what came out.
fn put_settled(page: &mut Page, file: &[u8], charges: &mut [i64])
    requires { (32 ≤ length charges.old) × HasRoom page.old 614 }
    ensures { Adds page.old page.new 614 (Statement.ten_minutes_statement file.now) }
{
    match tenminutes::settle(file, charges) {
        Ok(()) => put_accepted(page, file, charges),
        Err(refusal) => printing::put_refused(page, refusal),
    }
}

// Puts the statement of a ten-minute file at the start of `out`, and hands back how many bytes it has. Where `out` is shorter than the
// longest statement nothing is put, and the answer is 0.
pub fn put_ten_minutes_statement(file: &[u8], out: &mut [u8]) -> usize
    ensures count { result ≡ (ten_minutes_stated file.now out.old).count }
    ensures out { out.new ≡ (ten_minutes_stated file.now out.old).out }
{
    if out.len() < LONGEST {
        return 0;
    }
    let mut charges = [0i64; 32];
    let mut page = Page::new(out);
    put_settled(&mut page, file, &mut charges);
    page.at
}
