// The lines of a statement (document 01, "The printed statement") and of an explanation as bytes on a page, from numbers and refusals alone.
#![tactic(auto)]

ghost use Rattle.std.specs.Prelude.{◌≤◌, ◌<◌, nat_abs};
ghost use Rattle.rules.specs.Refusals.{refused_at, refusal_verdict};
ghost use Rattle.rules.specs.Statement.{first_line, member_line, refused_line, charge_line};
ghost use Rattle.printing.specs.Page.{Adds, HasRoom};
ghost use Rattle.printing.specs.Charged.{charged};

use crate::page::Page;
use rules::Refusal;

pub mod explanation;
pub mod page;

// Line 1. The room is for twenty digits of each number.
pub fn put_first_line(page: &mut Page, hour: u64, members: u64, records: u64)
    requires { HasRoom page.old 84 }
    ensures { Adds page.old page.new 84 (first_line hour members records) }
{
    page.text(b"hour ");
    page.number(hour);
    page.text(b" members ");
    page.number(members);
    page.text(b" records ");
    page.number(records);
    page.text(b"\n");
}

// What every line of a member begins with: two digits, a blank, the charge.
fn put_charged(page: &mut Page, member: usize, charge: i64)
    requires { HasRoom page.old 17 × (member < 100) × (nat_abs charge ≤ 999999999999) }
    ensures { Adds page.old page.new 17 (charged member charge) }
{
    let tens = amount::decimal::digit(member as u64 / 10);
    let ones = amount::decimal::digit(member as u64);
    page.text(&[tens, ones, b' ']);
    page.column(charge);
}

// A member's line: two digits, a blank, the charge, a blank, the final amount.
pub fn put_member(page: &mut Page, member: usize, charge: i64, final_amount: i64)
    requires { HasRoom page.old 33 × (member < 100) × (nat_abs charge ≤ 999999999999) × (nat_abs final_amount ≤ 999999999999) }
    ensures { Adds page.old page.new 33 (member_line member charge final_amount) }
{
    put_charged(page, member, charge);
    page.text(b" ");
    page.column(final_amount);
    page.text(b"\n");
}

// A member's line of a ten-minute file, which has no finals: two digits, a blank, the charge.
pub fn put_charge(page: &mut Page, member: usize, charge: i64)
    requires { HasRoom page.old 18 × (member < 100) × (nat_abs charge ≤ 999999999999) }
    ensures { Adds page.old page.new 18 (charge_line member charge) }
{
    put_charged(page, member, charge);
    page.text(b"\n");
}

// A number and a place, as a refusal has them, and nothing else. The room is for twenty digits of each.
pub fn put_refusal(page: &mut Page, number: u64, place: u64)
    requires { HasRoom page.old 53 }
    ensures { Adds page.old page.new 53 (refused_line (refused_at number place)) }
{
    page.text(b"refused ");
    page.number(number);
    page.text(b" at ");
    page.number(place);
    page.text(b"\n");
}

// The line of a refused call.
pub fn put_refused(page: &mut Page, refusal: Refusal)
    requires { HasRoom page.old 53 }
    ensures { Adds page.old page.new 53 (refused_line (refusal_verdict refusal)) }
{
    put_refusal(page, refusal.number(), refusal.place() as u64);
}
