// What each word of a file may be, as code: whether a word keeps a rule, the rule of every word of a block, and for each kind of file the
// rules of its head and of its records; and whether a generator is scheduled above its maximum. Each equals its definition for every input.
// A rule is chosen by tests and not from a stored table: the compiler then folds it into the search that asks for it, where an array of
// rules would be laid down on the stack at each word.
#![tactic(auto)]

ghost use Rattle.std.specs.Prelude.{◌≡◌, ℕ, cond, ◌-◌, ◌/◌, ◌%◌, nat_abs, get_or, eqb};
ghost use Rattle.rules.specs.Record as Record;
ghost use Rattle.rules.specs.Inner.Layouts.{FitsBody};
ghost use Rattle.rules.specs.Ranges as Ranges;
ghost use Rattle.rules.specs.Refusals as Refusals;

use rules::{Kind, Layout, Rule};

mod form;
mod hour_file;
mod ten_minutes;

pub use form::Form;
pub use hour_file::Hourly;
pub use ten_minutes::TenMinutes;

// Rules that several words have.
pub const ENERGY: Rule = Rule::Between(0, 100000);

pub const MULTIPLIER: Rule = Rule::Between(1, 20000);

pub const ADJUSTMENT: Rule = Rule::AtMostInSize(100000);

pub const ZERO: Rule = Rule::Between(0, 0);

// ---- whether a word keeps a rule

// The size of a word in two's complement.
#[tactic(auto, using(std::proofs::lemmas::Int::ints, std::proofs::lemmas::Bool::Decides::nat_tests), unfolding(rules::specs::Record::signed))]
fn size(v: u32) -> u32
    ensures { result ≡ nat_abs (Record.signed v) }
{
    v.cast_signed().unsigned_abs()
}

#[tactic(auto, using(std::proofs::lemmas::Bool::Decides::nat_tests), unfolding(rules::specs::Ranges::keeps))]
pub fn keeps(rule: Rule, v: u32) -> bool
    ensures { result ≡ Ranges.keeps rule v }
{
    match rule {
        Rule::Any => true,
        Rule::Between(least, most) => least <= v && v <= most,
        Rule::LessThan(n) => v < n,
        Rule::AtMostInSize(n) => size(v) <= n,
    }
}

// ---- words of a block

fn only(v: u32) -> Rule
    ensures { result ≡ Ranges.must_be v }
{
    Rule::Between(v, v)
}

// Word 0: the mark of the first block, or of another.
fn mark_rule(layout: Layout, b: u32) -> Rule
    ensures { result ≡ Ranges.must_be (cond (eqb b 0) layout.first layout.other) }
{
    only(if b == 0 { layout.first } else { layout.other })
}

// Word 2 of block `b` of `n`: the other blocks, or the records that the block holds.
#[tactic(auto, using(std::proofs::lemmas::Bool::Decides::nat_tests), unfolding(rules::specs::Ranges::count_rule))]
fn count_rule(layout: Layout, n: u32, b: u32) -> Rule
    requires { FitsBody layout }
    ensures { result ≡ Ranges.count_rule layout n b }
{
    let others = n.saturating_sub(1);
    let full = layout.records as u32;
    if b == 0 {
        only(others)
    } else if b < others {
        only(full)
    } else {
        Rule::Between(1, full)
    }
}

// The body of block `b`, which says that it holds `held` records.
#[tactic(auto, using(std::proofs::lemmas::Bool::Decides::nat_tests), unfolding(rules::specs::Ranges::past_rule))]
fn past_rule(layout: Layout, held: u32, b: u32, w: usize) -> Rule
    requires { FitsBody layout }
    ensures { result ≡ Ranges.past_rule layout held b w }
{
    if b == 0 || w < 8 + layout.words * (held as usize) {
        Rule::Any
    } else {
        ZERO
    }
}

// Word `w` of block `b` of `n`, which says that it holds `held` records.
#[tactic(auto, using(crate::proofs::Tests::block_table), unfolding(rules::specs::Ranges::block_rule))]
pub fn block_rule(layout: Layout, n: u32, held: u32, b: u32, w: usize) -> Rule
    requires { FitsBody layout }
    ensures { result ≡ Ranges.block_rule layout n held b w }
{
    match w {
        0 => mark_rule(layout, b),
        1 => only(b),
        2 => count_rule(layout, n, b),
        3..=6 => ZERO,
        7 => Rule::Any,
        _ => past_rule(layout, held, b, w),
    }
}

// ---- words of the head

// Words 9 to 11: members, zones and areas.
fn counts_rule(w: usize) -> Rule
    ensures { result ≡ get_or Ranges.count_rules (w - 9) Ranges.must_be_zero }
{
    match w {
        0..=9 => Rule::Between(1, 32),
        10 => Rule::Between(1, 4),
        11 => Rule::Between(1, 8),
        _ => ZERO,
    }
}

// ---- beyond the rules of words

// Whether a record of this kind is a generator that is scheduled above its maximum.
#[tactic(auto, unfolding(rules::specs::Refusals::scheduled_above))]
pub fn scheduled_above(kind: Kind, scheduled: u32, maximum: u32) -> bool
    ensures { (k : ℕ) → Record.kind_of k ≡ kind → result ≡ Refusals.scheduled_above k scheduled maximum }
{
    match kind {
        Kind::Generator => maximum < scheduled,
        _ => false,
    }
}
