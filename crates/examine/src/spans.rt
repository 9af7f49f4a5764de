// Whether a ten-minute record keeps all its rules, told span by span: a span is words that stand side by side and have one rule. The spans of
// a kind are written out, so that the compiler makes two instructions of a word; word by word, choosing each word's rule, a search costs twice
// as much.
ghost use Rattle.std.specs.Prelude.{◌≡◌, ◌≤◌};
ghost use Rattle.examine.specs.Span as Span;

use crate::words::Words;
use rules::{Kind, Rule};
use std::ops::Range;
use wordrules::{ADJUSTMENT, ENERGY, MULTIPLIER, ZERO, keeps};

// Whether the words of a span keep a rule.
fn span_keeps<W: Words>(rule: Rule, words: &W, mut span: Range<usize>) -> bool
    requires { span.end ≤ W.count words.now }
    ensures { result ≡ Span.span_keeps rule (W.at words.now) span.start span.end }
{
    span.all(|w| keeps(rule, words.word(w)))
}

// The words that not every kind uses.
#[tactic(auto, unfolding(crate::specs::Span::kind_keeps))]
fn kind_keeps<W: Words>(kind: Kind, words: &W) -> bool
    requires { W.count words.now ≡ 30 }
    ensures { result ≡ Span.kind_keeps kind (W.at words.now) }
{
    match kind {
        Kind::Generator => {
            span_keeps(ENERGY, words, 4..6)
                && span_keeps(MULTIPLIER, words, 6..8)
                && span_keeps(ENERGY, words, 8..14)
                && span_keeps(ENERGY, words, 20..26)
        }
        // It has no multipliers.
        Kind::RealTimeLoad => {
            span_keeps(ENERGY, words, 4..6)
                && span_keeps(ZERO, words, 6..8)
                && span_keeps(ENERGY, words, 8..14)
                && span_keeps(ENERGY, words, 20..26)
        }
        // It has no ramp and no multipliers, and of the actuals its hourly reading alone.
        Kind::ProfileLoad => {
            span_keeps(ZERO, words, 4..8)
                && span_keeps(ENERGY, words, 8..9)
                && span_keeps(ZERO, words, 9..14)
                && span_keeps(ENERGY, words, 20..26)
        }
        // It has no ramp and no actuals.
        Kind::Import => {
            span_keeps(ZERO, words, 4..6)
                && span_keeps(MULTIPLIER, words, 6..8)
                && span_keeps(ZERO, words, 8..14)
                && span_keeps(ENERGY, words, 20..26)
        }
        // It has no ramp, no multipliers and no ancillary figures.
        Kind::Export => {
            span_keeps(ZERO, words, 4..8)
                && span_keeps(ENERGY, words, 8..14)
                && span_keeps(ZERO, words, 20..26)
        }
        Kind::Unknown => false,
    }
}

// All words, in a file of so many members and areas.
#[tactic(auto, unfolding(crate::specs::Span::record_keeps))]
pub fn record_keeps<W: Words>(members: u32, areas: u32, words: &W) -> bool
    requires { W.count words.now ≡ 30 }
    ensures { result ≡ Span.record_keeps members areas (W.at words.now) }
{
    words.word(1) < members
        && words.word(2) < areas
        && span_keeps(ENERGY, words, 3..4)
        && span_keeps(ADJUSTMENT, words, 14..20)
        && span_keeps(ZERO, words, 26..30)
        && kind_keeps(Kind::from(words.word(0)), words)
}
