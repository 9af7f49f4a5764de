// Refusals 4 and 5 of an hour, and 14 of an hourly one, in their order: the head, the records, the generators' schedules. Reader and writer
// search by the same functions, wherever the hour's words stand. `wordrules` says what each word may be. Row 14 is looked for on the way
// through row 5, which comes first.
ghost use Rattle.std.specs.Prelude.{◌≡◌, ℕ, ◌<◌, ◌≤◌, Bool, true, false, ◌++◌, ◌&&◌, Some, None, MatchResult};
ghost use Rattle.rules.specs.Ranges as Ranges;
ghost use Rattle.rules.specs.Refusals as Refusals;
ghost use Rattle.examine.specs.Fault.{above_in, comparison_by};
ghost use Rattle.examine.specs.Span as Span;

use crate::spans;
use crate::words::{HourWords, Words};
use rules::{Kind, Refusal};
use wordrules::{Form, Hourly, TenMinutes, keeps};

// What the search asks of a kind of file beside the rules of its words.
pub trait Searched: Form {
    // Whether row 14 is one of this file's.
    ghost compares: { Bool };

    // What `passed` answers, by members, areas and a record's words.
    ghost passes: { ℕ → ℕ → (ℕ → ℕ) → ℕ };

    // How many of a record's first words are known to keep their rules, before each is looked at.
    fn passed<W: Words>(members: u32, areas: u32, words: &W) -> usize
        requires { W.count words.now ≡ Self.form.layout.words }
        ensures told { result ≡ passes members areas (W.at words.now) }
        ensures within { result ≤ Self.form.layout.words }
        ensures kept { (w : ℕ) → w < result
            → Ranges.keeps (Self.form.record_rule members areas (W.at words.now 0) w) (W.at words.now w) ≡ true };

    // Whether a record is a generator that is scheduled above its maximum.
    fn above_maximum<W: Words>(words: &W) -> bool
        requires { W.count words.now ≡ Self.form.layout.words }
        ensures { result ≡ (compares && Refusals.scheduled_above (W.at words.now 0) (W.at words.now 3) (W.at words.now 8)) };
}

impl Searched for Hourly {
    ghost compares = { true };

    ghost passes = { λ _ _ _. 0 };

    fn passed<W: Words>(_members: u32, _areas: u32, _words: &W) -> usize {
        0
    }

    // The kind is asked before schedule and maximum are read, which no other kind has: read first, they cost every record six instructions.
    fn above_maximum<W: Words>(words: &W) -> bool {
        let kind = Kind::from(words.word(0));
        match kind {
            Kind::Generator => wordrules::scheduled_above(kind, words.word(3), words.word(8)),
            _ => false,
        }
    }
}

impl Searched for TenMinutes {
    ghost compares = { false };

    ghost passes = { Span.passed };

    // All or none, as far as spans tell.
    fn passed<W: Words>(members: u32, areas: u32, words: &W) -> usize {
        if spans::record_keeps(members, areas, words) {
            30
        } else {
            0
        }
    }

    fn above_maximum<W: Words>(_words: &W) -> bool {
        false
    }
}

// ---- refusal 4: the head

// The first word of the head that breaks layout or range, by its number in the first block: word 8 + k of the block is word k of its body.
// From some word on all are zero.
fn bad_head<H: HourWords>(hour: &H) -> Option<usize>
    ensures { result ≡ Refusals.bad_head H.Form.form (H.hour hour.now) }
{
    let head = hour.head();
    let zones = head.word(2);
    let areas = head.word(3);
    // Loops and no `find`, which carries its answer past the range's end: it took 166 instructions more of every hour.
    for w in 9..H::Form::HEAD_END {
        if !keeps(H::Form::head_rule(zones, areas, w), head.word(w - 8)) {
            return Some(w);
        }
    }
    for w in H::Form::HEAD_END..128 {
        if head.word(w - 8) != 0 {
            return Some(w);
        }
    }
    None
}

// ---- refusals 5 and 14: the records

// The search leaves all the rows at the first record, and in it the first word, that breaks a rule: that is its error. A word that `passed`
// knows isn't looked at again. On its way it keeps the first generator that is scheduled above its maximum, which counts only where no record
// of the whole hour breaks a rule.
fn first_fault<H: HourWords>(hour: &H) -> Result<Option<usize>, (usize, usize)>
    ensures { MatchResult result
        (λ above. (Refusals.first_fault H.Form.form (H.hour hour.now) ≡ None) × (above ≡ above_in H.Form.compares (H.hour hour.now)))
        (λ fault. Refusals.first_fault H.Form.form (H.hour hour.now) ≡ Some (fault.0, fault.1)) }
{
    let size = H::Form::layout().words;
    let head = hour.head();
    let members = head.word(1);
    let areas = head.word(3);
    let mut above = None;
    let mut fault = None;
    'rows: for i in 0..hour.count() {
        let record = hour.record(i);
        if H::Form::above_maximum(&record) {
            above = above.or(Some(i));
        }
        for w in H::Form::passed(members, areas, &record)..size {
            // The kind is taken anew for each word: the compiler then makes one test of kind and word.
            let kind = Kind::from(record.word(0));
            if !H::Form::record_keeps(members, areas, kind, w, record.word(w)) {
                fault = Some((i, w));
                break 'rows;
            }
        }
    }
    match fault {
        Some(fault) => Err(fault),
        None => Ok(above),
    }
}

// ---- the rows

// Accepted, or the first of refusals 4, 5 and, of an hourly one, 14 that the hour breaks, with its place.
pub fn examine_hour<H: HourWords>(hour: &H) -> Result<(), Refusal>
    ensures { Refusals.verdict_of result
        ≡ Refusals.verdict (Refusals.word_rows H.Form.form (H.hour hour.now) ++ comparison_by H.Form.compares (H.hour hour.now)) }
{
    if let Some(w) = bad_head(hour) {
        return Err(Refusal::BadHead(w));
    }
    match first_fault(hour) {
        Err((i, _)) => Err(Refusal::BadRecord(i)),
        Ok(Some(i)) => Err(Refusal::AboveMaximum(i)),
        Ok(None) => Ok(()),
    }
}
