// The rules of a file of ten-minute settlement (document 02, A7).
ghost use Rattle.std.specs.Prelude.{◌≡◌, cond, ◌&&◌, ◌/◌, ◌%◌, ltb, eqb};
ghost use Rattle.rules.specs.Ranges as Ranges;
ghost use Rattle.wordrules.specs.TenMinutes.{ten_minutes_laws};

use crate::form::Form;
use crate::{ADJUSTMENT, ENERGY, MULTIPLIER, ZERO, counts_rule};
use rules::{Kind, Layout, Rule};

const PRICE: Rule = Rule::AtMostInSize(100000);

#[derive(Clone, Copy, Debug, PartialEq, Eq)]
pub struct TenMinutes;

impl Form for TenMinutes {
    ghost form = { Ranges.ten_minutes_form };

    ghost rules_of = { Ranges.ten_minutes_rules_of };

    const HEAD_END: usize = 96;

    ghost HEAD_END = { 96 };

    ghost laws = { ten_minutes_laws };

    fn layout() -> Layout {
        rules::ten_minutes()
    }

    // An area has its zone, and no ties; a zone has twelve prices.
    #[tactic(auto, using(std::proofs::lemmas::Bool::Decides::nat_tests), unfolding(rules::specs::Ranges::ten_minutes_head_rule))]
    fn head_rule(zones: u32, areas: u32, w: usize) -> Rule {
        match w {
            0..=8 => Rule::Any,
            9..=11 => counts_rule(w),
            16..=47 if (w - 16) / 4 < areas as usize && (w - 16) % 4 == 0 => Rule::LessThan(zones),
            48..=95 if (w - 48) / 12 < zones as usize => PRICE,
            _ => ZERO,
        }
    }

    // Schedules, multipliers, actuals, adjustments, ancillary figures.
    #[tactic(auto, using(crate::proofs::Tests::interval_tables))]
    fn rule_in_use(w: usize) -> Rule {
        match w {
            0..=5 | 8..=13 | 20..=25 => ENERGY,
            6..=7 => MULTIPLIER,
            14..=19 => ADJUSTMENT,
            _ => ZERO,
        }
    }

    #[tactic(auto, using(crate::proofs::Tests::interval_tables), unfolding(rules::specs::Ranges::ten_minutes_rules_of, rules::specs::Ranges::keeps))]
    fn uses(kind: Kind, w: usize) -> bool {
        match kind {
            Kind::Generator => w < 26,
            // It has no multipliers.
            Kind::RealTimeLoad => matches!(w, 0..=5 | 8..=25),
            // This hour's schedule, its hourly reading, adjustments and ancillary figures.
            Kind::ProfileLoad => matches!(w, 0..=3 | 8 | 14..=25),
            // It has no actuals.
            Kind::Import => matches!(w, 0..=3 | 6..=7 | 14..=25),
            // It has no ancillary figures.
            Kind::Export => matches!(w, 0..=3 | 8..=19),
            Kind::Unknown => false,
        }
    }
}
