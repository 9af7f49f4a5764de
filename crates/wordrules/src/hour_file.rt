// The hour file's rules (document 01).
ghost use Rattle.std.specs.Prelude.{◌≡◌};
ghost use Rattle.rules.specs.Ranges as Ranges;
ghost use Rattle.wordrules.specs.Hourly.{hourly_laws};

use crate::form::Form;
use crate::{ADJUSTMENT, ENERGY, MULTIPLIER, ZERO, counts_rule};
use rules::{Kind, Layout, Rule};

#[derive(Clone, Copy, Debug, PartialEq, Eq)]
pub struct Hourly;

// Word `w` of an area, in a file of so many zones.
#[tactic(auto, using(crate::proofs::Tests::hour_tables))]
fn area_rule(zones: u32, w: usize) -> Rule
    ensures { result ≡ Ranges.area_rule zones w }
{
    match w {
        0 => Rule::LessThan(zones),
        1..=2 => Rule::Between(0, 10000000),
        _ => ZERO,
    }
}

impl Form for Hourly {
    ghost form = { Ranges.hourly_form };

    ghost rules_of = { Ranges.rules_of };

    const HEAD_END: usize = 48;

    ghost HEAD_END = { 48 };

    ghost laws = { hourly_laws };

    fn layout() -> Layout {
        rules::hourly()
    }

    #[tactic(auto, using(std::proofs::lemmas::Bool::Decides::nat_tests), unfolding(rules::specs::Ranges::head_rule))]
    fn head_rule(zones: u32, areas: u32, w: usize) -> Rule {
        match w {
            0..=8 => Rule::Any,
            9..=11 => counts_rule(w),
            12..=15 if w - 12 < zones as usize => Rule::AtMostInSize(1000000),
            16..=47 if (w - 16) / 4 < areas as usize => area_rule(zones, (w - 16) % 4),
            _ => ZERO,
        }
    }

    #[tactic(auto, using(crate::proofs::Tests::hour_tables))]
    fn rule_in_use(w: usize) -> Rule {
        match w {
            5 => ADJUSTMENT,
            0..=8 => ENERGY,
            9..=10 => MULTIPLIER,
            _ => ZERO,
        }
    }

    #[tactic(auto, using(crate::proofs::Tests::hour_tables), unfolding(rules::specs::Ranges::rules_of, rules::specs::Ranges::keeps))]
    fn uses(kind: Kind, w: usize) -> bool {
        match kind {
            Kind::Generator => w < 11,
            Kind::RealTimeLoad | Kind::ProfileLoad => w < 8,
            // Its actual energy is deemed to be the scheduled.
            Kind::Import => matches!(w, 0..=3 | 5..=6 | 9..=10),
            Kind::Export => w < 6,
            Kind::Unknown => false,
        }
    }
}
