// A kind of file: how its blocks are laid out, and what each word of its head and of its records may be.
ghost use Rattle.std.specs.Prelude.{◌≡◌, ℕ, List};
ghost use Rattle.rules.specs.Record.{kind_of};
ghost use Rattle.rules.specs.Ranges as Ranges;
ghost use Rattle.rules.specs.declared.Kind as KindOf;
ghost use Rattle.rules.specs.declared.Kind.TheVariants.{Generator};
ghost use Rattle.rules.specs.declared.Rule as RuleOf;
ghost use Rattle.wordrules.specs.Laws.{FormLaws, rule_for};

use crate::keeps;
use rules::{Kind, Layout, Rule};

pub trait Form {
    ghost form: { Ranges.Form };

    // Words 3 on of a record of each kind.
    ghost rules_of: { KindOf.Kind → List RuleOf.Rule };

    // The word from which on the head is zero.
    const HEAD_END: usize;

    ghost HEAD_END: { ℕ };

    fn layout() -> Layout
        ensures { result ≡ form.layout };

    // Word `w` of the head, in a file of so many zones and areas.
    fn head_rule(zones: u32, areas: u32, w: usize) -> Rule
        ensures { result ≡ form.head_rule zones areas w };

    // Word `w` of a record, from word 3 on, where its kind uses the word: a word in use has the same rule in all kinds, the generator's.
    fn rule_in_use(w: usize) -> Rule
        ensures { result ≡ rule_for rules_of Generator w };

    // Whether a record of this kind uses word `w`, from word 3 on: whether a 1 may stand there.
    fn uses(kind: Kind, w: usize) -> bool
        ensures { result ≡ Ranges.keeps (rule_for rules_of kind w) 1 };

    // Whether word `w` of a record of this kind keeps its rule, in a file of so many members and areas. The test and not the rule is handed
    // back: chosen first and tested after, a rule costs a sixth more instructions.
    #[tactic(auto, using(rules::proofs::RuleTables::zero_kept), unfolding(rules::specs::Ranges::keeps))]
    fn record_keeps(members: u32, areas: u32, kind: Kind, w: usize, v: u32) -> bool
        ensures { (k : ℕ) → kind_of k ≡ kind → result ≡ Ranges.keeps (form.record_rule members areas k w) v }
    {
        match w {
            0 => keeps(Rule::Between(1, 5), v),
            1 => v < members,
            2 => v < areas,
            _ if Self::uses(kind, w) => keeps(Self::rule_in_use(w), v),
            _ => v == 0,
        }
    }

    ghost laws: { FormLaws rules_of form HEAD_END };
}
