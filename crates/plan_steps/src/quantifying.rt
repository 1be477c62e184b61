// What a quantifier and a short rule decide, apart from the cycle: what is wanted of a condition, which way a quantifier's nodes are made, and its last nodes.
ghost use Rattle.std.specs.Prelude.{◌≡◌, ◌≤◌};
ghost use Rattle.relations.specs.Limits.{list_words, question_node_limit};
ghost use Rattle.calculus.specs.Question.{condition_nodes};
ghost use Rattle.conditions.specs.Readings.{Names, condition_at};
ghost use Rattle.emission.specs.Written.{Room, Written};
ghost use Rattle.plan_steps.specs.Quantifying.{way_of, kept_nodes, opposite_wanted, opposite_if};

use emission::emit::{pair, project_first, tally};
use nodes::node::{Combination, Quantifier};
use short_rules::fits::{ShortRule, rule_fits};

// What the node above wants of a condition: the rows that meet it; those that don't (S3, S6); the division of S5 by y, whose range is node k.
#[derive(Clone, Copy)]
pub enum Wanted {
    Itself,
    Opposite,
    Division { y: u32, k: u32 },
}

pub fn is_opposite(wanted: Wanted) -> bool
    ensures { result ≡ opposite_wanted wanted }
{
    matches!(wanted, Wanted::Opposite)
}

pub fn opposite_if(test: bool) -> Wanted
    ensures { result ≡ opposite_if test }
{
    if test {
        Wanted::Opposite
    } else {
        Wanted::Itself
    }
}

// How a quantifier's nodes are made: by S2, S3 or S4; by S5, below "every y", whose range is node k; by S5 of the "some" below it; or plainly.
#[derive(Clone, Copy)]
pub enum Way {
    ByRule(ShortRule),
    AsDivisor { y: u32, k: u32 },
    ByDivision,
    Plain,
}

pub fn way_of(
    words: &[u32],
    short: bool,
    quantifier: Quantifier,
    wanted: Wanted,
    x: u32,
    condition: u32,
) -> Way
    requires { Names words.now condition × (condition_nodes (condition_at words.now condition) ≤ question_node_limit) }
    ensures { result ≡ way_of short quantifier wanted x (condition_at words.now condition) }
{
    match (quantifier, wanted) {
        (Quantifier::Some, Wanted::Itself)
            if short && rule_fits(words, ShortRule::S2, x, condition) => {
            Way::ByRule(ShortRule::S2)
        }
        (Quantifier::Some, Wanted::Opposite) => Way::ByRule(ShortRule::S3),
        (Quantifier::Some, Wanted::Division { y, k }) => Way::AsDivisor { y, k },
        (Quantifier::Every, _) if short && rule_fits(words, ShortRule::S4, x, condition) => {
            Way::ByRule(ShortRule::S4)
        }
        (Quantifier::Every, _) if short && rule_fits(words, ShortRule::S5, x, condition) => {
            Way::ByDivision
        }
        _ => Way::Plain,
    }
}

// Behind T(f, Q), whose last node is before node n. Some: project to P's columns. Every: difference from Q, project to P's columns, difference from P. At least so
// many: operation 13 of P and T(f, Q).
pub fn write_kept(
    quantifier: Quantifier,
    columns: u32,
    p: u32,
    q: u32,
    plan: &mut [u32],
    n: u32,
) -> u32
    requires { (columns ≤ list_words) × (1 ≤ n) × Room plan.old n 3 }
    ensures { Written plan.old n (kept_nodes quantifier columns p q n) plan.new result }
{
    match quantifier {
        Quantifier::Some => project_first(plan, n, n - 1, columns),
        Quantifier::Every => {
            let failing = pair(plan, n, Combination::AndNot, q, n - 1);
            let failed = project_first(plan, failing, n, columns);
            pair(plan, failed, Combination::AndNot, p, failing)
        }
        Quantifier::AtLeast(least) => tally(plan, n, p, n - 1, least),
    }
}
