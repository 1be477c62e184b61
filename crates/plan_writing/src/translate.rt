// Translation: a range, the parts of an alpha and a condition call each other. Each function has a number of its own that falls at each call:
// twice the reference of the node that it is handed, or one more than twice the greatest of the references of a node's parts. Nothing that is
// long stands in these functions' frames but a scope that grows, so that the deepest question takes little stack.
ghost use Rattle.std.specs.Prelude.{◌<◌};
ghost use Rattle.relations.specs.Limits.{variable_count};
ghost use Rattle.calculus.specs.Question as calculus;
ghost use Rattle.calculus.specs.Translation.{itself, translate_condition};
ghost use Rattle.catalogue.specs.Stored.{columns_of};
ghost use Rattle.question.specs.Trees.{alpha_of, combined, quantified};
ghost use Rattle.conditions.specs.Readings.{Inside, Names, range_at, targets_at, bindings_at, restriction_at, condition_at};
ghost use Rattle.conditions.specs.Scopes.{scope_of};
ghost use Rattle.emission.specs.Written.{Written};
ghost use Rattle.plan_steps.specs.Quantifying.{wanted_in};
ghost use Rattle.plan_steps.specs.Ranges.{RangeDone};
ghost use Rattle.plan_writing.specs.Translating.{RangeReady, BindingsReady, BindingsDone, ConditionReady, translate_wanted};

use conditions::scope::Scope;
use emission::emit::{pair, product};
use nodes::node::{Binder, Combination, Connective, Form, Quantifier, decode};
use plan_steps::quantifying::{Wanted, Way, is_opposite, opposite_if, way_of, write_kept};
use plan_steps::ranges::{MadeRange, binding_variable, translate_table};
use plan_steps::targets::write_targets;
use rule_writing::rules::{write_atom, write_rule};
use short_rules::fits::{ShortRule, rule_fits, some_variable};

// A question's node words, the catalogue that it is put to, and whether its plan is to be short.
#[derive(Clone, Copy)]
pub struct Question<'a> {
    pub catalogue: &'a [u32],
    pub words: &'a [u32],
    pub short: bool,
}

// The nodes of the range that a reference names. A node of another sort, which refusal 2 shuts out, reads as relation 0.
#[cycle(translate)]
pub fn translate_range(question: &Question, reference: u32, plan: &mut [u32], n: u32) -> MadeRange
    requires { Names question.now.words.now reference × RangeReady question.now.catalogue.now plan.old (range_at question.now.words.now reference) n }
    ensures { RangeDone question.now.catalogue.now question.now.short plan.old (range_at question.now.words.now reference) n plan.new result }
{
    let node = decode(question.words, (reference - 1) as usize);
    match node.form {
        Form::Table(relation) => translate_table(
            question.catalogue,
            question.short,
            relation,
            plan,
            n,
        ),
        Form::Alpha => translate_alpha(question, node.a, node.b, node.c, plan, n),
        Form::Combines(how) => translate_ranges(question, how, node.a, node.b, plan, n),
        _ => translate_table(question.catalogue, question.short, 0, plan, n),
    }
}

// Range operation: left, right, then 9, 10 or 11.
#[cycle(translate)]
fn translate_ranges(
    question: &Question,
    how: Combination,
    left: u32,
    right: u32,
    plan: &mut [u32],
    n: u32,
) -> MadeRange
    requires { Names question.now.words.now left × Names question.now.words.now right × RangeReady question.now.catalogue.now plan.old (combined how (range_at question.now.words.now left) (range_at question.now.words.now right)) n }
    ensures { RangeDone question.now.catalogue.now question.now.short plan.old (combined how (range_at question.now.words.now left) (range_at question.now.words.now right)) n plan.new result }
{
    let first = translate_range(question, left, plan, n);
    let second = translate_range(question, right, plan, first.count);
    let count = pair(plan, second.count, how, first.count - 1, second.count - 1);
    MadeRange {
        count,
        width: first.width,
    }
}

// Alpha: first range; for each next one its nodes, then a product; T of the condition; project on the targets.
#[cycle(translate)]
fn translate_alpha(
    question: &Question,
    target: u32,
    binding: u32,
    condition: u32,
    plan: &mut [u32],
    n: u32,
) -> MadeRange
    requires { Inside question.now.words.now target × Names question.now.words.now binding × Inside question.now.words.now condition × RangeReady question.now.catalogue.now plan.old (alpha_of (targets_at question.now.words.now target) (bindings_at question.now.words.now binding) (restriction_at question.now.words.now condition)) n }
    ensures { RangeDone question.now.catalogue.now question.now.short plan.old (alpha_of (targets_at question.now.words.now target) (bindings_at question.now.words.now binding) (restriction_at question.now.words.now condition)) n plan.new result }
{
    let node = decode(question.words, (binding - 1) as usize);
    let Some(variable) = binding_variable(node.form) else {
        return translate_table(question.catalogue, question.short, 0, plan, n);
    };
    let first = translate_range(question, node.b, plan, n);
    let mut scope = Scope::new();
    scope.extend(variable, first.width);
    let p = first.count - 1;
    let joined = translate_bindings(question, node.c, &mut scope, p, plan, first.count);
    let kept = translate_condition(
        question,
        condition,
        Wanted::Itself,
        &scope,
        joined - 1,
        plan,
        joined,
    );
    write_targets(question.words, question.short, target, &scope, plan, kept)
}

// The next bindings: each range, and its product with the value p. The scope gets their variables.
#[cycle(translate)]
fn translate_bindings(
    question: &Question,
    reference: u32,
    scope: &mut Scope,
    p: u32,
    plan: &mut [u32],
    n: u32,
) -> u32
    requires { Inside question.now.words.now reference × BindingsReady question.now.catalogue.now plan.old (bindings_at question.now.words.now reference) scope.old n }
    ensures { BindingsDone question.now.catalogue.now question.now.short plan.old (bindings_at question.now.words.now reference) scope.old p n plan.new scope.new result }
{
    if reference == 0 {
        return n;
    }
    let node = decode(question.words, (reference - 1) as usize);
    let Some(variable) = binding_variable(node.form) else {
        return n;
    };
    let made = translate_range(question, node.b, plan, n);
    let q = made.count;
    let count = product(plan, q, p, q - 1);
    scope.extend(variable, made.width);
    translate_bindings(question, node.c, scope, q, plan, count)
}

// T(f, P): the nodes for the rows of P, node p, that meet the condition that a reference names, or for what else is wanted of it; none are P itself.
#[cycle(translate)]
fn translate_condition(
    question: &Question,
    reference: u32,
    wanted: Wanted,
    scope: &Scope,
    p: u32,
    plan: &mut [u32],
    n: u32,
) -> u32
    requires { Inside question.now.words.now reference × ConditionReady question.now.catalogue.now plan.old (wanted_in wanted) (restriction_at question.now.words.now reference) scope.now n }
    ensures { Written plan.old n (translate_wanted (columns_of question.now.catalogue.now) question.now.short (wanted_in wanted) (restriction_at question.now.words.now reference) (scope_of scope.now) p n) plan.new result }
{
    if reference == 0 {
        return n;
    }
    let node = decode(question.words, (reference - 1) as usize);
    match node.form {
        Form::Compares(atom) => write_atom(scope, is_opposite(wanted), atom, p, plan, n),
        Form::Connects(connective) => match connective {
            Connective::And => {
                let first = translate_part(question, node.a, scope, p, plan, n);
                translate_part(question, node.b, scope, first - 1, plan, first)
            }
            Connective::Or => {
                let first = translate_part(question, node.a, scope, p, plan, n);
                let second = translate_part(question, node.b, scope, p, plan, first);
                pair(plan, second, Combination::Or, first - 1, second - 1)
            }
            Connective::Not => {
                let opposite = question.short & rule_fits(question.words, ShortRule::S3, 0, node.a);
                let met = translate_condition(
                    question,
                    node.a,
                    opposite_if(opposite),
                    scope,
                    p,
                    plan,
                    n,
                );
                if opposite {
                    return met;
                }
                pair(plan, met, Combination::AndNot, p, met - 1)
            }
        },
        Form::Binds { variable, binder } => match binder {
            Binder::Quantifies(quantifier) => translate_quantifier(
                question, quantifier, wanted, variable, node.b, node.c, scope, p, plan, n,
            ),
            Binder::Binding => n,
        },
        _ => n,
    }
}

// A side of an "and" or an "or". This is only a call: what it lends stands in one place of the frame above it for all four sides.
#[cycle(translate)]
fn translate_part(
    question: &Question,
    reference: u32,
    scope: &Scope,
    p: u32,
    plan: &mut [u32],
    n: u32,
) -> u32
    requires { Inside question.now.words.now reference × ConditionReady question.now.catalogue.now plan.old itself (restriction_at question.now.words.now reference) scope.now n }
    ensures { Written plan.old n (translate_wanted (columns_of question.now.catalogue.now) question.now.short itself (restriction_at question.now.words.now reference) (scope_of scope.now) p n) plan.new result }
{
    translate_condition(question, reference, Wanted::Itself, scope, p, plan, n)
}

// Some, every, at least: a short rule; the division of S5 by the "some" below; else range, product Q with P, T(f, Q), and of Q's rows what the quantifier keeps of P.
// It calls itself there, so the compiler does not inline it: a "not" takes no room for what only a quantifier needs.
#[cycle(translate)]
fn translate_quantifier(
    question: &Question,
    quantifier: Quantifier,
    wanted: Wanted,
    x: u32,
    range: u32,
    condition: u32,
    scope: &Scope,
    p: u32,
    plan: &mut [u32],
    n: u32,
) -> u32
    requires { (x < variable_count) × Names question.now.words.now range × Names question.now.words.now condition × ConditionReady question.now.catalogue.now plan.old (wanted_in wanted) (calculus.on_condition (quantified quantifier x (range_at question.now.words.now range) (condition_at question.now.words.now condition))) scope.now n }
    ensures { Written plan.old n (translate_condition (columns_of question.now.catalogue.now) question.now.short (quantified quantifier x (range_at question.now.words.now range) (condition_at question.now.words.now condition)) (wanted_in wanted) (scope_of scope.now) p n) plan.new result }
{
    let made = translate_range(question, range, plan, n);
    let q = made.count;
    match way_of(
        question.words,
        question.short,
        quantifier,
        wanted,
        x,
        condition,
    ) {
        Way::ByRule(rule) => write_rule(
            question.words,
            scope,
            rule,
            x,
            made.width,
            condition,
            0,
            0,
            p,
            plan,
            q,
        ),
        Way::AsDivisor { y, k } => write_rule(
            question.words,
            scope,
            ShortRule::S5,
            x,
            made.width,
            condition,
            y,
            k,
            p,
            plan,
            q,
        ),
        Way::ByDivision => {
            let node = decode(question.words, (condition - 1) as usize);
            match some_variable(node.form) {
                Some(z) => translate_quantifier(
                    question,
                    Quantifier::Some,
                    Wanted::Division { y: x, k: q - 1 },
                    z,
                    node.b,
                    node.c,
                    scope,
                    p,
                    plan,
                    q,
                ),
                // `way_of` answers so above a "some" alone.
                None => unreachable!(),
            }
        }
        Way::Plain => {
            let mut inner = *scope;
            inner.extend(x, made.width);
            let count = product(plan, q, p, q - 1);
            let meeting = translate_condition(
                question,
                condition,
                Wanted::Itself,
                &inner,
                q,
                plan,
                count,
            );
            write_kept(quantifier, scope.columns_in(), p, q, plan, meeting)
        }
    }
}
