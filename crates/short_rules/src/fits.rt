// When each of the short rules fits.
ghost use Rattle.std.specs.Prelude.{◌≡◌, false, ◌&&◌, ◌≤◌};
ghost use Rattle.relations.specs.Limits.{question_node_limit};
ghost use Rattle.calculus.specs.Question as calculus;
ghost use Rattle.calculus.specs.Leaves.{leaves};
ghost use Rattle.calculus.specs.ShortRules.{short_rule2_atoms, short_rule5_atoms, short_rule5_fits};
ghost use Rattle.conditions.specs.Readings.{Names, condition_at};
ghost use Rattle.conditions.specs.Leaves.{is_tree, atoms_of, LeavesFit};
ghost use Rattle.short_rules.specs.Fits.{rule_fits, some_variable, is_atom};

use conditions::atom::{alone_on, compares_with_other, equates_outside, equates_with};
use conditions::leaves::{Leaves, collect, leaf};
use nodes::node::{Binder, Form, Quantifier, decode};
use relations::limits::{PAIRS, TRIPLES};

// The atoms that S2 and S4 ask for: each on x alone or comparing x with another variable, the latter at most 8.
fn short_rule_2_atoms(words: &[u32], x: u32, leaves: &[u32]) -> bool
    requires { LeavesFit words.now leaves.now }
    ensures { result ≡ short_rule2_atoms x (atoms_of words.now false leaves.now) }
{
    let mut fits = true;
    let mut comparing = 0;
    for number in leaves {
        let atom = leaf(words, *number, false);
        let compares = compares_with_other(x, atom);
        fits &= alone_on(x, atom) | compares;
        comparing += usize::from(compares);
    }
    fits & (comparing <= TRIPLES)
}

// The atoms that S5 asks for: each on z alone, or one of the two kinds of equations, of which there are 1 to 8 each.
fn short_rule_5_atoms(words: &[u32], z: u32, y: u32, leaves: &[u32]) -> bool
    requires { LeavesFit words.now leaves.now }
    ensures { result ≡ short_rule5_atoms z y (atoms_of words.now false leaves.now) }
{
    let mut fits = true;
    let mut shared = 0;
    let mut outside = 0;
    for number in leaves {
        let atom = leaf(words, *number, false);
        let with_y = equates_with(z, y, atom);
        let with_other = equates_outside(z, y, atom);
        fits &= alone_on(z, atom) | (with_y | with_other);
        shared += usize::from(with_y);
        outside += usize::from(with_other);
    }
    fits & ((1..=PAIRS).contains(&shared) & (1..=TRIPLES).contains(&outside))
}

// S2, or S4 where it is asked of a tree of "or"s.
fn tree_fits(words: &[u32], disjoined: bool, x: u32, reference: u32) -> bool
    requires { Names words.now reference × (calculus.condition_nodes (condition_at words.now reference) ≤ question_node_limit) }
    ensures { result ≡ (is_tree disjoined (condition_at words.now reference) && short_rule2_atoms x (leaves (condition_at words.now reference))) }
{
    let mut leaves = Leaves::new();
    collect(words, disjoined, reference, &mut leaves)
        & short_rule_2_atoms(words, x, leaves.numbers())
}

// The variable of a "some".
pub fn some_variable(form: Form) -> Option<u32>
    ensures { result ≡ some_variable form }
{
    match form {
        Form::Binds {
            variable,
            binder: Binder::Quantifies(Quantifier::Some),
        } => Some(variable),
        _ => None,
    }
}

fn is_atom(form: Form) -> bool
    ensures { result ≡ is_atom form }
{
    matches!(form, Form::Compares(_))
}

// S5 fits an "every y" above the condition that a reference names.
fn division_fits(words: &[u32], y: u32, reference: u32) -> bool
    requires { Names words.now reference × (calculus.condition_nodes (condition_at words.now reference) ≤ question_node_limit) }
    ensures { result ≡ short_rule5_fits y (condition_at words.now reference) }
{
    let node = decode(words, (reference - 1) as usize);
    match some_variable(node.form) {
        Some(z) => {
            let mut leaves = Leaves::new();
            collect(words, false, node.c, &mut leaves)
                & short_rule_5_atoms(words, z, y, leaves.numbers())
        }
        None => false,
    }
}

// The short rules that stand above a condition, by their names in document 01. S3 answers for S6 too: both stand under a "not".
#[derive(Clone, Copy)]
pub enum ShortRule {
    S2,
    S3,
    S4,
    S5,
}

// The rule fits above the condition that a reference names. S3 is S2 of the "some" below the "not"; S6 fits every atom there. One function answers for all
// of them and calls itself, so that no caller's frame holds their leaves: the compiler inlines no such function.
pub fn rule_fits(words: &[u32], rule: ShortRule, x: u32, reference: u32) -> bool
    requires { Names words.now reference × (calculus.condition_nodes (condition_at words.now reference) ≤ question_node_limit) }
    ensures { result ≡ rule_fits rule x (condition_at words.now reference) }
{
    match rule {
        ShortRule::S2 => tree_fits(words, false, x, reference),
        ShortRule::S3 => {
            let node = decode(words, (reference - 1) as usize);
            match some_variable(node.form) {
                Some(z) => rule_fits(words, ShortRule::S2, z, node.c),
                None => is_atom(node.form),
            }
        }
        ShortRule::S4 => tree_fits(words, true, x, reference),
        ShortRule::S5 => division_fits(words, x, reference),
    }
}
