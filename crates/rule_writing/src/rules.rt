// The nodes that each of the short rules writes.
ghost use Rattle.std.specs.Prelude.{false, [], ◌∷◌, ◌≤◌, ◌<◌, pred, length};
ghost use Rattle.relations.specs.Limits.{column_limit, variable_count, triple_limit};
ghost use Rattle.relations.specs.Lists.{filter};
ghost use Rattle.calculus.specs.Leaves.{leaves, alone_on, compares_with_other};
ghost use Rattle.calculus.specs.ShortRules.{select_node, select_nodes, restricted_range, short_rule5_nodes};
ghost use Rattle.question.specs.Trees.{atom_of};
ghost use Rattle.conditions.specs.Readings.{condition_at};
ghost use Rattle.conditions.specs.Scopes.{scope_of, ScopeFits};
ghost use Rattle.conditions.specs.Atoms.{AtomNarrow};
ghost use Rattle.conditions.specs.Leaves.{atoms_of, LeavesFit};
ghost use Rattle.emission.specs.Written.{Room, Written};
ghost use Rattle.rule_writing.specs.Rules.{join_nodes, atom_nodes, dividend_nodes, rule_nodes, RuleFits, DividendFits, RuleReady};

use conditions::atom::{alone_on, opposite_atom};
use conditions::leaves::{Leaves, collect, leaf};
use conditions::scope::Scope;
use emission::emit::{Comparand, Linking, link, pair, select};
use emission::node_list::NodeList;
use emission::projects::write_project;
use nodes::node::{Atom, Combination, Operand};
use short_rules::fits::ShortRule;
use short_rules::lists::{division_pairs, extend_by_own_columns, outside_triples, triples_of};

// Atom: select. A select keeps the atom's sides.
fn write_select(scope: &Scope, atom: Atom, p: u32, plan: &mut [u32], n: u32) -> u32
    requires { ScopeFits scope.now × AtomNarrow atom × Room plan.old n 1 }
    ensures { Written plan.old n (select_node (scope_of scope.now) p (atom_of atom) ∷ []) plan.new result }
{
    let attribute = scope.column_of(atom.variable, atom.attribute);
    let with = match atom.operand {
        Operand::Of {
            variable,
            attribute: other,
        } => Comparand::Attribute(scope.column_of(variable, other)),
        Operand::Fixed(constant) => Comparand::Constant(constant),
    };
    select(plan, n, p, attribute, atom.operator, with)
}

// A select for each leaf on x alone, each on the value before.
fn write_selects(
    words: &[u32],
    own: &Scope,
    x: u32,
    leaves: &[u32],
    opposite: bool,
    plan: &mut [u32],
    n: u32,
) -> u32
    requires { ScopeFits own.now × LeavesFit words.now leaves.now × (1 ≤ n) × Room plan.old n (length (filter (alone_on x) (atoms_of words.now opposite leaves.now))) }
    ensures { Written plan.old n (select_nodes (scope_of own.now) (filter (alone_on x) (atoms_of words.now opposite leaves.now)) (pred n) n) plan.new result }
{
    let mut count = n;
    for number in leaves {
        let atom = leaf(words, *number, opposite);
        if alone_on(x, atom) {
            count = write_select(own, atom, count - 1, plan, count);
        }
    }
    count
}

// The selects of a range of x, which stands before node n.
fn write_own_selects(
    words: &[u32],
    x: u32,
    width: u32,
    leaves: &[u32],
    opposite: bool,
    plan: &mut [u32],
    n: u32,
) -> u32
    requires { (x < variable_count) × LeavesFit words.now leaves.now × (1 ≤ width) × (width ≤ column_limit) × (1 ≤ n) × Room plan.old n (length (filter (alone_on x) (atoms_of words.now opposite leaves.now))) }
    ensures { Written plan.old n (restricted_range x width (atoms_of words.now opposite leaves.now) [] n) plan.new result }
{
    let mut own = Scope::new();
    own.extend(x, width);
    write_selects(words, &own, x, leaves, opposite, plan, n)
}

// A semijoin from P with x's range, restricted to the leaves on x alone, which stands before node n; or an antijoin.
fn write_join(
    words: &[u32],
    scope: &Scope,
    anti: bool,
    x: u32,
    width: u32,
    leaves: &[u32],
    opposite: bool,
    p: u32,
    plan: &mut [u32],
    n: u32,
) -> u32
    requires { ScopeFits scope.now × RuleFits words.now plan.old opposite leaves.now x width n 1 × (length (filter (compares_with_other x) (atoms_of words.now opposite leaves.now)) ≤ triple_limit) }
    ensures { Written plan.old n (join_nodes anti (scope_of scope.now) x width (atoms_of words.now opposite leaves.now) p n) plan.new result }
{
    let triples = triples_of(words, scope, x, leaves, opposite);
    let count = write_own_selects(words, x, width, leaves, opposite, plan, n);
    let how = if anti {
        Linking::Antijoin
    } else {
        Linking::Semijoin
    };
    link(plan, count, how, p, count - 1, triples)
}

// Atom: select. S6, not above an atom, selects its opposite.
pub fn write_atom(
    scope: &Scope,
    opposite: bool,
    atom: Atom,
    p: u32,
    plan: &mut [u32],
    n: u32,
) -> u32
    requires { ScopeFits scope.now × AtomNarrow atom × Room plan.old n 1 }
    ensures { Written plan.old n (atom_nodes opposite (scope_of scope.now) p (atom_of atom)) plan.new result }
{
    let selected = if opposite { opposite_atom(atom) } else { atom };
    write_select(scope, selected, p, plan, n)
}

// The selects of z's range, then z's attribute in each equation with a variable outside and in each with y.
fn write_dividend(
    words: &[u32],
    y: u32,
    z: u32,
    width: u32,
    leaves: &[u32],
    plan: &mut [u32],
    n: u32,
) -> u32
    requires { DividendFits words.now plan.old leaves.now y z width n 1 }
    ensures { Written plan.old n (dividend_nodes y z width (atoms_of words.now false leaves.now) n) plan.new result }
{
    let mut columns = NodeList::new();
    extend_by_own_columns(&mut columns, words, true, z, y, leaves);
    extend_by_own_columns(&mut columns, words, false, z, y, leaves);
    let count = write_own_selects(words, z, width, leaves, false, plan, n);
    write_project(true, width, count - 1, columns, plan, count)
}

// S5: "every y", whose range is node k, above "some z", whose range stands before node n.
fn write_division(
    words: &[u32],
    scope: &Scope,
    y: u32,
    k: u32,
    z: u32,
    width: u32,
    leaves: &[u32],
    p: u32,
    plan: &mut [u32],
    n: u32,
) -> u32
    requires { ScopeFits scope.now × DividendFits words.now plan.old leaves.now y z width n 5 }
    ensures { Written plan.old n (short_rule5_nodes (scope_of scope.now) y k z width (atoms_of words.now false leaves.now) [] p n) plan.new result }
{
    let triples = outside_triples(words, scope, z, y, leaves);
    let pairs = division_pairs(words, z, y, leaves, triples.used / 3 + 1);
    let q = write_dividend(words, y, z, width, leaves, plan, n);
    let divided = link(plan, q, Linking::Divide, q - 1, k, pairs);
    let matched = link(plan, divided, Linking::Semijoin, p, q, triples);
    let unmatched = link(plan, matched, Linking::Antijoin, p, k, NodeList::new());
    pair(plan, unmatched, Combination::Or, divided, matched)
}

// What a rule that fits writes behind the range of x, which stands before node n: S2 for "some x", S3 for a "not" above it, S4 for "every x", each above the
// condition that a reference names; S5 for "every y", whose range is node k, above "some x". One function writes all of them, so that no caller's frame
// holds their leaves and lists.
pub fn write_rule(
    words: &[u32],
    scope: &Scope,
    rule: ShortRule,
    x: u32,
    width: u32,
    condition: u32,
    y: u32,
    k: u32,
    p: u32,
    plan: &mut [u32],
    n: u32,
) -> u32
    requires { RuleReady words.now plan.old scope.now rule x width condition y n }
    ensures { Written plan.old n (rule_nodes rule (scope_of scope.now) y k x width (leaves (condition_at words.now condition)) p n) plan.new result }
{
    let mut found = Leaves::new();
    collect(words, false, condition, &mut found);
    let leaves = found.numbers();
    match rule {
        ShortRule::S2 => write_join(words, scope, false, x, width, leaves, false, p, plan, n),
        ShortRule::S3 => write_join(words, scope, true, x, width, leaves, false, p, plan, n),
        ShortRule::S4 => write_join(words, scope, true, x, width, leaves, true, p, plan, n),
        ShortRule::S5 => write_division(words, scope, y, k, x, width, leaves, p, plan, n),
    }
}
