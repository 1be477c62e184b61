// What the nodes of the short rules list: triples, pairs and columns, read off a rule's leaves. Each walk over them is a `for`: one that took a closure
// would be no shorter, and its contract would speak of what the closure may return.
ghost use Rattle.std.specs.Prelude.{◌≡◌, false, [], ◌∷◌, map, ◌+◌, ◌≤◌, length};
ghost use Rattle.relations.specs.Limits.{column_limit, list_words, triple_limit, pair_limit};
ghost use Rattle.relations.specs.Lists.{flat, filter};
ghost use Rattle.relations.specs.PlanWords.{triple_words, pair_words};
ghost use Rattle.calculus.specs.Leaves.{compares_with_other, equates_with, equates_outside, own_attribute};
ghost use Rattle.calculus.specs.ShortRules.{triples_of, outside_triples, division_pairs};
ghost use Rattle.question.specs.Trees.{atom_of};
ghost use Rattle.conditions.specs.Scopes.{scope_of, ScopeFits};
ghost use Rattle.conditions.specs.Atoms.{AtomNarrow};
ghost use Rattle.conditions.specs.Leaves.{atoms_of, LeavesFit};
ghost use Rattle.short_rules.specs.Lists as lists;
ghost use Rattle.emission.specs.NodeLists.{node_list, grown_by, numbers_of};

use conditions::atom::{compares_with_other, equates_outside, equates_with, sides_of};
use conditions::leaves::leaf;
use conditions::scope::Scope;
use emission::node_list::NodeList;
use nodes::node::Atom;
use terms::operator::Operator;

// The triple of an atom that compares x with another variable: P's column is on the left, and the operator is turned when the sides are.
fn extend_by_triple(list: &mut NodeList, scope: &Scope, x: u32, atom: Atom)
    requires { ScopeFits scope.now × AtomNarrow atom × (list.old.used + length (flat triple_words (triples_of (scope_of scope.now) x (atom_of atom ∷ []))) ≤ list_words) }
    ensures { list.new ≡ grown_by list.old (flat triple_words (triples_of (scope_of scope.now) x (atom_of atom ∷ []))) }
{
    if !compares_with_other(x, atom) {
        return;
    }
    let sides = sides_of(x, atom);
    let other = scope.column_of(sides.variable, sides.other);
    if atom.variable == x {
        list.extend(&[other.0, u32::from(atom.operator.turned()), sides.own.0]);
    } else {
        list.extend(&[other.0, u32::from(atom.operator), sides.own.0]);
    }
}

pub fn triples_of(words: &[u32], scope: &Scope, x: u32, leaves: &[u32], opposite: bool) -> NodeList
    requires { ScopeFits scope.now × LeavesFit words.now leaves.now × (length (filter (compares_with_other x) (atoms_of words.now opposite leaves.now)) ≤ triple_limit) }
    ensures { result ≡ node_list (flat triple_words (triples_of (scope_of scope.now) x (atoms_of words.now opposite leaves.now))) }
{
    let mut list = NodeList::new();
    for number in leaves {
        extend_by_triple(&mut list, scope, x, leaf(words, *number, opposite));
    }
    list
}

// S5's two kinds of equations: z = a variable outside, z = y.
fn links(outside: bool, z: u32, y: u32, atom: Atom) -> bool
    ensures { result ≡ lists.links outside z y (atom_of atom) }
{
    if outside {
        equates_outside(z, y, atom)
    } else {
        equates_with(z, y, atom)
    }
}

// z's attribute in each equation of one kind, repeats kept, behind the columns of the list.
pub fn extend_by_own_columns(
    list: &mut NodeList,
    words: &[u32],
    outside: bool,
    z: u32,
    y: u32,
    leaves: &[u32],
)
    requires { LeavesFit words.now leaves.now × (list.old.used + length (filter (lists.links outside z y) (atoms_of words.now false leaves.now)) ≤ list_words) }
    ensures { list.new ≡ grown_by list.old (numbers_of (map (own_attribute z) (filter (lists.links outside z y) (atoms_of words.now false leaves.now)))) }
{
    for number in leaves {
        let atom = leaf(words, *number, false);
        if links(outside, z, y, atom) {
            list.push(sides_of(z, atom).own.0);
        }
    }
}

// Pairs (column, y's attribute) for the equations z = y; the columns count up from `first`.
pub fn division_pairs(words: &[u32], z: u32, y: u32, leaves: &[u32], first: u32) -> NodeList
    requires { LeavesFit words.now leaves.now × (length (filter (equates_with z y) (atoms_of words.now false leaves.now)) ≤ pair_limit) × (first ≤ column_limit) }
    ensures { result ≡ node_list (flat pair_words (division_pairs z (filter (equates_with z y) (atoms_of words.now false leaves.now)) first)) }
{
    let mut list = NodeList::new();
    let mut column = first;
    for number in leaves {
        let atom = leaf(words, *number, false);
        if equates_with(z, y, atom) {
            list.extend(&[column, sides_of(z, atom).other.0]);
            column += 1;
        }
    }
    list
}

// Triples (P's column, =, column) for the equations with a variable outside; the columns count up from 1.
pub fn outside_triples(words: &[u32], scope: &Scope, z: u32, y: u32, leaves: &[u32]) -> NodeList
    requires { ScopeFits scope.now × LeavesFit words.now leaves.now × (length (filter (equates_outside z y) (atoms_of words.now false leaves.now)) ≤ triple_limit) }
    ensures { result ≡ node_list (flat triple_words (outside_triples (scope_of scope.now) z (filter (equates_outside z y) (atoms_of words.now false leaves.now)) 1)) }
{
    let mut list = NodeList::new();
    let mut column = 1;
    for number in leaves {
        let atom = leaf(words, *number, false);
        if equates_outside(z, y, atom) {
            let sides = sides_of(z, atom);
            let other = scope.column_of(sides.variable, sides.other);
            list.extend(&[other.0, u32::from(Operator::Equal), column]);
            column += 1;
        }
    }
    list
}
