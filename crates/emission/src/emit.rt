// Plan nodes written at the end of a plan: each function writes node `n` and returns the number of nodes that there are then.
// The plan and n stay two parameters: a caller holds the numbers of several values at once, and each answer is the next n.
ghost use Rattle.std.specs.Prelude.{◌≡◌, [], ◌∷◌, ◌+◌, ◌*◌, ◌≤◌, length};
ghost use Rattle.std.proofs.lemmas.List.Edits.{sets};
ghost use Rattle.relations.specs.Limits.{list_words, plan_node_words};
ghost use Rattle.relations.specs.Nodes as nodes;
ghost use Rattle.calculus.specs.Scope.{all_columns};
ghost use Rattle.emission.specs.Joins.{combination_number, paired, linking_number, linking_unit, linked, ListsFor};
ghost use Rattle.emission.specs.NodeLists.{padded, attributes_in, ListsAttributes};
ghost use Rattle.emission.specs.Selects.{selecting};
ghost use Rattle.emission.specs.Written.{Room, Written};

use crate::node_list::NodeList;
use nodes::node::Combination;
use relations::limits::{HEAD_WORDS, LIST_WORDS, PAIR_WORDS, PLAN_NODE_WORDS, TRIPLE_WORDS};
use terms::attribute::Attribute;
use terms::constant::Constant;
use terms::operator::Operator;

// The node's list words are those of the list, then zeros.
fn push(
    plan: &mut [u32],
    n: u32,
    operation: u32,
    left: u32,
    right: u32,
    count: u32,
    list: &[u32],
) -> u32
    requires { Room plan.old n 1 × (length list.now ≤ list_words) }
    ensures { (plan.new ≡ sets plan.old (n * plan_node_words) (operation ∷ left ∷ right ∷ count ∷ padded list.now)) × (result ≡ n + 1) }
{
    let at = (n as usize) * PLAN_NODE_WORDS;
    plan[at] = operation;
    plan[at + 1] = left;
    plan[at + 2] = right;
    plan[at + 3] = count;
    for j in 0..LIST_WORDS {
        plan[at + HEAD_WORDS + j] = list.get(j).copied().unwrap_or(0);
    }
    n + 1
}

pub fn load(plan: &mut [u32], n: u32, relation: u32) -> u32
    requires { Room plan.old n 1 }
    ensures { Written plan.old n (nodes.load relation ∷ []) plan.new result }
{
    push(plan, n, 1, relation, 0, 0, &[0])
}

pub fn project(plan: &mut [u32], n: u32, left: u32, attributes: NodeList) -> u32
    requires { Room plan.old n 1 × ListsAttributes attributes }
    ensures { Written plan.old n (nodes.project left (attributes_in attributes) ∷ []) plan.new result }
{
    push(plan, n, 2, left, 0, attributes.used, &attributes.words)
}

// A project on the first columns, so many.
pub fn project_first(plan: &mut [u32], n: u32, left: u32, columns: u32) -> u32
    requires { Room plan.old n 1 × (columns ≤ list_words) }
    ensures { Written plan.old n (nodes.project left (all_columns columns) ∷ []) plan.new result }
{
    let mut first = NodeList::new();
    first.extend_columns(1, columns);
    project(plan, n, left, first)
}

// What a select compares an attribute with (operations 4 and 3).
#[derive(Clone, Copy)]
pub enum Comparand {
    Attribute(Attribute),
    Constant(Constant),
}

pub fn select(
    plan: &mut [u32],
    n: u32,
    left: u32,
    attribute: Attribute,
    operator: Operator,
    with: Comparand,
) -> u32
    requires { Room plan.old n 1 }
    ensures { Written plan.old n (selecting left attribute.0 operator with ∷ []) plan.new result }
{
    match with {
        Comparand::Attribute(other) => {
            let list = [attribute.0, u32::from(operator), other.0];
            push(plan, n, 4, left, 0, 1, &list)
        }
        Comparand::Constant(constant) => {
            let list = [attribute.0, u32::from(operator), constant.0];
            push(plan, n, 3, left, 0, 1, &list)
        }
    }
}

// A join with no triples.
pub fn product(plan: &mut [u32], n: u32, left: u32, right: u32) -> u32
    requires { Room plan.old n 1 }
    ensures { Written plan.old n (nodes.join left right [] ∷ []) plan.new result }
{
    push(plan, n, 5, left, right, 0, &[0])
}

// Operation 13: the left rows that begin at least so many right rows.
pub fn tally(plan: &mut [u32], n: u32, left: u32, right: u32, least: u32) -> u32
    requires { Room plan.old n 1 }
    ensures { Written plan.old n (nodes.tally left right least ∷ []) plan.new result }
{
    push(plan, n, 13, left, right, 1, &[least])
}

// Operations 9, 10 and 11: the rows of either side, of both, of the left side and not the right.
fn combination_number(how: Combination) -> u32
    ensures { result ≡ combination_number how }
{
    match how {
        Combination::Or => 9,
        Combination::And => 10,
        Combination::AndNot => 11,
    }
}

pub fn pair(plan: &mut [u32], n: u32, how: Combination, left: u32, right: u32) -> u32
    requires { Room plan.old n 1 }
    ensures { Written plan.old n (paired how left right ∷ []) plan.new result }
{
    push(plan, n, combination_number(how), left, right, 0, &[0])
}

// The operations on two values with a list of triples, or of pairs.
#[derive(Clone, Copy)]
pub enum Linking {
    Semijoin,
    Antijoin,
    Divide,
}

fn linking_number(how: Linking) -> u32
    ensures { result ≡ linking_number how }
{
    match how {
        Linking::Semijoin => 6,
        Linking::Antijoin => 7,
        Linking::Divide => 8,
    }
}

// The words of a triple, or of a pair.
fn linking_unit(how: Linking) -> u32
    ensures { result ≡ linking_unit how }
{
    match how {
        Linking::Semijoin | Linking::Antijoin => TRIPLE_WORDS as u32,
        Linking::Divide => PAIR_WORDS as u32,
    }
}

pub fn link(plan: &mut [u32], n: u32, how: Linking, left: u32, right: u32, list: NodeList) -> u32
    requires { Room plan.old n 1 × ListsFor how list }
    ensures { Written plan.old n (linked how left right list ∷ []) plan.new result }
{
    push(
        plan,
        n,
        linking_number(how),
        left,
        right,
        list.used / linking_unit(how),
        &list.words,
    )
}
