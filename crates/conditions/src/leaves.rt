// The leaves of a tree of "and"s or of "or"s, left to right, as the numbers of their nodes.
ghost use Rattle.std.specs.Prelude.{◌≡◌, [], ◌∷◌, ◌+◌, ◌*◌, ◌≤◌, ◌<◌, length};
ghost use Rattle.relations.specs.Limits.{question_node_limit, question_node_words};
ghost use Rattle.question.specs.Trees.{tree_of, atom_of};
ghost use Rattle.conditions.specs.Atoms.{AtomNarrow};
ghost use Rattle.conditions.specs.Readings.{condition_at};
ghost use Rattle.conditions.specs.Leaves.{atom_in, no_leaves, numbers_in, leaf_at, Collectable, leaf_numbers, with_leaves, is_tree};

use crate::atom::opposite_atom;
use nodes::node::{Atom, Connective, Form, Operand, decode};
use relations::limits::QUESTION_NODES;
use terms::attribute::Attribute;
use terms::constant::Constant;
use terms::operator::Operator;

// The leaves collected so far, and how many they are. Alike emission's NodeList but for its size: what the two share is `new` and `push`, each by a
// definition of its own.
#[derive(Clone, Copy)]
pub struct Leaves {
    pub numbers: [u32; QUESTION_NODES],
    pub count: u32,
}

impl Leaves {
    pub fn new() -> Leaves
        ensures { result ≡ no_leaves }
    {
        Leaves {
            numbers: [0; QUESTION_NODES],
            count: 0,
        }
    }

    fn push(&mut self, number: u32)
        requires { self.old.count < question_node_limit }
        ensures { self.new ≡ with_leaves self.old (number ∷ []) }
    {
        self.numbers[self.count as usize] = number;
        self.count += 1;
    }

    pub fn numbers(&self) -> &[u32]
        requires { self.now.count ≤ question_node_limit }
        ensures { result.now ≡ numbers_in self.now }
    {
        &self.numbers[..self.count as usize]
    }
}

// A node's atom. A node of another form has the empty one.
fn atom_in(form: Form) -> Atom
    ensures { result ≡ atom_in form }
{
    match form {
        Form::Compares(atom) => atom,
        _ => Atom {
            variable: 0,
            attribute: Attribute(0),
            operator: Operator::Equal,
            operand: Operand::Fixed(Constant(0)),
        },
    }
}

// The atom of a leaf, or its opposite.
pub fn leaf(words: &[u32], number: u32, opposite: bool) -> Atom
    requires { number * question_node_words + question_node_words ≤ length words.now }
    ensures { (atom_of result ≡ leaf_at words.now opposite number) × AtomNarrow result }
{
    let atom = atom_in(decode(words, number as usize).form);
    if opposite { opposite_atom(atom) } else { atom }
}

// The leaves of the condition that a reference names, behind those collected so far; true if it is a tree of "or"s, or else of "and"s.
pub fn collect(words: &[u32], disjoined: bool, reference: u32, leaves: &mut Leaves) -> bool
    requires { Collectable words.now reference leaves.old }
    ensures { (leaves.new ≡ with_leaves leaves.old (leaf_numbers (tree_of words.now reference))) × (result ≡ is_tree disjoined (condition_at words.now reference)) }
{
    let number = reference - 1;
    let node = decode(words, number as usize);
    match node.form {
        Form::Compares(_) => {
            leaves.push(number);
            true
        }
        Form::Connects(connective) => match connective {
            Connective::And => {
                let first = collect(words, disjoined, node.a, leaves);
                let second = collect(words, disjoined, node.b, leaves);
                !disjoined & (first & second)
            }
            Connective::Or => {
                let first = collect(words, disjoined, node.a, leaves);
                let second = collect(words, disjoined, node.b, leaves);
                disjoined & (first & second)
            }
            Connective::Not => false,
        },
        _ => false,
    }
}
