// A node of a question, decoded from its six words.
ghost use Rattle.std.specs.Prelude.{◌≡◌, ◌+◌, ◌*◌, ◌≤◌, length};
ghost use Rattle.relations.specs.Limits.{question_node_words};
ghost use Rattle.nodes.specs.Kinds.{field_fits};
ghost use Rattle.nodes.specs.Nodes.{kind_named, compares, form_of, node_at};

use crate::kinds::{Field, fields_of, is_of, reference_in};
use relations::limits::{ATTRIBUTES, OPERATORS, QUESTION_NODE_WORDS, VARIABLES};
use terms::attribute::Attribute;
use terms::constant::Constant;
use terms::operator::Operator;

#[derive(Clone, Copy)]
pub enum Operand {
    Of { variable: u32, attribute: Attribute },
    Fixed(Constant),
}

#[derive(Clone, Copy)]
pub struct Atom {
    pub variable: u32,
    pub attribute: Attribute,
    pub operator: Operator,
    pub operand: Operand,
}

// Of two ranges, 5, 6 and 7: the rows of either, of both, of the left one and not the right.
#[derive(Clone, Copy)]
pub enum Combination {
    Or,
    And,
    AndNot,
}

// Of conditions: 10, 11, 12.
#[derive(Clone, Copy)]
pub enum Connective {
    And,
    Or,
    Not,
}

// 13, 14, 16: of the rows of b some, every one, or at least so many meet c.
#[derive(Clone, Copy)]
pub enum Quantifier {
    Some,
    Every,
    AtLeast(u32),
}

// What binds a variable to the rows of b: a binding, whose c is the next one, or a quantifier, whose c is its condition.
#[derive(Clone, Copy)]
pub enum Binder {
    Binding,
    Quantifies(Quantifier),
}

// What a node is, but for the nodes that it refers to. Kinds that stand in a scope alike share a case.
#[derive(Clone, Copy)]
pub enum Form {
    // 1: the rows of a relation.
    Table(u32),
    // 2: opens a scope of its own; a and c see what all of b's bindings bind.
    Alpha,
    // 3: an attribute of a variable, or its whole row (attribute 0); c is the next target.
    Target { variable: u32, attribute: Attribute },
    // 4, 13, 14, 16: c sees the variable.
    Binds { variable: u32, binder: Binder },
    // 5, 6, 7: two ranges of one width, a and b.
    Combines(Combination),
    // 8, 9.
    Compares(Atom),
    // 10, 11, 12: conditions that see what it sees.
    Connects(Connective),
    IllFormed,
}

// A reference is a node's number plus one; 0 names no node. No kind has one in d or e. It stays the word that document 01 has, and no Option:
// `references_to`, question's `tree_of` and the theorems over them speak of that number.
#[derive(Clone, Copy)]
pub struct Node {
    pub form: Form,
    pub a: u32,
    pub b: u32,
    pub c: u32,
}

// The kind of the node that a reference of node `i` names: 0, the kind of none, unless that node is lower.
#[tactic(auto, unfolding(crate::specs::Nodes::kind_named))]
fn kind_named(words: &[u32], i: usize, reference: u32) -> u32
    requires { i * question_node_words ≤ length words.now }
    ensures { result ≡ kind_named words.now i reference }
{
    let named = reference as usize;
    if (1..=i).contains(&named) {
        words[(named - 1) * QUESTION_NODE_WORDS]
    } else {
        0
    }
}

// A word is within its bounds, or names a lower node of its sort.
fn field_fits(words: &[u32], i: usize, field: Field, word: u32) -> bool
    requires { i * question_node_words ≤ length words.now }
    ensures { result ≡ field_fits (kind_named words.now i) field word }
{
    match field {
        Field::Unused => word == 0,
        Field::Number => true,
        Field::Positive => 1 <= word,
        Field::Variable => word < VARIABLES,
        Field::Attribute => (1..=ATTRIBUTES).contains(&word),
        Field::AttributeOrRow => word <= ATTRIBUTES,
        Field::Operator => (1..=OPERATORS).contains(&word),
        Field::Reference(sort) => is_of(sort, kind_named(words, i, word)),
        Field::Optional(sort) => word == 0 || is_of(sort, kind_named(words, i, word)),
    }
}

fn compares(variable: u32, attribute: u32, operator: u32, operand: Operand) -> Form
    ensures { result ≡ compares variable attribute operator operand }
{
    Form::Compares(Atom {
        variable,
        attribute: Attribute(attribute),
        operator: Operator::from(operator),
        operand,
    })
}

// What the words of a kind say.
#[tactic(auto, unfolding(crate::specs::Nodes::form_of))]
fn form_of(kind: u32, a: u32, b: u32, c: u32, d: u32, e: u32) -> Form
    ensures { result ≡ form_of kind a b c d e }
{
    match kind {
        1 => Form::Table(a),
        2 => Form::Alpha,
        3 => Form::Target {
            variable: a,
            attribute: Attribute(b),
        },
        4 => Form::Binds {
            variable: a,
            binder: Binder::Binding,
        },
        5 => Form::Combines(Combination::Or),
        6 => Form::Combines(Combination::And),
        7 => Form::Combines(Combination::AndNot),
        8 => compares(a, b, c, Operand::Fixed(Constant(d))),
        9 => compares(
            a,
            b,
            c,
            Operand::Of {
                variable: d,
                attribute: Attribute(e),
            },
        ),
        10 => Form::Connects(Connective::And),
        11 => Form::Connects(Connective::Or),
        12 => Form::Connects(Connective::Not),
        13 => Form::Binds {
            variable: a,
            binder: Binder::Quantifies(Quantifier::Some),
        },
        14 => Form::Binds {
            variable: a,
            binder: Binder::Quantifies(Quantifier::Every),
        },
        16 => Form::Binds {
            variable: a,
            binder: Binder::Quantifies(Quantifier::AtLeast(d)),
        },
        _ => Form::IllFormed,
    }
}

// Node `i` of the question.
#[tactic(auto, unfolding(crate::specs::Nodes::node_at))]
pub fn decode(words: &[u32], i: usize) -> Node
    requires { i * question_node_words + question_node_words ≤ length words.now }
    ensures { result ≡ node_at words.now i }
{
    let at = i * QUESTION_NODE_WORDS;
    let kind = words[at];
    let a = words[at + 1];
    let b = words[at + 2];
    let c = words[at + 3];
    let d = words[at + 4];
    let e = words[at + 5];
    let fields = fields_of(kind);
    if field_fits(words, i, fields.a, a)
        && field_fits(words, i, fields.b, b)
        && field_fits(words, i, fields.c, c)
        && field_fits(words, i, fields.d, d)
        && field_fits(words, i, fields.e, e)
    {
        Node {
            form: form_of(kind, a, b, c, d, e),
            a: reference_in(fields.a, a),
            b: reference_in(fields.b, b),
            c: reference_in(fields.c, c),
        }
    } else {
        Node {
            form: Form::IllFormed,
            a: 0,
            b: 0,
            c: 0,
        }
    }
}

pub fn form_at(words: &[u32], i: usize) -> Form
    requires { i * question_node_words + question_node_words ≤ length words.now }
    ensures { result ≡ (node_at words.now i).form }
{
    decode(words, i).form
}
