// A node of a plan, decoded from its words. The words of its list stay where they are.
ghost use Rattle.std.specs.Prelude.{◌≡◌, true, ◌+◌, ◌*◌, ◌≤◌, ◌<◌, length, drop};
ghost use Rattle.relations.specs.Limits.{plan_node_words};
ghost use Rattle.relations.specs.Lists.{all};
ghost use Rattle.relations.specs.Legality.{between};
ghost use Rattle.relations.specs.Nodes.{operation_of};
ghost use Rattle.relations.specs.PlanWords.{shape_of, all_zero, read_node};
ghost use Rattle.plan_reading.specs.Decoding.{spaced, operation_in, operation_known, shape_in, fits, head_in, operators_fit, head_decoded, head_read};

use relations::limits::{COLUMNS, HEAD_WORDS, OPERATORS, PAIR_WORDS, PAIRS, TRIPLE_WORDS, TRIPLES};

const LAST_OPERATOR: usize = OPERATORS as usize;

#[derive(Clone, Copy, PartialEq, Eq)]
pub enum Operation {
    Load,
    Project,
    SelectConstant,
    SelectAttribute,
    Join,
    Semijoin,
    Antijoin,
    Divide,
    Unite,
    Intersect,
    Subtract,
    Tally,
}

// A node without its list. A load's relation is its `left`.
#[derive(Clone, Copy, PartialEq, Eq)]
pub struct PlanNode {
    pub operation: Operation,
    pub left: usize,
    pub right: usize,
    pub count: usize,
}

// Which words of a node its operation uses: `unit` list words for each one counted.
#[derive(Clone, Copy, PartialEq, Eq)]
pub struct Shape {
    pub right: bool,
    pub least: usize,
    pub most: usize,
    pub unit: usize,
}

// The operation of a number. 12 is none's.
fn operation_of(number: u32) -> Option<Operation>
    ensures { operation_known result ≡ operation_of number }
{
    match number {
        1 => Some(Operation::Load),
        2 => Some(Operation::Project),
        3 => Some(Operation::SelectConstant),
        4 => Some(Operation::SelectAttribute),
        5 => Some(Operation::Join),
        6 => Some(Operation::Semijoin),
        7 => Some(Operation::Antijoin),
        8 => Some(Operation::Divide),
        9 => Some(Operation::Unite),
        10 => Some(Operation::Intersect),
        11 => Some(Operation::Subtract),
        13 => Some(Operation::Tally),
        _ => None,
    }
}

fn shape_of(operation: Operation) -> Shape
    ensures { shape_in result ≡ shape_of (operation_in operation) }
{
    let (right, least, most, unit) = match operation {
        Operation::Load => (false, 0, 0, 0),
        Operation::Project => (false, 1, COLUMNS, 1),
        Operation::SelectConstant | Operation::SelectAttribute => (false, 1, 1, TRIPLE_WORDS),
        Operation::Join | Operation::Semijoin | Operation::Antijoin => {
            (true, 0, TRIPLES, TRIPLE_WORDS)
        }
        Operation::Divide => (true, 1, PAIRS, PAIR_WORDS),
        Operation::Unite | Operation::Intersect | Operation::Subtract => (true, 0, 0, 0),
        Operation::Tally => (true, 1, 1, 1),
    };
    Shape {
        right,
        least,
        most,
        unit,
    }
}

// Whether every word from `from` on is 0.
fn all_zero(words: &[u32], from: usize) -> bool
    ensures { result ≡ all_zero (drop from words.now) }
{
    words.iter().skip(from).all(|word| 0 == *word)
}

// Whether `count` words, from `from` on and `step` apart, are each 1 to `most`.
#[tactic(auto, using(crate::proofs::WordLaws::spaced_at, crate::proofs::WordLaws::spaced_through))]
pub fn within(words: &[u32], from: usize, step: usize, count: usize, most: usize) -> bool
    requires { (1 ≤ step) × (step ≤ 3) × (from + step * count < length words.now + step) }
    ensures { result ≡ all (between 1 most) (spaced step count (drop from words.now)) }
{
    for place in 0..count {
        let word = words[from + step * place] as usize;
        if word < 1 || most < word {
            return false;
        }
    }
    true
}

// Whether the operation's unused words are 0 and its count is within bounds.
fn shape_fits(operation: Operation, words: &[u32]) -> bool
    requires { length words.now ≡ plan_node_words }
    ensures { result ≡ fits (operation_in operation) words.now }
{
    let shape = shape_of(operation);
    let count = words[3] as usize;
    if count < shape.least || shape.most < count {
        return false;
    }
    (shape.right || words[2] == 0) && all_zero(words, HEAD_WORDS + shape.unit * count)
}

// Whether the operators are known, where the list has any: one of triples has, of an attribute, an operator, and an attribute or a constant.
fn operators_fit(operation: Operation, words: &[u32]) -> bool
    requires { (length words.now ≡ plan_node_words) × (fits (operation_in operation) words.now ≡ true) }
    ensures { result ≡ operators_fit (operation_in operation) words.now }
{
    let count = words[3] as usize;
    shape_of(operation).unit != TRIPLE_WORDS
        || within(words, HEAD_WORDS + 1, TRIPLE_WORDS, count, LAST_OPERATOR)
}

fn head(operation: Operation, words: &[u32]) -> PlanNode
    requires { length words.now ≡ plan_node_words }
    ensures { result ≡ head_in operation words.now }
{
    PlanNode {
        operation,
        left: words[1] as usize,
        right: words[2] as usize,
        count: words[3] as usize,
    }
}

// The node of 36 words. None: unknown operation, count outside its bounds, unknown operator, an unused word that is not 0.
pub fn decode_node(words: &[u32]) -> Option<PlanNode>
    requires { length words.now ≡ plan_node_words }
    ensures { head_decoded result ≡ head_read (read_node words.now) }
{
    let operation = operation_of(words[0])?;
    if shape_fits(operation, words) && operators_fit(operation, words) {
        Some(head(operation, words))
    } else {
        None
    }
}
