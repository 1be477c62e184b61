// A node's legality and width, given the widths of the nodes before it.
ghost use Rattle.std.specs.Prelude.{◌≡◌, List, ℕ, ◌+◌, ◌*◌, ◌≤◌, ◌<◌, leb, length, drop};
ghost use Rattle.std.proofs.Math.Option.{some};
ghost use Rattle.relations.specs.Limits.{plan_node_words, triple_limit, pair_limit, column_limit};
ghost use Rattle.relations.specs.Columns.{listed};
ghost use Rattle.relations.specs.Plan.{width_at};
ghost use Rattle.relations.specs.Legality.{distinct, legal_sides, legal_tally};
ghost use Rattle.relations.specs.PlanWords.{read_node};
ghost use Rattle.catalogue.specs.Stored.{relations_of, columns_of};
ghost use Rattle.plan_reading.specs.Decoding.{spaced, plan_head, head_read};
ghost use Rattle.plan_reading.specs.Judging.{legal_read};
ghost use Rattle.plan_reading.specs.Steps.{HeadOfLegal, WidthOfHead, triples_legal, pairs_legal};

use crate::nodes::{Operation, PlanNode, within};
use catalogue::stored::{columns_of, relations_of};
use relations::limits::{COLUMNS, HEAD_WORDS, PAIR_WORDS, TRIPLE_WORDS};

// 0 where there is no such node.
pub fn width_at(widths: &[usize], place: usize) -> usize
    ensures { result ≡ width_at widths.now place }
{
    widths.get(place).copied().unwrap_or(0)
}

// A node's width, given those of its sides. Only a join is wider than what it reads.
pub fn width_between(catalogue: &[u32], node: PlanNode, left: usize, right: usize) -> usize
    requires { node.operation ≡ Operation.Join → left + right ≤ column_limit }
    ensures { (made : List ℕ) → width_at made node.left ≡ left → width_at made node.right ≡ right → WidthOfHead (columns_of catalogue.now) made (plan_head node) result }
{
    match node.operation {
        Operation::Load => columns_of(catalogue, node.left) as usize,
        Operation::Project => node.count,
        Operation::Join => left + right,
        Operation::Divide => left.saturating_sub(node.count),
        Operation::SelectConstant
        | Operation::SelectAttribute
        | Operation::Semijoin
        | Operation::Antijoin
        | Operation::Unite
        | Operation::Intersect
        | Operation::Subtract
        | Operation::Tally => left,
    }
}

// The same, given the widths of the nodes before it.
pub fn width_of(catalogue: &[u32], widths: &[usize], node: PlanNode) -> usize
    requires { HeadOfLegal (relations_of catalogue.now) widths.now (plan_head node) }
    ensures { WidthOfHead (columns_of catalogue.now) widths.now (plan_head node) result }
{
    let left = width_at(widths, node.left);
    let right = width_at(widths, node.right);
    width_between(catalogue, node, left, right)
}

// Whether `number` is one of the left attributes of `count` pairs, from `from` on.
#[tactic(auto, using(crate::proofs::WordLaws::spaced_at, crate::proofs::WordLaws::spaced_through))]
pub fn is_listed(number: u32, words: &[u32], from: usize, count: usize) -> bool
    requires { from + 2 * count < length words.now + 2 }
    ensures { result ≡ listed number (spaced 2 count (drop from words.now)) }
{
    for place in 0..count {
        if number == words[from + PAIR_WORDS * place] {
            return true;
        }
    }
    false
}

// Whether the left attributes of `count` pairs, from `from` on, are distinct.
#[tactic(auto, using(crate::proofs::WordLaws::spaced_at, crate::proofs::WordLaws::spaced_through))]
fn distinct_lefts(words: &[u32], from: usize, count: usize) -> bool
    requires { from + 2 * count < length words.now + 2 }
    ensures { result ≡ distinct (spaced 2 count (drop from words.now)) }
{
    for place in 0..count {
        let at = from + PAIR_WORDS * place;
        if is_listed(words[at], words, at + PAIR_WORDS, count - place - 1) {
            return false;
        }
    }
    true
}

// Operations 9, 10 and 11.
fn legal_sides(widths: &[usize], left: usize, right: usize) -> bool
    ensures { result ≡ legal_sides widths.now left right }
{
    left < widths.len() && right < widths.len() && width_at(widths, left) == width_at(widths, right)
}

// Operation 13, which asks for `least` right rows.
fn legal_tally(widths: &[usize], left: usize, right: usize, least: usize) -> bool
    ensures { result ≡ legal_tally widths.now left right least }
{
    let wider = width_at(widths, left) < width_at(widths, right);
    left < widths.len() && right < widths.len() && wider && 1 <= least
}

// Operations 5, 6 and 7.
fn legal_triples(widths: &[usize], node: PlanNode, words: &[u32]) -> bool
    requires { (length words.now ≡ plan_node_words) × (node.count ≤ triple_limit) }
    ensures { result ≡ triples_legal widths.now node words.now }
{
    let left = width_at(widths, node.left);
    let right = width_at(widths, node.right);
    node.left < widths.len()
        && node.right < widths.len()
        && within(words, HEAD_WORDS, TRIPLE_WORDS, node.count, left)
        && within(words, HEAD_WORDS + 2, TRIPLE_WORDS, node.count, right)
}

// Operation 8.
fn legal_division(widths: &[usize], node: PlanNode, words: &[u32]) -> bool
    requires { (length words.now ≡ plan_node_words) × (node.count ≤ pair_limit) }
    ensures { result ≡ pairs_legal widths.now node words.now }
{
    let left = width_at(widths, node.left);
    let right = width_at(widths, node.right);
    node.left < widths.len()
        && node.right < widths.len()
        && within(words, HEAD_WORDS, PAIR_WORDS, node.count, left)
        && within(words, HEAD_WORDS + 1, PAIR_WORDS, node.count, right)
        && distinct_lefts(words, HEAD_WORDS, node.count)
        && node.count < left
}

// A join's own rule.
fn narrow(widths: &[usize], left: usize, right: usize) -> bool
    ensures { result ≡ leb (width_at widths.now left + width_at widths.now right) column_limit }
{
    width_at(widths, left).saturating_add(width_at(widths, right)) <= COLUMNS
}

// Whether a decoded node is legal, given its words and the widths before it.
pub fn legal_node(catalogue: &[u32], widths: &[usize], node: PlanNode, words: &[u32]) -> bool
    requires { (length words.now ≡ plan_node_words) × (head_read (read_node words.now) ≡ some (plan_head node)) }
    ensures { result ≡ legal_read (relations_of catalogue.now) widths.now (read_node words.now) }
{
    let left = node.left;
    let right = node.right;
    let width = width_at(widths, left);
    let below = left < widths.len();
    match node.operation {
        Operation::Load => left < relations_of(catalogue),
        Operation::Project => below && within(words, HEAD_WORDS, 1, node.count, width),
        Operation::SelectConstant => below && within(words, HEAD_WORDS, TRIPLE_WORDS, 1, width),
        // Its attributes are the first word of its list and the third.
        Operation::SelectAttribute => below && within(words, HEAD_WORDS, 2, 2, width),
        Operation::Join => legal_triples(widths, node, words) && narrow(widths, left, right),
        Operation::Semijoin | Operation::Antijoin => legal_triples(widths, node, words),
        Operation::Divide => legal_division(widths, node, words),
        Operation::Unite | Operation::Intersect | Operation::Subtract => {
            legal_sides(widths, left, right)
        }
        Operation::Tally => legal_tally(widths, left, right, words[HEAD_WORDS] as usize),
    }
}
