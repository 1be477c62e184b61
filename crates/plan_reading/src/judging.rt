// Refusal 9: a plan's words judged, node by node.
ghost use Rattle.std.specs.Prelude.{◌≡◌, length};
ghost use Rattle.relations.specs.Limits.{plan_node_words};
ghost use Rattle.relations.specs.PlanWords.{read_node};
ghost use Rattle.plan_reading.specs.Judging.{judged_node, plan_numbers, judged_plan};

use crate::legal::{legal_node, width_of};
use crate::nodes::decode_node;
use relations::limits::{PLAN_NODE_WORDS, PLAN_NODES};

// The place at which an illegal plan is refused.
#[derive(Clone, Copy, PartialEq, Eq)]
pub struct IllegalNode(pub usize);

// The width of a legal node.
fn judge_node(catalogue: &[u32], widths: &[usize], words: &[u32]) -> Option<usize>
    requires { length words.now ≡ plan_node_words }
    ensures { result ≡ judged_node catalogue.now widths.now (read_node words.now) }
{
    let node = decode_node(words)?;
    if legal_node(catalogue, widths, node, words) {
        Some(width_of(catalogue, widths, node))
    } else {
        None
    }
}

// How many nodes a legal plan has.
pub fn judge_plan(catalogue: &[u32], plan: &[u32]) -> Result<usize, IllegalNode>
    ensures { plan_numbers result ≡ judged_plan catalogue.now plan.now }
{
    let nodes = plan.len() / PLAN_NODE_WORDS;
    if plan.len() % PLAN_NODE_WORDS != 0 || nodes < 1 || PLAN_NODES < nodes {
        return Err(IllegalNode(0));
    }
    let mut widths = [0usize; PLAN_NODES];
    for (place, words) in plan.chunks_exact(PLAN_NODE_WORDS).enumerate() {
        widths[place] = judge_node(catalogue, &widths[..place], words).ok_or(IllegalNode(place))?;
    }
    Ok(nodes)
}
