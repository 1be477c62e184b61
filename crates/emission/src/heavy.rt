// The heavy operations of a plan, counted in its words.
ghost use Rattle.std.specs.Prelude.{◌≡◌, ◌*◌, ◌≤◌, length};
ghost use Rattle.relations.specs.Limits.{plan_node_limit, plan_node_words};
ghost use Rattle.emission.specs.HeavyCount.{heavy_in};

use relations::heavy::weight;
use relations::limits::PLAN_NODE_WORDS;

pub fn count_heavy(plan: &[u32], nodes: u32) -> u32
    requires { (nodes ≤ plan_node_limit) × (nodes * plan_node_words ≤ length plan.now) }
    ensures { result ≡ heavy_in nodes plan.now }
{
    let mut heavy = 0;
    for i in 0..nodes {
        heavy += weight(plan[i as usize * PLAN_NODE_WORDS]);
    }
    heavy
}
