// What the nodes refer to, and the lowest node that is not referred to exactly once.
ghost use Rattle.std.specs.Prelude.{◌≡◌, ◌+◌, ◌*◌, ◌≤◌, length};
ghost use Rattle.relations.specs.Limits.{question_node_limit, question_node_words};
ghost use Rattle.nodes.specs.References.{references_to, lowest, not_once};
ghost use Rattle.nodes.specs.Marks.{Marks, Stepped};

use crate::node::decode;

// Nodes referred to once or more, and nodes referred to twice or more.
#[derive(Clone, Copy, Default)]
pub struct Seen {
    pub once: u64,
    pub twice: u64,
}

impl Seen {
    // With a reference more: 0 names no node, any other the node of one less.
    fn and(self, reference: u32) -> Seen
        requires { reference ≤ question_node_limit }
        ensures { Stepped self.once self.twice reference result.once result.twice }
    {
        if reference == 0 {
            return self;
        }
        let bit = 1u64 << (reference - 1);
        Seen {
            once: self.once | bit,
            twice: self.twice | (self.once & bit),
        }
    }
}

fn see_all(words: &[u32], nodes: usize) -> Seen
    requires { (nodes * question_node_words ≤ length words.now) × (nodes ≤ question_node_limit) }
    ensures { Marks result.once result.twice (references_to words.now nodes) }
{
    let mut seen = Seen::default();
    for i in 0..nodes {
        let node = decode(words, i);
        seen = seen.and(node.a).and(node.b).and(node.c);
    }
    seen
}

// The lowest of 64 nodes that is not referred to exactly once, or 64: trailing zeros give the place. No Option: its promise, `lowest ..`, names 64.
pub fn lowest_not_once(words: &[u32], nodes: usize) -> u32
    requires { (nodes * question_node_words ≤ length words.now) × (nodes ≤ question_node_limit) }
    ensures { result ≡ lowest (not_once (references_to words.now nodes)) question_node_limit }
{
    let seen = see_all(words, nodes);
    u64::trailing_zeros(!(seen.once ^ seen.twice))
}
