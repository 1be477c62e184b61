// A question's node words: six of them decoded to a node and its form judged; what each node refers to, and how often it is referred to.
#![tactic(auto)]

pub mod kinds;
pub mod node;
pub mod references;
