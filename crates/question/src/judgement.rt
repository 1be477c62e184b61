// A question judged: refusals 1 to 6 in their order, each with its place.
ghost use Rattle.std.specs.Prelude.{◌≡◌, true, ◌*◌, ◌≤◌, ◌/◌, length};
ghost use Rattle.relations.specs.Limits.{question_node_limit, question_node_words};
ghost use Rattle.nodes.specs.Nodes.{node_count, node_at, is_ill_formed};
ghost use Rattle.question.specs.Judgement.{status_of, refused_at, count_ok, judge_count, is_alpha, is_unknown, FindsLowest};
ghost use Rattle.question.specs.Walk.{judge_tree, judge_nodes, judged_by_walk};

use crate::walking::walk;
use catalogue::stored::relations_of;
use node_judging::lowest::Lowest;
use node_judging::scope::Scope;
use nodes::node::{Form, form_at};
use nodes::references::lowest_not_once;
use relations::limits::{QUESTION_NODE_WORDS, QUESTION_NODES};

// What is wrong with a question, and at which of its nodes.
#[derive(Clone, Copy)]
pub enum Refusal {
    // The number of words.
    WrongCount,
    // A word breaks its node's form.
    BrokenForm(u32),
    // A node is not referred to exactly once, or the last is no alpha.
    NotATree(u32),
    UnknownRelation(u32),
    // A variable is not in scope, or bound while in scope.
    Unbound(u32),
    // A width or an attribute.
    Unfit(u32),
}

impl Refusal {
    // Its number in document 01.
    pub fn status(self) -> u32
        ensures { result ≡ status_of self }
    {
        match self {
            Refusal::WrongCount => 1,
            Refusal::BrokenForm(_) => 2,
            Refusal::NotATree(_) => 3,
            Refusal::UnknownRelation(_) => 4,
            Refusal::Unbound(_) => 5,
            Refusal::Unfit(_) => 6,
        }
    }

    pub fn place(self) -> u32
        ensures { result ≡ refused_at self }
    {
        match self {
            Refusal::WrongCount => 0,
            Refusal::BrokenForm(place)
            | Refusal::NotATree(place)
            | Refusal::UnknownRelation(place)
            | Refusal::Unbound(place)
            | Refusal::Unfit(place) => place,
        }
    }
}

// Refusal 1 asks for the number of words only.
fn count_ok(words: &[u32]) -> bool
    ensures { result ≡ count_ok words.now }
{
    words.len() % QUESTION_NODE_WORDS == 0
        && (1..=QUESTION_NODES).contains(&(words.len() / QUESTION_NODE_WORDS))
}

pub fn judge_count(words: &[u32]) -> Result<(), Refusal>
    ensures { result ≡ judge_count words.now }
{
    if count_ok(words) {
        Ok(())
    } else {
        Err(Refusal::WrongCount)
    }
}

fn is_ill_formed(form: Form) -> bool
    ensures { result ≡ is_ill_formed form }
{
    matches!(form, Form::IllFormed)
}

pub fn is_alpha(form: Form) -> bool
    ensures { result ≡ is_alpha form }
{
    matches!(form, Form::Alpha)
}

fn is_unknown(relations: usize, form: Form) -> bool
    ensures { result ≡ is_unknown relations form }
{
    match form {
        Form::Table(relation) => relations <= relation as usize,
        _ => false,
    }
}

// Refusal 2: the lowest node whose words break its form.
fn lowest_ill_formed(words: &[u32], nodes: usize) -> Option<usize>
    requires { nodes * question_node_words ≤ length words.now }
    ensures { FindsLowest (λ i. is_ill_formed (node_at words.now i).form) nodes result }
{
    (0..nodes).find(|i| is_ill_formed(form_at(words, *i)))
}

// Refusal 4: the lowest table node with an unknown relation.
fn lowest_unknown(relations: usize, words: &[u32], nodes: usize) -> Option<usize>
    requires { nodes * question_node_words ≤ length words.now }
    ensures { FindsLowest (λ i. is_unknown relations (node_at words.now i).form) nodes result }
{
    (0..nodes).find(|i| is_unknown(relations, form_at(words, *i)))
}

// Refusals 4, 5 and 6 of a table that is a tree, each over the whole of it.
fn judge_tree(catalogue: &[u32], words: &[u32], nodes: usize) -> Result<(), Refusal>
    requires { (nodes ≡ node_count words.now) × (nodes ≤ question_node_limit) }
    ensures { result ≡ judge_tree catalogue.now words.now }
{
    if let Some(place) = lowest_unknown(relations_of(catalogue), words, nodes) {
        return Err(Refusal::UnknownRelation(place as u32));
    }
    let mut scope = Scope::empty();
    let mut lowest = Lowest::none();
    walk(catalogue, words, nodes as u32, &mut scope, &mut lowest);
    if lowest.unbound < Lowest::NO_NODE {
        return Err(Refusal::Unbound(lowest.unbound));
    }
    if lowest.unfit < Lowest::NO_NODE {
        return Err(Refusal::Unfit(lowest.unfit));
    }
    Ok(())
}

// Refusals 2 to 6, where the number of words is right.
fn judge_nodes(catalogue: &[u32], words: &[u32]) -> Result<(), Refusal>
    requires { count_ok words.now ≡ true }
    ensures { result ≡ judge_nodes catalogue.now words.now }
{
    let nodes = words.len() / QUESTION_NODE_WORDS;
    let last = nodes - 1;
    if let Some(place) = lowest_ill_formed(words, nodes) {
        return Err(Refusal::BrokenForm(place as u32));
    }
    let not_once = lowest_not_once(words, nodes);
    if not_once < last as u32 {
        return Err(Refusal::NotATree(not_once));
    }
    if !is_alpha(form_at(words, last)) {
        return Err(Refusal::NotATree(last as u32));
    }
    judge_tree(catalogue, words, nodes)
}

// All that a question can be refused for, over a catalogue.
#[tactic(auto, unfolding(crate::specs::Walk::judged_by_walk))]
pub fn judge(catalogue: &[u32], words: &[u32]) -> Result<(), Refusal>
    ensures { result ≡ judged_by_walk catalogue.now words.now }
{
    judge_count(words)?;
    judge_nodes(catalogue, words)
}
