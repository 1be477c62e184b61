// Refusals 5 and 6: one walk over the question's tree, which carries the scope down and brings faults and widths up. Scope and lowest places are lent.
// Catalogue and words stay two slices, as `judge` is lent them: the walk would be the only one to read a struct of both.
ghost use Rattle.std.specs.Prelude.{◌≡◌, ◌*◌, ◌≤◌, length};
ghost use Rattle.relations.specs.Limits.{question_node_words};
ghost use Rattle.catalogue.specs.Stored.{columns_of};
ghost use Rattle.node_judging.specs.Steps.{places};
ghost use Rattle.question.specs.Trees.{tree_of};
ghost use Rattle.question.specs.Walk.{walked, bindings_walked};

use node_judging::judging::judge_at;
use node_judging::lowest::Lowest;
use node_judging::scope::Scope;
use nodes::node::{Form, decode};

// Bindings, each behind the one before it: the scope then has what all of them bind. Any other node is walked.
#[cycle(walk_walk_bindings)]
fn walk_bindings(
    catalogue: &[u32],
    words: &[u32],
    reference: u32,
    scope: &mut Scope,
    lowest: &mut Lowest,
)
    requires { reference * question_node_words ≤ length words.now }
    ensures { record { scope = scope.new; lowest = places lowest.new } ≡ bindings_walked (columns_of catalogue.now) (tree_of words.now reference) scope.old (places lowest.old) }
{
    if reference == 0 {
        return;
    }
    let i = reference - 1;
    let node = decode(words, i as usize);
    match node.form {
        Form::Binds { variable, .. } => {
            let width = walk(catalogue, words, node.b, scope, lowest);
            judge_at(catalogue, words, i, scope, 0, width, 0, lowest);
            scope.bind(variable, width);
            walk_bindings(catalogue, words, node.c, scope, lowest);
        }
        _ => {
            walk(catalogue, words, reference, scope, lowest);
        }
    }
}

// The tree that a reference names, in a scope, which is then as it was: its faults go to the lowest places, its width is the answer.
// What a node's b binds, its a and c see.
#[cycle(walk_walk_bindings)]
pub fn walk(
    catalogue: &[u32],
    words: &[u32],
    reference: u32,
    scope: &mut Scope,
    lowest: &mut Lowest,
) -> u32
    requires { reference * question_node_words ≤ length words.now }
    ensures { record { width = result; scope = scope.new; lowest = places lowest.new } ≡ walked (columns_of catalogue.now) (tree_of words.now reference) scope.old (places lowest.old) }
{
    if reference == 0 {
        return 0;
    }
    let i = reference - 1;
    let node = decode(words, i as usize);
    match node.form {
        Form::Alpha => {
            let mut own = Scope::empty();
            walk_bindings(catalogue, words, node.b, &mut own, lowest);
            let a = walk(catalogue, words, node.a, &mut own, lowest);
            walk(catalogue, words, node.c, &mut own, lowest);
            judge_at(catalogue, words, i, scope, a, 0, 0, lowest)
        }
        // It refers to nothing in its a.
        Form::Binds { variable, .. } => {
            let b = walk(catalogue, words, node.b, scope, lowest);
            let width = scope.widths[variable as usize];
            let columns = scope.columns;
            scope.bind(variable, b);
            let c = walk(catalogue, words, node.c, scope, lowest);
            scope.widths[variable as usize] = width;
            scope.columns = columns;
            judge_at(catalogue, words, i, scope, 0, b, c, lowest)
        }
        _ => {
            let b = walk(catalogue, words, node.b, scope, lowest);
            let a = walk(catalogue, words, node.a, scope, lowest);
            let c = walk(catalogue, words, node.c, scope, lowest);
            judge_at(catalogue, words, i, scope, a, b, c, lowest)
        }
    }
}
