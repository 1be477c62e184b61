// One node judged where it stands: refusals 5 and 6, and its width. These functions return before the next part is walked, so a level of the walk takes little stack.
ghost use Rattle.std.specs.Prelude.{◌≡◌, ◌+◌, ◌*◌, ◌≤◌, ◌<◌, length};
ghost use Rattle.relations.specs.Limits.{question_node_words, variable_count};
ghost use Rattle.catalogue.specs.Stored.{columns_of};
ghost use Rattle.nodes.specs.Nodes.{node_at, VariablesFit, OperandVariableFits};
ghost use Rattle.node_judging.specs.Steps.{operand_unbound_at, operand_unfit_at, target_width_kept, step_of, places, judged_at};

use crate::lowest::Lowest;
use crate::scope::{Scope, add_widths};
use catalogue::stored::columns_of;
use nodes::node::{Form, Operand, form_at};
use relations::limits::ATTRIBUTES;
use terms::attribute::Attribute;

fn operand_unbound(scope: &Scope, operand: Operand) -> bool
    requires { OperandVariableFits operand }
    ensures { result ≡ operand_unbound_at scope.now operand }
{
    match operand {
        Operand::Of { variable, .. } => scope.width_in(variable) == 0,
        Operand::Fixed(_) => false,
    }
}

// Refusal 5 at a node: a variable that is not in scope, or bound while in scope.
fn unbound_at(form: Form, scope: &Scope) -> bool
    requires { VariablesFit form }
    ensures { result ≡ (step_of scope.now form).unbound }
{
    match form {
        Form::Target { variable, .. } => scope.width_in(variable) == 0,
        Form::Binds { variable, .. } => 0 < scope.width_in(variable),
        Form::Compares(atom) => {
            scope.width_in(atom.variable) == 0 || operand_unbound(scope, atom.operand)
        }
        _ => false,
    }
}

fn operand_unfit(scope: &Scope, operand: Operand) -> bool
    requires { OperandVariableFits operand }
    ensures { result ≡ operand_unfit_at scope.now operand }
{
    match operand {
        Operand::Of {
            variable,
            attribute,
        } => scope.width_in(variable) < attribute.0,
        Operand::Fixed(_) => false,
    }
}

// Refusal 6 at a node; `a` and `b` are the widths of what it refers to.
fn unfit_at(form: Form, scope: &Scope, a: u32, b: u32) -> bool
    requires { VariablesFit form }
    ensures { result ≡ (step_of scope.now form).unfit a b }
{
    match form {
        Form::Alpha => ATTRIBUTES < a,
        Form::Target {
            variable,
            attribute,
        } => scope.width_in(variable) < attribute.0,
        Form::Binds { .. } => ATTRIBUTES < add_widths(scope.columns_in(), b),
        Form::Combines(_) => a != b,
        Form::Compares(atom) => {
            scope.width_in(atom.variable) < atom.attribute.0 || operand_unfit(scope, atom.operand)
        }
        _ => false,
    }
}

// The width of what a target takes; attribute 0 is the whole row.
fn taken_width(scope: &Scope, variable: u32, attribute: Attribute) -> u32
    requires { variable < variable_count }
    ensures { result ≡ target_width_kept scope.now variable attribute.0 }
{
    match attribute.0 {
        0 => scope.width_in(variable),
        _ => 1,
    }
}

// A range's width, or that of targets from this one on.
fn width_of(catalogue: &[u32], form: Form, scope: &Scope, a: u32, c: u32) -> u32
    requires { VariablesFit form }
    ensures { result ≡ (step_of scope.now form).width (columns_of catalogue.now) a c }
{
    match form {
        Form::Table(relation) => columns_of(catalogue, relation as usize),
        Form::Alpha | Form::Combines(_) => a,
        Form::Target {
            variable,
            attribute,
        } => add_widths(taken_width(scope, variable, attribute), c),
        _ => 0,
    }
}

// Node `i`, judged where it stands: its faults go to the lowest places, of refusal 5 and of refusal 6, and its width is the answer.
// The widths of what it refers to stay three numbers: a struct of them would stand in each frame of the recursion, whose stack is fixed.
#[tactic(auto, using(nodes::proofs::Forms::node_variables))]
pub fn judge_at(
    catalogue: &[u32],
    words: &[u32],
    i: u32,
    scope: &Scope,
    a: u32,
    b: u32,
    c: u32,
    lowest: &mut Lowest,
) -> u32
    requires { i * question_node_words + question_node_words ≤ length words.now }
    ensures { record { width = result; lowest = places lowest.new } ≡ judged_at (columns_of catalogue.now) (node_at words.now i).form i scope.now a b c (places lowest.old) }
{
    let form = form_at(words, i as usize);
    lowest.see(i, unbound_at(form, scope), unfit_at(form, scope, a, b));
    width_of(catalogue, form, scope, a, c)
}
