// The columns that an alpha keeps, those of its targets, and the project on them.
ghost use Rattle.std.specs.Prelude.{◌≡◌, ◌+◌, ◌≤◌, length};
ghost use Rattle.relations.specs.Limits.{list_words};
ghost use Rattle.relations.specs.Lists.{flat};
ghost use Rattle.calculus.specs.Scope.{target_columns};
ghost use Rattle.calculus.specs.Form.{GoodTarget};
ghost use Rattle.question.specs.Trees.{target_of};
ghost use Rattle.conditions.specs.Readings.{targets_at};
ghost use Rattle.conditions.specs.Scopes.{scope_of, ScopeFits};
ghost use Rattle.emission.specs.NodeLists.{node_list, grown_by, numbers_of};
ghost use Rattle.emission.specs.Written.{Room};
ghost use Rattle.plan_steps.specs.Targets.{TargetsReady, TargetsDone};

use crate::ranges::MadeRange;
use conditions::scope::Scope;
use emission::node_list::NodeList;
use emission::projects::write_project;
use nodes::node::{Form, decode};

// A target's columns behind those of the list; attribute 0 is the whole row.
fn extend_by_target(list: &mut NodeList, scope: &Scope, variable: u32, attribute: u32)
    requires { ScopeFits scope.now × GoodTarget (scope_of scope.now) (target_of variable attribute) × (list.old.used + length (target_columns (scope_of scope.now) (target_of variable attribute)) ≤ list_words) }
    ensures { list.new ≡ grown_by list.old (numbers_of (target_columns (scope_of scope.now) (target_of variable attribute))) }
{
    if attribute == 0 {
        list.extend_columns(scope.column_number(variable, 1), scope.width_in(variable));
    } else {
        list.push(scope.column_number(variable, attribute));
    }
}

// The columns of the targets from a reference on. They follow one another, so this is a loop, and a long chain of them takes no stack.
fn targets_from(words: &[u32], reference: u32, scope: &Scope) -> NodeList
    requires { TargetsReady words.now reference scope.now }
    ensures { result ≡ node_list (numbers_of (flat (target_columns (scope_of scope.now)) (targets_at words.now reference))) }
{
    let mut list = NodeList::new();
    let mut at = reference;
    while at != 0 {
        let node = decode(words, (at - 1) as usize);
        let Form::Target {
            variable,
            attribute,
        } = node.form
        else {
            break;
        };
        extend_by_target(&mut list, scope, variable, attribute.0);
        at = node.c;
    }
    list
}

// The project on an alpha's targets, of the value before node n.
pub fn write_targets(
    words: &[u32],
    short: bool,
    target: u32,
    scope: &Scope,
    plan: &mut [u32],
    n: u32,
) -> MadeRange
    requires { TargetsReady words.now target scope.now × (1 ≤ n) × Room plan.old n 1 }
    ensures { TargetsDone short words.now target scope.now plan.old n plan.new result }
{
    let columns = targets_from(words, target, scope);
    let count = write_project(short, scope.columns_in(), n - 1, columns, plan, n);
    MadeRange {
        count,
        width: columns.used,
    }
}
