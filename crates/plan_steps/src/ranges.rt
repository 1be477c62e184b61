// What the cycle makes of a range with no call of its own: the nodes of a table, and the variable of a binding.
ghost use Rattle.std.specs.Prelude.{◌≡◌};
ghost use Rattle.calculus.specs.Question as calculus;
ghost use Rattle.emission.specs.Written.{Room};
ghost use Rattle.plan_steps.specs.Ranges.{binding_variable, RangeDone};

use catalogue::stored::columns_of;
use emission::emit::load;
use nodes::node::{Binder, Form};

// How many nodes the plan has behind a range, and the range's width.
#[derive(Clone, Copy)]
pub struct MadeRange {
    pub count: u32,
    pub width: u32,
}

// Table: load.
pub fn translate_table(
    catalogue: &[u32],
    short: bool,
    relation: u32,
    plan: &mut [u32],
    n: u32,
) -> MadeRange
    requires { Room plan.old n 1 }
    ensures { RangeDone catalogue.now short plan.old (calculus.table relation) n plan.new result }
{
    let count = load(plan, n, relation);
    MadeRange {
        count,
        width: columns_of(catalogue, relation as usize),
    }
}

// The variable of a binding.
pub fn binding_variable(form: Form) -> Option<u32>
    ensures { result ≡ binding_variable form }
{
    match form {
        Form::Binds {
            variable,
            binder: Binder::Binding,
        } => Some(variable),
        _ => None,
    }
}
