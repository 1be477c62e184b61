// The scope that the walk carries: for each variable the width of its rows, and all columns in scope.
ghost use Rattle.std.specs.Prelude.{◌≡◌, ◌<◌};
ghost use Rattle.relations.specs.Limits.{variable_count};
ghost use Rattle.node_judging.specs.Steps.{width_kept, columns_kept, no_widths, add_widths, bound_width, bind};

use relations::limits::{ATTRIBUTES, VARIABLES};

const WIDTHS: usize = VARIABLES as usize;

// A variable that is not in scope has width 0.
#[derive(Clone, Copy)]
pub struct Scope {
    pub widths: [u8; WIDTHS],
    pub columns: u8,
}

// Widths are counted up to one more than the limit: over it all are too wide.
#[tactic(auto, unfolding(crate::specs::Steps::add_widths))]
pub fn add_widths(a: u32, b: u32) -> u32
    ensures { result ≡ add_widths a b }
{
    a.saturating_add(b).min(ATTRIBUTES + 1)
}

// A bound variable is in scope, also where its range is faulty and has no columns.
fn bound_width(width: u32) -> u32
    ensures { result ≡ bound_width width }
{
    width.clamp(1, ATTRIBUTES + 1)
}

impl Scope {
    pub fn empty() -> Scope
        ensures { result ≡ no_widths }
    {
        Scope {
            widths: [0; WIDTHS],
            columns: 0,
        }
    }

    pub fn width_in(&self, variable: u32) -> u32
        requires { variable < variable_count }
        ensures { result ≡ width_kept self.now variable }
    {
        u32::from(self.widths[variable as usize])
    }

    pub fn columns_in(&self) -> u32
        ensures { result ≡ columns_kept self.now }
    {
        u32::from(self.columns)
    }

    #[tactic(auto, unfolding(crate::specs::Steps::add_widths))]
    pub fn bind(&mut self, variable: u32, width: u32)
        requires { variable < variable_count }
        ensures { self.new ≡ bind self.old variable width }
    {
        self.widths[variable as usize] = bound_width(width) as u8;
        self.columns = add_widths(self.columns_in(), width) as u8;
    }
}
