// S1: a project on all columns in order is not written.
ghost use Rattle.std.specs.Prelude.{◌≡◌, ◌≤◌};
ghost use Rattle.relations.specs.Limits.{list_words};
ghost use Rattle.calculus.specs.ShortRules.{short_rule1_fits, project_nodes};
ghost use Rattle.emission.specs.NodeLists.{attributes_in, ListsAttributes};
ghost use Rattle.emission.specs.Written.{Room, Written};

use crate::emit::project;
use crate::node_list::NodeList;

fn short_rule_1_fits(width: u32, attributes: NodeList) -> bool
    requires { attributes.used ≤ list_words }
    ensures { result ≡ short_rule1_fits width (attributes_in attributes) }
{
    if attributes.used != width {
        return false;
    }
    // A loop and not `all` over the range: tried, and the proof didn't close.
    for i in 0..width {
        if attributes.words[i as usize] != i + 1 {
            return false;
        }
    }
    true
}

// The project, or none in the shortened mode where S1 fits.
pub fn write_project(
    short: bool,
    width: u32,
    p: u32,
    attributes: NodeList,
    plan: &mut [u32],
    n: u32,
) -> u32
    requires { ListsAttributes attributes × Room plan.old n 1 }
    ensures { Written plan.old n (project_nodes short width p (attributes_in attributes)) plan.new result }
{
    if short && short_rule_1_fits(width, attributes) {
        n
    } else {
        project(plan, n, p, attributes)
    }
}
