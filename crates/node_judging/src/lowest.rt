// The lowest nodes at fault so far.
ghost use Rattle.std.specs.Prelude.{◌≤◌};
ghost use Rattle.relations.specs.Limits.{question_node_limit};

use relations::limits::QUESTION_NODES;

// By refusal 5 and by refusal 6; where there is none, a number above all nodes and no Option, as `Found` (specs/Steps) has it: the lowest of two is their `min`.
#[derive(Clone, Copy)]
pub struct Lowest {
    pub unbound: u32,
    pub unfit: u32,
    pub ghost unbound_so_far: { unbound ≤ question_node_limit },
    pub ghost unfit_so_far: { unfit ≤ question_node_limit },
}

impl Lowest {
    ghost use Rattle.std.specs.Prelude.{◌≡◌};
    ghost use Rattle.node_judging.specs.Steps.{places, no_places, lowered, place_of};

    pub const NO_NODE: u32 = QUESTION_NODES as u32;

    pub fn none() -> Lowest
        ensures { places result ≡ no_places }
    {
        Lowest {
            unbound: Self::NO_NODE,
            unfit: Self::NO_NODE,
        }
    }

    // Node `i` counts where it is at fault.
    pub fn see(&mut self, i: u32, unbound: bool, unfit: bool)
        ensures { places self.new ≡ lowered (places self.old) (place_of unbound i) (place_of unfit i) }
    {
        if unbound {
            self.unbound = self.unbound.min(i);
        }
        if unfit {
            self.unfit = self.unfit.min(i);
        }
    }
}
