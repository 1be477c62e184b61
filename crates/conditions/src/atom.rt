// What the rules ask of an atom.
ghost use Rattle.std.specs.Prelude.{◌≡◌};
ghost use Rattle.calculus.specs.Leaves.{opposite_atom, alone_on, compares_with_other, are_both, equates_with, equates_outside};
ghost use Rattle.question.specs.Trees.{operand_of, atom_of};
ghost use Rattle.conditions.specs.Atoms.{AtomNarrow, sides_of};

use nodes::node::{Atom, Operand};
use terms::attribute::Attribute;
use terms::operator::Operator;

pub fn opposite_atom(atom: Atom) -> Atom
    requires { AtomNarrow atom }
    ensures { (atom_of result ≡ opposite_atom (atom_of atom)) × AtomNarrow result }
{
    Atom {
        operator: atom.operator.opposite(),
        ..atom
    }
}

// On x alone.
pub fn alone_on(x: u32, atom: Atom) -> bool
    ensures { result ≡ alone_on x (atom_of atom) }
{
    match atom.operand {
        Operand::Of { variable, .. } => atom.variable == x && variable == x,
        Operand::Fixed(_) => atom.variable == x,
    }
}

// Comparing x with another variable.
pub fn compares_with_other(x: u32, atom: Atom) -> bool
    ensures { result ≡ compares_with_other x (atom_of atom) }
{
    match atom.operand {
        Operand::Of { variable, .. } => {
            if atom.variable == x {
                variable != x
            } else {
                variable == x
            }
        }
        Operand::Fixed(_) => false,
    }
}

// Comparing z with y, in either order.
fn are_both(z: u32, y: u32, atom: Atom) -> bool
    ensures { result ≡ are_both z y atom.variable (operand_of atom.operand) }
{
    match atom.operand {
        Operand::Of { variable, .. } => {
            (atom.variable == z && variable == y) || (atom.variable == y && variable == z)
        }
        Operand::Fixed(_) => false,
    }
}

// z = y.
pub fn equates_with(z: u32, y: u32, atom: Atom) -> bool
    ensures { result ≡ equates_with z y (atom_of atom) }
{
    matches!(atom.operator, Operator::Equal) && are_both(z, y, atom)
}

// z = a variable outside, which is neither z nor y.
pub fn equates_outside(z: u32, y: u32, atom: Atom) -> bool
    ensures { result ≡ equates_outside z y (atom_of atom) }
{
    matches!(atom.operator, Operator::Equal)
        && compares_with_other(z, atom)
        && !are_both(z, y, atom)
}

// An atom that compares z with another variable: z's attribute, the other variable, and its attribute.
#[derive(Clone, Copy)]
pub struct Sides {
    pub own: Attribute,
    pub variable: u32,
    pub other: Attribute,
}

pub fn sides_of(z: u32, atom: Atom) -> Sides
    ensures { result ≡ sides_of z (atom_of atom) }
{
    match atom.operand {
        Operand::Of {
            variable,
            attribute,
        } if atom.variable == z => Sides {
            own: atom.attribute,
            variable,
            other: attribute,
        },
        Operand::Of { attribute, .. } => Sides {
            own: attribute,
            variable: atom.variable,
            other: atom.attribute,
        },
        Operand::Fixed(_) => Sides {
            own: atom.attribute,
            variable: atom.variable,
            other: atom.attribute,
        },
    }
}
