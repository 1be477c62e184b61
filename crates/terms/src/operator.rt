// The operators, with their numbers; each method beside its definition in relations/specs/Comparison.
ghost use Rattle.std.specs.Prelude.{◌≡◌};
ghost use Rattle.relations.specs.Comparison as comparison;
ghost use Rattle.terms.specs.Terms.{operator_in};

#[derive(Clone, Copy)]
pub enum Operator {
    Equal,
    NotEqual,
    Less,
    AtMost,
    Greater,
    AtLeast,
}

// The operator of a number. Another number, which no legal plan and no question of good form has, reads as "=".
impl From<u32> for Operator {
    ghost from_gives = { λ number operator. operator_in operator ≡ comparison.operator_named number };

    fn from(number: u32) -> Operator {
        match number {
            2 => Operator::NotEqual,
            3 => Operator::Less,
            4 => Operator::AtMost,
            5 => Operator::Greater,
            6 => Operator::AtLeast,
            _ => Operator::Equal,
        }
    }
}

impl From<Operator> for u32 {
    ghost from_gives = { λ operator number. number ≡ comparison.operator_number (operator_in operator) };

    fn from(operator: Operator) -> u32 {
        match operator {
            Operator::Equal => 1,
            Operator::NotEqual => 2,
            Operator::Less => 3,
            Operator::AtMost => 4,
            Operator::Greater => 5,
            Operator::AtLeast => 6,
        }
    }
}

impl Operator {
    pub fn holds(self, x: u32, y: u32) -> bool
        ensures { result ≡ comparison.holds (operator_in self) x y }
    {
        match self {
            Operator::Equal => x == y,
            Operator::NotEqual => x != y,
            Operator::Less => x < y,
            Operator::AtMost => x <= y,
            Operator::Greater => y < x,
            Operator::AtLeast => y <= x,
        }
    }

    // The operator that holds where this one doesn't.
    pub fn opposite(self) -> Operator
        ensures { operator_in result ≡ comparison.opposite (operator_in self) }
    {
        match self {
            Operator::Equal => Operator::NotEqual,
            Operator::NotEqual => Operator::Equal,
            Operator::Less => Operator::AtLeast,
            Operator::AtMost => Operator::Greater,
            Operator::Greater => Operator::AtMost,
            Operator::AtLeast => Operator::Less,
        }
    }

    // The operator for the sides turned.
    pub fn turned(self) -> Operator
        ensures { operator_in result ≡ comparison.turned (operator_in self) }
    {
        match self {
            Operator::Equal => Operator::Equal,
            Operator::NotEqual => Operator::NotEqual,
            Operator::Less => Operator::Greater,
            Operator::AtMost => Operator::AtLeast,
            Operator::Greater => Operator::Less,
            Operator::AtLeast => Operator::AtMost,
        }
    }
}
