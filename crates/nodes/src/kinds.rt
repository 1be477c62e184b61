// Document 01's table of kinds: what each word of a node is. A new kind is a line of `fields_of` and of `form_of` (node.rt).
ghost use Rattle.std.specs.Prelude.{◌≡◌};
ghost use Rattle.nodes.specs.Kinds.{is_of, reference_in, fields_of};

#[derive(Clone, Copy)]
pub enum Sort {
    Target,
    Binding,
    Range,
    Condition,
}

#[derive(Clone, Copy)]
pub enum Field {
    Unused,
    // A relation or a constant.
    Number,
    // A number that is not 0.
    Positive,
    Variable,
    Attribute,
    // 0 is the whole row.
    AttributeOrRow,
    Operator,
    Reference(Sort),
    // 0 is none.
    Optional(Sort),
}

// The words a to e behind the kind.
#[derive(Clone, Copy)]
pub struct Fields {
    pub a: Field,
    pub b: Field,
    pub c: Field,
    pub d: Field,
    pub e: Field,
}

pub fn is_of(sort: Sort, kind: u32) -> bool
    ensures { result ≡ is_of sort kind }
{
    match sort {
        Sort::Target => kind == 3,
        Sort::Binding => kind == 4,
        Sort::Range => matches!(kind, 1 | 2 | 5..=7),
        Sort::Condition => matches!(kind, 8..=14 | 16),
    }
}

// The node that a word names; 0 is none.
pub fn reference_in(field: Field, word: u32) -> u32
    ensures { result ≡ reference_in field word }
{
    match field {
        Field::Reference(_) | Field::Optional(_) => word,
        _ => 0,
    }
}

const UNUSED: Fields = Fields {
    a: Field::Unused,
    b: Field::Unused,
    c: Field::Unused,
    d: Field::Unused,
    e: Field::Unused,
};

// A kind that there is not has no words.
#[tactic(auto, unfolding(crate::specs::Kinds::fields_of))]
pub fn fields_of(kind: u32) -> Fields
    ensures { result ≡ fields_of kind }
{
    match kind {
        1 => Fields {
            a: Field::Number,
            ..UNUSED
        },
        2 => Fields {
            a: Field::Reference(Sort::Target),
            b: Field::Reference(Sort::Binding),
            c: Field::Optional(Sort::Condition),
            ..UNUSED
        },
        3 => Fields {
            a: Field::Variable,
            b: Field::AttributeOrRow,
            c: Field::Optional(Sort::Target),
            ..UNUSED
        },
        4 => Fields {
            a: Field::Variable,
            b: Field::Reference(Sort::Range),
            c: Field::Optional(Sort::Binding),
            ..UNUSED
        },
        5..=7 => Fields {
            a: Field::Reference(Sort::Range),
            b: Field::Reference(Sort::Range),
            ..UNUSED
        },
        8 => Fields {
            a: Field::Variable,
            b: Field::Attribute,
            c: Field::Operator,
            d: Field::Number,
            ..UNUSED
        },
        9 => Fields {
            a: Field::Variable,
            b: Field::Attribute,
            c: Field::Operator,
            d: Field::Variable,
            e: Field::Attribute,
        },
        10 | 11 => Fields {
            a: Field::Reference(Sort::Condition),
            b: Field::Reference(Sort::Condition),
            ..UNUSED
        },
        12 => Fields {
            a: Field::Reference(Sort::Condition),
            ..UNUSED
        },
        13 | 14 => Fields {
            a: Field::Variable,
            b: Field::Reference(Sort::Range),
            c: Field::Reference(Sort::Condition),
            ..UNUSED
        },
        16 => Fields {
            a: Field::Variable,
            b: Field::Reference(Sort::Range),
            c: Field::Reference(Sort::Condition),
            d: Field::Positive,
            ..UNUSED
        },
        _ => UNUSED,
    }
}
