// Attributes, constants and comparisons, as a plan node's list words name them.
ghost use Rattle.std.specs.Prelude.{◌≡◌, ◌+◌, ◌≤◌, length, drop};
ghost use Rattle.relations.specs.Columns as meaning;
ghost use Rattle.terms.specs.Terms.{attribute_in};
ghost use Rattle.operations.specs.Lists.{triple_in, pair_in, first_triple, first_pair};

use terms::attribute::Attribute;
use terms::operator::Operator;

// The list of a node that has none.
pub const NO_WORDS: [u32; 0] = [];

// A comparison of a left row's attribute with a right row's.
#[derive(Clone, Copy)]
pub struct Triple {
    pub left: Attribute,
    pub operator: Operator,
    pub right: Attribute,
}

// A left attribute that must equal a right one.
#[derive(Clone, Copy)]
pub struct Pair {
    pub left: Attribute,
    pub right: Attribute,
}

// The word of a row at a column's number, 0 where the row has no such column.
pub fn word_at(row: &[u32], number: usize) -> u32
    ensures { result ≡ meaning.word_at row.now number }
{
    match number.checked_sub(1) {
        Some(place) => row.get(place).copied().unwrap_or(0),
        None => 0,
    }
}

// The word of a row at an attribute.
pub fn column_of(row: &[u32], attribute: Attribute) -> u32
    ensures { result ≡ meaning.column row.now (attribute_in attribute) }
{
    word_at(row, attribute.0 as usize)
}

// The triple that starts at the word `at` of the list.
pub fn triple_at(list: &[u32], at: usize) -> Triple
    requires { at + 3 ≤ length list.now }
    ensures { triple_in result ≡ first_triple (drop at list.now) }
{
    Triple {
        left: Attribute(list[at]),
        operator: Operator::from(list[at + 1]),
        right: Attribute(list[at + 2]),
    }
}

// The pair that starts at the word `at` of the list.
pub fn pair_at(list: &[u32], at: usize) -> Pair
    requires { at + 2 ≤ length list.now }
    ensures { pair_in result ≡ first_pair (drop at list.now) }
{
    Pair {
        left: Attribute(list[at]),
        right: Attribute(list[at + 1]),
    }
}
