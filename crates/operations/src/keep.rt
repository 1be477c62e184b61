// The operations that keep some of the left rows by what they are: select, intersection, difference. The left order stays, so each row that is
// kept is placed by one comparison, with the last row.
ghost use Rattle.std.specs.Prelude.{◌≡◌, Bool, cond, [], ◌∷◌, ◌+◌, ◌≤◌, ◌<◌, length};
ghost use Rattle.relations.specs.Lists.{filter};
ghost use Rattle.relations.specs.Rows.{Row};
ghost use Rattle.relations.specs.Values.{Ascending};
ghost use Rattle.values.specs.Words.{row_in, rows_of, end};
ghost use Rattle.values.specs.Building.{Builds};
ghost use Rattle.relations.specs.Operations.{select_constant_candidates, select_attribute_candidates, intersect_candidates, subtract_candidates};
ghost use Rattle.terms.specs.Terms.{attribute_in, constant_in, operator_in};
ghost use Rattle.operations.specs.Tests.{Answers};

use crate::columns::{NO_WORDS, column_of};
use terms::attribute::Attribute;
use terms::constant::Constant;
use terms::operator::Operator;
use values::placing::place_row;
use values::rows::{Value, row};
use values::search::has_row;

// The row that starts at `at` is put into a value of its width behind it, if it is kept.
pub fn keep_if(work: &mut [u32], kept: bool, at: usize, value: Value) -> Option<usize>
    requires { (0 < value.width) × (at + value.width ≤ value.base) × (end value ≤ length work.old) × Ascending (rows_of value work.old) }
    ensures { Builds value.width value.base value.rows (cond «kept» (row_in work.old at value.width ∷ []) []) work.old work.new result }
{
    if kept {
        place_row(&NO_WORDS, work, true, at, value)
    } else {
        Some(value.rows)
    }
}

// The rows of a value in `front` that pass, as a value at the start of the words behind.
fn keep<F: Fn(&[u32]) -> bool>(
    front: &[u32],
    behind: &mut [u32],
    value: Value,
    passes: F,
) -> Option<usize>
    requires { F.IsAlwaysCallable passes × (0 < value.width) × (end value ≤ length front.now) }
    ensures { (test : Row → Bool) → Answers F.Fn passes test → Builds value.width 0 0 (filter test (rows_of value front.now)) behind.old behind.new result }
{
    let width = value.width;
    let mut rows: usize = 0;
    for i in 0..value.rows {
        let at = value.base + i * width;
        if passes(row(front, front, true, at, width)) {
            let made = Value {
                base: 0,
                rows,
                width,
            };
            rows = place_row(front, behind, false, at, made)?;
        }
    }
    Some(rows)
}

// Operation 3: the rows whose attribute compares so with the constant.
pub fn select_constant(
    work: &mut [u32],
    left: Value,
    attribute: Attribute,
    operator: Operator,
    constant: Constant,
    out: usize,
) -> Option<usize>
    requires { (0 < left.width) × (end left ≤ out) × (out ≤ length work.old) }
    ensures { Builds left.width out 0 (select_constant_candidates (attribute_in attribute) (operator_in operator) (constant_in constant) (rows_of left work.old)) work.old work.new result }
{
    let (front, behind) = work.split_at_mut(out);
    keep(
        front,
        behind,
        left,
        |row| operator.holds(column_of(row, attribute), constant.0),
    )
}

// Operation 4: the rows whose attribute compares so with another of their own.
pub fn select_attribute(
    work: &mut [u32],
    left: Value,
    attribute: Attribute,
    operator: Operator,
    other: Attribute,
    out: usize,
) -> Option<usize>
    requires { (0 < left.width) × (end left ≤ out) × (out ≤ length work.old) }
    ensures { Builds left.width out 0 (select_attribute_candidates (attribute_in attribute) (operator_in operator) (attribute_in other) (rows_of left work.old)) work.old work.new result }
{
    let (front, behind) = work.split_at_mut(out);
    keep(front, behind, left, |row| {
        operator.holds(column_of(row, attribute), column_of(row, other))
    })
}

// Operation 10: the rows that the right value has too.
pub fn intersect(work: &mut [u32], left: Value, right: Value, out: usize) -> Option<usize>
    requires { (0 < left.width) × (end left ≤ out) × (out ≤ length work.old) × (end right ≤ out) × Ascending (rows_of right work.old) }
    ensures { Builds left.width out 0 (intersect_candidates (rows_of left work.old) (rows_of right work.old)) work.old work.new result }
{
    let (front, behind) = work.split_at_mut(out);
    keep(front, behind, left, |row| has_row(front, right, row))
}

// Operation 11: the rows that the right value does not have.
pub fn subtract(work: &mut [u32], left: Value, right: Value, out: usize) -> Option<usize>
    requires { (0 < left.width) × (end left ≤ out) × (out ≤ length work.old) × (end right ≤ out) × Ascending (rows_of right work.old) }
    ensures { Builds left.width out 0 (subtract_candidates (rows_of left work.old) (rows_of right work.old)) work.old work.new result }
{
    let (front, behind) = work.split_at_mut(out);
    keep(front, behind, left, |row| !has_row(front, right, row))
}
