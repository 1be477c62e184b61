// The operation that takes all rows of two values over: union.
ghost use Rattle.std.specs.Prelude.{◌≡◌, cond, ◌+◌, ◌≤◌, ◌<◌, length};
ghost use Rattle.relations.specs.Operations.{unite_candidates};
ghost use Rattle.values.specs.Words.{rows_of, end};
ghost use Rattle.values.specs.Building.{Blank, Makes};
ghost use Rattle.operations.specs.Passing.{left_first, behind_first};

use crate::columns::NO_WORDS;
use values::clearing::clear_from;
use values::placing::place_row;
use values::rows::{Value, row};
use values::search::stands_before;

// Whether the next row is a left one: the earlier of the two, or the only one.
fn left_is_next(work: &[u32], left: Value, right: Value) -> bool
    ensures { result ≡ left_first work.now left right }
{
    right.rows == 0
        || left.rows != 0
            && !stands_before(
                work,
                right.base,
                right.width,
                row(work, work, true, left.base, left.width),
            )
}

// The first row of a side is passed: where it starts.
fn pass(side: &mut Value) -> usize
    requires { (0 < side.old.rows) × (side.old.base + side.old.width < 18446744073709551616) }
    ensures { (result ≡ side.old.base) × (side.new ≡ behind_first side.old) }
{
    let start = side.base;
    side.base += side.width;
    side.rows -= 1;
    start
}

// The next row of both sides is passed: where it starts.
fn next_row(work: &[u32], left: &mut Value, right: &mut Value) -> usize
    requires { (0 < left.old.rows + right.old.rows) × (end left.old ≤ length work.now) × (end right.old ≤ length work.now) }
    ensures { (result ≡ cond (left_first work.now left.old right.old) left.old.base right.old.base) × (left.new ≡ cond (left_first work.now left.old right.old) (behind_first left.old) left.old) × (right.new ≡ cond (left_first work.now left.old right.old) right.old (behind_first right.old)) }
{
    if left_is_next(work, *left, *right) {
        pass(left)
    } else {
        pass(right)
    }
}

// Operation 9: the rows of both values, the earlier one first, so that each is placed by one comparison.
pub fn unite(work: &mut [u32], left: Value, right: Value, out: usize) -> Option<usize>
    requires { (0 < left.width) × (right.width ≡ left.width) × (end left ≤ out) × (end right ≤ out) × (out ≤ length work.old) × Blank out work.old }
    ensures { Makes left.width out (unite_candidates (rows_of left work.old) (rows_of right work.old)) work.old work.new result }
{
    let width = left.width;
    let mut lefts = left;
    let mut rights = right;
    let mut rows: usize = 0;
    // No `for`: which side a row is taken from depends on the words.
    while 0 < lefts.rows + rights.rows {
        let start = next_row(work, &mut lefts, &mut rights);
        let made = Value {
            base: out,
            rows,
            width,
        };
        let Some(more) = place_row(&NO_WORDS, work, true, start, made) else {
            clear_from(work, out);
            return None;
        };
        rows = more;
    }
    Some(rows)
}
