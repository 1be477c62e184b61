// Operation 13: the left rows that begin at least so many right rows. Both sides ascend, so the right rows that a left row begins stand together, behind those of
// the left rows before it: one pass over both sides.
#![tactic(auto)]

ghost use Rattle.std.specs.Prelude.{◌+◌, ◌≤◌, ◌<◌, length};
ghost use Rattle.relations.specs.Values.{Ascending};
ghost use Rattle.relations.specs.Operations.{tally_candidates};
ghost use Rattle.values.specs.Words.{row_in, rows_of, end};
ghost use Rattle.values.specs.Building.{Builds};
ghost use Rattle.tallying.specs.Counts.{Counts};

use operations::keep::keep_if;
use std::cmp::Ordering;
use values::rows::{Value, compare_rows, row};

// Whether a left row begins enough of the right rows that are left, of which those are left then that the next left row may begin.
// The right rows in front of those that the left row begins are passed, and those are counted until there are enough. One that it stands before ends the count:
// it and all behind it are for later left rows.
fn count_begun(work: &[u32], at: usize, width: usize, rest: &mut Value, least: usize) -> bool
    requires { (at + width ≤ length work.now) × (width < rest.old.width) × (end rest.old ≤ length work.now) × Ascending (rows_of rest.old work.now) }
    ensures { Counts least (row_in work.now at width) rest.old work.now result rest.new }
{
    let left = row(work, work, true, at, width);
    let mut count: usize = 0;
    // No `for`: the caller goes on with the rows that are left here.
    while 0 < rest.rows && count < least {
        match compare_rows(left, row(work, work, true, rest.base, width)) {
            Ordering::Less => {
                return false;
            }
            Ordering::Equal => {
                count += 1;
            }
            Ordering::Greater => {}
        }
        rest.base += rest.width;
        rest.rows -= 1;
    }
    least <= count
}

// The left rows that begin at least so many right rows, as a value from `out` on. A comparison with a right row passes it for good, or is the last for its left row:
// so there are at most as many as left and right rows together.
pub fn tally(work: &mut [u32], least: usize, left: Value, right: Value, out: usize) -> Option<usize>
    requires { (0 < left.width) × (left.width < right.width) × (end left ≤ out) × (out ≤ length work.old) × (end right ≤ out) × Ascending (rows_of left work.old) × Ascending (rows_of right work.old) }
    ensures { Builds left.width out 0 (tally_candidates least (rows_of left work.old) (rows_of right work.old)) work.old work.new result }
{
    let width = left.width;
    let mut rest = right;
    let mut rows: usize = 0;
    for i in 0..left.rows {
        let at = left.base + i * width;
        let enough = count_begun(work, at, width, &mut rest, least);
        let made = Value {
            base: out,
            rows,
            width,
        };
        rows = keep_if(work, enough, at, made)?;
    }
    Some(rows)
}
