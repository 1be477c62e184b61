// The left rows that meet triples with some right row, or with none: each has a sieve, and right rows between its bounds are tried.
#![tactic(auto)]

ghost use Rattle.std.specs.Prelude.{◌≡◌, ◌&&◌, [], ◌∷◌, ◌+◌, ◌-◌, ◌*◌, ◌/◌, ◌≤◌, ◌<◌, eqb, length};
ghost use Rattle.relations.specs.Limits.{triple_limit};
ghost use Rattle.relations.specs.Lists.{any};
ghost use Rattle.relations.specs.Rows.{row_before};
ghost use Rattle.relations.specs.Columns.{meets};
ghost use Rattle.relations.specs.Values.{Ascending};
ghost use Rattle.values.specs.Words.{row_in, rows_at, rows_of, end};
ghost use Rattle.values.specs.Places.{NoneBehind};
ghost use Rattle.values.specs.Building.{Builds};
ghost use Rattle.operations.specs.Lists.{triples_of};
ghost use Rattle.partners.specs.Sieves.{sifts};
ghost use Rattle.wanted_rows.specs.Wanted.{wanted_row, wanted_rows};

use operations::keep::keep_if;
use partners::finding::partners_of;
use partners::sieve::{Entry, NO_ENTRY, fill, lets_through};
use relations::limits::TRIPLES;
use values::rows::{Value, row};
use values::search::stands_behind;

// Whether it is time to look at the bound, and that stands before the first words of the row at `at`.
fn is_past(work: &[u32], at: usize, high: &[u32], wait: usize) -> bool
    ensures { result ≡ (eqb wait 0 && row_before high.now (row_in work.now at (length high.now))) }
{
    wait == 0 && stands_behind(work, at, high)
}

// After a look at the bound as many rows are tried without one as were tried before.
fn next_wait(wait: usize, tried: usize) -> usize {
    if wait == 0 { tried } else { wait - 1 }
}

// Whether the sieve lets some right row from that number on through. The right rows ascend, so one that the bound stands before ends the search. So long as there are
// such rows, most are tried without a look at the bound, and at most as many are tried in vain as stand inside it.
fn some_through(sieve: &[Entry], work: &[u32], right: Value, number: usize, high: &[u32]) -> bool
    requires { (end right ≤ length work.now) × Ascending (rows_of right work.now) × (number ≤ right.rows) × (length high.now ≤ right.width) × NoneBehind right.width high.now (sifts sieve.now) }
    ensures { result ≡ any (sifts sieve.now) (rows_at right.width (right.rows - number) (right.base + number * right.width) work.now) }
{
    let mut wait: usize = 0;
    for i in number..right.rows {
        let at = right.base + i * right.width;
        if is_past(work, at, high, wait) {
            return false;
        }
        // Its words as they stand, without the look of `row` at their end: this is asked of every pair of rows.
        if lets_through(sieve, &work[at..at + right.width]) {
            return true;
        }
        wait = next_wait(wait, i - number);
    }
    false
}

// Whether a row meets the triples with some right row.
fn meets_some(triples: &[u32], work: &[u32], sought: &[u32], right: Value) -> bool
    requires { (end right ≤ length work.now) × Ascending (rows_of right work.now) × (length triples.now / 3 ≤ triple_limit) }
    ensures { result ≡ any (meets (triples_of triples.now) sought.now) (rows_of right work.now) }
{
    let mut room = [NO_ENTRY; TRIPLES];
    let sieve = fill(triples, sought, &mut room);
    let found = partners_of(sieve, work, right);
    some_through(sieve, work, right, found.number, found.highs.as_slice())
}

// Whether the left row that starts at `at` is wanted: whether it meets the triples with some right row, or, where that is not wanted, with none.
fn is_wanted(
    triples: &[u32],
    work: &[u32],
    at: usize,
    width: usize,
    right: Value,
    wanted: bool,
) -> bool
    requires { (end right ≤ length work.now) × Ascending (rows_of right work.now) × (length triples.now / 3 ≤ triple_limit) }
    ensures { result ≡ wanted_row wanted (triples_of triples.now) (rows_of right work.now) (row_in work.now at width) }
{
    meets_some(triples, work, row(work, work, true, at, width), right) == wanted
}

// The left row that starts at `at` is put into the value of the left rows' width, if it is wanted.
fn keep_row(
    triples: &[u32],
    work: &mut [u32],
    at: usize,
    right: Value,
    wanted: bool,
    value: Value,
) -> Option<usize>
    requires { (0 < value.width) × (at + value.width ≤ value.base) × (end right ≤ value.base) × (end value ≤ length work.old) × Ascending (rows_of value work.old) × Ascending (rows_of right work.old) × (length triples.now / 3 ≤ triple_limit) }
    ensures { Builds value.width value.base value.rows (wanted_rows wanted (triples_of triples.now) (row_in work.old at value.width ∷ []) (rows_of right work.old)) work.old work.new result }
{
    let kept = is_wanted(triples, work, at, value.width, right, wanted);
    keep_if(work, kept, at, value)
}

// The wanted left rows, as a value from `out` on.
pub fn keep_by_rows(
    triples: &[u32],
    work: &mut [u32],
    left: Value,
    right: Value,
    wanted: bool,
    out: usize,
) -> Option<usize>
    requires { (0 < left.width) × (end left ≤ out) × (out ≤ length work.old) × (end right ≤ out) × Ascending (rows_of right work.old) × (length triples.now / 3 ≤ triple_limit) }
    ensures { Builds left.width out 0 (wanted_rows wanted (triples_of triples.now) (rows_of left work.old) (rows_of right work.old)) work.old work.new result }
{
    let width = left.width;
    let mut rows = 0;
    for i in 0..left.rows {
        let made = Value {
            base: out,
            rows,
            width,
        };
        rows = keep_row(triples, work, left.base + i * width, right, wanted, made)?;
    }
    Some(rows)
}
