// Operation 8: the remaining columns of the left rows that have, for every right row, a left row that agrees with them there and equals it on the pairs.
ghost use Rattle.std.specs.Prelude.{◌≡◌, ◌&&◌, [], ◌∷◌, ◌+◌, ◌*◌, ◌-◌, ◌≤◌, ◌<◌, length, take, ltb};
ghost use Rattle.std.proofs.Math.Bool.{So};
ghost use Rattle.relations.specs.Limits.{column_limit};
ghost use Rattle.relations.specs.Legality.{distinct};
ghost use Rattle.relations.specs.Lists.{All};
ghost use Rattle.relations.specs.Rows.{same_row};
ghost use Rattle.relations.specs.Columns.{left_numbers};
ghost use Rattle.relations.specs.Operations.{divide_candidates};
ghost use Rattle.relations.specs.PlanWords.{read_pairs};
ghost use Rattle.relations.specs.Values.{Ascending, member};
ghost use Rattle.values.specs.Building.{Builds};
ghost use Rattle.values.specs.Words.{row_in, rows_at, rows_of, end};
ghost use Rattle.division.specs.Divisions as meaning;
ghost use Rattle.relations.specs.Meanings.{partnered};
ghost use Rattle.division.specs.Divisions.{pairs_of, columns_left, kept, with_pairs, PairsFit, quotient, DivisionFits};

use operations::columns::{column_of, pair_at};
use operations::project::place_picked;
use plan_reading::legal::is_listed;
use relations::limits::{COLUMNS, PAIR_WORDS};
use terms::attribute::Attribute;
use values::placing::write_row;
use values::rows::{Value, row};
use values::search::has_row;

// The numbers of the columns that are no pair's left attribute, written in front; and how many they are.
fn remaining_columns(pairs: &[u32], width: usize, columns: &mut [u32]) -> usize
    requires { (width ≤ column_limit) × (column_limit ≤ length columns.old) }
    ensures { (result ≤ width) × (take result columns.new ≡ columns_left 1 width (left_numbers (pairs_of pairs.now))) }
{
    let mut kept: usize = 0;
    for column in 0..width {
        let number = column as u32 + 1;
        if !is_listed(number, pairs, 0, pairs.len() / PAIR_WORDS) {
            columns[kept] = number;
            kept += 1;
        }
    }
    kept
}

// Whether two rows agree on the columns.
fn same_columns(columns: &[u32], a: &[u32], b: &[u32]) -> bool
    ensures { result ≡ same_row (kept columns.now a.now) (kept columns.now b.now) }
{
    columns.iter().all(|number| column_of(a, Attribute(*number))
        == column_of(b, Attribute(*number)))
}

// The only row that can be the partner of `t` for the right row `r`: `t` with the columns of `r` at the pairs' left attributes.
fn partner_row(pairs: &[u32], t: &[u32], r: &[u32]) -> [u32; COLUMNS]
    requires { PairsFit pairs.now (length t.now) }
    ensures { take (length t.now) result ≡ with_pairs (pairs_of pairs.now) t.now r.now }
{
    let mut made = [0u32; COLUMNS];
    write_row(t, &mut made, false, 0, t.len(), 0);
    for words in pairs.chunks_exact(PAIR_WORDS) {
        let pair = pair_at(words, 0);
        let number = pair.left.0 as usize;
        made[number - 1] = column_of(r, pair.right);
    }
    made
}

// Whether some left row agrees with the row `t` on the remaining columns and equals the right row `r` on the pairs: it is sought by halving.
fn has_partner(pairs: &[u32], work: &[u32], left: Value, t: &[u32], r: &[u32]) -> bool
    requires { PairsFit pairs.now left.width × (length t.now ≡ left.width) × (end left ≤ length work.now) × Ascending (rows_of left work.now) }
    ensures { result ≡ partnered (pairs_of pairs.now) (rows_of left work.now) t.now r.now }
{
    let sought = partner_row(pairs, t, r);
    has_row(work, left, &sought[..t.len()])
}

// Whether the row `t` has a partner for every right row.
fn divides(pairs: &[u32], work: &[u32], left: Value, right: Value, t: &[u32]) -> bool
    requires { PairsFit pairs.now left.width × (length t.now ≡ left.width) × (end left ≤ length work.now) × Ascending (rows_of left work.now) × (end right ≤ length work.now) }
    ensures { result ≡ meaning.divides (pairs_of pairs.now) (rows_of left work.now) (rows_of right work.now) t.now }
{
    let width = right.width;
    for i in 0..right.rows {
        let at = right.base + i * width;
        if !has_partner(pairs, work, left, t, row(work, work, true, at, width)) {
            return false;
        }
    }
    true
}

// Whether the row at `at` agrees on the columns with the row at `last`, where that is an earlier one.
fn repeats(columns: &[u32], work: &[u32], last: usize, at: usize, width: usize) -> bool
    ensures { result ≡ (ltb last at && same_row (kept columns.now (row_in work.now last width)) (kept columns.now (row_in work.now at width))) }
{
    last < at
        && same_columns(
            columns,
            row(work, work, true, last, width),
            row(work, work, true, at, width),
        )
}

// The remaining columns of the left row at `at`, if it passes, are put into the value of `made` rows at `out`. Where the row at `last`, which was
// worked out before, has the same remaining columns, nothing new can come of it.
fn divide_row(
    columns: &[u32],
    pairs: &[u32],
    work: &mut [u32],
    left: Value,
    right: Value,
    last: usize,
    at: usize,
    out: usize,
    made: usize,
) -> Option<usize>
    requires division_fits { DivisionFits columns.now pairs.now left right out work.old × (last + left.width ≤ out) × (at + left.width ≤ out) × (out + made * length columns.now ≤ length work.old) × Ascending (rows_at (length columns.now) made out work.old) }
    requires all { last < at → All (λ row. So (member row (rows_at (length columns.now) made out work.old))) (quotient columns.now (pairs_of pairs.now) (rows_of left work.old) (rows_of right work.old) (row_in work.old last left.width ∷ [])) }
    ensures { Builds (length columns.now) out made (quotient columns.now (pairs_of pairs.now) (rows_of left work.old) (rows_of right work.old) (row_in work.old at left.width ∷ [])) work.old work.new result }
{
    let width = left.width;
    if repeats(columns, work, last, at, width) {
        return Some(made);
    }
    let t = row(work, work, true, at, width);
    if divides(pairs, work, left, right, t) {
        place_picked(columns, work, at, width, out, made)
    } else {
        Some(made)
    }
}

// The quotient by the columns that remain.
fn divide_by(
    columns: &[u32],
    pairs: &[u32],
    work: &mut [u32],
    left: Value,
    right: Value,
    out: usize,
) -> Option<usize>
    requires { DivisionFits columns.now pairs.now left right out work.old }
    ensures { Builds (length columns.now) out 0 (quotient columns.now (pairs_of pairs.now) (rows_of left work.old) (rows_of right work.old) (rows_of left work.old)) work.old work.new result }
{
    let mut last = left.base;
    let mut made: usize = 0;
    for i in 0..left.rows {
        let at = left.base + i * left.width;
        made = divide_row(columns, pairs, work, left, right, last, at, out, made)?;
        last = at;
    }
    Some(made)
}

// `list` and `count` stay two: `count_in_bounds` and the quotient's width are said of the count that the node names.
pub fn divide(
    list: &[u32],
    count: usize,
    work: &mut [u32],
    left: Value,
    right: Value,
    out: usize,
) -> Option<usize>
    requires count_in_bounds { (count * 2 ≤ length list.now) × (count < left.width) × (left.width ≤ column_limit) × (end left ≤ out) × (end right ≤ out) × (out ≤ length work.old) × Ascending (rows_of left work.old) }
    requires so { So (distinct (left_numbers (read_pairs count list.now))) × All (λ number. (1 ≤ number) × (number ≤ left.width)) (left_numbers (read_pairs count list.now)) }
    ensures { Builds (left.width - count) out 0 (divide_candidates (read_pairs count list.now) (rows_of left work.old) (rows_of right work.old)) work.old work.new result }
{
    let pairs = &list[..count * PAIR_WORDS];
    let mut columns = [0u32; COLUMNS];
    let kept = remaining_columns(pairs, left.width, &mut columns);
    divide_by(&columns[..kept], pairs, work, left, right, out)
}
