// Operation 5: each left row before each right row that it meets. With no triple this is the product.
ghost use Rattle.std.specs.Prelude.{◌≡◌, [], ◌∷◌, ◌+◌, ◌-◌, ◌*◌, ◌/◌, ◌≤◌, ◌<◌, eqb, length};
ghost use Rattle.relations.specs.Limits.{column_limit, triple_limit};
ghost use Rattle.relations.specs.Columns.{meets};
ghost use Rattle.relations.specs.Values.{Ascending};
ghost use Rattle.relations.specs.Operations.{join_candidates};
ghost use Rattle.values.specs.Words.{row_in, rows_at, rows_of, end};
ghost use Rattle.values.specs.Places.{rows_before, NoneBehind};
ghost use Rattle.values.specs.Building.{Builds};
ghost use Rattle.operations.specs.Lists.{triples_in, triples_of};
ghost use Rattle.partners.specs.Sieves.{sifts};
ghost use Rattle.joining.specs.Joins.{beside, pair_width, PairFits, joined};

use operations::columns::NO_WORDS;
use operations::made::pair_row;
use partners::finding::partners_of;
use partners::sieve::{Entry, NO_ENTRY, fill, lets_through};
use relations::limits::{TRIPLE_WORDS, TRIPLES};
use std::cmp::Ordering;
use values::placing::{place_row, write_row};
use values::rows::{Value, compare_rows, row};
use values::search::{stands_before, stands_behind};

// A left row and a right row, by where they start, and how wide they are: the right row's words come behind the left row's.
#[derive(Clone, Copy)]
pub struct Pair {
    pub left: usize,
    pub width: usize,
    pub right: usize,
    pub more: usize,
}

// Whether the pair stands behind all `made` rows at `out`: it does if it stands behind the last.
fn comes_last(work: &[u32], pair: Pair, out: usize, made: usize) -> bool
    requires { (pair.left + pair.width ≤ length work.now) × (pair.right + pair.more ≤ length work.now) × (out + made * pair_width pair ≤ length work.now) × Ascending (rows_at (pair_width pair) made out work.now) }
    ensures { result ≡ eqb (rows_before (beside pair work.now) (rows_at (pair_width pair) made out work.now)) made }
{
    if made == 0 {
        return true;
    }
    let last = out + (made - 1) * (pair.width + pair.more);
    let first = row(work, work, true, last, pair.width);
    match compare_rows(first, row(work, work, true, pair.left, pair.width)) {
        Ordering::Less => true,
        Ordering::Equal => stands_before(
            work,
            last + pair.width,
            pair.more,
            row(work, work, true, pair.right, pair.more),
        ),
        Ordering::Greater => false,
    }
}

// The pair is written behind the rows of the value, all of which it stands behind.
fn append_pair(work: &mut [u32], pair: Pair, out: usize, made: usize) -> Option<usize>
    requires { PairFits pair out made work.old × (rows_before (beside pair work.old) (rows_at (pair_width pair) made out work.old) ≡ made) }
    ensures { Builds (pair_width pair) out made (beside pair work.old ∷ []) work.old work.new result }
{
    let whole = pair.width + pair.more;
    let end = out + made * whole;
    if work.len() - end < whole {
        return None;
    }
    let middle = end + pair.width;
    write_row(&NO_WORDS, work, true, pair.left, pair.width, end);
    write_row(&NO_WORDS, work, true, pair.right, pair.more, middle);
    Some(made + 1)
}

// The pair is put into the value. Rows come in order, so few need a copy aside.
fn place_pair(work: &mut [u32], pair: Pair, out: usize, made: usize) -> Option<usize>
    requires { PairFits pair out made work.old }
    ensures { Builds (pair_width pair) out made (beside pair work.old ∷ []) work.old work.new result }
{
    if comes_last(work, pair, out, made) {
        return append_pair(work, pair, out, made);
    }
    let aside = pair_row(work, pair.left, pair.width, pair.right, pair.more);
    let value = Value {
        base: out,
        rows: made,
        width: pair.width + pair.more,
    };
    place_row(&aside, work, false, 0, value)
}

// The pair, if the sieve lets its right row through, is put into the value of `made` rows at `out`.
fn join_pair(
    sieve: &[Entry],
    work: &mut [u32],
    pair: Pair,
    out: usize,
    made: usize,
) -> Option<usize>
    requires { PairFits pair out made work.old }
    ensures { Builds (pair_width pair) out made (joined (sifts sieve.now) (row_in work.old pair.left pair.width) (row_in work.old pair.right pair.more ∷ [])) work.old work.new result }
{
    if lets_through(sieve, row(work, work, true, pair.right, pair.more)) {
        place_pair(work, pair, out, made)
    } else {
        Some(made)
    }
}

// The left row at `a` with each of the right rows that the sieve lets through. They ascend, so the first one that the bound stands before ends them.
fn join_from(
    sieve: &[Entry],
    work: &mut [u32],
    a: usize,
    width: usize,
    right: Value,
    high: &[u32],
    out: usize,
    made: usize,
) -> Option<usize>
    requires { (0 < width) × (width + right.width ≤ column_limit) × (a + width ≤ out) × (end right ≤ out) × (out + made * (width + right.width) ≤ length work.old) × Ascending (rows_at (width + right.width) made out work.old) × Ascending (rows_of right work.old) × (length high.now ≤ right.width) × NoneBehind right.width high.now (sifts sieve.now) }
    ensures { Builds (width + right.width) out made (joined (sifts sieve.now) (row_in work.old a width) (rows_of right work.old)) work.old work.new result }
{
    let mut total = made;
    for i in 0..right.rows {
        let at = right.base + i * right.width;
        if stands_behind(work, at, high) {
            return Some(total);
        }
        let pair = Pair {
            left: a,
            width,
            right: at,
            more: right.width,
        };
        total = join_pair(sieve, work, pair, out, total)?;
    }
    Some(total)
}

// The left row at `a` with each right row that it meets.
fn join_row(
    triples: &[u32],
    work: &mut [u32],
    a: usize,
    width: usize,
    right: Value,
    out: usize,
    made: usize,
) -> Option<usize>
    requires { (0 < width) × (width + right.width ≤ column_limit) × (a + width ≤ out) × (end right ≤ out) × (out + made * (width + right.width) ≤ length work.old) × Ascending (rows_at (width + right.width) made out work.old) × Ascending (rows_of right work.old) × (length triples.now / 3 ≤ triple_limit) }
    ensures { Builds (width + right.width) out made (joined (meets (triples_of triples.now) (row_in work.old a width)) (row_in work.old a width) (rows_of right work.old)) work.old work.new result }
{
    let mut room = [NO_ENTRY; TRIPLES];
    let sieve = fill(triples, row(work, work, true, a, width), &mut room);
    let found = partners_of(sieve, work, right);
    let number = found.number;
    let rest = Value {
        base: right.base + number * right.width,
        rows: right.rows - number,
        width: right.width,
    };
    join_from(
        sieve,
        work,
        a,
        width,
        rest,
        found.highs.as_slice(),
        out,
        made,
    )
}

// `list` and `count` stay two: the clause `count * 3 ≤ length list` leaves the caller the words behind the triples.
pub fn join(
    list: &[u32],
    count: usize,
    work: &mut [u32],
    left: Value,
    right: Value,
    out: usize,
) -> Option<usize>
    requires { (count * 3 ≤ length list.now) × (0 < left.width) × (left.width + right.width ≤ column_limit) × (end left ≤ out) × (end right ≤ out) × (out ≤ length work.old) × Ascending (rows_of right work.old) × (count ≤ triple_limit) }
    ensures { Builds (left.width + right.width) out 0 (join_candidates (triples_in count list.now) (rows_of left work.old) (rows_of right work.old)) work.old work.new result }
{
    let triples = &list[..count * TRIPLE_WORDS];
    let width = left.width;
    let mut made: usize = 0;
    for i in 0..left.rows {
        made = join_row(
            triples,
            work,
            left.base + i * width,
            width,
            right,
            out,
            made,
        )?;
    }
    Some(made)
}
