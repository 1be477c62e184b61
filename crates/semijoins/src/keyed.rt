// Semijoin and antijoin. A left row's partners are sought by halving where the triples equate or compare the first right columns. Where they name others, these are
// made a value of their own, the keys, equated columns first; where there is no room for that, the right value itself is searched.
ghost use Rattle.std.specs.Prelude.{◌≡◌, map, ◌&&◌, ◌+◌, ◌*◌, ◌/◌, ◌≤◌, ◌<◌, eqb, length, slice_index, MatchOption};
ghost use Rattle.relations.specs.Limits.{column_limit, triple_limit};
ghost use Rattle.relations.specs.Values.{Ascending};
ghost use Rattle.relations.specs.Columns.{attribute, word_at};
ghost use Rattle.relations.specs.Operations.{project_candidates, semijoin_candidates, antijoin_candidates};
ghost use Rattle.values.specs.Words.{rows_of, end};
ghost use Rattle.values.specs.Building.{Blank, Makes};
ghost use Rattle.operations.specs.Lists.{triples_in, triples_of};
ghost use Rattle.wanted_rows.specs.Wanted.{wanted_rows};
ghost use Rattle.semijoins.specs.Keys.{renumbers, Keyed, Tried};

use operations::columns::{Triple, column_of, triple_at};
use ordering::sorted::project;
use partners::words::Words;
use relations::limits::{ATTRIBUTES, TRIPLES};
use terms::attribute::Attribute;
use terms::operator::Operator;
use values::clearing::{clear_from, clear_words, finish};
use values::placing::move_down;
use values::rows::Value;
use wanted_rows::keep_by_rows;

// The words of a triple, and of the most triples.
const TRIPLE: usize = 3;

const TRIPLES_WORDS: usize = TRIPLE * TRIPLES;

// When a triple's right column comes among the keys' columns: equated ones first, then those that are compared by order.
fn rank(operator: Operator) -> usize {
    match operator {
        Operator::Equal => 0,
        Operator::NotEqual => 2,
        _ => 1,
    }
}

// The right columns that the triples name, by their numbers, each once.
fn named_columns(triples: &[u32]) -> Words {
    let mut columns = Words::new();
    for now in 0..3 {
        for words in triples.chunks_exact(TRIPLE) {
            let triple = triple_at(words, 0);
            let number = triple.right.0;
            let named = columns.as_slice();
            if rank(triple.operator) == now && named.len() < TRIPLES && !named.contains(&number) {
                columns.push(number);
            }
        }
    }
    columns
}

// A column's number among the columns, 0 where it is none of them.
fn number_among(columns: &[u32], number: u32) -> u32
    requires { length columns.now ≤ triple_limit }
{
    match columns.iter().position(|column| *column == number) {
        Some(place) => place as u32 + 1,
        None => 0,
    }
}

// The triples, with the numbers of their right attributes among the columns.
fn renumbered(triples: &[u32], columns: &[u32]) -> [u32; TRIPLES_WORDS]
    requires { (length triples.now ≤ TRIPLES_WORDS) × (length columns.now ≤ triple_limit) }
{
    let mut made = [0; TRIPLES_WORDS];
    made[..triples.len()].copy_from_slice(triples);
    for words in made.chunks_exact_mut(TRIPLE) {
        words[2] = number_among(columns, words[2]);
    }
    made
}

// Whether the other triple that starts at the word `at` is that of the list, with a number among the columns as its right attribute.
fn is_renumbered(triples: &[u32], columns: &[u32], other: &[u32], at: usize) -> bool
    requires { (at + 3 ≤ length triples.now) × (at + 3 ≤ length other.now) }
    ensures { result ≡ (eqb (slice_index other.now at) (slice_index triples.now at) && (eqb (slice_index other.now (at + 1)) (slice_index triples.now (at + 1)) && eqb (word_at columns.now (slice_index other.now (at + 2))) (slice_index triples.now (at + 2)))) }
{
    other[at] == triples[at]
        && other[at + 1] == triples[at + 1]
        && column_of(columns, Attribute(other[at + 2])) == triples[at + 2]
}

// Whether all are.
fn are_renumbered(triples: &[u32], columns: &[u32], other: &[u32]) -> bool
    requires { length triples.now ≡ length other.now }
    ensures { result ≡ renumbers (length triples.now / 3) columns.now triples.now other.now }
{
    for k in 0..triples.len() / TRIPLE {
        if !is_renumbered(triples, columns, other, k * TRIPLE) {
            return false;
        }
    }
    true
}

// The keys, as a value from `out` on; without room for them all is as it was.
fn make_keys(columns: &[u32], work: &mut [u32], right: Value, out: usize) -> Option<Value>
    requires { (0 < length columns.now) × (length columns.now ≤ column_limit) × (end right ≤ out) × (out ≤ length work.old) × Blank out work.old }
    ensures { MatchOption result (work.new ≡ work.old) (Keyed columns.now right out work.old work.new) }
{
    let width = columns.len();
    let rows = project(columns, width, work, right, out)?;
    Some(Value {
        base: out,
        rows,
        width,
    })
}

// The wanted left rows by keys, the listed right columns, if these and the rows have room together: the rows are made behind the
// keys and moved down. Where they have none, all is as it was.
#[tactic(auto, using(values::proofs::FillLaws::made_fits))]
fn keep_by_key(
    triples: &[u32],
    columns: &[u32],
    work: &mut [u32],
    left: Value,
    right: Value,
    wanted: bool,
    out: usize,
) -> Option<usize>
    requires { (0 < length columns.now) × (length columns.now ≤ column_limit) × (0 < left.width) × (end left ≤ out) × (end right ≤ out) × (out ≤ length work.old) × Blank out work.old × (length triples.now / 3 ≤ triple_limit) }
    ensures { Tried left.width out (wanted_rows wanted (triples_of triples.now) (rows_of left work.old) (project_candidates (map attribute columns.now) (rows_of right work.old))) work.old work.new result }
{
    let keys = make_keys(columns, work, right, out)?;
    let behind = out + keys.rows * keys.width;
    let Some(rows) = keep_by_rows(triples, work, left, keys, wanted, behind) else {
        clear_from(work, out);
        return None;
    };
    let words = rows * left.width;
    move_down(work, behind, words, out);
    clear_words(work, out + words, behind + words);
    Some(rows)
}

// Whether a triple passes a test. It only says what is quicker.
fn some_triple<F: Fn(Triple) -> bool>(triples: &[u32], test: F) -> bool
    requires { F.IsAlwaysCallable test }
{
    for words in triples.chunks_exact(TRIPLE) {
        if test(triple_at(words, 0)) {
            return true;
        }
    }
    false
}

// How many of the first right columns are equated.
fn equated(triples: &[u32]) -> u32
    ensures { result ≤ column_limit }
{
    for number in 0..ATTRIBUTES {
        let equates = |triple: Triple| {
            matches!(triple.operator, Operator::Equal) && triple.right.0 == number + 1
        };
        if !some_triple(triples, equates) {
            return number;
        }
    }
    ATTRIBUTES
}

// Whether the columns are all those of a value of that width, in their order.
fn are_all(columns: &[u32], width: usize) -> bool {
    for (i, number) in columns.iter().enumerate() {
        if *number as usize != i + 1 {
            return false;
        }
    }
    columns.len() == width
}

// Whether the triples name a right column beyond the one behind those that are equated, or differ from that one where it is not the
// last; but not where keys would be the right value itself.
fn names_others(triples: &[u32], columns: &[u32], width: usize) -> bool {
    if are_all(columns, width) {
        return false;
    }
    let next = equated(triples) + 1;
    if some_triple(triples, |triple| next < triple.right.0) {
        return true;
    }
    (next as usize) < width
        && some_triple(triples, |triple| {
            matches!(triple.operator, Operator::NotEqual) && triple.right.0 == next
        })
}

// The wanted left rows by keys, where these are worth their making.
fn try_keys(
    triples: &[u32],
    work: &mut [u32],
    left: Value,
    right: Value,
    wanted: bool,
    out: usize,
) -> Option<usize>
    requires { (0 < left.width) × (end left ≤ out) × (end right ≤ out) × (out ≤ length work.old) × Blank out work.old × (length triples.now ≤ TRIPLES_WORDS) }
    ensures { Tried left.width out (wanted_rows wanted (triples_of triples.now) (rows_of left work.old) (rows_of right work.old)) work.old work.new result }
{
    if left.rows < 4 {
        return None;
    }
    let words = named_columns(triples);
    let columns = words.as_slice();
    if columns.is_empty() || !names_others(triples, columns, right.width) {
        return None;
    }
    let made = renumbered(triples, columns);
    let other = &made[..triples.len()];
    if !are_renumbered(triples, columns, other) {
        return None;
    }
    keep_by_key(other, columns, work, left, right, wanted, out)
}

// The wanted left rows.
fn keep_wanted(
    triples: &[u32],
    work: &mut [u32],
    left: Value,
    right: Value,
    wanted: bool,
    out: usize,
) -> Option<usize>
    requires { (0 < left.width) × (end left ≤ out) × (out ≤ length work.old) × (end right ≤ out) × Ascending (rows_of right work.old) × Blank out work.old × (length triples.now ≤ TRIPLES_WORDS) }
    ensures { Makes left.width out (wanted_rows wanted (triples_of triples.now) (rows_of left work.old) (rows_of right work.old)) work.old work.new result }
{
    match try_keys(triples, work, left, right, wanted, out) {
        Some(rows) => Some(rows),
        None => finish(
            keep_by_rows(triples, work, left, right, wanted, out),
            work,
            out,
        ),
    }
}

// Two functions and no flag: each promises its own operation of relations (`semijoin_candidates`, `antijoin_candidates`).
// Operation 6: the rows that meet the triples with some right row.
pub fn semijoin(
    list: &[u32],
    count: usize,
    work: &mut [u32],
    left: Value,
    right: Value,
    out: usize,
) -> Option<usize>
    requires { (0 < left.width) × (end left ≤ out) × (out ≤ length work.old) × (end right ≤ out) × (count * 3 ≤ length list.now) × Ascending (rows_of right work.old) × Blank out work.old × (count ≤ triple_limit) }
    ensures { Makes left.width out (semijoin_candidates (triples_in count list.now) (rows_of left work.old) (rows_of right work.old)) work.old work.new result }
{
    keep_wanted(&list[..count * TRIPLE], work, left, right, true, out)
}

// Operation 7: the rows that meet them with none.
pub fn antijoin(
    list: &[u32],
    count: usize,
    work: &mut [u32],
    left: Value,
    right: Value,
    out: usize,
) -> Option<usize>
    requires { (0 < left.width) × (end left ≤ out) × (out ≤ length work.old) × (end right ≤ out) × (count * 3 ≤ length list.now) × Ascending (rows_of right work.old) × Blank out work.old × (count ≤ triple_limit) }
    ensures { Makes left.width out (antijoin_candidates (triples_in count list.now) (rows_of left work.old) (rows_of right work.old)) work.old work.new result }
{
    keep_wanted(&list[..count * TRIPLE], work, left, right, false, out)
}
