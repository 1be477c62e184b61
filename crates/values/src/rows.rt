// Rows, read where they stand, and their order.
ghost use Rattle.std.specs.Prelude.{◌≡◌};
ghost use Rattle.values.specs.Words.{held, row_in};
ghost use Rattle.values.specs.Orders.{order_of};

use std::cmp::Ordering;

// A value: so many rows of a width, from the word `base` of the work area on.
#[derive(Clone, Copy)]
pub struct Value {
    pub base: usize,
    pub rows: usize,
    pub width: usize,
}

// The words of that width from `start` on, or an empty part where they are not wholly inside.
fn part_of(words: &[u32], start: usize, width: usize) -> &[u32]
    ensures { result.now ≡ row_in words.now start width }
{
    let rest = words.get(start..).unwrap_or(&[]);
    rest.get(..width).unwrap_or(&[])
}

// A row of the tables or of the work area: the row itself, never a copy. It takes both lent slices, as the row reader of document 01 does (docs/DECISIONS.md).
pub fn row<'a>(
    tables: &'a [u32],
    work: &'a [u32],
    in_work: bool,
    start: usize,
    width: usize,
) -> &'a [u32]
    ensures { result.now ≡ row_in (held in_work tables.now work.now) start width }
{
    if in_work {
        part_of(work, start, width)
    } else {
        part_of(tables, start, width)
    }
}

// Two rows, first column first. Not the slices' own `cmp`: it goes by long strides, and for rows of a few columns its call costs more than this loop.
pub fn compare_rows(a: &[u32], b: &[u32]) -> Ordering
    ensures { result ≡ order_of a.now b.now }
{
    for i in 0..a.len().min(b.len()) {
        if a[i] < b[i] {
            return Ordering::Less;
        }
        if b[i] < a[i] {
            return Ordering::Greater;
        }
    }
    a.len().cmp(&b.len())
}
