// Rows that are made of others. Such a row is kept aside in one array of the row limit until it is placed; only these two functions make one.
ghost use Rattle.std.specs.Prelude.{◌≡◌, ◌++◌, map, ◌+◌, ◌≤◌, length, take};
ghost use Rattle.relations.specs.Limits.{column_limit};
ghost use Rattle.relations.specs.Columns as meaning;
ghost use Rattle.values.specs.Words.{row_in};
ghost use Rattle.operations.specs.Aside.{aside};

use crate::columns::column_of;
use relations::limits::COLUMNS;
use terms::attribute::Attribute;
use values::placing::write_row;

// The listed columns of a row.
pub fn picked_row(columns: &[u32], row: &[u32]) -> [u32; COLUMNS]
    requires { length columns.now ≤ column_limit }
    ensures { result ≡ aside (meaning.pick (map meaning.attribute columns.now) row.now) }
{
    let mut made = [0u32; COLUMNS];
    for (i, column) in columns.iter().enumerate() {
        made[i] = column_of(row, Attribute(*column));
    }
    made
}

// A row of the work area with another behind it.
pub fn pair_row(
    work: &[u32],
    left: usize,
    width: usize,
    right: usize,
    more: usize,
) -> [u32; COLUMNS]
    requires { (width + more ≤ column_limit) × (left + width ≤ length work.now) × (right + more ≤ length work.now) }
    ensures { result ≡ aside (row_in work.now left width ++ row_in work.now right more) }
{
    let mut made = [0u32; COLUMNS];
    write_row(work, &mut made, false, left, width, 0);
    write_row(work, &mut made, false, right, more, width);
    made
}
