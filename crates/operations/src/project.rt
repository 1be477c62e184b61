// A row of picked columns put into a value. A list may name an attribute twice.
ghost use Rattle.std.specs.Prelude.{[], ◌∷◌, map, ◌+◌, ◌*◌, ◌≤◌, ◌<◌, length};
ghost use Rattle.relations.specs.Limits.{column_limit};
ghost use Rattle.relations.specs.Columns as meaning;
ghost use Rattle.relations.specs.Values.{Ascending};
ghost use Rattle.values.specs.Words.{row_in, rows_at};
ghost use Rattle.values.specs.Building.{Builds};

use crate::made::picked_row;
use values::placing::place_row;
use values::rows::{Value, row};

// The listed columns of the row that starts at `at` are put into the value of `made` rows at `out`.
pub fn place_picked(
    columns: &[u32],
    work: &mut [u32],
    at: usize,
    width: usize,
    out: usize,
    made: usize,
) -> Option<usize>
    requires { (0 < length columns.now) × (length columns.now ≤ column_limit) × (out + made * length columns.now ≤ length work.old) × Ascending (rows_at (length columns.now) made out work.old) }
    ensures { Builds (length columns.now) out made (meaning.pick (map meaning.attribute columns.now) (row_in work.old at width) ∷ []) work.old work.new result }
{
    let picked = picked_row(columns, row(work, work, true, at, width));
    let value = Value {
        base: out,
        rows: made,
        width: columns.len(),
    };
    place_row(&picked, work, false, 0, value)
}
