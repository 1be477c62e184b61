// Stored rows that ascend already: their words are the value's.
ghost use Rattle.std.specs.Prelude.{◌≡◌, ◌+◌, ◌*◌, ◌≤◌, ◌<◌, length};
ghost use Rattle.relations.specs.Values.{Ascending};
ghost use Rattle.values.specs.Words.{rows_of, end};
ghost use Rattle.values.specs.Building.{Blank, Makes};
ghost use Rattle.ordering.specs.Offering.{neighbours_ascend};

use values::placing::write_row;
use values::rows::{Value, row};
use values::search::stands_before;

// Whether each row stands before the next one.
pub fn ascends(words: &[u32], value: Value) -> bool
    requires { end value ≤ length words.now }
    ensures { result ≡ neighbours_ascend value words.now }
{
    let width = value.width;
    for next in (1..value.rows).rev() {
        let at = value.base + next * width;
        if !stands_before(words, at - width, width, row(words, words, true, at, width)) {
            return false;
        }
    }
    true
}

// The value of rows that ascend: their words, copied at once.
pub fn copy_ascending(tables: &[u32], work: &mut [u32], stored: Value, out: usize) -> Option<usize>
    requires { Ascending (rows_of stored tables.now) × (end stored ≤ length tables.now) × (out ≤ length work.old) × Blank out work.old }
    ensures { Makes stored.width out (rows_of stored tables.now) work.old work.new result }
{
    let words = stored.rows * stored.width;
    if work.len() - out < words {
        return None;
    }
    write_row(tables, work, false, stored.base, words, out);
    Some(stored.rows)
}
