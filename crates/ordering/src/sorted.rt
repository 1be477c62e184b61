// Operations 1 and 2: the stored rows, or the picked columns of a value's rows, each once. A list may name an attribute twice.
ghost use Rattle.std.specs.Prelude.{◌≡◌, map, ◌≤◌, ◌<◌, length, take};
ghost use Rattle.relations.specs.Limits.{column_limit};
ghost use Rattle.relations.specs.Columns as meaning;
ghost use Rattle.relations.specs.Operations.{load_candidates, project_candidates};
ghost use Rattle.values.specs.Words.{rows_of, end};
ghost use Rattle.values.specs.Building.{Blank, Makes};
ghost use Rattle.ordering.specs.Offering as spec;
ghost use Rattle.ordering.specs.Offering.{PicksOf};

use crate::ascending::{ascends, copy_ascending};
use crate::taking::take_rows;
use operations::columns::NO_WORDS;
use sort_columns::columns::{Picks, Projection};
use values::rows::Value;

// Operation 1: all columns of the stored rows.
pub fn load(tables: &[u32], work: &mut [u32], stored: Value, out: usize) -> Option<usize>
    requires { (0 < stored.width) × (end stored ≤ length tables.now) × (out ≤ length work.old) × Blank out work.old }
    ensures { Makes stored.width out (load_candidates (rows_of stored tables.now)) work.old work.new result }
{
    if ascends(tables, stored) {
        copy_ascending(tables, work, stored, out)
    } else {
        let from = Projection {
            tables,
            in_work: false,
            value: stored,
            picks: Picks::First(stored.width),
        };
        take_rows(&from, work, out)
    }
}

// Whether the list names the first columns of rows of that width, in their order.
fn leads(list: &[u32], count: usize, width: usize) -> bool
    requires { count ≤ length list.now }
    ensures { result ≡ spec.leads count width list.now }
{
    if width < count {
        return false;
    }
    for i in (0..count).rev() {
        if list[i] as usize != i + 1 {
            return false;
        }
    }
    true
}

// The listed columns of rows of that width, in the work area: where they are its first ones in their order, as such.
fn picks_of<'a>(list: &'a [u32], count: usize, width: usize) -> Picks<'a>
    requires { (0 < count) × (count ≤ column_limit) × (count ≤ length list.now) }
    ensures { PicksOf list.now count width result }
{
    if leads(list, count, width) {
        Picks::First(count)
    } else {
        Picks::Listed { list, count }
    }
}

// Operation 2: the listed columns of the rows of a value.
pub fn project(
    list: &[u32],
    count: usize,
    work: &mut [u32],
    left: Value,
    out: usize,
) -> Option<usize>
    requires { (0 < count) × (count ≤ column_limit) × (count ≤ length list.now) × (end left ≤ out) × (out ≤ length work.old) × Blank out work.old }
    ensures { Makes count out (project_candidates (map meaning.attribute (take count list.now)) (rows_of left work.old)) work.old work.new result }
{
    let picks = picks_of(list, count, left.width);
    let from = Projection {
        tables: &NO_WORDS,
        in_work: true,
        value: left,
        picks,
    };
    take_rows(&from, work, out)
}
