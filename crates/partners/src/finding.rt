// Where the right rows that a sieve lets through begin in an ascending value, and the words behind which there are none.
ghost use Rattle.std.specs.Prelude.{◌≡◌, ◌≤◌, length};
ghost use Rattle.relations.specs.Values.{Ascending};
ghost use Rattle.values.specs.Words.{rows_of, end};
ghost use Rattle.values.specs.Places.{rows_before};
ghost use Rattle.partners.specs.Bounds.{PartnersOf};

use crate::bounds::bounds_of;
use crate::sieve::Entry;
use crate::words::Words;
use values::rows::Value;
use values::search::count_before;

// The number of the first right row that can be a partner, and words as a bound behind which there is none.
#[derive(Clone, Copy)]
pub struct Partners {
    pub number: usize,
    pub highs: Words,
}

// How many rows stand before the bound; before no words there is none, and nothing is sought.
fn rows_before(work: &[u32], value: Value, bound: &[u32]) -> usize
    requires { (end value ≤ length work.now) × Ascending (rows_of value work.now) }
    ensures { result ≡ rows_before bound.now (rows_of value work.now) }
{
    if bound.is_empty() {
        0
    } else {
        count_before(work, value, bound)
    }
}

pub fn partners_of(sieve: &[Entry], work: &[u32], right: Value) -> Partners
    requires { (end right ≤ length work.now) × Ascending (rows_of right work.now) }
    ensures { PartnersOf sieve.now right work.now result }
{
    let bounds = bounds_of(sieve, right.width);
    Partners {
        number: rows_before(work, right, bounds.lows.as_slice()),
        highs: bounds.highs,
    }
}
