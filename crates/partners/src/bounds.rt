// Where the rows that a sieve lets through can stand in an ascending value: the first columns, as long as one word is left to them, and the next one's span.
ghost use Rattle.partners.specs.Bounds.{Bounding};

use crate::sieve::{Entry, NO_WORD, entry_of};
use crate::words::Words;
use relations::limits::TRIPLES;

// The words that no such row stands before, and the words that stand before the first columns of none.
#[derive(Clone, Copy)]
pub struct Bounds {
    pub lows: Words,
    pub highs: Words,
}

pub fn bounds_of(sieve: &[Entry], width: usize) -> Bounds
    ensures { Bounding sieve.now width result }
{
    let mut lows = Words::new();
    let mut highs = Words::new();
    for k in 0..width.min(TRIPLES) {
        let Some(i) = entry_of(sieve, k + 1) else {
            return Bounds { lows, highs };
        };
        let span = sieve[i].span;
        if NO_WORD <= span.low {
            return Bounds { lows, highs };
        }
        lows.push(span.low as u32);
        if NO_WORD <= span.high {
            return Bounds { lows, highs };
        }
        highs.push(span.high as u32);
        if span.low != span.high {
            return Bounds { lows, highs };
        }
    }
    Bounds { lows, highs }
}
