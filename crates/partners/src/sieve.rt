// What the triples ask of a left row's partners, worked out once for that row: for each right column that they name, the least and the greatest word and one that
// it may not be. So a pair of rows costs one look at each such column, however many triples name it.
ghost use Rattle.std.specs.Prelude.{◌≡◌, ◌==◌, ℕ, ◌/◌, ◌≤◌, ◌<◌, ◌&&◌, length, take, position, MatchOption};
ghost use Rattle.terms.specs.Terms.{operator_in};
ghost use Rattle.operations.specs.Lists.{triples_of};
ghost use Rattle.partners.specs.Spans.{Allows, allowed_by};
ghost use Rattle.partners.specs.Sieves.{sifts, Narrows, Sieve};

use operations::columns::{column_of, triple_at, word_at};
use relations::limits::GREATEST_WORD;
use terms::operator::Operator;

// Above every word: such a bound says nothing, and no word is excepted. No Option: `allows` is asked of every pair of rows, and so compares numbers alone.
pub const NO_WORD: usize = GREATEST_WORD as usize + 1;

// The words from the least to the greatest, without one.
#[derive(Clone, Copy)]
pub struct Span {
    pub low: usize,
    pub high: usize,
    pub except: usize,
}

// A right column's number and the span of its word. A sieve is a list of entries, at most one for each triple.
#[derive(Clone, Copy)]
pub struct Entry {
    pub column: usize,
    pub span: Span,
}

const ANY_WORD: Span = Span {
    low: 0,
    high: NO_WORD,
    except: NO_WORD,
};

// What the room for a sieve's entries holds before they are there.
pub const NO_ENTRY: Entry = Entry {
    column: 0,
    span: ANY_WORD,
};

impl Span {
    // The words that a left word compares with so.
    #[tactic(auto, unfolding(crate::specs::Spans::allowed))]
    fn of(operator: Operator, word: u32) -> Span
        ensures { Allows (operator_in operator) word result }
    {
        let x = word as usize;
        match operator {
            Operator::Equal => Span {
                low: x,
                high: x,
                except: NO_WORD,
            },
            Operator::NotEqual => Span {
                except: x,
                ..ANY_WORD
            },
            Operator::Less => Span {
                low: x + 1,
                ..ANY_WORD
            },
            Operator::AtMost => Span { low: x, ..ANY_WORD },
            Operator::Greater if x == 0 => Span {
                low: 1,
                high: 0,
                except: NO_WORD,
            },
            Operator::Greater => Span {
                high: x - 1,
                ..ANY_WORD
            },
            Operator::AtLeast => Span {
                high: x,
                ..ANY_WORD
            },
        }
    }

    #[tactic(auto, unfolding(crate::specs::Spans::allowed))]
    fn allows(self, word: u32) -> bool
        ensures { result ≡ allowed_by self word }
    {
        let word = word as usize;
        self.low <= word && word <= self.high && word != self.except
    }

    // The words that both allow. Two words cannot be excepted by one.
    #[tactic(auto, unfolding(crate::specs::Spans::allowed))]
    fn joint(self, other: Span) -> Option<Span>
        ensures { MatchOption result (Unit {0}) (λ span. (word : ℕ) → allowed_by span word ≡ (allowed_by other word && allowed_by self word)) }
    {
        if self.except.max(other.except) < NO_WORD {
            return None;
        }
        Some(Span {
            low: self.low.max(other.low),
            high: self.high.min(other.high),
            except: self.except.min(other.except),
        })
    }
}

// The place of the first entry of a column.
pub fn entry_of(sieve: &[Entry], column: usize) -> Option<usize>
    ensures { result ≡ position (λ entry. entry.column == column) sieve.now }
{
    sieve.iter().position(|entry| entry.column == column)
}

// A column is to be in a span too: its entry is made narrower, or, where it has none that can be, another is put behind the entries.
fn narrow(sieve: &mut [Entry], made: usize, entry: Entry) -> usize
    requires { made < length sieve.old }
    ensures { Narrows entry (take made sieve.old) result sieve.new }
{
    if let Some(i) = entry_of(&sieve[..made], entry.column) {
        if let Some(span) = sieve[i].span.joint(entry.span) {
            sieve[i].span = span;
            return made;
        }
    }
    sieve[made] = entry;
    made + 1
}

// The sieve of a left row and the triples, in the room for its entries.
pub fn fill<'a>(triples: &[u32], row: &[u32], room: &'a mut [Entry]) -> &'a [Entry]
    requires { length triples.now / 3 ≤ length room.old }
    ensures { Sieve (triples_of triples.now) row.now result.now }
{
    let mut made = 0;
    for words in triples.chunks_exact(3) {
        let triple = triple_at(words, 0);
        let span = Span::of(triple.operator, column_of(row, triple.left));
        let column = triple.right.0 as usize;
        made = narrow(room, made, Entry { column, span });
    }
    &room[..made]
}

// Whether the sieve lets a right row through.
pub fn lets_through(sieve: &[Entry], row: &[u32]) -> bool
    ensures { result ≡ sifts sieve.now row.now }
{
    sieve
        .iter()
        .all(|entry| entry.span.allows(word_at(row, entry.column)))
}
