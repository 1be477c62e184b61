// The catalogue: pairs of columns and rows, and the words of the tables that they describe.
ghost use Rattle.std.specs.Prelude.{◌≡◌};
ghost use Rattle.catalogue.specs.Judging.{pair_ok, tables_ok, catalogue_numbers, judged_catalogue};

use relations::limits::{CATALOGUE_WORDS, STORED_COLUMNS, STORED_ROWS, WORDS};

// Refusal 7: a pair, or the pairs together, are none of a catalogue.
#[derive(Clone, Copy)]
pub struct WrongCatalogue;

// Columns 1 to 8, rows 0 to 16,384.
pub fn pair_ok(columns: usize, rows: usize) -> bool
    ensures { result ≡ pair_ok columns rows }
{
    (1 <= columns) & (columns <= STORED_COLUMNS) & (rows <= STORED_ROWS)
}

// The number of words that the tables have, or refusal 7 as translation asks for it: the pairs and their total of words.
pub fn judge_catalogue(catalogue: &[u32]) -> Result<usize, WrongCatalogue>
    ensures { catalogue_numbers result ≡ judged_catalogue catalogue.now }
{
    if CATALOGUE_WORDS < catalogue.len() || catalogue.len() % 2 != 0 {
        return Err(WrongCatalogue);
    }
    let mut words: usize = 0;
    for pair in catalogue.chunks_exact(2) {
        let columns = pair[0] as usize;
        let rows = pair[1] as usize;
        if !pair_ok(columns, rows) {
            return Err(WrongCatalogue);
        }
        words += columns * rows;
    }
    if words <= WORDS {
        Ok(words)
    } else {
        Err(WrongCatalogue)
    }
}

// Refusal 7 as all others ask for it: the tables' length is compared too.
pub fn tables_ok(catalogue: &[u32], tables: &[u32]) -> bool
    ensures { result ≡ tables_ok catalogue.now tables.now }
{
    match judge_catalogue(catalogue) {
        Ok(words) => tables.len() == words,
        Err(WrongCatalogue) => false,
    }
}
