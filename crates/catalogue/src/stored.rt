// The stored tables as the catalogue's pairs describe them: a relation's columns and rows, and where its words start.
ghost use Rattle.std.specs.Prelude.{◌≡◌, ◌≤◌};
ghost use Rattle.relations.specs.Limits.{word_limit};
ghost use Rattle.catalogue.specs.Stored.{relations_of, columns_of, row_count_of, start_of};

pub fn relations_of(catalogue: &[u32]) -> usize
    ensures { result ≡ relations_of catalogue.now }
{
    catalogue.len() / 2
}

// 0 for an unknown relation.
pub fn columns_of(catalogue: &[u32], relation: usize) -> u32
    ensures { result ≡ columns_of catalogue.now relation }
{
    if relation < catalogue.len() / 2 {
        catalogue[2 * relation]
    } else {
        0
    }
}

// 0 for an unknown relation.
pub fn rows_of(catalogue: &[u32], relation: usize) -> u32
    ensures { result ≡ row_count_of catalogue.now relation }
{
    if relation < catalogue.len() / 2 {
        catalogue[2 * relation + 1]
    } else {
        0
    }
}

// How many words of the tables stand before the relation's.
pub fn start_of(catalogue: &[u32], relation: usize) -> usize
    requires { start_of catalogue.now relation ≤ word_limit }
    ensures { result ≡ start_of catalogue.now relation }
{
    let mut start = 0;
    for passed in 0..relation {
        start += columns_of(catalogue, passed) as usize * rows_of(catalogue, passed) as usize;
    }
    start
}
