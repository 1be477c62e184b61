// A bundle's text, written from mode, catalogue, tables and nodes.
#![tactic(auto)]

ghost use Rattle.std.specs.Prelude.{◌≡◌, true, ◌+◌, ◌*◌, ◌/◌, ◌≤◌, length};
ghost use Rattle.relations.specs.Limits.{question_node_words, question_node_limit};
ghost use Rattle.catalogue.specs.Judging.{pairs_ok, catalogue_words, tables_ok};
ghost use Rattle.bundles.specs.Writing.{tables_text, mode_text, bundle_text};
ghost use Rattle.lines.specs.Put.{Put, furthest};
ghost use Rattle.bundle_writing.specs.WriteAnswer.{write_numbers};
ghost use Rattle.bundles.specs.WriteCall.{write_outcome};

use catalogue::judging::tables_ok;
use lines::writing::{put_bytes, put_lines, put_numbers};
use relations::limits::{QUESTION_NODE_WORDS, QUESTION_NODES, TEXT_BYTES};

// Why no bundle was written: refusal 7, 1 or 13.
#[derive(Clone, Copy, PartialEq, Eq, Debug)]
pub enum WriteRefusal {
    WrongTables,
    WrongNodes,
    SmallBuffer,
}

impl WriteRefusal {
    // Its place is 0.
    pub fn status(self) -> u32
        ensures { result ≡ (write_numbers (Err self)).status }
    {
        match self {
            WriteRefusal::WrongTables => 7,
            WriteRefusal::WrongNodes => 1,
            WriteRefusal::SmallBuffer => 13,
        }
    }
}

// For each pair of the catalogue its line and the lines of its table.
fn put_tables(text: &mut [u8], at: usize, catalogue: &[u32], tables: &[u32]) -> usize
    requires { (pairs_ok catalogue.now ≡ true) × (catalogue_words catalogue.now ≤ length tables.now) × (at + length (tables_text catalogue.now tables.now) ≤ furthest) }
    ensures { Put at (tables_text catalogue.now tables.now) text.old text.new result }
{
    let mut end = at;
    let mut place = 0;
    for table in 0..catalogue.len() / 2 {
        let pair = 2 * table;
        let columns = catalogue[pair] as usize;
        let rows = catalogue[pair + 1] as usize;
        let behind = put_bytes(text, end, b"relation=");
        let rows_at = put_numbers(text, behind, &catalogue[pair..pair + 2]);
        end = put_lines(text, rows_at, b"row=", columns, rows, &tables[place..]);
        place += columns * rows;
    }
    end
}

// The mode's line, at the front.
fn put_mode(text: &mut [u8], mode: u32) -> usize
    ensures { Put 0 (mode_text mode) text.old text.new result }
{
    if mode == 0 {
        put_bytes(text, 0, b"mode=plain\n")
    } else {
        put_bytes(text, 0, b"mode=short\n")
    }
}

fn put_bundle(mode: u32, catalogue: &[u32], tables: &[u32], nodes: &[u32], text: &mut [u8]) -> usize
    requires { (tables_ok catalogue.now tables.now ≡ true) × (length nodes.now / question_node_words ≤ question_node_limit) }
    ensures { Put 0 (bundle_text mode catalogue.now tables.now nodes.now) text.old text.new result }
{
    let tables_at = put_mode(text, mode);
    let nodes_at = put_tables(text, tables_at, catalogue, tables);
    put_lines(
        text,
        nodes_at,
        b"node=",
        QUESTION_NODE_WORDS,
        nodes.len() / QUESTION_NODE_WORDS,
        nodes,
    )
}

// The bytes of the bundle's text, with no buffer written.
fn count_bytes(mode: u32, catalogue: &[u32], tables: &[u32], nodes: &[u32]) -> usize
    requires { (tables_ok catalogue.now tables.now ≡ true) × (length nodes.now / question_node_words ≤ question_node_limit) }
    ensures { result ≡ length (bundle_text mode catalogue.now tables.now nodes.now) }
{
    let mut text = [0u8; 1];
    put_bundle(mode, catalogue, tables, nodes, &mut text)
}

// Writes a bundle's text to the front of the buffer. A refusal does not change it, so the bytes are counted first.
pub fn write(
    mode: u32,
    catalogue: &[u32],
    tables: &[u32],
    nodes: &[u32],
    text: &mut [u8],
) -> Result<usize, WriteRefusal>
    ensures { record { numbers = write_numbers result; text = text.new } ≡ write_outcome mode catalogue.now tables.now nodes.now text.old }
{
    if !tables_ok(catalogue, tables) {
        return Err(WriteRefusal::WrongTables);
    }
    let count = nodes.len() / QUESTION_NODE_WORDS;
    if nodes.len() % QUESTION_NODE_WORDS != 0 || count == 0 || QUESTION_NODES < count {
        return Err(WriteRefusal::WrongNodes);
    }
    let bytes = count_bytes(mode, catalogue, tables, nodes);
    if TEXT_BYTES < bytes || text.len() < bytes {
        return Err(WriteRefusal::SmallBuffer);
    }
    put_bundle(mode, catalogue, tables, nodes, text);
    Ok(bytes)
}
