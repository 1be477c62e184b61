// A bundle's text, read into a catalogue, tables and a question's nodes.
#![tactic(auto)]

ghost use Rattle.std.specs.Prelude.{◌≡◌, true, ◌+◌, ◌*◌, ◌≤◌, ◌<◌, drop};
ghost use Rattle.relations.specs.Limits.{catalogue_pair_limit, word_limit, question_node_limit};
ghost use Rattle.lines.specs.Marks.{relation_key, row_key};
ghost use Rattle.lines.specs.Put.{furthest};
ghost use Rattle.lines.specs.Reading.{begins, keyed_lines};
ghost use Rattle.bundles.specs.Reading.{table_of, tables_of, nodes_of, with_tables, lines_of};
ghost use Rattle.lines.specs.Answers.{LinesRead};
ghost use Rattle.bundle_reading.specs.Answers.{TablesFound, NodesFound, lines_answer, BundleFound};
ghost use Rattle.bundle_reading.specs.ReadAnswer.{read_numbers};
ghost use Rattle.bundles.specs.ReadCall.{read_outcome};

use bundle_lines::{Line, next_line};
use lines::reader::{Reader, WrongLine};
use lines::reading::{begins_with, keep};
use relations::limits::{
    CATALOGUE_PAIRS, CATALOGUE_WORDS, QUESTION_NODE_WORDS, QUESTION_NODES, QUESTION_WORDS,
    TEXT_BYTES, WORDS,
};

// How much was read: pairs of the catalogue, and words of the tables.
#[derive(Clone, Copy, PartialEq, Eq, Debug)]
pub struct TablesRead {
    pub pairs: usize,
    pub words: usize,
}

// The numbers of a bundle that was read.
#[derive(Clone, Copy, PartialEq, Eq, Debug)]
pub struct Bundle {
    pub mode: u32,
    pub pairs: usize,
    pub words: usize,
    pub nodes: usize,
}

// Why no bundle was read: refusal 12 at a line, or refusal 14.
#[derive(Clone, Copy, PartialEq, Eq, Debug)]
pub enum ReadRefusal {
    WrongLine(usize),
    SmallBuffer,
}

impl ReadRefusal {
    pub fn status(self) -> u32
        ensures { result ≡ (read_numbers (Err self)).status }
    {
        match self {
            ReadRefusal::WrongLine(_) => 12,
            ReadRefusal::SmallBuffer => 14,
        }
    }

    pub fn place(self) -> usize
        ensures { result ≡ (read_numbers (Err self)).place }
    {
        match self {
            ReadRefusal::WrongLine(line) => line,
            ReadRefusal::SmallBuffer => 0,
        }
    }
}

impl From<WrongLine> for ReadRefusal {
    ghost use Rattle.std.specs.Prelude.{◌≡◌};
    ghost use Rattle.bundle_reading.specs.declared.ReadRefusal.TheVariants.{WrongLine};

    ghost from_gives = { λ wrong refusal. refusal ≡ WrongLine wrong.0 };

    fn from(wrong: WrongLine) -> ReadRefusal {
        ReadRefusal::WrongLine(wrong.0)
    }
}

// Where one of several lines is wrong, the reader stays at the first of them, as it does at one line: a copy of it goes ahead.

// The rows of a table.
fn read_rows(
    reader: &mut Reader,
    columns: usize,
    rows: usize,
    tables: &mut [u32],
    to: usize,
) -> Result<(), WrongLine>
    requires { (0 < columns) × (to + columns * rows ≤ furthest) }
    ensures { LinesRead reader.old (keyed_lines row_key columns rows reader.old.line (drop reader.old.at reader.old.text.now)) to tables.old tables.new reader.new result }
{
    let mut ahead = *reader;
    for row in 0..rows {
        next_line(
            &mut ahead,
            Line::Row { columns },
            tables,
            to + columns * row,
        )?;
    }
    *reader = ahead;
    Ok(())
}

// A table behind those that were read: its relation line, whose key has been seen, and its rows.
fn read_table(
    reader: &mut Reader,
    read: TablesRead,
    catalogue: &mut [u32],
    tables: &mut [u32],
) -> Result<TablesRead, WrongLine>
    requires { (read.pairs < catalogue_pair_limit) × (read.words ≤ word_limit) × (begins relation_key (drop reader.old.at reader.old.text.now) ≡ true) }
    ensures { TablesFound reader.old (table_of read.words reader.old.line (drop reader.old.at reader.old.text.now)) read catalogue.old catalogue.new tables.old tables.new reader.new result }
{
    let pairs = read.pairs;
    let mut pair = [0u32; 2];
    let mut ahead = *reader;
    next_line(
        &mut ahead,
        Line::Relation { total: read.words },
        &mut pair,
        0,
    )?;
    keep(catalogue, 2 * pairs, pair[0]);
    keep(catalogue, 2 * pairs + 1, pair[1]);
    let columns = pair[0] as usize;
    let rows = pair[1] as usize;
    read_rows(&mut ahead, columns, rows, tables, read.words)?;
    *reader = ahead;
    Ok(TablesRead {
        pairs: pairs + 1,
        words: read.words + columns * rows,
    })
}

// The tables, as many as there are relation lines, up to the limit.
fn read_tables(
    reader: &mut Reader,
    catalogue: &mut [u32],
    tables: &mut [u32],
) -> Result<TablesRead, WrongLine>
    ensures { TablesFound reader.old (tables_of catalogue_pair_limit 0 reader.old.line (drop reader.old.at reader.old.text.now)) (record { pairs = 0; words = 0 }) catalogue.old catalogue.new tables.old tables.new reader.new result }
{
    let mut read = TablesRead { pairs: 0, words: 0 };
    let mut ahead = *reader;
    // No `for`: what is left to read is a pair of numbers, which each table hands on, and the text says when the last was read.
    while read.pairs < CATALOGUE_PAIRS && begins_with(ahead.text, ahead.at, b"relation=") {
        read = read_table(&mut ahead, read, catalogue, tables)?;
    }
    *reader = ahead;
    Ok(read)
}

// The nodes, to the text's end; how many there are.
fn read_nodes(reader: &mut Reader, question: &mut [u32]) -> Result<usize, WrongLine>
    ensures { NodesFound reader.old (nodes_of question_node_limit reader.old.line (drop reader.old.at reader.old.text.now)) question.old question.new reader.new result }
{
    let mut ahead = *reader;
    for before in 0..QUESTION_NODES {
        next_line(
            &mut ahead,
            Line::Node { before },
            question,
            QUESTION_NODE_WORDS * before,
        )?;
        if ahead.text.len() <= ahead.at {
            *reader = ahead;
            return Ok(before + 1);
        }
    }
    Err(WrongLine(ahead.line))
}

// The tables and the nodes, behind the mode's line.
fn read_behind_mode(
    mut reader: Reader,
    mode: u32,
    catalogue: &mut [u32],
    tables: &mut [u32],
    question: &mut [u32],
) -> Result<Bundle, WrongLine>
    ensures { BundleFound (with_tables mode (tables_of catalogue_pair_limit 0 reader.entry.line (drop reader.entry.at reader.entry.text.now))) catalogue.old catalogue.new tables.old tables.new question.old question.new result }
{
    let TablesRead { pairs, words } = read_tables(&mut reader, catalogue, tables)?;
    let nodes = read_nodes(&mut reader, question)?;
    Ok(Bundle {
        mode,
        pairs,
        words,
        nodes,
    })
}

// Every line; each word is kept where there is room.
fn read_all(
    text: &[u8],
    catalogue: &mut [u32],
    tables: &mut [u32],
    question: &mut [u32],
) -> Result<Bundle, WrongLine>
    ensures { BundleFound (lines_of text.now) catalogue.old catalogue.new tables.old tables.new question.old question.new result }
{
    let mut reader = Reader::new(text);
    let mut mode = [0u32; 1];
    next_line(&mut reader, Line::Mode, &mut mode, 0)?;
    read_behind_mode(reader, mode[0], catalogue, tables, question)
}

// What `read_all` would answer, with no buffer written.
fn judge(text: &[u8]) -> Result<Bundle, WrongLine>
    ensures { result ≡ lines_answer (lines_of text.now) (lines_of text.now).next }
{
    let mut catalogue = [0u32; 1];
    let mut tables = [0u32; 1];
    let mut question = [0u32; 1];
    read_all(text, &mut catalogue, &mut tables, &mut question)
}

// Reads a bundle to the front of the three buffers. A refusal changes none of them, so the text is judged first.
pub fn read(
    text: &[u8],
    catalogue: &mut [u32],
    tables: &mut [u32],
    question: &mut [u32],
) -> Result<Bundle, ReadRefusal>
    ensures { record { numbers = read_numbers result; catalogue = catalogue.new; tables = tables.new; question = question.new } ≡ read_outcome text.now catalogue.old tables.old question.old }
{
    if catalogue.len() < CATALOGUE_WORDS
        || tables.len() < WORDS
        || question.len() < QUESTION_WORDS
    {
        return Err(ReadRefusal::SmallBuffer);
    }
    if TEXT_BYTES < text.len() {
        return Err(ReadRefusal::WrongLine(0));
    }
    judge(text)?;
    Ok(read_all(text, catalogue, tables, question)?)
}
