// The lines of a bundle. Every line is read by `next_line`, and wrong at the line of its reader.
#![tactic(auto)]

ghost use Rattle.std.specs.Prelude.{◌+◌, ◌≤◌, drop};
ghost use Rattle.relations.specs.Limits.{word_limit};
ghost use Rattle.lines.specs.Put.{furthest};
ghost use Rattle.bundle_lines.specs.declared.Line.TheVariants.{Mode, Relation};
ghost use Rattle.lines.specs.Answers.{LinesRead};
ghost use Rattle.bundle_lines.specs.OneLine.{one_line, LineAsked, PairRead};

use catalogue::judging::pair_ok;
use lines::reader::{Reader, WrongLine};
use lines::reading::{begins_with, keep, number_then};
use relations::limits::{QUESTION_NODE_WORDS, QUESTION_NODES, WORDS};

// The line that must come next. A line that passes a limit is the wrong one, so a relation knows the words of the tables before it,
// and a node the nodes before it.
#[derive(Clone, Copy, PartialEq, Eq, Debug)]
pub enum Line {
    Mode,
    Relation { total: usize },
    Row { columns: usize },
    Node { before: usize },
}

// The bytes of a mode's line, its LF with them: "mode=plain" is as long as "mode=short".
const MODE_BYTES: usize = 11;

// The mode's line; its word is 0 for plain and 1 for short.
fn mode_line(reader: &mut Reader, words: &mut [u32], to: usize) -> Result<(), WrongLine>
    ensures { LinesRead reader.old (one_line Mode reader.old.line (drop reader.old.at reader.old.text.now)) to words.old words.new reader.new result }
{
    let mode = if begins_with(reader.text, reader.at, b"mode=plain\n") {
        0
    } else if begins_with(reader.text, reader.at, b"mode=short\n") {
        1
    } else {
        return Err(WrongLine(reader.line));
    };
    keep(words, to, mode);
    reader.go_on(reader.at + MODE_BYTES);
    Ok(())
}

// The columns and the rows that a relation line gives, where they keep to the limits, and the position behind it.
fn relation_pair(reader: &Reader, total: usize) -> Option<(u32, u32, usize)>
    requires { total ≤ word_limit }
    ensures { PairRead reader.now total result }
{
    if !begins_with(reader.text, reader.at, b"relation=") {
        return None;
    }
    let (columns, behind) = number_then(reader.text, reader.at + 9, b' ')?;
    let (rows, next) = number_then(reader.text, behind, b'\n')?;
    let width = columns as usize;
    let count = rows as usize;
    if pair_ok(width, count) && total + width * count <= WORDS {
        Some((columns, rows, next))
    } else {
        None
    }
}

// A relation line; its words are the table's columns and rows.
fn relation_line(
    reader: &mut Reader,
    total: usize,
    words: &mut [u32],
    to: usize,
) -> Result<(), WrongLine>
    requires { (total ≤ word_limit) × (to + 2 ≤ furthest) }
    ensures { LinesRead reader.old (one_line (Relation total) reader.old.line (drop reader.old.at reader.old.text.now)) to words.old words.new reader.new result }
{
    let (columns, rows, next) = relation_pair(reader, total).ok_or(WrongLine(reader.line))?;
    keep(words, to, columns);
    keep(words, to + 1, rows);
    reader.go_on(next);
    Ok(())
}

// The line that the reader stands at: its words are kept from `to` on.
pub fn next_line(
    reader: &mut Reader,
    kind: Line,
    words: &mut [u32],
    to: usize,
) -> Result<(), WrongLine>
    requires { LineAsked kind to }
    ensures { LinesRead reader.old (one_line kind reader.old.line (drop reader.old.at reader.old.text.now)) to words.old words.new reader.new result }
{
    match kind {
        Line::Mode => mode_line(reader, words, to),
        Line::Relation { total } => relation_line(reader, total, words, to),
        Line::Row { columns } => reader.keyed_line(b"row=", columns, words, to),
        Line::Node { before } => {
            if before < QUESTION_NODES {
                reader.keyed_line(b"node=", QUESTION_NODE_WORDS, words, to)
            } else {
                Err(WrongLine(reader.line))
            }
        }
    }
}
