// Standard input, or another reader, read as a bundle into lent buffers.
#![tactic(auto)]

ghost use Rattle.std.specs.Prelude.{MatchResult, IfOk};
ghost use Rattle.io.specs.Counts.{IsPrefixLen};
ghost use Rattle.standard_input.specs.Placed.{PlaceFits};

use bundle_reading::ReadRefusal;
use relations::limits::{QUESTION_NODE_WORDS, TEXT_BYTES};
use std::io;
use std::io::Read;

// A bundle's mode, and how many words of each buffer are its own. No slices of the buffers in their place: of a `&mut` from which a
// result borrows no clause can speak, and what `read_bundle` promises of the buffers (`IsPrefixLen`) stays.
#[derive(Clone, Copy, PartialEq, Eq, Debug)]
pub struct Input {
    pub mode: u32,
    pub catalogue: usize,
    pub tables: usize,
    pub question: usize,
}

// Why there is no bundle: a read failed, or what was read is refused.
#[derive(Clone, Copy, PartialEq, Eq, Debug)]
pub enum InputError {
    Unreadable,
    Refused(ReadRefusal),
}

impl From<io::Error> for InputError {
    ghost use Rattle.std.specs.Prelude.{◌≡◌};
    ghost use Rattle.standard_input.specs.declared.InputError.TheVariants.{Unreadable};

    ghost from_gives = { λ _ failed. failed ≡ Unreadable };

    fn from(_error: io::Error) -> InputError {
        InputError::Unreadable
    }
}

impl From<ReadRefusal> for InputError {
    ghost use Rattle.std.specs.Prelude.{◌≡◌};
    ghost use Rattle.standard_input.specs.declared.InputError.TheVariants.{Refused};

    ghost from_gives = { λ refusal failed. failed ≡ Refused refusal };

    fn from(refusal: ReadRefusal) -> InputError {
        InputError::Refused(refusal)
    }
}

// Reads until the text is full or the input ends: how many bytes. A read that a signal interrupts counts as one that failed.
fn read_text<R: Read>(input: &mut R, text: &mut [u8]) -> io::Result<usize>
    ensures { IfOk result (λ bytes. IsPrefixLen bytes text.new) }
{
    let mut bytes = 0;
    // No `for`: each read says how far it went.
    while bytes < text.len() {
        let more = input.read(&mut text[bytes..])?;
        if more == 0 {
            break;
        }
        bytes += more;
    }
    Ok(bytes)
}

// Reads a bundle into the three buffers. One byte more than a text may have is asked for, so that `read` can tell an over-long one.
pub fn read_bundle<R: Read>(
    from: &mut R,
    catalogue: &mut [u32],
    tables: &mut [u32],
    question: &mut [u32],
) -> Result<Input, InputError>
    ensures { MatchResult result (λ input. IsPrefixLen input.catalogue catalogue.new × IsPrefixLen input.tables tables.new × IsPrefixLen input.question question.new) PlaceFits }
{
    let mut text = [0u8; TEXT_BYTES + 1];
    let bytes = read_text(from, &mut text)?;
    let bundle = bundle_reading::read(&text[..bytes], catalogue, tables, question)?;
    Ok(Input {
        mode: bundle.mode,
        catalogue: 2 * bundle.pairs,
        tables: bundle.words,
        question: QUESTION_NODE_WORDS * bundle.nodes,
    })
}
