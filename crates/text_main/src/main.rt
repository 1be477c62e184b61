// Reads a bundle from standard input, and writes it back from what it read; or prints status= and place= lines.
#![tactic(auto)]

use bundle_writing::write;
use relations::limits::{CATALOGUE_WORDS, QUESTION_WORDS, TEXT_BYTES, WORDS};
use standard_input::{InputError, read_bundle};
use std::io;
use std::io::Write;

fn refuse(rt: &HostRuntime, status: u32, place: usize) -> io::Result<()> {
    println!(rt; "status={status}")?;
    println!(rt; "place={place}")
}

// What was read is written back.
fn write_back(
    rt: &HostRuntime,
    mode: u32,
    catalogue: &[u32],
    tables: &[u32],
    nodes: &[u32],
) -> io::Result<()> {
    let mut text = [0u8; TEXT_BYTES];
    match write(mode, catalogue, tables, nodes, &mut text) {
        Ok(bytes) => rt.stdout().write_all(&text[..bytes]),
        Err(refusal) => refuse(rt, refusal.status(), 0),
    }
}

fn main(rt: HostRuntime) -> io::Result<()> {
    let mut catalogue = [0u32; CATALOGUE_WORDS];
    let mut tables = [0u32; WORDS];
    let mut question = [0u32; QUESTION_WORDS];
    match read_bundle(&mut rt.reader(), &mut catalogue, &mut tables, &mut question) {
        Ok(input) => write_back(
            &rt,
            input.mode,
            &catalogue[..input.catalogue],
            &tables[..input.tables],
            &question[..input.question],
        ),
        Err(InputError::Refused(refusal)) => refuse(&rt, refusal.status(), refusal.place()),
        Err(InputError::Unreadable) => rt
            .stderr()
            .write_all(b"text: the input could not be read\n"),
    }
}
