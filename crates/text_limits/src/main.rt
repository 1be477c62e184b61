// What no bundle on standard input can show: buffers that are one word or one byte too small, and calls that `write` refuses.
#![tactic(auto)]

use bundle_reading::{Bundle, ReadRefusal, read};
use bundle_writing::{WriteRefusal, write};
use relations::limits::{CATALOGUE_WORDS, QUESTION_WORDS, WORDS};
use std::io;

fn show(rt: &HostRuntime, case: &str, status: u32, place: usize) -> io::Result<()> {
    println!(rt; "{case} status={status}")?;
    println!(rt; "place={place}")
}

fn show_reading(
    rt: &HostRuntime,
    case: &str,
    answer: Result<Bundle, ReadRefusal>,
) -> io::Result<()> {
    match answer {
        Ok(_) => show(rt, case, 0, 0),
        Err(refusal) => show(rt, case, refusal.status(), refusal.place()),
    }
}

fn show_writing(
    rt: &HostRuntime,
    case: &str,
    answer: Result<usize, WriteRefusal>,
) -> io::Result<()> {
    match answer {
        Ok(bytes) => show(rt, case, 0, bytes),
        Err(refusal) => show(rt, case, refusal.status(), 0),
    }
}

fn reading_cases(rt: &HostRuntime) -> io::Result<()> {
    let text = b"mode=plain\nnode=1 0 0 0 0 0\n";
    let mut pairs = [0u32; CATALOGUE_WORDS];
    let mut words = [0u32; WORDS];
    let mut nodes = [0u32; QUESTION_WORDS];
    let mut few_pairs = [0u32; CATALOGUE_WORDS - 1];
    let mut few_words = [0u32; WORDS - 1];
    let mut few_nodes = [0u32; QUESTION_WORDS - 1];
    show_reading(
        rt,
        "32, 16384, 384 words",
        read(text, &mut pairs, &mut words, &mut nodes),
    )?;
    show_reading(
        rt,
        "31 words",
        read(text, &mut few_pairs, &mut words, &mut nodes),
    )?;
    show_reading(
        rt,
        "16383 words",
        read(text, &mut pairs, &mut few_words, &mut nodes),
    )?;
    show_reading(
        rt,
        "383 words",
        read(text, &mut pairs, &mut words, &mut few_nodes),
    )?;
    Ok(())
}

// 14 comes before 12.
fn empty_text_cases(rt: &HostRuntime) -> io::Result<()> {
    let nothing = [0u8; 1];
    let mut pairs = [0u32; CATALOGUE_WORDS];
    let mut few_pairs = [0u32; CATALOGUE_WORDS - 1];
    let mut words = [0u32; WORDS];
    let mut nodes = [0u32; QUESTION_WORDS];
    show_reading(
        rt,
        "empty text",
        read(&nothing[..0], &mut pairs, &mut words, &mut nodes),
    )?;
    show_reading(
        rt,
        "empty text, 31 words",
        read(&nothing[..0], &mut few_pairs, &mut words, &mut nodes),
    )?;
    Ok(())
}

fn writing_cases(rt: &HostRuntime) -> io::Result<()> {
    let pairs = [1u32, 1];
    let wide_pairs = [9u32, 1];
    let words = [7u32; 9];
    let nodes = [1u32; 390];
    let mut text = [0u8; 47];
    let mut short_text = [0u8; 46];
    show_writing(
        rt,
        "47 bytes",
        write(1, &pairs, &words[..1], &nodes[..6], &mut text),
    )?;
    show_writing(
        rt,
        "46 bytes",
        write(1, &pairs, &words[..1], &nodes[..6], &mut short_text),
    )?;
    show_writing(
        rt,
        "tables too long",
        write(1, &pairs, &words[..2], &nodes[..6], &mut text),
    )?;
    show_writing(
        rt,
        "nine columns",
        write(1, &wide_pairs, &words, &nodes[..6], &mut text),
    )?;
    show_writing(
        rt,
        "half a pair",
        write(1, &pairs[..1], &words[..1], &nodes[..6], &mut text),
    )?;
    show_writing(
        rt,
        "five words of a node",
        write(1, &pairs, &words[..1], &nodes[..5], &mut text),
    )?;
    show_writing(
        rt,
        "no node",
        write(1, &pairs, &words[..1], &nodes[..0], &mut text),
    )?;
    show_writing(
        rt,
        "65 nodes",
        write(1, &pairs, &words[..1], &nodes, &mut text),
    )?;
    Ok(())
}

fn main(rt: HostRuntime) -> io::Result<()> {
    reading_cases(&rt)?;
    empty_text_cases(&rt)?;
    writing_cases(&rt)?;
    Ok(())
}
