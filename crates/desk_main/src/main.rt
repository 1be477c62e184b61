// `desk`: reads a bundle from standard input, answers its question, and prints the answer's listing, or the refusal. It ends with 0
// in any case: input that can't be read and a listing that can't be written whole are told on standard error, where nothing else is written.
#![tactic(auto)]

ghost use Rattle.listing.specs.Listing.{Listable};

use desk::{Refusal, Results};
use relations::limits::{CATALOGUE_WORDS, PLAN_WORDS, QUESTION_WORDS, WORDS};
use standard_input::{InputError, read_bundle};
use std::io::Write;

// What can't be told on standard error is not told.
fn tell(rt: &HostRuntime, text: &[u8]) {
    let _ = rt.stderr().write_all(text);
}

fn print(rt: &HostRuntime, text: &[u8]) {
    if rt.stdout().write_all(text).is_err() {
        tell(rt, b"desk: the listing could not be written whole\n");
    }
}

fn print_refusal(rt: &HostRuntime, refusal: Refusal) {
    let mut text = [0u8; 35];
    let bytes = listing::put_refusal(refusal, &mut text);
    print(rt, &text[..bytes]);
}

// The buffer holds the longest listing: as many rows of one word of ten digits as there may be words.
fn print_listing(rt: &HostRuntime, results: Results, words: &[u32])
    requires { Listable results.width results.rows words.now }
{
    let mut text = [0u8; 16 * WORDS];
    let bytes = listing::put_listing(results, words, &mut text);
    print(rt, &text[..bytes]);
}

// The question of a bundle that was read.
fn print_answer(rt: &HostRuntime, mode: u32, catalogue: &[u32], tables: &[u32], question: &[u32]) {
    let mut plan = [0u32; PLAN_WORDS];
    let mut work = [0u32; WORDS];
    let mut output = [0u32; WORDS];
    match desk::answer(
        catalogue,
        tables,
        question,
        mode,
        &mut plan,
        &mut work,
        &mut output,
    ) {
        Ok(results) => print_listing(rt, results, &output),
        Err(refusal) => print_refusal(rt, refusal),
    }
}

fn main(rt: HostRuntime) {
    let mut catalogue = [0u32; CATALOGUE_WORDS];
    let mut tables = [0u32; WORDS];
    let mut question = [0u32; QUESTION_WORDS];
    match read_bundle(&mut rt.reader(), &mut catalogue, &mut tables, &mut question) {
        Ok(input) => print_answer(
            &rt,
            input.mode,
            &catalogue[..input.catalogue],
            &tables[..input.tables],
            &question[..input.question],
        ),
        Err(InputError::Refused(refused)) => {
            let refusal = Refusal {
                status: refused.status(),
                place: refused.place() as u32,
            };
            print_refusal(&rt, refusal)
        }
        Err(InputError::Unreadable) => tell(&rt, b"desk: the input could not be read\n"),
    }
}
