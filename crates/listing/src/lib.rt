// The listing that `desk` prints: an answer's numbers and rows, or a refusal.
#![tactic(auto)]

ghost use Rattle.std.specs.Prelude.{◌+◌, ◌≤◌, length};
ghost use Rattle.lines.specs.Put.{Put, furthest};
ghost use Rattle.listing.specs.Listing.{number_line, head_text, listing_text, Listable, refusal_text};

use desk::{Refusal, Results};
use lines::writing::{put_bytes, put_lines, put_number};

// As in `lines::writing`: the bytes that a contract names are put from `at` on where there is room for them, and the answer is the
// position behind the last.
fn put_line(text: &mut [u8], at: usize, key: &[u8], number: u32) -> usize
    requires { at + length (number_line key.now number) ≤ furthest }
    ensures { Put at (number_line key.now number) text.old text.new result }
{
    let number_at = put_bytes(text, at, key);
    let end = put_number(text, number_at, number);
    put_bytes(text, end, b"\n")
}

// The lines before the rows.
fn put_head(text: &mut [u8], results: Results) -> usize
    ensures { Put 0 (head_text results.nodes results.heavy results.room results.width results.rows) text.old text.new result }
{
    let nodes_at = put_line(text, 0, b"status=", 0);
    let heavy_at = put_line(text, nodes_at, b"nodes=", results.nodes);
    let room_at = put_line(text, heavy_at, b"heavy=", results.heavy);
    let width_at = put_line(text, room_at, b"room=", results.room);
    let rows_at = put_line(text, width_at, b"width=", results.width);
    put_line(text, rows_at, b"rows=", results.rows)
}

// An answer: its numbers and its rows.
pub fn put_listing(results: Results, words: &[u32], text: &mut [u8]) -> usize
    requires { Listable results.width results.rows words.now }
    ensures { Put 0 (listing_text results.nodes results.heavy results.room results.width results.rows words.now) text.old text.new result }
{
    let words_at = put_head(text, results);
    let width = results.width as usize;
    let rows = results.rows as usize;
    put_lines(text, words_at, b"row=", width, rows, words)
}

// A refusal: its status and its place.
pub fn put_refusal(refusal: Refusal, text: &mut [u8]) -> usize
    ensures { Put 0 (refusal_text refusal.status refusal.place) text.old text.new result }
{
    let place_at = put_line(text, 0, b"status=", refusal.status);
    put_line(text, place_at, b"place=", refusal.place)
}
