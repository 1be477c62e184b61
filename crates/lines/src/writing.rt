// Numbers and lines, written: what every text of the desk is made of.
ghost use Rattle.std.specs.Prelude.{◌+◌, ◌*◌, ◌≤◌, length};
ghost use Rattle.lines.specs.Writing.{decimal, numbers_text, lines_text};
ghost use Rattle.lines.specs.Put.{Put, furthest};

use crate::reading::{keep, separator_behind};

// Each function puts the bytes that its contract names from `at` on, and answers the position behind the last.
pub fn put_bytes(text: &mut [u8], at: usize, bytes: &[u8]) -> usize
    requires { at + length bytes.now ≤ furthest }
    ensures { Put at bytes.now text.old text.new result }
{
    for (i, byte) in bytes.iter().enumerate() {
        keep(text, at + i, *byte);
    }
    at + bytes.len()
}

// A number in decimal. No Display: there is no heap, and a buffer that is lent less only counts (`Put`).
pub fn put_number(text: &mut [u8], at: usize, n: u32) -> usize
    requires { at + length (decimal n) ≤ furthest }
    ensures { Put at (decimal n) text.old text.new result }
{
    if n < 10 {
        keep(text, at, b'0' + n as u8);
        return at + 1;
    }
    let end = put_number(text, at, n / 10);
    keep(text, end, b'0' + (n % 10) as u8);
    end + 1
}

// Numbers with one space between, and the line's end.
pub fn put_numbers(text: &mut [u8], at: usize, words: &[u32]) -> usize
    requires { at + length (numbers_text words.now) ≤ furthest }
    ensures { Put at (numbers_text words.now) text.old text.new result }
{
    let mut end = at;
    for (i, word) in words.iter().enumerate() {
        let behind = put_number(text, end, *word);
        keep(text, behind, separator_behind(words.len() - 1 - i));
        end = behind + 1;
    }
    end
}

// Lines of `width` numbers each, which stand in `words` one line after another.
pub fn put_lines(
    text: &mut [u8],
    at: usize,
    key: &[u8],
    width: usize,
    count: usize,
    words: &[u32],
) -> usize
    requires { (width * count ≤ length words.now) × (at + length (lines_text key.now width count words.now) ≤ furthest) }
    ensures { Put at (lines_text key.now width count words.now) text.old text.new result }
{
    let mut end = at;
    // No `chunks_exact(width)`: what `put_lines` asks lets `width` be 0, and lines of no numbers are still `count` lines.
    for line in 0..count {
        let from = width * line;
        let behind = put_bytes(text, end, key);
        end = put_numbers(text, behind, &words[from..from + width]);
    }
    end
}
