// A text's lines, read one behind another.
ghost use Rattle.std.specs.Prelude.{◌+◌, ◌≤◌, length};

use crate::reading::{begins_with, keep, number_then, separator_behind};

// The text, the position of the byte that comes next, and the number of its line, from 1. At the text's end that is one line after
// the last, so whatever is missing there is wrong at the reader's own line.
#[derive(Clone, Copy)]
pub struct Reader<'a> {
    pub text: &'a [u8],
    pub at: usize,
    pub line: usize,
    // No line number is above its position by more than one.
    pub ghost placed: { (at ≤ length text.now) × (line ≤ at + 1) },
}

// The number of the line that is wrong.
#[derive(Clone, Copy, PartialEq, Eq, Debug)]
pub struct WrongLine(pub usize);

impl<'a> Reader<'a> {
    ghost use Rattle.std.specs.Prelude.{◌≡◌, ◌<◌, drop};
    ghost use Rattle.lines.specs.Put.{furthest};
    ghost use Rattle.lines.specs.Reading.{numbers, keyed_line};
    ghost use Rattle.lines.specs.Answers.{GoneOn, LinesRead};

    pub fn new(text: &'a [u8]) -> Reader<'a>
        ensures { (result.text.now ≡ text.now) × (result.at ≡ 0) × (result.line ≡ 1) }
    {
        Reader {
            text,
            at: 0,
            line: 1,
        }
    }

    // Goes on behind a line, at `next`, and counts the line.
    pub fn go_on(&mut self, next: usize)
        requires { (self.old.at < next) × (next ≤ length self.old.text.now) }
        ensures { GoneOn self.old next self.new }
    {
        self.at = next;
        self.line += 1;
    }

    // The rest of a line: `count` numbers, kept from `to` on, and its end. The reader goes on behind a line that is not wrong, and
    // stays where it is at a wrong one.
    pub fn read_numbers(
        &mut self,
        count: usize,
        words: &mut [u32],
        to: usize,
    ) -> Result<(), WrongLine>
        requires { (0 < count) × (to + count ≤ furthest) }
        ensures { LinesRead self.old (numbers count self.old.line (drop self.old.at self.old.text.now)) to words.old words.new self.new result }
    {
        let mut at = self.at;
        for i in 0..count {
            let (value, next) = number_then(self.text, at, separator_behind(count - 1 - i)).ok_or(
                WrongLine(self.line),
            )?;
            keep(words, to + i, value);
            at = next;
        }
        self.go_on(at);
        Ok(())
    }

    // A line: `key`, and `count` numbers, kept from `to` on. The numbers are read by a copy, so that the reader doesn't stand behind
    // the key of a wrong line.
    pub fn keyed_line(
        &mut self,
        key: &[u8],
        count: usize,
        words: &mut [u32],
        to: usize,
    ) -> Result<(), WrongLine>
        requires { (0 < count) × (to + count ≤ furthest) }
        ensures { LinesRead self.old (keyed_line key.now count self.old.line (drop self.old.at self.old.text.now)) to words.old words.new self.new result }
    {
        if !begins_with(self.text, self.at, key) {
            return Err(WrongLine(self.line));
        }
        let mut inside = *self;
        inside.at += key.len();
        inside.read_numbers(count, words, to)?;
        *self = inside;
        Ok(())
    }
}
