// The rules for numbers and lines, read: what every text of the desk is made of.
ghost use Rattle.std.specs.Prelude.{◌≡◌, ◌+◌, ◌≤◌, length, drop, set};
ghost use Rattle.relations.specs.Limits.{greatest_number};
ghost use Rattle.lines.specs.Marks.{digit, separator};
ghost use Rattle.lines.specs.Reading.{number, more_digits, number_then, begins};
ghost use Rattle.lines.specs.Answers.{NumberRead};

// The digits that go on from `at`, behind those that make up `first`: the number, and the position behind it.
fn more_digits(text: &[u8], at: usize, first: u32) -> Option<(u32, usize)>
    requires { at ≤ length text.now }
    ensures { NumberRead text.now at (more_digits first (drop at text.now)) result }
{
    let mut value = first;
    for i in at..text.len() {
        if !text[i].is_ascii_digit() {
            return Some((value, i));
        }
        value = value
            .checked_mul(10)?
            .checked_add(u32::from(text[i] - b'0'))?;
    }
    Some((value, text.len()))
}

// The number that stands at `at`, and the position behind it.
pub fn read_number(text: &[u8], at: usize) -> Option<(u32, usize)>
    ensures { NumberRead text.now (at + 1) (number (drop at text.now)) result }
{
    // A `match` with these arms isn't proved: its `_` arm knows no more than that the byte is not among the numbers before it.
    let byte = *text.get(at)?;
    if byte == b'0' {
        Some((0, at + 1))
    } else if byte.is_ascii_digit() {
        more_digits(text, at + 1, u32::from(byte - b'0'))
    } else {
        None
    }
}

// The number that stands at `at` with the byte `end` behind it, and the position behind that.
pub fn number_then(text: &[u8], at: usize, end: u8) -> Option<(u32, usize)>
    ensures { NumberRead text.now (at + 2) (number_then end (drop at text.now)) result }
{
    let (value, next) = read_number(text, at)?;
    if *text.get(next)? == end {
        Some((value, next + 1))
    } else {
        None
    }
}

// Whether `key` stands at `at`.
pub fn begins_with(text: &[u8], at: usize, key: &[u8]) -> bool
    ensures { result ≡ begins key.now (drop at text.now) }
{
    text[at.min(text.len())..].starts_with(key)
}

// A value is kept where there is room for it: a reader that is lent less room only judges, and a writer only counts.
// An `if let` over `get_mut` isn't proved: no clause of std says what a slice that lent an element so is afterwards.
pub fn keep<T: Copy>(values: &mut [T], at: usize, value: T)
    ensures { values.new ≡ set values.old at value }
{
    if at < values.len() {
        values[at] = value;
    }
}

// The byte behind a number that so many more follow on its line.
pub fn separator_behind(more: usize) -> u8
    ensures { result ≡ separator more }
{
    if more == 0 { b'\n' } else { b' ' }
}
