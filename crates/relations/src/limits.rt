// The numbers that document 01 fixes, each of them once; specs/Limits says the same. What follows from one of them is computed from it.

// No value is over so many columns, no scope has more, and a project lists no more; attributes are 1 to this one.
pub const COLUMNS: usize = 32;

pub const ATTRIBUTES: u32 = COLUMNS as u32;

// A plan has 1 to so many nodes. A node is its head (op, left, right and count) and its list, a word for each column that a project may pick.
pub const PLAN_NODES: usize = 256;

pub const HEAD_WORDS: usize = 4;

pub const LIST_WORDS: usize = COLUMNS;

pub const PLAN_NODE_WORDS: usize = HEAD_WORDS + LIST_WORDS;

pub const PLAN_WORDS: usize = PLAN_NODES * PLAN_NODE_WORDS;

// A join lists at most so many triples, a division so many pairs, of so many words each.
pub const TRIPLES: usize = 8;

pub const TRIPLE_WORDS: usize = 3;

pub const PAIRS: usize = 8;

pub const PAIR_WORDS: usize = 2;

// A question has 1 to so many nodes, of so many words each.
pub const QUESTION_NODES: usize = 64;

pub const QUESTION_NODE_WORDS: usize = 6;

pub const QUESTION_WORDS: usize = QUESTION_NODES * QUESTION_NODE_WORDS;

// Variables are 0 to one less; operators are 1 to this one.
pub const VARIABLES: u32 = 26;

pub const OPERATORS: u32 = 6;

// A catalogue has at most so many pairs of columns and rows, a stored table 1 to so many columns and at most so many rows.
pub const CATALOGUE_PAIRS: usize = 16;

pub const CATALOGUE_WORDS: usize = 2 * CATALOGUE_PAIRS;

pub const STORED_COLUMNS: usize = 8;

pub const STORED_ROWS: usize = 16384;

// The tables have at most so many words in all; a run works in no more.
pub const WORDS: usize = 16384;

// A text has at most so many bytes, and no number of it is above the greatest word.
pub const TEXT_BYTES: usize = 65536;

pub const GREATEST_WORD: u64 = 4294967295;
