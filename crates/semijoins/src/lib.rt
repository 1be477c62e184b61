// Operations 6 and 7, semijoin and antijoin: the left rows that meet triples with some right row, or with none.
#![tactic(auto)]

pub mod keyed;
