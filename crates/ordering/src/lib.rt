// Operations 1 and 2, load and project, in whatever order the rows stand. A row that comes behind all rows placed before it costs one comparison, so where
// the picked columns come in no order the rows' numbers are sorted first, in the free end of the work area. Where that has too little room, rows are
// placed as they come.
#![tactic(auto)]

pub mod ascending;
pub mod offering;
pub mod sorted;
pub mod taking;
