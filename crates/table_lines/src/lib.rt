//! What the programs share that answer the lines of a table: a line is cut into texts and numbers, its answer stands
//! behind it, or why there is none, and the lines are read and printed; or a table holds whole files (`cases`). In a
//! table of lines a byte outside 0x20..0x7E and the sign of percent are written %HH.
#![tactic(auto)]

pub mod answer;
pub mod cases;
pub mod fields;
pub mod table;
