// Rows of any family, in a block and in a table.
#![tactic(auto)]

pub mod cells;
pub mod family;
pub mod index;
pub mod rows;
