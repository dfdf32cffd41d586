// The lines of a text: what a record says in a block, read off its row of the table, and how a block ends.
#![tactic(auto)]

pub mod block;
pub mod form;
pub mod line;
pub mod page;
mod say;
