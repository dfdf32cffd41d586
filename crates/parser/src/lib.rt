// The parser of LEF text: the takers, by the names of the original, and the engine that runs the rows of the table.
#![tactic(auto)]

pub mod draft;
pub mod engine;
mod items;
pub mod open;
pub mod peek;
pub mod step;
pub mod take;
mod value;
mod words;
