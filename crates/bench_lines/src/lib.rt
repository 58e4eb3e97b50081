// The bench's lines without its input and output: what a line says, and what it does to the map.
#![tactic(auto)]

mod line;
pub mod obey;
pub mod reader;
pub mod words;
