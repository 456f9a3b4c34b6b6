// Numbers and words as text: read out of a line, and written into a buffer.
#![tactic(auto)]

pub mod hex;
pub mod read;
pub mod real;
pub mod words;
pub mod write;
