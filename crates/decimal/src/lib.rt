// Decimal numbers as text, for a person: read, rounded once, and written with up to 6 places behind the point.
#![tactic(auto)]

pub mod read;
pub mod write;
