// The text of operations and answers, lines of hexadecimal both ways, and a session over pieces of input.
#![tactic(auto)]

pub mod answer_line;
pub mod code;
pub mod field;
mod fields;
pub mod input;
pub mod line;
pub mod session;
pub mod write;
