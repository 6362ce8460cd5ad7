// The machine: up to 8 memories, 8 tables and 8 segments in lent buffers, the operation list, and one operation on them.
#![tactic(auto)]

pub mod fields;
pub mod form;
pub mod fueling;
pub mod memories;
pub mod operate;
pub mod operation;
pub mod outcome;
pub(crate) mod record;
pub mod records;
pub mod row;
pub mod segments;
pub mod sound;
pub mod tables;
pub mod words;
