// Memories: one record by value over a lent byte buffer. It knows no instance numbers.
#![tactic(auto)]

pub mod access;
pub mod grow;
pub mod memory;
pub mod new;
