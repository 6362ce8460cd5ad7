// Tables and element segments: records by value over lent buffers of references. It knows no instance numbers.
#![tactic(auto)]

pub mod cells;
pub mod copy;
pub mod element;
pub mod fill;
pub mod grow;
pub mod init;
pub mod new;
pub mod table;
