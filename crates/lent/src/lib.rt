// The forms that are lent: fuel charged where it stands, and records that stand in lent lists.
#![tactic(auto)]

pub mod fuel;
mod growth;
pub mod memories;
pub mod operate;
mod places;
pub mod tables;
