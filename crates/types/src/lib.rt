// What every layer speaks of: answers, fuel, the limiter and spans of cells; memory and table types, and references. It knows numbers only.
#![tactic(auto)]

pub mod answer;
pub mod fuel;
pub mod grant;
pub mod index_ty;
pub mod limiter;
pub mod limits;
pub mod memory_ty;
pub mod raw;
pub mod span;
pub mod table_ty;
pub mod wide;
