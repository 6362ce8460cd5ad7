// The worked cases P1 to P11 of document 01, run. A line has the case, document 01's number, and the value, amount or price.
#![tactic(auto)]

mod lines;
mod machines;
mod numbers;

use std::io;

fn main(rt: HostRuntime) -> io::Result<()> {
    numbers::prices(&rt)?;
    numbers::types(&rt)?;
    machines::minimum_of_all(&rt)?;
    machines::init_at_the_size(&rt)?;
    machines::length_zero_with_b_zero(&rt)?;
    machines::byte_ff(&rt)?;
    numbers::table_bound(&rt)
}
