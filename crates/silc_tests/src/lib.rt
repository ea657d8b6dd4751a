//! Tests of `silc` over desks in memory, for what no program can show: calls of a desk that fail, pieces of any size,
//! the machine that is kept, and what is reported.
#![tactic(auto)]

#[cfg(test)]
mod tests;
