//! Turns of the processors of a net: where each is after any list of turns, what a turn lacks, and how many rounds of
//! turns run all samples.
#![tactic(auto)]
