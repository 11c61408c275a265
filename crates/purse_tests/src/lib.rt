//! Tests of the purses at the ends of their ranges.
#![tactic(auto)]

#[cfg(test)]
mod calls;
