//! Tests of the rules, orders and numbers at the ends of their ranges.
#![tactic(auto)]

#[cfg(test)]
mod tests;
