//! What the monitor is asked by: rules, orders and purses, each a trait that says what an implementation means and
//! owes, with the implementations that a plant chooses from.
#![tactic(auto)]

pub mod order;
pub mod purse;
pub mod role;
pub mod rule;
