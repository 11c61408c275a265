//! The purses that a plant chooses from: each account at a home of its own, or at homes that accounts share.
#![tactic(auto)]

mod credit;
pub mod own;
pub mod pooled;
