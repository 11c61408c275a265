//! What a monitor does, and the law that every shift keeps: definitions (specs/) and their proofs. Each function here
//! carries one theorem as its contract.
#![tactic(auto)]

pub mod example;
pub mod figures;
pub mod fitting;
pub mod law;
pub mod placed;
pub mod report;
pub mod rising;
