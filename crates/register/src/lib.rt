//! Records by key: the words in which registers are spoken of, as definitions over lists (specs/), registers in lent
//! slices, and registers that hold their own places.
#![tactic(auto)]

pub mod bounded;
pub mod key;
pub mod slice;
