//! The monitor's own records: badges, lots, open accesses, the room and the next serial, and what each call but grant
//! checks and changes in them.
#![tactic(auto)]

pub mod line;
pub mod table;
