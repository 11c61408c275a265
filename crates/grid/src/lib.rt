//! The answers of a rule's opening question for one lot, of the badge of every level and role, in a grid; its text;
//! and the words that a program is asked with.
#![tactic(auto)]

pub mod answer;
pub mod profile;
pub mod text;
pub mod words;
