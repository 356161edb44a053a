#![tactic(auto)]

pub mod line;
pub mod table;
