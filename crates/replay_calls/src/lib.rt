#![tactic(auto)]

pub mod command;
pub mod failure;
pub mod line;
pub mod table;
