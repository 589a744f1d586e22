#![tactic(auto)]

pub mod input;
pub mod output;
