// What the errors of reading and of building are pushed with: the places of rows, and the collisions of parts that are merged.
#![tactic(auto)]

pub mod merging;
pub mod owner;
pub mod placing;
pub mod pushing;
