// The lookups of schema/mod.rs, over lent rows that refusal 26 lets through. Its functions in its order, each with the module that has it:
// - root_operation: roots
// - type_field: lookup; the meta fields that it gives: roots
// - implementers_map: implementers; which of the interfaces listed count: first_interface
// - is_subtype: lookup
// - iter_origins and extensions of SchemaDefinition: origins
// Stays: four lookups ask that the store is sound and five do not; a second struct beside Schema for the four would be longer than the clause.
#![tactic(auto)]

pub mod first_interface;
pub mod implementers;
pub mod lookup;
pub mod origins;
pub mod roots;
