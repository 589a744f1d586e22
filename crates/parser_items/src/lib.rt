// The readers of the parts of headings, which have a card each: directive uses, interfaces, fields, members, enum values, input fields and roots.
// Stays: that the text is short is a clause of each reader here; the readers of values take any text, so the cursor's type would ask more if it said so.
#![tactic(auto)]

pub mod braces;
pub mod cards;
pub mod definitions;
pub mod directives;
mod ending;
pub mod names;
pub mod operations;

pub use crate::braces::{enum_values, fields, input_fields, optional_roots, roots};
pub use crate::directives::directive_uses;
pub use crate::names::{interfaces, members};
