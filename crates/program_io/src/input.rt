// What the programs read: whole files, and a document's text and card words.
pub mod documents;
pub mod files;
