// What the programs share of text: the names of numbered files, and what a drawing prints; and the same put into a lent buffer, which can't fail.
pub mod file_name;
pub mod put;
pub mod shown;
