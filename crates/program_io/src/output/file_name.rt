// The names of numbered files.
ghost use Rattle.std.specs.Prelude.{Some};
ghost use Rattle.program_io.specs.Listing.{file_name};

use std::fmt;

// A folder, whose path is empty or ends with a slash, a stem, a number and an ending.
#[derive(Clone, Copy)]
pub struct FileName<'a> {
    pub folder: &'a str,
    pub stem: &'a str,
    pub number: usize,
    pub ending: &'a str,
}

impl fmt::Display for FileName<'_> {
    ghost output = { λ n. Some (file_name n.folder.now n.stem.now n.number n.ending.now) };

    fn fmt<W: fmt::Write>(&self, f: &mut fmt::Formatter<W>) -> fmt::Result {
        let FileName {
            folder,
            stem,
            number,
            ending,
        } = *self;
        write!(f, "{folder}{stem}{number}{ending}")
    }
}
