// Reading whole files. What goes wrong is told by the caller.
ghost use Rattle.std.specs.Prelude.{◌≤◌, IfOk, vec_len};

use std::alloc::AllocError;
use std::io::{ErrorKind, Read};
use std::rt::Files;
use std::{fmt, fs, io};

// Why a file is not read.
#[derive(Debug, Drop)]
pub enum Unread {
    System { path: String, why: io::Error },
    // It has more bytes than are allowed.
    Larger { path: String, most: usize },
    // There is no memory for its name.
    OutOfMemory,
}

impl Unread {
    // Whether there is no file of that name. One that is there and can't be opened is not missing.
    pub fn is_missing(&self) -> bool {
        matches!(self, Unread::System { why, .. } if why.kind() == ErrorKind::NotFound)
    }
}

impl From<AllocError> for Unread {
    fn from(_: AllocError) -> Unread {
        Unread::OutOfMemory
    }
}

// The file's name and what is wrong with it.
impl fmt::Display for Unread {
    fn fmt<W: fmt::Write>(&self, f: &mut fmt::Formatter<W>) -> fmt::Result {
        match self {
            Unread::System { path, why } => write!(f, "{path} can't be read: {why}"),
            Unread::Larger { path, most } => write!(f, "{path} is larger than {most} bytes"),
            Unread::OutOfMemory => write!(f, "out of memory"),
        }
    }
}

// Reads a file that has at most so many bytes.
pub fn read_file(
    rt: &(impl Files + AllocGlobal),
    path: String,
    most: usize,
) -> Result<Vec<u8>, Unread>
    ensures { IfOk result (λ bytes. vec_len bytes ≤ most) }
{
    match read_start(rt, path.as_str(), most) {
        Ok(bytes) if bytes.len() <= most => Ok(bytes),
        Ok(_) => Err(Unread::Larger { path, most }),
        Err(why) => Err(Unread::System { path, why }),
    }
}

// One byte more than is allowed is asked for, so that a longer file shows.
fn read_start(rt: &(impl Files + AllocGlobal), path: &str, most: usize) -> io::Result<Vec<u8>> {
    let mut bytes = Vec::new(rt.alloc());
    fs::open(rt, path)?
        .take((most as u64).saturating_add(1))
        .read_to_end(&mut bytes)?;
    Ok(bytes)
}
