// A document's two files: its text, and its cards as little-endian words.
ghost use Rattle.std.specs.Prelude.{◌≡◌, ◌*◌, ◌≤◌, IfOk, IfSome, length, vec_len};
ghost use Rattle.program_io.specs.Input.{Lies, words_of};

use crate::input::files::{Unread, read_file};
use crate::output::file_name::FileName;
use std::alloc::{AllocError, Global};
use std::rt::Files;

// The bytes that a document's file may have.
const FILE_CAPACITY: usize = 1048576;

#[derive(Drop)]
pub struct Document {
    pub text: Vec<u8>,
    pub cards: Vec<u32>,
}

// Why a document is not read.
#[derive(Debug, Drop)]
pub enum DocumentError {
    // Its card file is not in whole words.
    Uneven,
    Unread(Unread),
}

impl From<Unread> for DocumentError {
    fn from(unread: Unread) -> DocumentError {
        DocumentError::Unread(unread)
    }
}

impl From<AllocError> for DocumentError {
    fn from(error: AllocError) -> DocumentError {
        DocumentError::Unread(Unread::from(error))
    }
}

impl Document {
    // Document `number` of a folder, whose path is empty or ends with a slash. Where one of its two files is missing the list of documents ended before it;
    // where that is the text, the cards are not looked at.
    pub fn read(
        rt: &(impl Files + AllocGlobal),
        folder: &str,
        number: usize,
    ) -> Result<Option<Document>, DocumentError>
        ensures { IfOk result (λ read. IfSome read Lies) }
    {
        let text = read_file(rt, path(rt.alloc(), folder, number, ".txt")?, FILE_CAPACITY);
        if is_missing(&text) {
            return Ok(None);
        }
        let cards = read_file(rt, path(rt.alloc(), folder, number, ".crd")?, FILE_CAPACITY);
        if is_missing(&cards) {
            return Ok(None);
        }
        let text = text?;
        let bytes = cards?;
        if bytes.len() % 4 != 0 {
            return Err(DocumentError::Uneven);
        }
        let cards = words_of(rt.alloc(), bytes.as_slice())?;
        Ok(Some(Document { text, cards }))
    }
}

fn path(alloc: Global, folder: &str, number: usize, ending: &str) -> Result<String, AllocError> {
    let name = FileName {
        folder,
        stem: "d",
        number,
        ending,
    };
    name.to_string(alloc)
}

fn is_missing(read: &Result<Vec<u8>, Unread>) -> bool {
    matches!(read, Err(unread) if unread.is_missing())
}

// The little-endian words of the bytes. Bytes past the last whole word are left out.
fn words_of(alloc: Global, bytes: &[u8]) -> Result<Vec<u32>, AllocError>
    ensures words { IfOk result (λ words. words.items ≡ words_of bytes.now) }
    ensures count { IfOk result (λ words. 4 * vec_len words ≤ length bytes.now) }
{
    bytes
        .as_chunks()
        .0
        .iter()
        .map(|word| u32::from_le_bytes(*word))
        .collect(alloc)
}
