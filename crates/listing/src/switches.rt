// The file `switches`: two digits, whether to adopt orphan extensions and whether to ignore redefined built-in types.
ghost use Rattle.std.specs.Prelude.{◌≡◌};
ghost use Rattle.listing.specs.Digits.{switches_of, both, digit_of};

use crate::failure::Failure;
use program_io::input::files::{Unread, read_file};
use std::rt::Files;

#[derive(Clone, Copy)]
pub struct Switches {
    pub adopt: bool,
    pub ignore: bool,
}

// The switches of the folder; without the file both are off.
pub fn read_switches(rt: &(impl Files + AllocGlobal)) -> Result<Switches, Failure> {
    match read_file(rt, String::from_str(rt.alloc(), "switches")?, 3) {
        Ok(bytes) => switches_of(bytes.as_slice()).ok_or(Failure::Switches),
        Err(unread) if unread.is_missing() => Ok(Switches {
            adopt: false,
            ignore: false,
        }),
        Err(Unread::Larger { .. }) => Err(Failure::Switches),
        Err(unread) => Err(Failure::Unread(unread)),
    }
}

// Two digits, behind which a line feed may stand.
fn switches_of(bytes: &[u8]) -> Option<Switches>
    ensures { result ≡ switches_of bytes.now }
{
    let [adopt, ignore, rest @ ..] = bytes else {
        return None;
    };
    if rest.is_empty() || rest == b"\n".as_slice() {
        return both(*adopt, *ignore);
    }
    None
}

fn both(adopt: u8, ignore: u8) -> Option<Switches>
    ensures { result ≡ both (digit_of adopt) (digit_of ignore) }
{
    Some(Switches {
        adopt: digit_of(adopt)?,
        ignore: digit_of(ignore)?,
    })
}

fn digit_of(digit: u8) -> Option<bool>
    ensures { result ≡ digit_of digit }
{
    match digit {
        b'0' => Some(false),
        b'1' => Some(true),
        _ => None,
    }
}
