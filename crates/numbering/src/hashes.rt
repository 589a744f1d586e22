// Hashes of names: where two differ, so do the names, and no byte need be compared.
ghost use Rattle.std.specs.Prelude.{◌≡◌, ◌≤◌, ◌<◌, length};
ghost use Rattle.definition.specs.Names.{same_name};
ghost use Rattle.name.specs.Hashes.{hash_of};
ghost use Rattle.numbering.specs.Hashes.{HashesAre};
ghost use Rattle.numbering.specs.Named.{named, count};

use crate::names::Names;

// A name that is sought, with its hash.
#[derive(Clone, Copy)]
pub struct Sought<'a> {
    pub name: &'a [u8],
    pub hash: u32,
    pub ghost hashed: { hash ≡ hash_of name.now },
}

impl<'a> Sought<'a> {
    pub fn new(name: &'a [u8]) -> Sought<'a>
        ensures { result.name ≡ name.entry }
    {
        let hash = name::hash_of(name);
        Sought { name, hash }
    }
}

// The names of cards, each with its hash.
#[derive(Clone, Copy)]
pub struct HashedNames<'text, 'lent> {
    pub names: Names<'text, 'lent>,
    pub hashes: &'lent [u32],
    pub ghost hashed: { HashesAre (named names) (count names) hashes.now },
}

// The hash of each card's name.
pub fn hash_names(names: Names, hashes: &mut [u32])
    requires { count names ≤ length hashes.old }
    ensures { HashesAre (named names.entry) (count names.entry) hashes.new }
{
    for card in 0..names.count() {
        hashes[card] = name::hash_of(names.name(card));
    }
}

impl<'text> HashedNames<'text, '_> {
    // Whether a card has the name, which may be that of no card: by their hashes first, then by the bytes.
    pub fn has_name(self, card: u32, sought: Sought) -> bool
        requires { card < count self.names }
        ensures { result ≡ same_name sought.entry.name.now (named self.entry.names card) }
    {
        self.hashes[card as usize] == sought.hash
            && name::same(sought.name, self.names.name(card as usize))
    }

    // The name of a card, to be sought among the others.
    pub fn sought(self, card: u32) -> Sought<'text>
        requires { card < count self.names }
        ensures { result.name.now ≡ named self.entry.names card }
    {
        Sought {
            name: self.names.name(card as usize),
            hash: self.hashes[card as usize],
        }
    }
}
