// What a call is refused for, each refusal with its number, which specs/Numbers.antt gives too.
ghost use Rattle.std.specs.Prelude.{◌≡◌};
ghost use Rattle.definition.specs.Numbers.{refusal_number};

// The variants are named by what is wrong: first of what is lent, then of what the store is, then of a text that is read.
#[derive(Clone, Copy, PartialEq, Eq)]
pub enum Refusal {
    CardsNotWhole = 1,
    UnknownKind = 2,
    ItemMisplaced = 3,
    // A name outside its item or, of an interface or a member, another span than it.
    NameMisplaced = 4,
    PartMisplaced = 5,
    BuiltInsFaulty = 6,
    SliceTooShort = 7,
    StoreTooShort = 21,
    StoreUnsound = 22,
    DocumentsFull = 23,
    TextFull = 24,
    CardsFull = 25,
    RowsUnsound = 26,
    // A name that is wrongly present or absent, and bytes that are no Name: asked after `NameMisplaced` and before `PartMisplaced`.
    NamePresence = 27,
    NameBytes = 28,
    // What no text of the grammar has there, a level too deep, and a slice with no room for the cards.
    NotInGrammar = 29,
    NestedTooDeep = 30,
    CardSliceTooShort = 31,
}

impl Refusal {
    pub fn number(self) -> u32
        ensures { result ≡ refusal_number self }
    {
        self as u32
    }
}

// A refusal, and where: the number of a card in its document, a place in the text, or 0.
#[derive(Clone, Copy, PartialEq, Eq)]
pub struct Refused {
    pub refusal: Refusal,
    pub place: usize,
}

// A refusal that is of no card and no place.
impl From<Refusal> for Refused {
    ghost from_gives = { λ refusal r. r ≡ record { refusal = refusal; place = 0 } };

    fn from(refusal: Refusal) -> Refused {
        Refused { refusal, place: 0 }
    }
}
