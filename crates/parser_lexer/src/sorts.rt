// The sorts of tokens, numbered as Grammar has them (2.1.8, 2.1.9 and 2.9 of the specification), and what stands ahead where there is no token.
ghost use Rattle.std.specs.Prelude.{◌≡◌};
ghost use Rattle.definition.specs.Grammar.{within};
ghost use Rattle.parser_lexer.specs.Sorts.{sort_number};

// Each with its number, which specs/Sorts.antt gives too. The order tells which sorts are names and which are locations.
#[derive(Clone, Copy, PartialEq, Eq)]
pub enum Sort {
    // Punctuators.
    Bang = 0,
    Dollar = 1,
    Amp = 2,
    ParenOpens = 3,
    ParenCloses = 4,
    Dots = 5,
    Colon = 6,
    Equals = 7,
    At = 8,
    BracketOpens = 9,
    BracketCloses = 10,
    BraceOpens = 11,
    Bar = 12,
    BraceCloses = 13,
    // Values that are no names; a block string is a string.
    Int = 14,
    Float = 15,
    String = 16,
    // Names: from here on up to `Name`. The first three name no enum value; those from `Schema` on may.
    True = 17,
    False = 18,
    Null = 19,
    Schema = 20,
    Scalar = 21,
    Type = 22,
    Interface = 23,
    Union = 24,
    Enum = 25,
    Input = 26,
    Directive = 27,
    Extend = 28,
    Implements = 29,
    Repeatable = 30,
    On = 31,
    Query = 32,
    Mutation = 33,
    Subscription = 34,
    // The locations of directives, up to `InputFieldDefinitionLocation`.
    QueryLocation = 35,
    MutationLocation = 36,
    SubscriptionLocation = 37,
    FieldLocation = 38,
    FragmentDefinitionLocation = 39,
    FragmentSpreadLocation = 40,
    InlineFragmentLocation = 41,
    VariableDefinitionLocation = 42,
    SchemaLocation = 43,
    ScalarLocation = 44,
    ObjectLocation = 45,
    FieldDefinitionLocation = 46,
    ArgumentDefinitionLocation = 47,
    InterfaceLocation = 48,
    UnionLocation = 49,
    EnumLocation = 50,
    EnumValueLocation = 51,
    InputObjectLocation = 52,
    InputFieldDefinitionLocation = 53,
    // Any name that is no word of the grammar.
    Name = 54,
    // No token: the end of the text, and a place where nothing readable stands.
    EndOfText = 55,
    Unreadable = 56,
}

// The sorts of names: all of them, those that an enum value may have (not `true`, `false` or `null`), and those of locations.
pub const FIRST_NAME: Sort = Sort::True;

pub const ENUM_NAME: Sort = Sort::Schema;

pub const FIRST_LOCATION: Sort = Sort::QueryLocation;

pub const LAST_LOCATION: Sort = Sort::InputFieldDefinitionLocation;

impl Sort {
    // Stays: a derived order tells of discriminants as signed numbers, which a second table of 57 would have to lead to Grammar's; `is_within` reads these instead.
    pub fn number(self) -> u32
        ensures { result ≡ sort_number self }
    {
        self as u32
    }

    // Whether it lies in a range.
    #[tactic(auto, unfolding(definition::specs::Grammar::within))]
    pub fn is_within(self, lo: Sort, hi: Sort) -> bool
        ensures { result ≡ within (sort_number lo) (sort_number hi) (sort_number self) }
    {
        lo.number() <= self.number() && self.number() <= hi.number()
    }
}
