// Names: how far one reaches, and which word of the grammar it is.
ghost use Rattle.std.specs.Prelude.{◌≡◌, ◌≤◌, ◌<◌, length, get_or};
ghost use Rattle.definition.specs.Names.{is_name_start, is_name_byte, same_name};
ghost use Rattle.definition.specs.Lists.{choose};
ghost use Rattle.definition.specs.Grammar.{sort_of_name};
ghost use Rattle.definition.specs.Lexical.{run};
ghost use Rattle.parser_lexer.specs.Sorts.{sort_number};
ghost use Rattle.parser_lexer.specs.Words.{telling_place};

use crate::characters::byte_at;
use crate::sorts::Sort;

// Whether a byte begins a name. Most that do are small letters, and most that do not lie below the letters, so those are told first.
pub fn begins(b: u8) -> bool
    ensures { result ≡ is_name_start b }
{
    match b {
        b'a'..=b'z' => true,
        0..b'A' => false,
        _ => name::is_name_start(b),
    }
}

// Whether a byte goes on a name. Most that do are small letters, and most that do not lie below the digits, so those are told first.
fn goes_on(b: u8) -> bool
    ensures { result ≡ is_name_byte b }
{
    match b {
        b'a'.. => b <= b'z',
        0..b'0' => false,
        _ => name::is_name_continue(b),
    }
}

// How many bytes go on a name.
pub fn name_size(bytes: &[u8]) -> usize
    ensures { result ≡ run is_name_byte bytes.now }
{
    bytes.iter().take_while(|b| goes_on(**b)).count()
}

// The sort of a word where the name is that word, else the sort of any other name.
fn sort_if(name: &[u8], word: &[u8], sort: Sort) -> Sort
    ensures { sort_number result ≡ choose (same_name name.now word.now) (sort_number sort) 54 }
{
    if name == word { sort } else { Sort::Name }
}

// The byte that tells which word a name can be, of those of its size: the second of four, the third of six, else the first.
fn telling_byte(name: &[u8]) -> u8
    ensures { result ≡ get_or name.now (telling_place (length name.now)) 0 }
{
    match name.len() {
        4 => name[1],
        6 => name[2],
        _ => byte_at(name, 0),
    }
}

// The sort of a name. Its size and the byte that tells leave at most one word that it can be, and most names none.
// Stays: one match on all words as byte strings has a goal for each byte in which two words differ; of eleven such goals of three words five stayed open.
pub fn word_sort(name: &[u8]) -> Sort
    ensures { sort_number result ≡ sort_of_name name.now }
{
    if name.len() < 10 {
        sort_of_shorter(name)
    } else {
        sort_of_longer(name)
    }
}

// The sort of a name of fewer than ten bytes.
fn sort_of_shorter(name: &[u8]) -> Sort
    requires { length name.now < 10 }
    ensures { sort_number result ≡ sort_of_name name.now }
{
    match (name.len(), telling_byte(name)) {
        (2, b'o') => sort_if(name, b"on", Sort::On),
        (4, b'y') => sort_if(name, b"type", Sort::Type),
        (4, b'n') => sort_if(name, b"enum", Sort::Enum),
        (4, b'r') => sort_if(name, b"true", Sort::True),
        (4, b'u') => sort_if(name, b"null", Sort::Null),
        (4, b'N') => sort_if(name, b"ENUM", Sort::EnumLocation),
        (5, b'f') => sort_if(name, b"false", Sort::False),
        (5, b'u') => sort_if(name, b"union", Sort::Union),
        (5, b'i') => sort_if(name, b"input", Sort::Input),
        (5, b'q') => sort_if(name, b"query", Sort::Query),
        (5, b'Q') => sort_if(name, b"QUERY", Sort::QueryLocation),
        (5, b'F') => sort_if(name, b"FIELD", Sort::FieldLocation),
        (5, b'U') => sort_if(name, b"UNION", Sort::UnionLocation),
        (6, b'h') => sort_if(name, b"schema", Sort::Schema),
        (6, b'a') => sort_if(name, b"scalar", Sort::Scalar),
        (6, b't') => sort_if(name, b"extend", Sort::Extend),
        (6, b'H') => sort_if(name, b"SCHEMA", Sort::SchemaLocation),
        (6, b'A') => sort_if(name, b"SCALAR", Sort::ScalarLocation),
        (6, b'J') => sort_if(name, b"OBJECT", Sort::ObjectLocation),
        (8, b'm') => sort_if(name, b"mutation", Sort::Mutation),
        (8, b'M') => sort_if(name, b"MUTATION", Sort::MutationLocation),
        (9, b'i') => sort_if(name, b"interface", Sort::Interface),
        (9, b'd') => sort_if(name, b"directive", Sort::Directive),
        (9, b'I') => sort_if(name, b"INTERFACE", Sort::InterfaceLocation),
        _ => Sort::Name,
    }
}

// The sort of a name of ten bytes or more.
fn sort_of_longer(name: &[u8]) -> Sort
    requires { 10 ≤ length name.now }
    ensures { sort_number result ≡ sort_of_name name.now }
{
    match (name.len(), telling_byte(name)) {
        (10, b'i') => sort_if(name, b"implements", Sort::Implements),
        (10, b'r') => sort_if(name, b"repeatable", Sort::Repeatable),
        (10, b'E') => sort_if(name, b"ENUM_VALUE", Sort::EnumValueLocation),
        (12, b's') => sort_if(name, b"subscription", Sort::Subscription),
        (12, b'S') => sort_if(name, b"SUBSCRIPTION", Sort::SubscriptionLocation),
        (12, b'I') => sort_if(name, b"INPUT_OBJECT", Sort::InputObjectLocation),
        (15, b'F') => sort_if(name, b"FRAGMENT_SPREAD", Sort::FragmentSpreadLocation),
        (15, b'I') => sort_if(name, b"INLINE_FRAGMENT", Sort::InlineFragmentLocation),
        (16, b'F') => sort_if(name, b"FIELD_DEFINITION", Sort::FieldDefinitionLocation),
        (19, b'F') => sort_if(
            name,
            b"FRAGMENT_DEFINITION",
            Sort::FragmentDefinitionLocation,
        ),
        (19, b'V') => sort_if(
            name,
            b"VARIABLE_DEFINITION",
            Sort::VariableDefinitionLocation,
        ),
        (19, b'A') => sort_if(
            name,
            b"ARGUMENT_DEFINITION",
            Sort::ArgumentDefinitionLocation,
        ),
        (22, b'I') => sort_if(
            name,
            b"INPUT_FIELD_DEFINITION",
            Sort::InputFieldDefinitionLocation,
        ),
        _ => Sort::Name,
    }
}
