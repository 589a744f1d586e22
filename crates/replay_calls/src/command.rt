// Which call or change a line is, by its first word.
use crate::line::Line;

// The lookups that fill a slice.
#[derive(Clone, Copy)]
pub enum Filling {
    IterOrigins,
    Extensions,
    ImplementersMap,
}

#[derive(Clone, Copy)]
pub enum Lookup {
    CheckRows,
    RootOperation,
    TypeField,
    IsSubtype,
    Fill(Filling),
}

// The calls that file a document, and those that turn a switch on.
#[derive(Clone, Copy)]
pub enum Filing {
    Open,
    AddAst,
}

#[derive(Clone, Copy)]
pub enum Switch {
    AdoptOrphanExtensions,
    IgnoreBuiltinRedefinitions,
}

#[derive(Clone, Copy)]
pub enum Call {
    File(Filing),
    TurnOn(Switch),
    Build,
    Look(Lookup),
    // Reading a text into cards.
    Parse,
}

// The changes of what is lent.
#[derive(Clone, Copy)]
pub enum Change {
    Store,
    Rows,
    Word,
    Byte,
    Row,
    Keep,
    Restore,
}

#[derive(Clone, Copy)]
pub enum Command {
    Call(Call),
    // The tallies of the last drawing.
    Tallies,
    Change(Change),
    // To be passed over.
    Comment,
}

pub fn command_of(line: &Line) -> Option<Command> {
    if line.bytes.starts_with(b"#") {
        return Some(Command::Comment);
    }
    let name = line.word(0);
    match name {
        b"tallies" => Some(Command::Tallies),
        _ => match change_of(name) {
            Some(change) => Some(Command::Change(change)),
            None => call_of(name).map(Command::Call),
        },
    }
}

fn change_of(name: &[u8]) -> Option<Change> {
    match name {
        b"store" => Some(Change::Store),
        b"rows" => Some(Change::Rows),
        b"word" => Some(Change::Word),
        b"byte" => Some(Change::Byte),
        b"row" => Some(Change::Row),
        b"keep" => Some(Change::Keep),
        b"restore" => Some(Change::Restore),
        _ => None,
    }
}

fn call_of(name: &[u8]) -> Option<Call> {
    match name {
        b"open" => Some(Call::File(Filing::Open)),
        b"add_ast" => Some(Call::File(Filing::AddAst)),
        b"adopt_orphan_extensions" => Some(Call::TurnOn(Switch::AdoptOrphanExtensions)),
        b"ignore_builtin_redefinitions" => Some(Call::TurnOn(Switch::IgnoreBuiltinRedefinitions)),
        b"build" => Some(Call::Build),
        b"parse" => Some(Call::Parse),
        _ => lookup_of(name).map(Call::Look),
    }
}

fn lookup_of(name: &[u8]) -> Option<Lookup> {
    match name {
        b"check_rows" => Some(Lookup::CheckRows),
        b"root_operation" => Some(Lookup::RootOperation),
        b"type_field" => Some(Lookup::TypeField),
        b"is_subtype" => Some(Lookup::IsSubtype),
        b"iter_origins" => Some(Lookup::Fill(Filling::IterOrigins)),
        b"extensions" => Some(Lookup::Fill(Filling::Extensions)),
        b"implementers_map" => Some(Lookup::Fill(Filling::ImplementersMap)),
        _ => None,
    }
}
