// Lookups over the store and the rows that are lent, and what is expected of them.
use crate::held::{LIST_CAPACITY, hold_answer, hold_field, hold_list, hold_name, unwritten};
use api::answers::SubtypeAnswer;
use definition::{Answer, OperationType};
use replay_calls::command::{Filling, Lookup};
use replay_calls::failure::Failure;
use replay_calls::line::{Line, number_of};
use replay_calls::table::Table;

// What a lookup is lent.
#[derive(Clone, Copy)]
struct Lent<'a> {
    text: &'a [u8],
    words: &'a [u32],
    rows: &'a [u32],
}

pub fn run_lookup(lookup: Lookup, line: &Line, table: &Table) -> Result<(), Failure> {
    let lent = Lent {
        text: &table.store.text[..table.lent.text],
        words: &table.store.words[..table.lent.words],
        rows: &table.rows[..table.lent.rows],
    };
    match lookup {
        Lookup::CheckRows => lent.check_rows(line),
        Lookup::RootOperation => lent.root_operation(line),
        Lookup::TypeField => lent.type_field(line),
        Lookup::IsSubtype => lent.is_subtype(line),
        Lookup::Fill(filling) => lent.fill(filling, line),
    }
}

impl Lent<'_> {
    // `check_rows N C`
    fn check_rows(&self, line: &Line) -> Result<(), Failure> {
        let [number, card] = line.numbers::<2>(1)?;
        hold_answer(
            api::check_rows(self.text, self.words, self.rows).into(),
            number,
            card,
        )
    }

    // `root_operation O NAME`
    fn root_operation(&self, line: &Line) -> Result<(), Failure> {
        if line.count_words() != 3 {
            return Err(Failure::Malformed);
        }
        let operation = operation_of(line.word(1)).ok_or(Failure::Malformed)?;
        let name = api::root_operation(self.text, self.words, self.rows, operation);
        hold_name(name, line.word(2))
    }

    // `type_field TYPE FIELD N K M C`
    fn type_field(&self, line: &Line) -> Result<(), Failure> {
        let [refusal, kind, meta, card] = line.numbers::<4>(3)?;
        let answer = api::type_field(self.text, self.words, self.rows, line.word(1), line.word(2));
        hold_field(answer, refusal, kind, meta, card)
    }

    // `is_subtype GENERAL OTHER N V`
    fn is_subtype(&self, line: &Line) -> Result<(), Failure> {
        let [number, yes] = line.numbers::<2>(3)?;
        let answer = api::is_subtype(self.text, self.words, self.rows, line.word(1), line.word(2));
        let told = SubtypeAnswer::from(answer);
        let came = Answer {
            number: told.refusal,
            card: told.yes as usize,
        };
        hold_answer(came, number, yes)
    }

    // `iter_origins`, `extensions` and `implementers_map L N C W1 W2 ..`
    fn fill(&self, filling: Filling, line: &Line) -> Result<(), Failure> {
        let [l, number, card] = line.first_numbers::<3>(1)?;
        let mut list = unwritten::<LIST_CAPACITY>();
        let lent = list.get_mut(..l).ok_or(Failure::Malformed)?;
        let answer = match filling {
            Filling::IterOrigins => api::iter_origins(self.text, self.words, self.rows, lent),
            Filling::Extensions => api::extensions(self.text, self.words, self.rows, lent),
            Filling::ImplementersMap => api::implementers_map(
                self.text, self.words, self.rows, lent,
            ),
        };
        hold_answer(answer.into(), number, card)?;
        hold_list(line, 4, &list)
    }
}

fn operation_of(word: &[u8]) -> Option<OperationType> {
    match number_of(word)? {
        0 => Some(OperationType::Query),
        1 => Some(OperationType::Mutation),
        2 => Some(OperationType::Subscription),
        _ => None,
    }
}
