// What the lines of a case work over, and the changes of it that are no calls.
ghost use Rattle.std.specs.Prelude.{◌≤◌};
ghost use Rattle.definition.specs.Refusals.{text_capacity, rows_capacity};
ghost use Rattle.definition.specs.Store.{words_capacity};

use crate::command::Change;
use crate::failure::Failure;
use crate::line::{Line, Malformed};
use definition::Tallies;
use definition::build_error::ERROR_NUMBERS;
use definition::layout::{ROWS_CAPACITY, TEXT_CAPACITY, WORDS_CAPACITY};

// A store's text, and its words.
#[derive(Clone, Copy, PartialEq)]
pub struct Store {
    pub text: [u8; TEXT_CAPACITY],
    pub words: [u32; WORDS_CAPACITY],
}

impl Store {
    fn new() -> Store {
        Store {
            text: [0; TEXT_CAPACITY],
            words: [0; WORDS_CAPACITY],
        }
    }
}

// How much of the store and of the rows is lent.
// Stays: a Table owns the arrays and the lines change how much is lent; a slice would borrow from the Table that it stands in.
#[derive(Clone, Copy)]
pub struct Lent {
    pub text: usize,
    pub words: usize,
    pub rows: usize,
    ghost text_fits: { text ≤ text_capacity },
    ghost words_fit: { words ≤ words_capacity },
    ghost rows_fit: { rows ≤ rows_capacity },
}

// The store and its kept copy, the rows that a drawing fills, and the tallies of the last drawing.
#[derive(Clone, Copy)]
pub struct Table {
    pub store: Store,
    pub kept: Store,
    pub rows: [u32; ROWS_CAPACITY],
    pub lent: Lent,
    pub tallies: Tallies,
}

impl Table {
    // At a case's start all of the store is lent, and no rows are drawn.
    pub fn new() -> Table {
        Table {
            store: Store::new(),
            kept: Store::new(),
            rows: [0; ROWS_CAPACITY],
            lent: Lent {
                text: TEXT_CAPACITY,
                words: WORDS_CAPACITY,
                rows: 0,
            },
            tallies: Tallies {
                counts: [0; ERROR_NUMBERS],
                total: 0,
            },
        }
    }

    // Changes the store, the rows, or how much of them is lent; `keep` copies the store and `restore` copies it back.
    pub fn change(&mut self, change: Change, line: &Line) -> Result<(), Failure> {
        match change {
            Change::Store => self.lend_store(line),
            Change::Rows => self.lend_rows(line),
            Change::Word => set(&mut self.store.words, line),
            Change::Byte => set(&mut self.store.text, line),
            Change::Row => set(&mut self.rows, line),
            Change::Keep => self.keep(line),
            Change::Restore => self.restore(line),
        }
    }

    // `store T W`
    fn lend_store(&mut self, line: &Line) -> Result<(), Failure> {
        let [text, words] = line.numbers::<2>(1)?;
        if text > TEXT_CAPACITY || words > WORDS_CAPACITY {
            return Err(Failure::Malformed);
        }
        let rows = self.lent.rows;
        self.lent = Lent { text, words, rows };
        Ok(())
    }

    // `rows L`
    fn lend_rows(&mut self, line: &Line) -> Result<(), Failure> {
        let [rows] = line.numbers::<1>(1)?;
        if rows > ROWS_CAPACITY {
            return Err(Failure::Malformed);
        }
        self.lent.rows = rows;
        Ok(())
    }

    fn keep(&mut self, line: &Line) -> Result<(), Failure> {
        let [] = line.numbers::<0>(1)?;
        self.kept = self.store;
        Ok(())
    }

    fn restore(&mut self, line: &Line) -> Result<(), Failure> {
        let [] = line.numbers::<0>(1)?;
        self.store = self.kept;
        Ok(())
    }
}

// `word I V`, `byte I V` and `row I V`
fn set<T: TryFrom<usize> + Drop>(cells: &mut [T], line: &Line) -> Result<(), Failure>
where
    T::Error: Drop,
{
    let [place, value] = line.numbers::<2>(1)?;
    let cell = cells.get_mut(place).ok_or(Malformed)?;
    *cell = T::try_from(value).map_err(|_| Malformed)?;
    Ok(())
}
