// Where things stand in a store, how wide they are and how many there may be. specs/Store.antt and specs/Refusals.antt have the same numbers;
// that both agree is shown by each contract that cites them.

// A store's first words.
pub const DOCUMENT_COUNT: usize = 0;

pub const ADOPT_SWITCH: usize = 1;

pub const IGNORE_SWITCH: usize = 2;

pub const TEXT_USED: usize = 3;

pub const CARDS_USED: usize = 4;

// Then a row for each document: where its text begins and how long it is, how many cards it has, and the ignore switch when it was filed.
pub const DOCUMENTS_AT: usize = 5;

pub const DOCUMENT_WORDS: usize = 4;

pub const DOCUMENT_TEXT_AT: usize = 0;

pub const DOCUMENT_TEXT_LEN: usize = 1;

pub const DOCUMENT_CARD_COUNT: usize = 2;

pub const DOCUMENT_IGNORED: usize = 3;

pub const DOCUMENT_CAPACITY: usize = 64;

// Then the cards.
pub const CARDS_AT: usize = DOCUMENTS_AT + DOCUMENT_WORDS * DOCUMENT_CAPACITY;

pub const CARD_WORDS: usize = 5;

pub const CARD_CAPACITY: usize = 2300;

// The least lengths of a store's text and of its words.
pub const TEXT_CAPACITY: usize = 65536;

pub const WORDS_CAPACITY: usize = CARDS_AT + CARD_WORDS * CARD_CAPACITY;

// The words of a row, and of an error row.
pub const ROW_WORDS: usize = 3;

pub const ERROR_WORDS: usize = 3;

// The least lengths, in words, of slices that are lent to be written.
pub const ROWS_CAPACITY: usize = 6912;

pub const ERRORS_CAPACITY: usize = 6900;

pub const GROUPS_CAPACITY: usize = 9200;

pub const ORIGINS_CAPACITY: usize = 2304;

pub const READ_CARDS_CAPACITY: usize = CARD_WORDS * CARD_CAPACITY;
