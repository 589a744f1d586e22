// What is printed of a drawing. Shown as text first, it goes out in one write.
ghost use Rattle.std.specs.Prelude.{Some, ◌≡◌, ◌*◌, take};
ghost use Rattle.definition.specs.Numbers.{refusal_number, drawing_answer};
ghost use Rattle.program_io.specs.Listing.{word, lines, refused, rows_shown, errors_shown, listing};

use definition::layout::ROW_WORDS;
use definition::refusal::{Refusal, Refused};
use definition::{ABSENT, Drawn};
use std::fmt;

// A word of a row: its number, or `-`.
#[derive(Clone, Copy)]
pub struct Word(pub u32);

impl fmt::Display for Word {
    ghost output = { λ w. Some (word w.0) };

    fn fmt<W: fmt::Write>(&self, f: &mut fmt::Formatter<W>) -> fmt::Result {
        let word = self.0;
        if word == ABSENT {
            return write!(f, "-");
        }
        write!(f, "{word}")
    }
}

// A line for each row of three words. Words past the last whole row are left out.
#[derive(Clone, Copy)]
pub struct Lines<'a>(pub &'a [u32]);

impl fmt::Display for Lines<'_> {
    ghost output = { λ l. Some (lines l.0.now) };

    fn fmt<W: fmt::Write>(&self, f: &mut fmt::Formatter<W>) -> fmt::Result {
        for [a, b, c] in self.0.as_chunks::<ROW_WORDS>().0 {
            writeln!(f, "{} {} {}", Word(*a), Word(*b), Word(*c))?;
        }
        Ok(())
    }
}

// What a refused call prints.
#[derive(Clone, Copy)]
pub struct RefusalLine(pub Refused);

impl fmt::Display for RefusalLine {
    ghost output = { λ r. Some (refused (refusal_number r.0.refusal) r.0.place) };

    fn fmt<W: fmt::Write>(&self, f: &mut fmt::Formatter<W>) -> fmt::Result {
        let number = self.0.refusal.number();
        let place = self.0.place;
        writeln!(f, "refused {number} {place}")
    }
}

// As many rows as are counted. A drawing counts no more than it was lent, so all of them are there.
fn first_rows(rows: &[u32], count: usize) -> &[u32]
    ensures { result.now ≡ take (3 * count) rows.now }
{
    rows.get(..ROW_WORDS.saturating_mul(count)).unwrap_or(rows)
}

// What a drawing prints: its refusal, or the rows under their count and the errors, those while reading documents first, under both counts.
#[derive(Clone, Copy)]
pub struct Listing<'a> {
    pub drawing: Result<Drawn, Refusal>,
    pub rows: &'a [u32],
    pub errors: &'a [u32],
}

impl fmt::Display for Listing<'_> {
    ghost output = { λ l. Some (listing (drawing_answer l.drawing) l.rows.now l.errors.now) };

    fn fmt<W: fmt::Write>(&self, f: &mut fmt::Formatter<W>) -> fmt::Result {
        let drawn = match self.drawing {
            Ok(drawn) => drawn,
            Err(refusal) => return write!(f, "{}", RefusalLine(Refused { refusal, place: 0 })),
        };
        let rows = drawn.rows as usize;
        let reading = drawn.reading_errors as usize;
        let drawing = drawn.drawing_errors as usize;
        write!(
            f,
            "rows {rows}\n{}errors {reading} {drawing}\n{}",
            Lines(first_rows(self.rows, rows)),
            Lines(first_rows(self.errors, reading + drawing))
        )
    }
}
