// What is printed is put into a buffer first, so that each output is one write. Every function here puts bytes at a place and answers the
// next place.
ghost use Rattle.std.specs.Prelude.{◌≡◌, [], ◌∷◌, ◌+◌, ◌*◌, ◌^◌, ◌<◌, ◌≤◌, length, take};
ghost use Rattle.program_io.specs.Text.{Put, decimal};
ghost use Rattle.program_io.specs.Listing.{word, line, lines, counts, refused, rows_shown, errors_shown, listing, listing_capacity, file_name};

use definition::layout::ROW_WORDS;
use definition::{ABSENT, Answer, Drawing};

pub fn put_byte(b: u8, out: &mut [u8], at: usize) -> usize
    requires { at < length out.old }
    ensures { Put out.old at (b ∷ []) out.new result }
{
    out[at] = b;
    at + 1
}

pub fn put_bytes(bytes: &[u8], out: &mut [u8], at: usize) -> usize
    requires { at + length bytes.now ≤ length out.old }
    ensures { Put out.old at bytes.now out.new result }
{
    let mut i = 0;
    while i < bytes.len() {
        out[at + i] = bytes[i];
        i += 1;
    }
    at + i
}

// The digits before the last one are those of a tenth of the number.
pub fn put_decimal(n: usize, out: &mut [u8], at: usize) -> usize
    requires { at + length (decimal n) ≤ length out.old }
    ensures { Put out.old at (decimal n) out.new result }
{
    if n < 10 {
        return put_byte(b'0' + n as u8, out, at);
    }
    let next = put_decimal(n / 10, out, at);
    put_byte(b'0' + (n % 10) as u8, out, next)
}

pub fn put_word(w: u32, out: &mut [u8], at: usize) -> usize
    requires { at + 10 ≤ length out.old }
    ensures put { Put out.old at (word w) out.new result }
    ensures upper_bound { result ≤ at + 10 }
{
    if w == ABSENT {
        return put_byte(b'-', out, at);
    }
    put_decimal(w as usize, out, at)
}

fn put_line(a: u32, b: u32, c: u32, out: &mut [u8], at: usize) -> usize
    requires { at + 33 ≤ length out.old }
    ensures put { Put out.old at (line a b c) out.new result }
    ensures upper_bound { result ≤ at + 33 }
{
    let at = put_word(a, out, at);
    let at = put_byte(b' ', out, at);
    let at = put_word(b, out, at);
    let at = put_byte(b' ', out, at);
    let at = put_word(c, out, at);
    put_byte(b'\n', out, at)
}

// A line for each row of three words.
fn put_lines(rows: &[u32], out: &mut [u8], at: usize) -> usize
    requires { at + 11 * length rows.now ≤ length out.old }
    ensures put { Put out.old at (lines rows.now) out.new result }
    ensures upper_bound { result ≤ at + 11 * length rows.now }
{
    let mut end = at;
    let mut i = 0;
    while rows.len() - i >= ROW_WORDS {
        end = put_line(rows[i], rows[i + 1], rows[i + 2], out, end);
        i += ROW_WORDS;
    }
    end
}

// A title and two numbers on a line.
fn put_counts(title: &[u8], a: usize, b: usize, out: &mut [u8], at: usize) -> usize
    requires { at + length title.now + 42 ≤ length out.old }
    ensures put { Put out.old at (counts title.now a b) out.new result }
    ensures upper_bound { result ≤ at + length title.now + 42 }
{
    let at = put_bytes(title, out, at);
    let at = put_decimal(a, out, at);
    let at = put_byte(b' ', out, at);
    let at = put_decimal(b, out, at);
    put_byte(b'\n', out, at)
}

pub fn put_refusal(answer: Answer, out: &mut [u8]) -> usize
    requires { 50 ≤ length out.old }
    ensures { Put out.old 0 (refused answer.number answer.card) out.new result }
{
    put_counts(b"refused ", answer.number as usize, answer.card, out, 0)
}

// As many rows as are counted. A drawing counts no more than it was lent, so all of them are there.
fn first_rows(rows: &[u32], count: usize) -> &[u32]
    ensures { result.now ≡ take (3 * count) rows.now }
{
    if rows.len() / ROW_WORDS < count {
        return rows;
    }
    &rows[..ROW_WORDS * count]
}

// The drawn rows under their count.
fn put_rows(count: usize, rows: &[u32], out: &mut [u8]) -> usize
    requires { 11 * length rows.now + 26 ≤ length out.old }
    ensures put { Put out.old 0 (rows_shown count rows.now) out.new result }
    ensures upper_bound { result ≤ 11 * length rows.now + 26 }
{
    let at = put_bytes(b"rows ", out, 0);
    let at = put_decimal(count, out, at);
    let at = put_byte(b'\n', out, at);
    put_lines(first_rows(rows, count), out, at)
}

// The errors, those while reading documents first, under both counts.
fn put_errors(reading: usize, drawing: usize, errors: &[u32], out: &mut [u8], at: usize) -> usize
    requires { (reading + drawing < 2 ^ 64)
        × (at + 11 * length errors.now + 49 ≤ length out.old) }
    ensures { Put out.old at (errors_shown reading drawing errors.now) out.new result }
{
    let at = put_counts(b"errors ", reading, drawing, out, at);
    put_lines(first_rows(errors, reading + drawing), out, at)
}

pub fn put_listing(d: Drawing, rows: &[u32], errors: &[u32], out: &mut [u8]) -> usize
    requires { listing_capacity (length rows.now + length errors.now) ≤ length out.old }
    ensures { Put out.old 0 (listing d rows.now errors.now) out.new result }
{
    let number = d.number;
    if number != 0 {
        return put_refusal(Answer { number, card: 0 }, out);
    }
    let at = put_rows(d.rows as usize, rows, out);
    put_errors(
        d.reading_errors as usize,
        d.drawing_errors as usize,
        errors,
        out,
        at,
    )
}

// The name of a numbered file: its folder, a stem, the number and an ending.
pub fn put_name(folder: &[u8], stem: &[u8], n: usize, ending: &[u8], out: &mut [u8]) -> usize
    requires { length folder.now + length stem.now + 20 + length ending.now ≤ length out.old }
    ensures put { Put out.old 0 (file_name folder.now stem.now n ending.now)
        out.new result }
    ensures upper_bound { result ≤ length folder.now + length stem.now + 20 + length ending.now }
{
    let at = put_bytes(folder, out, 0);
    let at = put_bytes(stem, out, at);
    let at = put_decimal(n, out, at);
    put_bytes(ending, out, at)
}
