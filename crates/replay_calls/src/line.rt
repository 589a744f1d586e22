// A line of a file of calls: its words and its numbers.
ghost use Rattle.std.specs.Prelude.{◌≡◌, true, ◌+◌, ◌==◌, IfOk, position};
ghost use Rattle.replay_calls.specs.LineWords.{after_words, word_of, spaces, digits_from};
ghost use Rattle.replay_calls.specs.LineWords.{number_of, HasNumbers, BeginsWith};

use definition::ABSENT;

// A number that is larger is malformed, so that none overflows with its next digit.
const MOST: usize = 100000000000000000;

const LAST_DIGIT: u8 = b'9';

// The number that is written `-`.
pub const DASH: usize = ABSENT as usize;

// The line is none of the calls, or has other words than it must have.
#[derive(Clone, Copy, Debug)]
pub struct Malformed;

// Words are what stands between single spaces, so a word may be empty. A word that is not there is empty too.
#[derive(Clone, Copy)]
pub struct Line<'a> {
    pub bytes: &'a [u8],
}

impl<'a> Line<'a> {
    // Word k, counted from 0.
    pub fn word(&self, k: usize) -> &'a [u8]
        ensures { result.now ≡ word_of k self.now.bytes.now }
    {
        cut_word(self.after(k)).0
    }

    // What follows so many words, each with the space behind it.
    pub fn after(&self, count: usize) -> &'a [u8]
        ensures { result.now ≡ after_words count self.now.bytes.now }
    {
        let mut rest = self.bytes;
        for _k in 0..count {
            rest = cut_word(rest).1;
        }
        rest
    }

    // How many words there are: one more than spaces.
    pub fn count_words(&self) -> usize
        ensures { result ≡ spaces self.now.bytes.now + 1 }
    {
        self.bytes.iter().filter(|b| **b == b' ').count() + 1
    }

    // The numbers from word `from` on. More words may follow.
    pub fn first_numbers<const N: usize>(&self, from: usize) -> Result<[usize; N], Malformed>
        ensures { IfOk result (λ numbers. HasNumbers self.now.bytes.now from N numbers) }
    {
        let mut rest = self.after(from);
        let mut numbers = [0; N];
        for number in numbers.iter_mut() {
            let (word, after) = cut_word(rest);
            *number = number_of(word).ok_or(Malformed)?;
            rest = after;
        }
        Ok(numbers)
    }

    // The same of a line that has no more words.
    pub fn numbers<const N: usize>(&self, from: usize) -> Result<[usize; N], Malformed>
        ensures has_numbers { IfOk result (λ numbers. HasNumbers self.now.bytes.now from N numbers) }
        ensures line_value { IfOk result (λ _. spaces self.now.bytes.now + 1 ≡ from + N) }
    {
        if self.count_words().checked_sub(from) != Some(N) {
            return Err(Malformed);
        }
        self.first_numbers(from)
    }

    // Whether the words from word `from` on are these numbers. More words may follow.
    pub fn has(&self, from: usize, list: &[u32]) -> bool
        ensures { result ≡ true → BeginsWith (after_words from self.now.bytes.now) list.now }
    {
        let mut rest = self.after(from);
        for expected in list {
            let (word, after) = cut_word(rest);
            if number_of(word) != Some(*expected as usize) {
                return false;
            }
            rest = after;
        }
        true
    }
}

fn first_space(line: &[u8]) -> Option<usize>
    ensures { result ≡ position (λ b. b == 32) line.now }
{
    line.iter().position(|b| *b == b' ')
}

// The first word, and what follows the space behind it.
fn cut_word(line: &[u8]) -> (&[u8], &[u8])
    ensures word { result.0.now ≡ word_of 0 line.now }
    ensures rest { result.1.now ≡ after_words 1 line.now }
{
    match first_space(line) {
        Some(end) => (&line[..end], &line[end + 1..]),
        None => (line, &[]),
    }
}

// Decimal digits, or `-`.
pub fn number_of(word: &[u8]) -> Option<usize>
    ensures { result ≡ number_of word.now }
{
    if word == b"-".as_slice() {
        return Some(DASH);
    }
    if word.is_empty() {
        return None;
    }
    digits(word)
}

// Stays: std's parse takes a sign before the digits, wants a text, and lets numbers pass that are larger than MOST allows.
fn digits(word: &[u8]) -> Option<usize>
    ensures { result ≡ digits_from 0 word.now }
{
    let mut n = 0;
    for b in word {
        if *b < b'0' || LAST_DIGIT < *b || MOST < n {
            return None;
        }
        n = 10 * n + (*b - b'0') as usize;
    }
    Some(n)
}
