// A list that grows in a lent slice.
#![tactic(auto)]

ghost use Rattle.std.specs.Prelude.{◌≡◌, ◌<◌, ◌≤◌, ◌+◌, ◌∷◌, [], ◌++◌, length};
ghost use Rattle.word_list.specs.Listed.{listed_in, Appends};

// The list is the words before `len`; the slice keeps what stands after them.
#[derive(Drop)]
pub struct WordList<'a> {
    pub words: &'a mut [u32],
    pub len: usize,
}

impl<'a> WordList<'a> {
    pub fn clear(&mut self)
        ensures words { self.new.words ≡ self.old.words }
        ensures length { length self.new.words.now ≡ length self.old.words.now }
        ensures listed { listed_in self.new ≡ [] }
        ensures len { self.new.len ≡ 0 }
    {
        self.len = 0;
    }

    pub fn push(&mut self, word: u32)
        requires { self.old.len < length self.old.words.now }
        ensures appends { Appends self.old self.new (word ∷ []) }
        ensures length { length self.new.words.now ≡ length self.old.words.now }
        ensures listed { listed_in self.new ≡ listed_in self.old ++ word ∷ [] }
        ensures len { self.new.len ≡ self.old.len + 1 }
    {
        self.words[self.len] = word;
        self.len += 1;
    }

    pub fn extend_from_slice(&mut self, words: &[u32])
        requires { self.old.len + length words.now ≤ length self.old.words.now }
        ensures { Appends self.old self.new words.now }
    {
        let end = self.len + words.len();
        self.words[self.len..end].copy_from_slice(words);
        self.len = end;
    }

    pub fn as_slice(&self) -> &[u32]
        requires { self.now.len ≤ length self.now.words.now }
        ensures { result.now ≡ listed_in self.now }
    {
        &self.words[..self.len]
    }

    // The list alone, for as long as the slice is lent.
    pub fn into_slice(self) -> &'a [u32]
        requires { self.len ≤ length self.words.now }
        ensures { result.now ≡ listed_in self.entry }
    {
        let words = self.words;
        &words[..self.len]
    }
}
