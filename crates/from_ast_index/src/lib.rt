// The arrays that build reads: how many there are of what, and the reads of them that several walks share. Crate `from_ast_indexing` fills them.
#![tactic(auto)]

ghost use Rattle.std.specs.Prelude.{◌≡◌, ◌<◌, get_or, MatchOption, ⊤};
ghost use Rattle.std.specs.Option.{unwrap_or};
ghost use Rattle.definition.specs.Answers.{absent};
ghost use Rattle.definition.specs.Store.{cards_used_of};
ghost use Rattle.store_reader.specs.Stored.{card_kind, card_name};
ghost use Rattle.from_ast_index.specs.Index.{same_cards, same_stored, Hashed, Listed, Spanned, own_extensions};

use definition::ABSENT;

// The card that a word has; a word that has none is `-`.
pub fn card_in(word: u32) -> Option<u32>
    ensures word { unwrap_or result absent ≡ word }
    ensures known { MatchOption result ⊤ (λ card. card < absent) }
{
    if word == ABSENT { None } else { Some(word) }
}

// Whether two cards have one name, by the bytes.
#[tactic(auto, unfolding(crate::specs::Index::same_cards))]
pub fn same_names(text: &[u8], words: &[u32], a: u32, b: u32) -> bool
    ensures { result ≡ same_cards text.now words.now a b }
{
    name::same(
        store_reader::card_name(text, words, a as usize),
        store_reader::card_name(text, words, b as usize),
    )
}

// A store whose cards' names have their hashes at hand: what the walks of a build read.
#[derive(Clone, Copy)]
pub struct Collection<'a> {
    pub text: &'a [u8],
    pub words: &'a [u32],
    pub hashes: &'a [u32],
    ghost hashed: { Hashed text.now words.now hashes.now },
}

impl<'a> Collection<'a> {
    pub fn cards_used(&self) -> usize
        ensures { result ≡ cards_used_of self.now.words.now }
    {
        store_reader::cards_used(self.words)
    }

    pub fn kind(&self, card: u32) -> u32
        ensures { result ≡ card_kind self.now.words.now card }
    {
        store_reader::card_kind(self.words, card as usize)
    }

    pub fn name(&self, card: u32) -> &'a [u8]
        ensures { result.now ≡ card_name self.now.text.now self.now.words.now card }
    {
        store_reader::card_name(self.text, self.words, card as usize)
    }

    // Whether two stored cards have one name. Most that have not are told by their hashes. Compiled into its callers, which ask it of each pair of a list.
    #[tactic(auto, using(crate::proofs::Search::cards_differ), unfolding(crate::specs::Index::same_cards))]
    #[inline(always)]
    pub fn same_name(&self, a: u32, b: u32) -> bool
        requires a_stored { a < cards_used_of self.now.words.now }
        requires b_stored { b < cards_used_of self.now.words.now }
        ensures { result ≡ same_cards self.now.text.now self.now.words.now a b }
    {
        self.hashes[a as usize] == self.hashes[b as usize] && name::same(self.name(a), self.name(b))
    }

    // Whether two numbers are those of stored cards with one name: a row's card is not trusted to be stored. Compiled into its callers too.
    #[tactic(auto, using(crate::proofs::Search::stored_not_first, crate::proofs::Search::stored_not_second, crate::proofs::Search::stored_both))]
    #[inline(always)]
    pub fn same_stored(&self, a: u32, b: u32) -> bool
        ensures { result ≡ same_stored self.now.text.now self.now.words.now a b }
    {
        let used = self.cards_used();
        (a as usize) < used && (b as usize) < used && self.same_name(a, b)
    }
}

// What a build has indexed: each array has just what is used of it. `owners`, `starts` and `ends` have a word for each stored card.
// Stays: `starts` and `ends` are two arrays, for the words of `starts` hold hashes while the index is made, and those of a pair could not.
#[derive(Clone, Copy)]
pub struct Index<'a> {
    pub collection: Collection<'a>,
    pub headings: &'a [u32],
    pub owners: &'a [u32],
    pub types: &'a [u32],
    pub orphans: &'a [u32],
    pub extensions: &'a [u32],
    pub starts: &'a [u32],
    pub ends: &'a [u32],
    ghost listed: { Listed collection.text.now collection.words.now headings.now owners.now types.now orphans.now extensions.now },
    ghost spanned: { Spanned collection.words.now owners.now extensions.now starts.now ends.now },
}

impl<'a> Index<'a> {
    // The first definition of the name of a heading that defines or extends a type, if there is one.
    pub fn owner(&self, card: u32) -> Option<u32>
        ensures word { unwrap_or result absent ≡ get_or self.now.owners.now card 0 }
        ensures known { MatchOption result ⊤ (λ owner. owner < absent) }
    {
        card_in(store_reader::word(self.owners, card as usize))
    }

    // The part of all extensions in which those of a type stand.
    #[tactic(auto, using(crate::proofs::Spans::part_clipped), unfolding(crate::specs::Index::own_extensions))]
    pub fn own_extensions(&self, card: u32) -> &'a [u32]
        requires { card < cards_used_of self.now.collection.words.now }
        ensures { result.now
            ≡ own_extensions self.now.extensions.now self.now.starts.now self.now.ends.now card }
    {
        let end = (self.ends[card as usize] as usize).min(self.extensions.len());
        let start = (self.starts[card as usize] as usize).min(end);
        &self.extensions[start..end]
    }
}
