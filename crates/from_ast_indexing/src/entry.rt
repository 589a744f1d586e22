// `Entry` of the hash maps in from_ast.rs: the first card of each name, and the card that is added where none has its name.
ghost use Rattle.std.specs.Prelude.{◌≡◌, ◌%◌, ◌≤◌, ◌<◌, ◌+◌, length, get_or};
ghost use Rattle.definition.specs.Lists.{find};
ghost use Rattle.definition.specs.Store.{cards_used_of};
ghost use Rattle.from_ast_index.specs.Index.{same_cards};
ghost use Rattle.from_ast_indexing.specs.Entering.{entry_of, first_entered, entered_in, cards_of, hashes_of, FirstsAre, KnownAre, SameSlices};

use from_ast_index::Collection;

// The first cards of names, as a search reads them: each has its name's hash beside it. A word of `buckets` is the place of the first one whose hash
// falls on it; where none does, any word will do, and a large one spares the search.
#[derive(Clone, Copy)]
pub struct KnownCards<'k> {
    pub cards: &'k [u32],
    pub hashes: &'k [u32],
    pub buckets: &'k [u32],
}

impl<'k> KnownCards<'k> {
    // The word of `buckets` that a hash falls on.
    fn slot(&self, hash: u32) -> usize
        requires { 0 < length self.now.buckets.now }
        ensures { result ≡ hash % length self.now.buckets.now }
    {
        hash as usize % self.buckets.len()
    }

    // Where the search for a hash begins that falls there: none before has it.
    fn hint(&self, slot: usize) -> usize
        requires { slot < length self.now.buckets.now }
        ensures { (result ≤ length self.now.cards.now)
            × (result ≤ get_or self.now.buckets.now slot 0) }
    {
        (self.buckets[slot] as usize).min(self.cards.len())
    }

    // The one that has the name of a stored card, where none before `from` has its hash.
    #[tactic(auto, using(crate::proofs::EntrySearch::known_beside))]
    fn find_from(&self, collection: &Collection, card: u32, from: usize) -> Option<u32>
        requires stored { card < cards_used_of collection.now.words.now }
        requires known { KnownAre collection.now.text.now collection.now.words.now self.now }
        requires most { from ≤ length self.now.cards.now }
        requires passed { from
            ≤ get_or self.now.buckets.now (get_or collection.now.hashes.now card 0
            % length self.now.buckets.now) 0 }
        ensures { result
            ≡ entry_of (find (same_cards collection.now.text.now collection.now.words.now card) self.now.cards.now) }
    {
        let hash = collection.hashes[card as usize];
        let cards = &self.cards[from..];
        let hashes = &self.hashes[from..];
        for (other, other_hash) in cards.iter().zip(hashes) {
            if *other_hash == hash && name::same(collection.name(card), collection.name(*other)) {
                return Some(*other);
            }
        }
        None
    }

    // The one that has the name of a stored card.
    pub fn find(&self, collection: &Collection, card: u32) -> Option<u32>
        requires stored { card < cards_used_of collection.now.words.now }
        requires known { KnownAre collection.now.text.now collection.now.words.now self.now }
        ensures { result
            ≡ entry_of (find (same_cards collection.now.text.now collection.now.words.now card) self.now.cards.now) }
    {
        let slot = self.slot(collection.hashes[card as usize]);
        self.find_from(collection, card, self.hint(slot))
    }
}

// The first card of each name, in arrays that grow: those before `len` are known, each with its name's hash beside it.
// Stays: FirstsAre is asked by contracts, for `enter` writes the lent arrays one after another, and in between a ghost field would not hold.
// Stays: the rule of no heap has the list grow in lent slices; the hashes stand in a row, for that a search reads them alone.
#[derive(Drop)]
pub struct FirstCards<'a, 's, 'b> {
    pub cards: &'a mut [u32],
    pub hashes: &'s mut [u32],
    pub buckets: &'b mut [u32],
    pub len: usize,
}

impl<'a, 's, 'b> FirstCards<'a, 's, 'b> {
    // None yet.
    pub fn new(
        cards: &'a mut [u32],
        hashes: &'s mut [u32],
        buckets: &'b mut [u32],
    ) -> FirstCards<'a, 's, 'b>
        ensures cards { result.cards ≡ cards.entry }
        ensures hashes { result.hashes ≡ hashes.entry }
        ensures buckets { result.buckets ≡ buckets.entry }
        ensures len { result.len ≡ 0 }
    {
        FirstCards {
            cards,
            hashes,
            buckets,
            len: 0,
        }
    }

    // Those that are known now.
    pub fn known(&self) -> KnownCards<'_>
        requires cards { self.now.len ≤ length self.now.cards.now }
        requires hashes { self.now.len ≤ length self.now.hashes.now }
        ensures cards { result.cards.now ≡ cards_of self.now }
        ensures hashes { result.hashes.now ≡ hashes_of self.now }
        ensures buckets { result.buckets.now ≡ self.now.buckets.now }
    {
        KnownCards {
            cards: &self.cards[..self.len],
            hashes: &self.hashes[..self.len],
            buckets: self.buckets,
        }
    }

    // Adds a stored card where none has its name, and tells the first one of its name.
    #[tactic(auto, using(crate::proofs::EntrySearch::firsts_known, crate::proofs::EntrySearch::first_kept, crate::proofs::EntrySearch::cards_kept, crate::proofs::EntrySearch::first_new, crate::proofs::EntrySearch::cards_new))]
    pub fn enter(&mut self, collection: &Collection, card: u32) -> u32
        requires stored { card < cards_used_of collection.now.words.now }
        requires firsts { FirstsAre collection.now.text.now collection.now.words.now self.old }
        requires room { self.old.len < cards_used_of collection.now.words.now }
        ensures first { result
            ≡ first_entered (same_cards collection.now.text.now collection.now.words.now) card (cards_of self.old) }
        ensures cards { cards_of self.new
            ≡ entered_in (same_cards collection.now.text.now collection.now.words.now) card (cards_of self.old) }
        ensures firsts { FirstsAre collection.now.text.now collection.now.words.now self.new }
        ensures len { self.new.len ≤ self.old.len + 1 }
        ensures same { SameSlices self.old self.new }
    {
        let known = self.known();
        let hash = collection.hashes[card as usize];
        let slot = known.slot(hash);
        let from = known.hint(slot);
        match known.find_from(collection, card, from) {
            Some(first) => first,
            None => {
                self.buckets[slot] = from as u32;
                self.cards[self.len] = card;
                self.hashes[self.len] = hash;
                self.len += 1;
                card
            }
        }
    }
}
