// Pushing errors: each is written at the unused end of the lent slice, and counted.
ghost use Rattle.std.specs.Prelude.{◌≡◌, ◌∷◌, []};
ghost use Rattle.std.specs.Option.{unwrap_or};
ghost use Rattle.definition.specs.Answers.{absent};
ghost use Rattle.definition.specs.Errors.{error};
ghost use Rattle.definition.specs.Numbers.{error_number};
ghost use Rattle.from_ast_collisions.specs.Pushing.{no_errors, push_all, Capacity};

use definition::build_error::BuildError;
use definition::{ABSENT, Tallies, layout};

// The errors that were pushed: the slice where each has its words, and the tallies.
#[derive(Drop)]
pub struct Errors<'a> {
    pub words: &'a mut [u32],
    pub tallies: Tallies,
}

impl<'a> Errors<'a> {
    // No errors yet.
    pub fn new(words: &'a mut [u32]) -> Errors<'a>
        ensures { result ≡ no_errors words.entry }
    {
        Errors {
            words,
            tallies: Tallies::default(),
        }
    }

    // One more error: its three words, and one more of its number. The earlier card is written as `-` where there is none.
    #[tactic(auto, using(crate::proofs::Push::pushed), unfolding(crate::specs::Pushing::Capacity, definition::specs::Errors::error))]
    pub fn push(&mut self, kind: BuildError, card: u32, earlier: Option<u32>)
        requires { Capacity self.old (error (error_number kind) card (unwrap_or earlier absent) ∷ []) }
        ensures { self.new ≡ push_all self.old (error (error_number kind) card (unwrap_or earlier absent) ∷ []) }
    {
        let number = kind.number();
        let start = layout::ERROR_WORDS * self.tallies.total as usize;
        self.words[start..start + layout::ERROR_WORDS].copy_from_slice(&[
            number,
            card,
            earlier.unwrap_or(ABSENT),
        ]);
        self.tallies.counts[number as usize - 1] += 1;
        self.tallies.total += 1;
    }
}
