// Where the extensions of each type stand among all.
ghost use Rattle.std.specs.Prelude.{◌≡◌, ◌≤◌, ◌<◌, length, get_or, set, ℕ};
ghost use Rattle.definition.specs.Refusals.{card_capacity};
ghost use Rattle.from_ast_index.specs.Index.{StartsAre, EndsAre};

// Writes a word where the array has that place.
// Stays: `if let Some(place) = array.get_mut(at) { *place = word; }` is no plainer.
fn note(at: usize, word: u32, array: &mut [u32])
    ensures { array.new ≡ set array.old at word }
{
    if at < array.len() {
        array[at] = word;
    }
}

// For each type the place of its first extension among all; the word of a type without extensions stays.
#[tactic(auto, using(crate::proofs::SpansWalks::starts_none, crate::proofs::SpansWalks::starts_turn))]
pub fn index_starts(owners: &[u32], extensions: &[u32], starts: &mut [u32])
    requires stored { (j : ℕ) → j < length extensions.now → get_or extensions.now j 0 < length owners.now }
    requires few { length extensions.now ≤ card_capacity }
    ensures { StartsAre owners.now extensions.now starts.new 0 }
{
    for i in (0..extensions.len()).rev() {
        note(owners[extensions[i] as usize] as usize, i as u32, starts);
    }
}

// For each type the place after its last extension among all; the word of a type without extensions stays.
pub fn index_ends(owners: &[u32], extensions: &[u32], ends: &mut [u32])
    requires stored { (j : ℕ) → j < length extensions.now → get_or extensions.now j 0 < length owners.now }
    requires few { length extensions.now ≤ card_capacity }
    ensures { EndsAre owners.now extensions.now ends.new (length extensions.now) }
{
    for (i, extension) in extensions.iter().enumerate() {
        note(owners[*extension as usize] as usize, i as u32 + 1, ends);
    }
}
