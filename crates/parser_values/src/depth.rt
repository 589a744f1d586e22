// How deep values and types may still nest: 32 levels at first.
ghost use Rattle.std.specs.Prelude.{◌≤◌};

// The levels that may still be opened.
#[derive(Clone, Copy)]
pub struct Depth {
    pub levels: usize,
    pub ghost most: { levels ≤ 32 },
}
