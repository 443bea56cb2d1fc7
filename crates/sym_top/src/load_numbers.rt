//! The numbers of `load`.

ghost use Rattle.std.specs.Prelude.{◌≤◌};

/// How many commands `load` generates, 0 to 2,000, and by which seed.
#[derive(Clone, Copy)]
pub struct LoadNumbers {
    pub count: u32,
    pub seed: u32,
    ghost few: { count ≤ 2000 },
}
