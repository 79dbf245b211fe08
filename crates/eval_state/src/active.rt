//! How many calls of recursive functions are active.

ghost use Rattle.std.specs.Prelude.{◌≤◌};

/// A number of active calls, at most the limit.
#[derive(Clone, Copy, Drop)]
pub struct Active {
    /// The number.
    pub count: u32,
    ghost few: { count ≤ 256 },
}
