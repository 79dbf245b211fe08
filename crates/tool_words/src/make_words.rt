//! The words `make NUMBER SIZE OUT` and `selfrun NUMBER SIZE STEPS`.

ghost use Rattle.std.specs.Prelude.{◌≤◌};

/// The words `make NUMBER SIZE OUT`.
#[derive(Drop)]
pub struct MakeWords<'a> {
    /// The number that the program follows from.
    pub number: u64,
    /// How many functions it has beside `main`, 1 to 1,000.
    pub size: u32,
    /// The name of the program, which is put.
    pub out: &'a str,
    ghost least: { 1 ≤ size },
    ghost most: { size ≤ 1000 },
}

/// The words `selfrun NUMBER SIZE STEPS`.
#[derive(Drop)]
pub struct SelfRunWords {
    /// The number that the program follows from.
    pub number: u64,
    /// How many functions it has beside `main`, 1 to 1,000.
    pub size: u32,
    /// How many steps are made at most, 0 to 10,000,000.
    pub steps: u64,
    ghost least: { 1 ≤ size },
    ghost most: { size ≤ 1000 },
}
