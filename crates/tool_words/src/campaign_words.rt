//! The words `campaign IMG INPUT STEPS FROM TO`.

ghost use Rattle.std.specs.Prelude.{◌≤◌};

/// The words `campaign IMG INPUT STEPS FROM TO`.
#[derive(Drop)]
pub struct CampaignWords<'a> {
    /// The name of the image, which is read first.
    pub image: &'a str,
    /// The name of the input, which is read second.
    pub input: &'a str,
    /// How many steps each run makes, 0 to 10,000,000.
    pub steps: u64,
    /// The first step at which registers are flipped.
    pub from: u64,
    /// The step behind the last.
    pub to: u64,
    ghost few: { steps ≤ 10000000 },
    ghost order: { from ≤ to },
    ghost within: { to ≤ steps },
}
