//! A run with a flip beside the run without it.

ghost use Rattle.std.specs.Prelude.{◌≡◌, ◌↔◌, IsTrue, Contains};
ghost use Rattle.hard_runs.specs.Observed.{Prefix};
ghost use Rattle.fault_campaign.specs.Campaign.{ComesTo, told};

use crate::outcome::Outcome;
use mips_isa::End;

/// What an end tells, behind words that the clean run puts out too.
fn told(end: Option<End>) -> Outcome
    ensures { result ≡ told end }
{
    match end {
        Some(End::Reported { code: _, at: _ }) => Outcome::Reported,
        Some(End::Exception { code: _, at: _ }) => Outcome::Exception,
        Some(End::Exited(_)) => Outcome::Silent,
        Some(End::Trapped(_)) => Outcome::Silent,
        Some(End::Starved) => Outcome::Silent,
        Some(End::Hazard { at: _ }) => Outcome::Silent,
        None => Outcome::Silent,
    }
}

/// Whether two runs have put out the same words.
fn same_words(left: &[u32], right: &[u32]) -> bool
    ensures { IsTrue result ↔ (left.now ≡ right.now) }
{
    left == right
}

/// Whether words are the beginning of others.
fn begins(front: &[u32], whole: &[u32]) -> bool
    ensures { IsTrue result ↔ Prefix front.now whole.now }
{
    whole.starts_with(front)
}

/// Whether two runs have put out the same words and stand the same.
fn is_same(words: &[u32], end: Option<End>, clean_words: &[u32], clean_end: Option<End>) -> bool
    ensures { IsTrue result ↔ ((words.now ≡ clean_words.now) × (end ≡ clean_end)) }
{
    same_words(words, clean_words) && end == clean_end
}

/// What a run with a flip comes to, by its words and its end beside those of the clean run.
pub(crate) fn compare(
    words: &[u32],
    end: Option<End>,
    clean_words: &[u32],
    clean_end: Option<End>,
) -> Outcome
    ensures { ComesTo (record { output = words.now; end = end }) (record { output = clean_words.now; end = clean_end }) result }
{
    if begins(words, clean_words) {
        if is_same(words, end, clean_words, clean_end) {
            Outcome::Same
        } else {
            told(end)
        }
    } else {
        Outcome::Silent
    }
}

/// Whether an address and a register are among the windows.
pub(crate) fn is_window(windows: &[(u32, u8)], at: u32, reg: u8) -> bool
    ensures { IsTrue result ↔ Contains windows.now (at, reg) }
{
    windows.contains(&(at, reg))
}
