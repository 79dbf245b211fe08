//! What a flip comes to, and how often.

ghost use Rattle.std.specs.Prelude.{◌≡◌, ◌<◌, ◌^◌};
ghost use Rattle.fault_campaign.specs.Campaign.{counted, no_flips};
ghost use Rattle.fault_campaign.specs.Runs.{AreBelow};

/// What the flip of a bit comes to, beside the run without it.
#[derive(Clone, Copy, Debug, PartialEq, Eq)]
pub enum Outcome {
    /// The run puts out the same words and ends the same.
    Same,
    /// A check reports it, behind words that the clean run puts out too.
    Reported,
    /// An exception ends the run, behind words that the clean run puts out too.
    Exception,
    /// The image lists the address and the register as a window, so the flip is not tried.
    Windowed,
    /// Anything else.
    Silent,
}

/// How many flips came to each outcome.
#[derive(Clone, Copy, Debug, PartialEq, Eq)]
pub struct Tally {
    /// Those that change neither output nor end.
    pub same: u64,
    /// Those that a check reports.
    pub reported: u64,
    /// Those that end by an exception.
    pub exception: u64,
    /// Those in a window.
    pub windowed: u64,
    /// All others.
    pub silent: u64,
}

impl Tally {
    /// No flips.
    pub(crate) fn no_flips() -> Tally
        ensures { result ≡ no_flips }
    {
        Tally {
            same: 0,
            reported: 0,
            exception: 0,
            windowed: 0,
            silent: 0,
        }
    }

    /// Counts one flip more.
    pub(crate) fn count(&mut self, outcome: Outcome)
        requires { AreBelow self.old (2 ^ 32) }
        ensures { self.new ≡ counted outcome self.old }
    {
        match outcome {
            Outcome::Same => self.same += 1,
            Outcome::Reported => self.reported += 1,
            Outcome::Exception => self.exception += 1,
            Outcome::Windowed => self.windowed += 1,
            Outcome::Silent => self.silent += 1,
        }
    }
}
