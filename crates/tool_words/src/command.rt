//! The words of the command line.

ghost use Rattle.std.specs.Prelude.{◌≡◌, ◌≤◌, ◌*◌, IfSome, nat_le};
ghost use Rattle.std.specs.Option.{option_map};
ghost use Rattle.tool_words.specs.Commands.{command, compile_command, run_command, fault_command, audit_command, eval_command, flips_command, campaign_command, list_command, make_command, self_run_command, size_of, steps_of};
ghost use Rattle.tool_words.specs.Seen.{seen_command};

use crate::campaign_words::CampaignWords;
use crate::make_words::{MakeWords, SelfRunWords};
use hard_lines::number_up_to;

/// What the words of a command line ask for.
#[derive(Drop)]
pub enum Command<'a> {
    /// The image of a source, its critical edges split or not.
    Compile(CompileWords<'a>),
    /// The run of an image.
    Run(RunWords<'a>),
    /// The run of an image with a change.
    Fault(FaultWords<'a>),
    /// The audit of an image.
    Audit(AuditWords<'a>),
    /// What flips in runs of an image come to.
    Campaign(CampaignWords<'a>),
    /// The windows and aliases of an image.
    List(ListWords<'a>),
    /// The run of a source.
    Eval(EvalWords<'a>),
    /// The run of a made program's image.
    SelfRun(SelfRunWords),
    /// A made program.
    Make(MakeWords<'a>),
}

/// What becomes of the critical edges of a program that is compiled: those from a block with at least two successors to a block with at
/// least two predecessors.
#[derive(Clone, Copy)]
pub enum CriticalEdges {
    /// They stay as they are.
    Kept,
    /// Each gets a block of its own, so that the image has no aliases.
    Split,
}

/// The words `compile SRC IMG`, or `compile-split SRC IMG`.
#[derive(Drop)]
pub struct CompileWords<'a> {
    /// What becomes of critical edges.
    pub edges: CriticalEdges,
    /// The name of the source, which is read.
    pub source: &'a str,
    /// The name of the image, which is put.
    pub image: &'a str,
}

/// The words `run IMG INPUT STEPS`.
#[derive(Drop)]
pub struct RunWords<'a> {
    /// The name of the image, which is read first.
    pub image: &'a str,
    /// The name of the input, which is read second.
    pub input: &'a str,
    /// How many steps are made at most, 0 to 10,000,000.
    pub steps: u64,
}

/// The words `fault IMG INPUT STEPS FAULTFILE`.
#[derive(Drop)]
pub struct FaultWords<'a> {
    /// The name of the image, which is read first.
    pub image: &'a str,
    /// The name of the input, which is read second.
    pub input: &'a str,
    /// How many steps are made at most, 0 to 10,000,000.
    pub steps: u64,
    /// The name of the file of the change, which is read third.
    pub fault: &'a str,
}

/// The words `audit IMG INPUT STEPS`.
#[derive(Drop)]
pub struct AuditWords<'a> {
    /// The name of the image, which is read first.
    pub image: &'a str,
    /// The name of the input, which is read second.
    pub input: &'a str,
    /// How many steps are made at most, 0 to 10,000,000.
    pub steps: u64,
}

/// The words `eval SRC INPUT TURNS`.
#[derive(Drop)]
pub struct EvalWords<'a> {
    /// The name of the source, which is read first.
    pub source: &'a str,
    /// The name of the input, which is read second.
    pub input: &'a str,
    /// The fuel, 0 to 10,000,000.
    pub turns: u64,
}

/// The words `list IMG`.
#[derive(Drop)]
pub struct ListWords<'a> {
    /// The name of the image, which is read.
    pub image: &'a str,
}

/// The command of the words, if they are the form of one. The words are read as they are: there are
/// no options and no other spellings.
pub fn command_of(words: &Vec<String>) -> Option<Command<'_>>
    ensures { command words.now.items ≡ option_map seen_command result }
{
    match words.as_slice() {
        [word, a] => {
            if word.as_str() == "list" {
                list_words(a.as_str())
            } else {
                None
            }
        }
        [word, a, b] => {
            if word.as_str() == "compile" {
                compile_words(CriticalEdges::Kept, a.as_str(), b.as_str())
            } else if word.as_str() == "compile-split" {
                compile_words(CriticalEdges::Split, a.as_str(), b.as_str())
            } else {
                None
            }
        }
        [word, a, b, c] => {
            if word.as_str() == "run" {
                run_words(a.as_str(), b.as_str(), c.as_str())
            } else if word.as_str() == "make" {
                make_words(a.as_str(), b.as_str(), c.as_str())
            } else if word.as_str() == "audit" {
                audit_words(a.as_str(), b.as_str(), c.as_str())
            } else if word.as_str() == "eval" {
                eval_words(a.as_str(), b.as_str(), c.as_str())
            } else if word.as_str() == "selfrun" {
                self_run_words(a.as_str(), b.as_str(), c.as_str())
            } else {
                None
            }
        }
        [word, a, b, c, d] => {
            if word.as_str() == "fault" {
                fault_words(a.as_str(), b.as_str(), c.as_str(), d.as_str())
            } else {
                None
            }
        }
        [word, a, b, c, d, e] => {
            if word.as_str() == "campaign" {
                campaign_words(a.as_str(), b.as_str(), c.as_str(), d.as_str(), e.as_str())
            } else {
                None
            }
        }
        _ => None,
    }
}

fn list_words<'a>(image: &'a str) -> Option<Command<'a>>
    ensures { list_command image.now ≡ option_map seen_command result }
{
    if image.is_empty() {
        return None;
    }
    Some(Command::List(ListWords { image }))
}

fn compile_words<'a>(edges: CriticalEdges, source: &'a str, image: &'a str) -> Option<Command<'a>>
    ensures { compile_command edges source.now image.now ≡ option_map seen_command result }
{
    if source.is_empty() || image.is_empty() {
        return None;
    }
    Some(Command::Compile(CompileWords {
        edges,
        source,
        image,
    }))
}

fn run_words<'a>(image: &'a str, input: &'a str, steps: &str) -> Option<Command<'a>>
    ensures { run_command image.now input.now steps.now ≡ option_map seen_command result }
{
    if image.is_empty() || input.is_empty() {
        return None;
    }
    match steps_of(steps) {
        None => None,
        Some(steps) => Some(Command::Run(RunWords {
            image,
            input,
            steps,
        })),
    }
}

fn fault_words<'a>(
    image: &'a str,
    input: &'a str,
    steps: &str,
    fault: &'a str,
) -> Option<Command<'a>>
    ensures { fault_command image.now input.now steps.now fault.now ≡ option_map seen_command result }
{
    if image.is_empty() || input.is_empty() || fault.is_empty() {
        return None;
    }
    match steps_of(steps) {
        None => None,
        Some(steps) => Some(Command::Fault(FaultWords {
            image,
            input,
            steps,
            fault,
        })),
    }
}

fn audit_words<'a>(image: &'a str, input: &'a str, steps: &str) -> Option<Command<'a>>
    ensures { audit_command image.now input.now steps.now ≡ option_map seen_command result }
{
    if image.is_empty() || input.is_empty() {
        return None;
    }
    match steps_of(steps) {
        None => None,
        Some(steps) => Some(Command::Audit(AuditWords {
            image,
            input,
            steps,
        })),
    }
}

fn eval_words<'a>(source: &'a str, input: &'a str, turns: &str) -> Option<Command<'a>>
    ensures { eval_command source.now input.now turns.now ≡ option_map seen_command result }
{
    if source.is_empty() || input.is_empty() {
        return None;
    }
    match steps_of(turns) {
        None => None,
        Some(turns) => Some(Command::Eval(EvalWords {
            source,
            input,
            turns,
        })),
    }
}

fn campaign_words<'a>(
    image: &'a str,
    input: &'a str,
    steps: &str,
    from: &str,
    to: &str,
) -> Option<Command<'a>>
    ensures { campaign_command image.now input.now steps.now from.now to.now ≡ option_map seen_command result }
{
    if image.is_empty() || input.is_empty() {
        return None;
    }
    match steps_of(steps) {
        None => None,
        Some(steps) => match steps_of(from) {
            None => None,
            Some(from) => match steps_of(to) {
                None => None,
                Some(to) => flips_words(image, input, steps, from, to),
            },
        },
    }
}

// The words of a campaign with these numbers.
fn flips_words<'a>(
    image: &'a str,
    input: &'a str,
    steps: u64,
    from: u64,
    to: u64,
) -> Option<Command<'a>>
    requires few { steps ≤ 10000000 }
    requires last { to ≤ 10000000 }
    ensures { flips_command image.now input.now steps from to ≡ option_map seen_command result }
{
    if from <= to && to <= steps && runs_are_short(to - from, steps) {
        Some(Command::Campaign(CampaignWords {
            image,
            input,
            steps,
            from,
            to,
        }))
    } else {
        None
    }
}

// Whether a run for each of 31 registers at so many steps comes to at most 200,000,000 steps in all.
fn runs_are_short(flipped: u64, steps: u64) -> bool
    requires flipped { flipped ≤ 10000000 }
    requires few { steps ≤ 10000000 }
    ensures { result ≡ nat_le (flipped * 31 * steps) 200000000 }
{
    flipped * 31 * steps <= 200_000_000
}

fn make_words<'a>(number: &str, size: &str, out: &'a str) -> Option<Command<'a>>
    ensures { make_command number.now size.now out.now ≡ option_map seen_command result }
{
    if out.is_empty() {
        return None;
    }
    match number_up_to(number.as_bytes(), u64::MAX) {
        None => None,
        Some(number) => match size_of(size) {
            None => None,
            Some(size) => Some(Command::Make(MakeWords { number, size, out })),
        },
    }
}

fn self_run_words<'a>(number: &str, size: &str, steps: &str) -> Option<Command<'a>>
    ensures { self_run_command number.now size.now steps.now ≡ option_map seen_command result }
{
    match number_up_to(number.as_bytes(), u64::MAX) {
        None => None,
        Some(number) => match size_of(size) {
            None => None,
            Some(size) => match steps_of(steps) {
                None => None,
                Some(steps) => Some(Command::SelfRun(SelfRunWords {
                    number,
                    size,
                    steps,
                })),
            },
        },
    }
}

// A number of functions.
fn size_of(word: &str) -> Option<u32>
    ensures size { result ≡ size_of word.now }
    ensures bounds { IfSome result (λ size. (1 ≤ size) × (size ≤ 1000)) }
{
    match number_up_to(word.as_bytes(), 1000) {
        None => None,
        Some(size) => { if size >= 1 { Some(size as u32) } else { None } }
    }
}

// A number of steps or of turns.
fn steps_of(word: &str) -> Option<u64>
    ensures steps { result ≡ steps_of word.now }
    ensures few { IfSome result (λ steps. steps ≤ 10000000) }
{
    number_up_to(word.as_bytes(), 10_000_000)
}
