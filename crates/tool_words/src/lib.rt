//! The words of a command line, read without knowing what a command does.
#![tactic(auto)]

mod campaign_words;
mod command;
mod make_words;

pub use campaign_words::CampaignWords;
pub use command::{
    AuditWords, Command, CompileWords, CriticalEdges, EvalWords, FaultWords, ListWords, RunWords,
    command_of,
};
pub use make_words::{MakeWords, SelfRunWords};
