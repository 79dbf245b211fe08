//! What heads do to the run of a program. Each call does nothing; its contract is the law.

ghost use Rattle.signature_assign.specs.Headed.{HeadsKeep, HeadsNeverReport};

/// The run of a program with its heads is the same observed from outside as its run without them, and each of its states
/// stands at a word of a head, or has the place, the memory, HI, LO and the registers other than $1, $24 and $28 of a state of
/// that run.
pub fn heads_keep()
    ensures { HeadsKeep }
{}

/// Where the run of the program never reports, the run with heads never does.
pub fn heads_never_report()
    ensures { HeadsNeverReport }
{}
