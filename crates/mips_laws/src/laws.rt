// Laws of the machine's definitions. Each call does nothing; its contract is the law.
ghost use Rattle.mips_isa.specs.Locality.{SameAct, ActPuts, ActTwins, ActAsks, ActWays, ActReaches, GoingJumps};
ghost use Rattle.mips_faults.specs.Beside.{ActBeside};
ghost use Rattle.mips_laws.specs.RunLaws.{OutputGrows, EndStays, RunBegins, RunJoins, SameBefore, CleanBehind, ReplaceSplits, FlipIsSet, DivertSplits};

/// An instruction does the same in two states that agree in pc and in the registers that it reads, and, where it moves HI or
/// LO, in these.
pub fn same_act()
    ensures { SameAct }
{}

/// What an instruction does writes the registers of its row, where it does not end the run.
pub fn act_puts()
    ensures { ActPuts }
{}

/// An instruction that only computes, loads or moves does acts of one kind in two states of one pc, or ends in an overflow.
pub fn act_twins()
    ensures { ActTwins }
{}

/// Only an instruction that reads registers 2 and 4 calls a service.
pub fn act_asks()
    ensures { ActAsks }
{}

/// A branch or a jump goes to its target, or, not taken, to the word behind its delay slot.
pub fn act_ways()
    ensures { ActWays }
{}

/// Memory is reached by `lw` and `sw` alone, at base and offset.
pub fn act_reaches()
    ensures { ActReaches }
{}

/// Only a branch or a jump goes anywhere but to the next word.
pub fn going_jumps()
    ensures { GoingJumps }
{}

/// One act on two states side by side, of which the second has other registers, another HI and LO, and another memory, keeps
/// what it may keep.
pub fn act_beside()
    ensures { ActBeside }
{}

/// What a run has put out stays put out.
pub fn output_grows()
    ensures { OutputGrows }
{}

/// After an end nothing changes.
pub fn end_stays()
    ensures { EndStays }
{}

/// A run begins with its first step.
pub fn run_begins()
    ensures { RunBegins }
{}

/// A run goes on, from what stands after some steps, as a run from there.
pub fn run_joins()
    ensures { RunJoins }
{}

/// Up to its step a change does nothing.
pub fn same_before()
    ensures { SameBefore }
{}

/// Behind the step of its change a run goes on as one without a change.
pub fn clean_behind()
    ensures { CleanBehind }
{}

/// A run with a flip or a set is the clean run up to its step, and then a clean run from the state with the other word.
pub fn replace_splits()
    ensures { ReplaceSplits }
{}

/// A flip is the set of its register to its word with the bit inverted.
pub fn flip_is_set()
    ensures { FlipIsSet }
{}

/// A run with a divert is the clean run up to and with its step, and then a clean run from the state with the other way.
pub fn divert_splits()
    ensures { DivertSplits }
{}
