//! The words that a run puts out, counted.

ghost use Rattle.std.specs.Prelude.{◌≡◌, ◌<◌, ◌-◌, ◌^◌, None};
ghost use Rattle.mips_isa.specs.Runs.{run};
ghost use Rattle.mips_machine.specs.View.{state_of};
ghost use Rattle.fault_replay.specs.Counts.{counted, with_word};

use hard_words::add;
use mips_machine::Machine;

/// How many words a run put out, and their sum.
#[derive(Clone, Copy, Debug, PartialEq, Eq)]
pub struct Counted {
    /// How many words.
    pub outputs: u64,
    /// Their sum modulo 2^32.
    pub total: u32,
}

/// Makes at most `steps` steps from the machine's present state, and counts the words that it puts out.
pub fn count_outputs(machine: &mut Machine, steps: u64) -> Counted
    ensures counted { result ≡ counted (run (state_of machine.old) None steps).output }
    ensures state { state_of machine.new ≡ (run (state_of machine.old) None steps).state }
{
    let mut sofar = Counted {
        outputs: 0,
        total: 0,
    };
    for n in 0..steps {
        if machine.end.is_some() {
            return sofar;
        }
        let word = machine.step();
        sofar = with_word(sofar, word);
    }
    sofar
}

// What is counted with the word of one more step, if any.
fn with_word(sofar: Counted, word: Option<u32>) -> Counted
    requires { sofar.outputs < 2 ^ 64 - 1 }
    ensures { result ≡ with_word sofar word }
{
    match word {
        None => sofar,
        Some(word) => Counted {
            outputs: sofar.outputs + 1,
            total: add(sofar.total, word),
        },
    }
}
