//! Runs whose words are kept: the clean one, and one with a flip.

ghost use Rattle.std.specs.Prelude.{◌≡◌, ◌≤◌, ◌<◌, ◌++◌, IfOk, OnOk, None, Some};
ghost use Rattle.elf_image.specs.Bounds.{Fits};
ghost use Rattle.elf_image.specs.Layout.{fields_of};
ghost use Rattle.mips_isa.specs.Image.{boot_state};
ghost use Rattle.mips_isa.specs.Machine.{step};
ghost use Rattle.mips_isa.specs.Runs.{run, put_out};
ghost use Rattle.mips_machine.specs.View.{state_of};
ghost use Rattle.fault_campaign.specs.Campaign.{flip_at};
ghost use Rattle.fault_campaign.specs.Runs.{AreAddresses, KeepsText, IsClean};

use elf_image::Image;
use hard_words::{Change, ChangeKind, OutOfMemory, Words};
use mips_isa::End;
use mips_laws::{end_stays, replace_splits, run_joins};
use mips_machine::Machine;
use std::alloc::Global;

/// The run of an image without a flip.
#[derive(Drop)]
pub struct CleanRun {
    /// The words that it puts out.
    pub output: Vec<u32>,
    /// How it stands after the last step.
    pub end: Option<End>,
    /// Its address at each of the steps at which flips are tried.
    pub addresses: Vec<u32>,
}

/// One step; a word that it puts out is added.
fn step_into(machine: &mut Machine, out: &mut Vec<u32>) -> Result<(), OutOfMemory>
    ensures state { OnOk result (state_of machine.new ≡ (step (state_of machine.old)).0) }
    ensures output { OnOk result (out.new.items ≡ put_out out.old.items (step (state_of machine.old)).1) }
{
    match machine.step() {
        Some(word) => out.push(word)?,
        None => {}
    }
    Ok(())
}

/// Makes so many steps, and adds the words that they put out.
fn go_on(machine: &mut Machine, steps: u64, out: &mut Vec<u32>) -> Result<(), OutOfMemory>
    ensures state { OnOk result (state_of machine.new ≡ (run (state_of machine.old) None steps).state) }
    ensures output { OnOk result (out.new.items ≡ out.old.items ++ (run (state_of machine.old) None steps).output) }
{
    end_stays();
    for n in 0..steps {
        if machine.end.is_some() {
            return Ok(());
        }
        step_into(machine, out)?;
    }
    Ok(())
}

/// Makes so many steps, with the flip that is tried in a register at one of them, and gives the words that they put out.
pub(crate) fn run_flipped(
    machine: &mut Machine,
    n: u64,
    reg: u8,
    steps: u64,
    out: &mut Vec<u32>,
) -> Result<(), OutOfMemory>
    requires step { n < steps }
    requires register { reg ≤ 31 }
    ensures output { OnOk result (out.new.items ≡ (run (state_of machine.old) (Some (flip_at n reg)) steps).output) }
    ensures end { OnOk result (machine.new.end ≡ (run (state_of machine.old) (Some (flip_at n reg)) steps).state.end) }
    ensures text { OnOk result (KeepsText (state_of machine.old) (state_of machine.new)) }
{
    replace_splits();
    out.clear();
    go_on(machine, n, out)?;
    let bit = ((n % 32 + reg as u64) % 32) as u8;
    machine.apply(Change {
        step: n,
        kind: ChangeKind::Flip { reg, bit },
    });
    go_on(machine, steps - n, out)?;
    Ok(())
}

/// Puts a machine back to the start of its image; the text and the input stay in it.
pub(crate) fn restart(
    alloc: Global,
    machine: &mut Machine,
    image: &Image,
) -> Result<(), OutOfMemory>
    requires fits { Fits (fields_of image.now) }
    requires text { machine.old.text ≡ image.now.text }
    ensures state { OnOk result (state_of machine.new ≡ boot_state (fields_of image.now) machine.old.feed) }
{
    let mut memory = Vec::from_slice(alloc, image.initial.as_slice())?;
    memory.resize(image.memory_words as usize, 0)?;
    let regs = Vec::from_slice(alloc, &[0; 32])?;
    machine.pc = image.entry;
    machine.npc = image.entry.wrapping_add(4);
    machine.regs = Words::from_vec(regs);
    machine.hi = 0;
    machine.lo = 0;
    machine.memory = Words::from_vec(memory);
    machine.fed = 0;
    machine.last_load = 0;
    machine.quiet = 0;
    machine.slot = false;
    machine.end = None;
    Ok(())
}

/// Makes so many steps, adds the words that they put out, and gives the address at each.
fn run_noted(
    alloc: Global,
    machine: &mut Machine,
    count: u64,
    out: &mut Vec<u32>,
) -> Result<Vec<u32>, OutOfMemory>
    ensures state { OnOk result (state_of machine.new ≡ (run (state_of machine.old) None count).state) }
    ensures output { OnOk result (out.new.items ≡ out.old.items ++ (run (state_of machine.old) None count).output) }
    ensures addresses { IfOk result (λ noted. AreAddresses (state_of machine.old) count noted.items) }
{
    let mut addresses = Vec::new(alloc);
    for n in 0..count {
        addresses.push(machine.pc)?;
        step_into(machine, out)?;
    }
    Ok(addresses)
}

/// The clean run of a machine that was just booted.
pub(crate) fn run_clean(
    alloc: Global,
    machine: &mut Machine,
    steps: u64,
    from: u64,
    to: u64,
) -> Result<CleanRun, OutOfMemory>
    requires order { from ≤ to }
    requires within { to ≤ steps }
    ensures clean { IfOk result (IsClean (state_of machine.old) steps from to) }
    ensures text { OnOk result (KeepsText (state_of machine.old) (state_of machine.new)) }
{
    run_joins();
    let mut output = Vec::new(alloc);
    go_on(machine, from, &mut output)?;
    let addresses = run_noted(alloc, machine, to - from, &mut output)?;
    go_on(machine, steps - to, &mut output)?;
    Ok(CleanRun {
        output,
        end: machine.end,
        addresses,
    })
}
