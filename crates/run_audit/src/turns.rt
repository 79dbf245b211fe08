//! The clean run, one step after another.

ghost use Rattle.std.specs.Prelude.{◌≡◌, ◌<◌, ℕ, List, IfSome, slice_index};
ghost use Rattle.hard_words.specs.Words.{extended};
ghost use Rattle.mips_isa.specs.Table.{IsInRange};
ghost use Rattle.mips_isa.specs.Machine.{step, plus};
ghost use Rattle.mips_text.specs.Blocks.{IsStart};
ghost use Rattle.mips_faults.specs.Faults.{in_even, in_odd};
ghost use Rattle.mips_isa.specs.Image.{ImageFields, boot_state};
ghost use Rattle.mips_machine.specs.View.{state_of};
ghost use Rattle.harden_lint.specs.Rules.{WellTyped};
ghost use Rattle.run_audit.specs.Turns.{Bits, in_half, stands_by, stands, told_by, Judged};

use crate::error::AuditError;
use lint_words::{WordTable, instr_at, starts_at};
use mips_isa::{End, Instr};
use mips_laws::end_stays;
use mips_machine::Machine;

/// What a step of the clean run tells.
#[derive(Clone, Copy, Drop)]
pub(crate) enum Turn {
    /// It was made at a placed state, and did not report.
    Clean,
    /// It was made at a placed state, and reported.
    Reported,
    /// It was made at a state that is not placed.
    Misplaced,
}

// Registers whose words stand at addresses that are 0 modulo 8.
fn in_even(r: u8) -> bool
    ensures { result ≡ in_even r }
{
    (4 <= r && r <= 13) || r == 31
}

// Registers whose words stand at addresses that are 4 modulo 8.
fn in_odd(r: u8) -> bool
    ensures { result ≡ in_odd r }
{
    (14 <= r && r <= 23) || r == 25
}

// Whether a load or store of a register is at an address of the register's half.
fn in_half(rt: u8, address: u32) -> bool
    ensures { result ≡ in_half rt address }
{
    (!in_even(rt) || address % 8 == 0) && (!in_odd(rt) || address % 8 == 4)
}

// The address of a load or a store.
fn address_of(machine: &Machine, rs: u8, imm: u16) -> u32
    requires { rs < 32 }
    ensures { result ≡ plus (slice_index machine.now.regs rs) (extended imm) }
{
    machine
        .regs
        .get(rs as usize)
        .wrapping_add(hard_words::sign16(imm))
}

// Whether an instruction stands as a placed state asks for it.
fn stands_by(instr: Option<Instr>, bits: &[bool], machine: &Machine) -> bool
    requires { IfSome instr (λ instr. IsInRange instr) }
    ensures { result ≡ stands_by instr bits.now (state_of machine.now) }
{
    match instr {
        Some(Instr::Lw { rt, rs, imm }) => in_half(rt, address_of(machine, rs, imm)),
        Some(Instr::Sw { rt, rs, imm }) => in_half(rt, address_of(machine, rs, imm)),
        Some(Instr::Jr { rs }) => starts_at(bits, machine.regs.get(rs as usize)),
        _ => true,
    }
}

// What a step tells, by how the run ended with it.
fn told_by(stood: bool, end: Option<End>) -> Turn
    ensures { result ≡ told_by stood end }
{
    match end {
        Some(End::Exception { code: _, at: _ }) => Turn::Misplaced,
        Some(End::Reported { code: _, at: _ }) => {
            if stood {
                Turn::Reported
            } else {
                Turn::Misplaced
            }
        }
        _ => { if stood { Turn::Clean } else { Turn::Misplaced } }
    }
}

// Makes a step.
fn make_step(machine: &mut Machine, text: &WordTable, bits: &[bool]) -> Turn
    ensures state { state_of machine.new ≡ (step (state_of machine.old)).0 }
    ensures told { result ≡ told_by (stands text.now bits.now (state_of machine.old)) machine.new.end }
{
    let stood = stands_by(instr_at(text, machine.pc), bits, machine);
    let _ = machine.step();
    told_by(stood, machine.end)
}

/// Makes the clean run, at most so many steps, from its beginning.
pub(crate) fn walk(
    machine: &mut Machine,
    text: &WordTable,
    bits: &[bool],
    steps: u64,
) -> Result<u64, AuditError>
    ensures { (i : ImageFields) (feed : List ℕ) → WellTyped i.text i.entry → text.now ≡ i.text → Bits i.text (IsStart i.text i.entry) bits.now →
        state_of machine.old ≡ boot_state i feed → Judged i feed steps result }
{
    end_stays();
    for n in 0..steps {
        if machine.end.is_some() {
            return Ok(n);
        }
        let at = machine.pc;
        match make_step(machine, text, bits) {
            Turn::Clean => {}
            Turn::Reported => return Err(AuditError::Reports { step: n }),
            Turn::Misplaced => return Err(AuditError::Misplaced { step: n, at }),
        }
    }
    Ok(steps)
}
