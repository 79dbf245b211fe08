//! One step of a run of items.

ghost use Rattle.std.specs.Prelude.{◌≡◌, ◌<◌, ◌≤◌, ◌+◌, ◌^◌, ℕ, drop, length, slice_get, slice_index, IfOk, if◌then◌else◌};
ghost use Rattle.mips_isa.specs.Table.{IsInRange};
ghost use Rattle.mips_isa.specs.Machine.{act, act_reg};
ghost use Rattle.mips_machine.specs.View.{state_of};
ghost use Rattle.hard_items.specs.Run.{Data, Spot, named, numbered, completed, branch_way, way_of, before, arrived, items_of, items, item_act, do_item, first_spot, first_data, machine_of, Onward};
ghost use Rattle.hard_items.specs.WellFormed.{WellFormed, NamesThere};
ghost use Rattle.test_oracle.specs.Standing.{way_seen, spot_of, resting, Stands, Standing, Stepped};

use hard_items::{Fix, HardProgram, Item};
use hard_words::{OutOfMemory, Words};
use mips_isa::{Act, End, Instr};
use mips_machine::Machine;
use std::alloc::Global;

/// Where a run goes on behind the item that comes next.
#[derive(Clone, Copy, Debug, PartialEq, Eq)]
pub(crate) enum Way {
    /// At the item behind it.
    Onward,
    /// At the one behind that.
    Over,
    /// At the start of a block.
    To(u32),
}

/// A run of a program of items: where it stands, and the registers, HI, LO, memory and input in a machine without a text, which
/// has the end too.
#[derive(Drop)]
pub(crate) struct Runner {
    // The block.
    block: u32,
    // The place in it of the item that comes next.
    at: usize,
    // Where the run goes on behind that item.
    way: Way,
    // The data.
    machine: Machine,
}

impl Runner {
    /// A run at its start.
    pub(crate) fn start(
        alloc: Global,
        program: &HardProgram,
        input: &[u32],
    ) -> Result<Runner, OutOfMemory>
        requires program { WellFormed program.now }
        requires input { length input.now ≤ 1000000 }
        ensures { IfOk result (λ r. Stands program.now r (first_spot program.now input.now)) }
    {
        Ok(Runner {
            block: 0,
            at: 0,
            way: Way::Onward,
            machine: data_at_start(alloc, program, input)?,
        })
    }

    /// How the run ended, if it did.
    pub(crate) fn end(&self) -> Option<End>
        ensures { result ≡ self.now.machine.end }
    {
        self.machine.end
    }

    /// Does the item that comes next, and answers the word that it puts out, if any. After an end nothing changes.
    pub(crate) fn step(&mut self, program: &HardProgram) -> Option<u32>
        requires { WellFormed program.now }
        ensures { (s : Spot) → Stands program.now self.old s → Stepped program.now self.new result ((items program.now).step s) }
    {
        if self.machine.end.is_some() {
            return None;
        }
        match self.item(program) {
            None => {
                self.machine.end = Some(End::Exception { code: 6, at: 0 });
                None
            }
            Some(item) => self.do_item(program, item),
        }
    }

    // The item that comes next, if the block has one.
    fn item(&self, program: &HardProgram) -> Option<Item>
        ensures { result ≡ slice_get (items_of program.now self.now.block) self.now.at }
    {
        match program.blocks.get(self.block as usize) {
            None => None,
            Some(block) => block.items.get(self.at).copied(),
        }
    }

    // Does an item, which comes next.
    #[tactic(auto, using(crate::proofs::Items::item_in_range, crate::proofs::Items::item_named, crate::proofs::Items::item_block, crate::proofs::Items::next_fits, std::proofs::lemmas::Option::slice_get_within))]
    fn do_item(&mut self, program: &HardProgram, item: Item) -> Option<u32>
        requires program { WellFormed program.now }
        requires item { slice_get (items_of program.now self.old.block) self.old.at ≡ Some item }
        ensures { (s : Spot) → Standing program.now self.old s →
            Stepped program.now self.new result (do_item program.now s item (drop (self.old.at + 1) (items_of program.now self.old.block)) (item_act s.block item s.now)) }
    {
        let own = self.way_of(program, &item);
        let act = self.act(&item);
        let word = self.machine.perform(act);
        if self.machine.end.is_some() {
            return None;
        }
        rest(&mut self.machine);
        self.arrive(program, own);
        word
    }

    // What an item does.
    fn act(&self, item: &Item) -> Act
        requires range { IsInRange item.now.instr }
        requires block { self.now.block + 1 < 2 ^ 32 }
        ensures is { result ≡ completed item.now.fix self.now.block (numbered self.now.block (act item.now.instr (state_of self.now.machine))) }
        ensures reg { act_reg result < 32 }
    {
        let act = numbered(self.block, self.machine.act(item.instr));
        completed(item.fix, self.block, act)
    }

    // Where an item goes behind its delay slot.
    fn way_of(&self, program: &HardProgram, item: &Item) -> Way
        requires range { IsInRange item.now.instr }
        requires there { NamesThere program.now item.now.fix }
        ensures { (d : Data) → d.regs ≡ self.now.machine.regs → way_seen result ≡ way_of program.now item.now d item.now.instr }
    {
        match item.instr {
            Instr::J { target: _ } | Instr::Jal { target: _ } => Way::To(named(program, item.fix)),
            Instr::Jr { rs } => Way::To(self.held(rs)),
            Instr::Beq { rs, rt, imm: _ } => { taken_way(self.held(rs) == self.held(rt), item.fix) }
            Instr::Bne { rs, rt, imm: _ } => {
                taken_way(!(self.held(rs) == self.held(rt)), item.fix)
            }
            _ => Way::Onward,
        }
    }

    // What a register holds.
    fn held(&self, reg: u8) -> u32
        requires { reg < 32 }
        ensures { result ≡ slice_index self.now.machine.regs reg }
    {
        self.machine.regs.get(reg as usize)
    }

    // Goes where the item before the one that was done leads, which then goes its own way.
    #[tactic(auto, using(crate::proofs::Lists::tail_drop))]
    fn arrive(&mut self, program: &HardProgram, own: Way)
        requires inside { self.old.at < length (items_of program.now self.old.block) }
        requires few { length program.now.blocks < 2 ^ 32 }
        ensures machine { self.new.machine ≡ self.old.machine }
        ensures spot { (d : Data) → spot_of program.now self.new d ≡
            arrived program.now (way_seen self.old.way) (way_seen own) self.old.block (drop (self.old.at + 1) (items_of program.now self.old.block)) d }
    {
        match self.way {
            Way::Onward => {
                self.way = own;
                self.pass(program, 1);
            }
            Way::Over => {
                self.way = Way::Onward;
                self.pass(program, 2);
            }
            Way::To(block) => {
                self.way = Way::Onward;
                self.block = block;
                self.at = 0;
            }
        }
    }

    // Goes past some items of the block, or to the next block, where there are no more.
    #[tactic(auto, using(crate::proofs::Items::block_there))]
    fn pass(&mut self, program: &HardProgram, count: usize)
        requires inside { self.old.at < length (items_of program.now self.old.block) }
        requires few { length program.now.blocks < 2 ^ 32 }
        ensures machine { self.new.machine ≡ self.old.machine }
        ensures spot { (d : Data) → spot_of program.now self.new d ≡
            before program.now self.old.block (drop (self.old.at + count) (items_of program.now self.old.block)) (way_seen self.old.way) d }
    {
        let left = block_length(program, self.block) - self.at;
        if count < left {
            self.at += count;
            return;
        }
        self.block += 1;
        self.at = 0;
    }
}

// Registers, HI and LO 0, the initial words in memory and zeros behind them, and the input.
fn data_at_start(
    alloc: Global,
    program: &HardProgram,
    input: &[u32],
) -> Result<Machine, OutOfMemory>
    requires program { WellFormed program.now }
    requires input { length input.now ≤ 1000000 }
    ensures { IfOk result (λ m. state_of m ≡ machine_of (first_data program.now input.now)) }
{
    let mut memory = Vec::from_slice(alloc, program.initial.as_slice())?;
    memory.resize(program.memory_words as usize, 0)?;
    let regs = Vec::from_slice(alloc, &[0; 32])?;
    let feed = Vec::from_slice(alloc, input)?;
    Ok(Machine {
        pc: 0,
        npc: 0,
        regs: Words::from_vec(regs),
        hi: 0,
        lo: 0,
        text: Words::new(alloc),
        memory: Words::from_vec(memory),
        feed: Words::from_vec(feed),
        fed: 0,
        last_load: 0,
        quiet: 0,
        slot: false,
        end: None,
    })
}

// The machine as before an instruction, with the same data.
fn rest(machine: &mut Machine)
    ensures { state_of machine.new ≡ resting (state_of machine.old) }
{
    machine.pc = 0;
    machine.npc = 0;
    machine.last_load = 0;
    machine.quiet = 0;
    machine.slot = false;
}

// How many items a block has.
fn block_length(program: &HardProgram, block: u32) -> usize
    ensures { result ≡ length (items_of program.now block) }
{
    match program.blocks.get(block as usize) {
        None => 0,
        Some(block) => block.items.len(),
    }
}

// An act with the number of the next block in place of a return address.
fn numbered(block: u32, act: Act) -> Act
    requires block { block + 1 < 2 ^ 32 }
    requires reg { act_reg act < 32 }
    ensures is { result ≡ numbered block act }
    ensures reg { act_reg result < 32 }
{
    match act {
        Act::Go { to: _ } => Act::Pass,
        Act::Link { to: _ } => Act::Write {
            reg: 31,
            value: block + 1,
        },
        _ => act,
    }
}

// The low half of a return address completes the number of the next block.
fn completed(fix: Fix, block: u32, act: Act) -> Act
    requires block { block + 1 < 2 ^ 32 }
    requires reg { act_reg act < 32 }
    ensures is { result ≡ completed fix block act }
    ensures reg { act_reg result < 32 }
{
    match fix {
        Fix::ReturnLow => Act::Write {
            reg: 25,
            value: block + 1,
        },
        _ => act,
    }
}

// The block that a field names.
fn named(program: &HardProgram, fix: Fix) -> u32
    requires { NamesThere program.now fix }
    ensures { result ≡ named program.now fix }
{
    match fix {
        Fix::Block(block) => block,
        Fix::Function(function) => program.entries.get(function as usize),
        _ => 0,
    }
}

// Where a branch goes, taken or not.
fn taken_way(taken: bool, fix: Fix) -> Way
    ensures { way_seen result ≡ (if taken then branch_way fix else Onward) }
{
    if !taken {
        return Way::Onward;
    }
    match fix {
        Fix::Block(block) => Way::To(block),
        _ => Way::Over,
    }
}
