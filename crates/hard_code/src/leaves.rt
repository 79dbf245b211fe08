//! How blocks are left.

ghost use Rattle.std.specs.Prelude.{◌≡◌, slice_get};
ghost use Rattle.hard_items.specs.Run.{block_items};
ghost use Rattle.hard_code.specs.Tested.{jump_to, branch_to, call_to, leave_of, leave_by, leave, leave_at, callee, is_call};

use crate::places::item_at;
use hard_items::{Fix, HardBlock, Item};
use mips_isa::Instr;

/// How a block is left by its last item but one.
#[derive(Clone, Copy)]
pub(crate) enum Leave {
    /// By a jump to a block.
    Jump(u32),
    /// By a branch to a block, or else to the next one.
    Branch(u32),
    /// By a call of a function.
    Call(u32),
    /// By a return.
    Return,
    /// Not at all: the run ends.
    Stop,
}

/// Where a jump leads by its field.
fn jump_to(fix: Fix) -> Leave
    ensures { result ≡ jump_to fix }
{
    match fix {
        Fix::Block(block) => Leave::Jump(block),
        Fix::Plain | Fix::Function(_) | Fix::ReturnHigh | Fix::ReturnLow => Leave::Stop,
    }
}

/// Where a branch leads by its field.
fn branch_to(fix: Fix) -> Leave
    ensures { result ≡ branch_to fix }
{
    match fix {
        Fix::Block(block) => Leave::Branch(block),
        Fix::Plain | Fix::Function(_) | Fix::ReturnHigh | Fix::ReturnLow => Leave::Stop,
    }
}

/// What a call calls by its field.
fn call_to(fix: Fix) -> Leave
    ensures { result ≡ call_to fix }
{
    match fix {
        Fix::Function(function) => Leave::Call(function),
        Fix::Plain | Fix::Block(_) | Fix::ReturnHigh | Fix::ReturnLow => Leave::Stop,
    }
}

/// How an instruction with a field leaves a block.
fn leave_of(instr: Instr, fix: Fix) -> Leave
    ensures { result ≡ leave_of instr fix }
{
    match instr {
        Instr::J { target: _ } => jump_to(fix),
        Instr::Jal { target: _ } => call_to(fix),
        Instr::Jr { rs: _ } => Leave::Return,
        Instr::Beq {
            rs: _,
            rt: _,
            imm: _,
        }
        | Instr::Bne {
            rs: _,
            rt: _,
            imm: _,
        } => branch_to(fix),
        _ => Leave::Stop,
    }
}

/// How an item leaves a block, if it is there.
fn leave_by(item: Option<Item>) -> Leave
    ensures { result ≡ leave_by item }
{
    match item {
        Some(item) => leave_of(item.instr, item.fix),
        None => Leave::Stop,
    }
}

/// How a block is left.
pub(crate) fn block_leave(block: &HardBlock) -> Leave
    ensures { result ≡ leave block.now.items }
{
    let items = block.items.as_slice();
    leave_by(item_at(items, items.len().saturating_sub(2)))
}

/// How the block of a number is left.
pub(crate) fn leave_at(blocks: &[HardBlock], block: usize) -> Leave
    ensures { result ≡ leave_at blocks.now block }
{
    match blocks.get(block) {
        Some(block) => block_leave(block),
        None => Leave::Stop,
    }
}

/// The function that is called.
pub(crate) fn callee(leave: Leave) -> Option<u32>
    ensures { result ≡ callee leave }
{
    match leave {
        Leave::Call(function) => Some(function),
        Leave::Jump(_) | Leave::Branch(_) | Leave::Return | Leave::Stop => None,
    }
}

/// Whether a function is called.
pub(crate) fn is_call(leave: Leave) -> bool
    ensures { result ≡ is_call leave }
{
    match leave {
        Leave::Call(_) => true,
        Leave::Jump(_) | Leave::Branch(_) | Leave::Return | Leave::Stop => false,
    }
}
