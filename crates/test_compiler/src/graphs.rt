//! Graphs of blocks, each with the numbers of its heads and its aliases. A head's numbers are worked out by the rules of `sign`: s is
//! the block's number from 1; where it has one predecessor p, d is the exclusive or of the signatures of p and its own; where it has
//! two, that of the base of its group, which is the signature of the first predecessor of the group's first block; D of what leads to
//! such a block is the exclusive or of its own signature with that base.

use alias_lister::aliases;
use hard_code::well_formed;
use hard_items::{Class, Fix, HardBlock, HardProgram, Item, Mark};
use hard_words::{Sequence, Words};
use mips_isa::Instr;
use signature_assign::sign;
use std::alloc::Global;
use std::test::Fail;

/// How a block ends.
#[derive(Clone, Copy)]
enum Way {
    /// Nowhere.
    Stop,
    /// At a block.
    Jump(u32),
    /// At a block or the one behind.
    Branch(u32),
    /// At the first block of a function, to come back to the one behind.
    Call(u32),
    /// Behind the calls of its function.
    Return,
}

fn act(instr: Instr, fix: Fix) -> Item {
    Item {
        instr,
        class: Class::Act,
        fix,
    }
}

fn idle() -> Item {
    act(
        Instr::Sll {
            rd: 0,
            rt: 0,
            sh: 0,
        },
        Fix::Plain,
    )
}

// The word by which a block goes on so.
fn last(way: Way) -> Item {
    match way {
        Way::Stop => act(Instr::Break { code: 1 }, Fix::Plain),
        Way::Jump(to) => act(Instr::J { target: 0 }, Fix::Block(to)),
        Way::Branch(to) => act(
            Instr::Bne {
                rs: 4,
                rt: 0,
                imm: 0,
            },
            Fix::Block(to),
        ),
        Way::Call(function) => act(Instr::Jal { target: 0 }, Fix::Function(function)),
        Way::Return => act(Instr::Jr { rs: 31 }, Fix::Plain),
    }
}

fn items(way: Way) -> [Item; 2] {
    match way {
        Way::Stop => [idle(), last(way)],
        _ => [last(way), idle()],
    }
}

// A program of blocks that end so and have these successors.
fn program(alloc: Global, graph: &[(Way, &[u32])], entries: &[u32]) -> Result<HardProgram, Fail> {
    let mut blocks = Vec::new(alloc);
    for (way, successors) in graph {
        blocks.push(HardBlock {
            items: Sequence::from_vec(items(*way).to_vec(alloc)?),
            successors: Words::from_vec(successors.to_vec(alloc)?),
        })?;
    }
    Ok(HardProgram {
        blocks: Sequence::from_vec(blocks),
        entries: Words::from_vec(entries.to_vec(alloc)?),
        initial: Words::new(alloc),
        memory_words: 1,
    })
}

fn mark(s: u16, d: u16, fan: bool, adjust: u16) -> Mark {
    Mark { s, d, fan, adjust }
}

// Whether a graph has these marks and these aliases.
fn signs(
    alloc: Global,
    graph: &[(Way, &[u32])],
    entries: &[u32],
    marks: &[Mark],
    pairs: &[(u32, u32)],
) -> Result<bool, Fail> {
    let program = program(alloc, graph, entries)?;
    if !well_formed(&program) || program.blocks.len() > 65_535 {
        return Err("the program is not well formed")?;
    }
    let signed = sign(alloc, program)?;
    let listed = aliases(alloc, &signed)?;
    Ok(signed.marks.as_slice() == marks && listed.as_slice() == pairs)
}

// The entry, and a block with one predecessor.
#[test]
fn one_predecessor(rt: HostRuntime) -> Result<(), Fail> {
    let graph: [(Way, &[u32]); 2] = [(Way::Jump(1), &[1]), (Way::Stop, &[])];
    let marks = [mark(1, 1, false, 0), mark(2, 3, false, 0)];
    assert!(rt; signs(rt.alloc(), &graph, &[0], &marks, &[])?);
    Ok(())
}

// A function that never returns: the block behind its call has no predecessor.
#[test]
fn no_predecessor(rt: HostRuntime) -> Result<(), Fail> {
    let graph: [(Way, &[u32]); 3] = [(Way::Call(1), &[2]), (Way::Stop, &[]), (Way::Stop, &[])];
    let marks = [
        mark(1, 1, false, 0),
        mark(2, 2, false, 0),
        mark(3, 2, false, 0),
    ];
    assert!(rt; signs(rt.alloc(), &graph, &[0, 2], &marks, &[])?);
    Ok(())
}

// A block that leads to itself alone, as its one predecessor.
#[test]
fn its_own_predecessor(rt: HostRuntime) -> Result<(), Fail> {
    let graph: [(Way, &[u32]); 2] = [(Way::Stop, &[]), (Way::Jump(1), &[1])];
    let marks = [mark(1, 1, false, 0), mark(2, 0, false, 0)];
    assert!(rt; signs(rt.alloc(), &graph, &[0], &marks, &[])?);
    Ok(())
}

// A block that leads to itself and to the one behind: it has two predecessors.
#[test]
fn a_loop(rt: HostRuntime) -> Result<(), Fail> {
    let graph: [(Way, &[u32]); 3] = [
        (Way::Jump(1), &[1]),
        (Way::Branch(1), &[1, 2]),
        (Way::Stop, &[]),
    ];
    let marks = [
        mark(1, 1, false, 0),
        mark(2, 3, true, 3),
        mark(3, 1, false, 0),
    ];
    assert!(rt; signs(rt.alloc(), &graph, &[0], &marks, &[])?);
    Ok(())
}

// Two blocks with two predecessors each, none in common: two groups, of the bases 2 and 5.
#[test]
fn two_groups(rt: HostRuntime) -> Result<(), Fail> {
    let graph: [(Way, &[u32]); 7] = [
        (Way::Branch(2), &[1, 2]),
        (Way::Jump(3), &[3]),
        (Way::Jump(3), &[3]),
        (Way::Branch(5), &[4, 5]),
        (Way::Jump(6), &[6]),
        (Way::Jump(6), &[6]),
        (Way::Stop, &[]),
    ];
    let marks = [
        mark(1, 1, false, 0),
        mark(2, 3, false, 0),
        mark(3, 2, false, 1),
        mark(4, 6, true, 0),
        mark(5, 1, false, 0),
        mark(6, 2, false, 3),
        mark(7, 2, true, 0),
    ];
    assert!(rt; signs(rt.alloc(), &graph, &[0], &marks, &[])?);
    Ok(())
}

// `if ((a && b) || c)`: the block of c and the one that is chosen have the block of b in common, so they are one group, of the base 1.
// The block of a may go on to the one that is chosen unseen, and that of c to itself.
#[test]
fn one_group_with_aliases(rt: HostRuntime) -> Result<(), Fail> {
    let graph: [(Way, &[u32]); 5] = [
        (Way::Branch(2), &[1, 2]),
        (Way::Branch(3), &[2, 3]),
        (Way::Branch(4), &[3, 4]),
        (Way::Stop, &[]),
        (Way::Stop, &[]),
    ];
    let marks = [
        mark(1, 1, false, 0),
        mark(2, 3, false, 3),
        mark(3, 2, true, 2),
        mark(4, 5, true, 0),
        mark(5, 6, false, 0),
    ];
    assert!(rt; signs(rt.alloc(), &graph, &[0], &marks, &[(0, 3), (2, 2)])?);
    Ok(())
}

// A group of one block, of the base 1, and one of two, of the base 2, whose first block has three predecessors.
#[test]
fn two_groups_with_aliases(rt: HostRuntime) -> Result<(), Fail> {
    let graph: [(Way, &[u32]); 7] = [
        (Way::Branch(4), &[1, 4]),
        (Way::Branch(5), &[2, 5]),
        (Way::Branch(4), &[3, 4]),
        (Way::Jump(5), &[5]),
        (Way::Branch(6), &[5, 6]),
        (Way::Jump(6), &[6]),
        (Way::Stop, &[]),
    ];
    let marks = [
        mark(1, 1, false, 0),
        mark(2, 3, false, 0),
        mark(3, 1, false, 2),
        mark(4, 7, false, 6),
        mark(5, 4, true, 7),
        mark(6, 4, true, 4),
        mark(7, 5, true, 0),
    ];
    let pairs = [(1, 6), (3, 6), (5, 5)];
    assert!(rt; signs(rt.alloc(), &graph, &[0], &marks, &pairs)?);
    Ok(())
}

// A function that is called twice: it begins with two predecessors, and the blocks behind its calls have its return as their one.
#[test]
fn two_callers(rt: HostRuntime) -> Result<(), Fail> {
    let graph: [(Way, &[u32]); 4] = [
        (Way::Call(1), &[3]),
        (Way::Call(1), &[3]),
        (Way::Stop, &[]),
        (Way::Return, &[1, 2]),
    ];
    let marks = [
        mark(1, 1, false, 0),
        mark(2, 6, false, 3),
        mark(3, 7, false, 0),
        mark(4, 5, true, 0),
    ];
    assert!(rt; signs(rt.alloc(), &graph, &[0, 3], &marks, &[])?);
    Ok(())
}
