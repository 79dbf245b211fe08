//! A well-formed program of five blocks and two functions, and changes of it that aren't well formed.

use hard_code::well_formed;
use hard_items::{Class, Fix, HardBlock, HardProgram, Item};
use hard_words::{Sequence, Words};
use mips_isa::Instr;
use std::alloc::Global;
use std::test::Fail;

fn item(instr: Instr, fix: Fix) -> Item {
    Item {
        instr,
        class: Class::Act,
        fix,
    }
}

fn nop() -> Item {
    item(
        Instr::Sll {
            rd: 0,
            rt: 0,
            sh: 0,
        },
        Fix::Plain,
    )
}

fn stop() -> Item {
    item(Instr::Break { code: 1 }, Fix::Plain)
}

fn skip() -> Item {
    item(
        Instr::Beq {
            rs: 4,
            rt: 14,
            imm: 2,
        },
        Fix::Plain,
    )
}

fn jump(to: u32) -> Item {
    item(Instr::J { target: 0 }, Fix::Block(to))
}

fn branch(to: u32) -> Item {
    item(
        Instr::Bne {
            rs: 4,
            rt: 0,
            imm: 0,
        },
        Fix::Block(to),
    )
}

fn call(function: u32) -> Item {
    item(Instr::Jal { target: 0 }, Fix::Function(function))
}

fn back() -> Item {
    item(Instr::Jr { rs: 31 }, Fix::Plain)
}

fn block(alloc: Global, items: &[Item], successors: &[u32]) -> Result<HardBlock, Fail> {
    Ok(HardBlock {
        items: Sequence::from_vec(items.to_vec(alloc)?),
        successors: Words::from_vec(successors.to_vec(alloc)?),
    })
}

// Function 0 calls function 1, behind a check, and stops; function 1 branches over a jump and returns.
fn blocks(alloc: Global) -> Result<Vec<HardBlock>, Fail> {
    Ok(vec![in alloc;
        block(alloc, &[skip(), nop(), stop(), call(1), nop()], &[2])?,
        block(alloc, &[nop(), stop()], &[])?,
        block(alloc, &[branch(4), nop()], &[3, 4])?,
        block(alloc, &[jump(4), nop()], &[4])?,
        block(alloc, &[back(), nop()], &[1])?,
    ]?)
}

fn answer(
    alloc: Global,
    blocks: Vec<HardBlock>,
    entries: &[u32],
    initial: &[u32],
    memory_words: u32,
) -> Result<bool, Fail> {
    let program = HardProgram {
        blocks: Sequence::from_vec(blocks),
        entries: Words::from_vec(entries.to_vec(alloc)?),
        initial: Words::from_vec(initial.to_vec(alloc)?),
        memory_words,
    };
    Ok(well_formed(&program))
}

// The answer where one block is another one.
fn changed(alloc: Global, at: usize, items: &[Item], successors: &[u32]) -> Result<bool, Fail> {
    let mut blocks = blocks(alloc)?;
    if at < blocks.len() {
        blocks[at] = block(alloc, items, successors)?;
    }
    answer(alloc, blocks, &[0, 2], &[], 1)
}

#[test]
fn whole_programs(rt: HostRuntime) -> Result<(), Fail> {
    let alloc = rt.alloc();
    assert!(rt; answer(alloc, blocks(alloc)?, &[0, 2], &[7], 1)?);
    assert!(rt; !answer(alloc, Vec::new(alloc), &[], &[], 1)?, "no block");
    assert!(rt;
        !answer(alloc, blocks(alloc)?, &[0, 2], &[7, 8], 1)?,
        "too many initial words"
    );
    assert!(rt;
        !answer(alloc, blocks(alloc)?, &[0, 2], &[], 0)?,
        "no memory"
    );
    assert!(rt;
        !answer(alloc, blocks(alloc)?, &[0, 2], &[], 4_194_305)?,
        "too much memory"
    );
    assert!(rt;
        !answer(alloc, blocks(alloc)?, &[0, 2, 5], &[], 1)?,
        "no such entry"
    );
    assert!(rt;
        !answer(alloc, blocks(alloc)?, &[0, 2, 3], &[], 1)?,
        "a function that isn't called"
    );
    assert!(rt;
        !answer(alloc, blocks(alloc)?, &[0, 2, 2], &[], 1)?,
        "an entry twice"
    );
    Ok(())
}

#[test]
fn items(rt: HostRuntime) -> Result<(), Fail> {
    let alloc = rt.alloc();
    let wide = item(Instr::Break { code: 1_048_576 }, Fix::Plain);
    let filled = item(Instr::J { target: 1 }, Fix::Block(4));
    let unnamed = item(
        Instr::Beq {
            rs: 4,
            rt: 0,
            imm: 3,
        },
        Fix::Plain,
    );
    assert!(rt;
        !changed(alloc, 1, &[nop(), wide], &[])?,
        "a code of 21 bits"
    );
    assert!(rt;
        !changed(alloc, 3, &[filled, nop()], &[4])?,
        "a target that isn't 0"
    );
    assert!(rt;
        !changed(alloc, 3, &[jump(5), nop()], &[5])?,
        "no such block"
    );
    assert!(rt;
        !changed(alloc, 3, &[jump(4), nop(), jump(4), nop()], &[4])?,
        "a jump in the middle"
    );
    assert!(rt;
        !changed(alloc, 3, &[unnamed, nop(), jump(4), nop()], &[4])?,
        "a branch that names nothing"
    );
    assert!(rt; !changed(alloc, 1, &[nop()], &[])?, "one item");
    assert!(rt; !changed(alloc, 1, &[nop(), nop()], &[])?, "no end");
    assert!(rt;
        !changed(alloc, 1, &[skip(), nop(), stop()], &[])?,
        "the last break is skipped"
    );
    Ok(())
}

#[test]
fn ways(rt: HostRuntime) -> Result<(), Fail> {
    let alloc = rt.alloc();
    assert!(rt;
        !changed(alloc, 2, &[branch(1), nop()], &[1, 3])?,
        "a branch into another function"
    );
    assert!(rt; !changed(alloc, 3, &[back(), nop()], &[1])?, "two returns");
    assert!(rt;
        !changed(alloc, 4, &[call(1), nop()], &[2])?,
        "no block behind a call"
    );
    assert!(rt;
        !changed(alloc, 2, &[jump(4), nop()], &[4])?,
        "a block that isn't entered"
    );
    assert!(rt;
        !changed(alloc, 3, &[jump(0), nop()], &[0])?,
        "block 0 is entered"
    );
    assert!(rt;
        !changed(alloc, 2, &[branch(4), nop()], &[4, 3])?,
        "successors that descend"
    );
    assert!(rt;
        !changed(alloc, 2, &[branch(4), nop()], &[3])?,
        "a successor too few"
    );
    assert!(rt;
        !changed(alloc, 4, &[back(), nop()], &[1, 3])?,
        "a successor too many"
    );
    Ok(())
}
