//! The numbers of the heads.

ghost use Rattle.std.specs.Prelude.{◌≡◌, ◌<◌, ◌≤◌, ℕ, ◌+◌, [], Bool, true, false, Some, None, IfOk, length, get_or, slice_index, slice_index_or, MatchOption};
ghost use Rattle.std.specs.List.{All, Contains};
ghost use Rattle.hard_items.specs.WellFormed.{WellFormed};
ghost use Rattle.sign_law.specs.Graph.{IsSucc, HasTwo};
ghost use Rattle.sign_law.specs.Signs.{IsBase, IsReached, Leaves, IsSigned};
ghost use Rattle.sign_law.specs.Marks.{head_of, successors_of, HasSigns};
ghost use Rattle.signature_assign.specs.Edges.{IsKnown, AreMarked, first_before};

use crate::edges::{predecessors, successors, twos};
use crate::groups::labels;
use hard_items::{HardBlock, HardProgram, Mark, Signed};
use hard_words::{OutOfMemory, Sequence, Words};
use std::alloc::Global;

/// The edges of a program's graph both ways, which blocks have at least two predecessors, and of each of these the first block
/// of its group.
#[derive(Drop)]
struct Known {
    successors: Vec<Words>,
    predecessors: Vec<Words>,
    two: Vec<bool>,
    labels: Vec<u32>,
}

impl Known {
    /// All that the numbers of a program are made of.
    fn of(alloc: Global, program: &HardProgram) -> Result<Known, OutOfMemory>
        requires well_formed { WellFormed program.now }
        requires few { length program.now.blocks ≤ 65535 }
        ensures known { IfOk result (λ k. IsKnown k.successors.items k.predecessors.items k.two.items k.labels.items) }
        ensures of { IfOk result (λ k. k.successors.items ≡ successors_of program.now) }
    {
        let successors = successors(alloc, program.blocks.as_slice())?;
        let predecessors = predecessors(alloc, &successors)?;
        let two = twos(alloc, &predecessors)?;
        let labels = labels(alloc, &successors, &predecessors, &two)?;
        Ok(Known {
            successors,
            predecessors,
            two,
            labels,
        })
    }
}

/// The signature of the first predecessor of a block.
fn first_sign(known: &Known, w: usize) -> u16
    requires known { IsKnown known.now.successors.items known.now.predecessors.items known.now.two.items known.now.labels.items }
    requires led { 0 < length (get_or known.now.predecessors.items w []) }
    ensures { result ≡ first_before known.now.predecessors.items w + 1 }
{
    let first = known.predecessors[w].get(0);
    (first + 1) as u16
}

/// The base of the group of a block: the signature of the first predecessor of the group's first block.
fn base(known: &Known, w: usize) -> u16
    requires known { IsKnown known.now.successors.items known.now.predecessors.items known.now.two.items known.now.labels.items }
    requires two { HasTwo (IsSucc known.now.successors.items) w }
    ensures { IsBase (IsSucc known.now.successors.items) w result }
{
    let first = known.labels[w] as usize;
    first_sign(known, first)
}

/// What the head of a block puts into the signature register.
fn difference(known: &Known, u: usize) -> u16
    requires known { IsKnown known.now.successors.items known.now.predecessors.items known.now.two.items known.now.labels.items }
    requires within { u < length known.now.two.items }
    ensures { (D : ℕ) → IsReached (IsSucc known.now.successors.items) u (record { s = u + 1; d = result; fan = slice_index_or known.now.two.items u false; D = D }) }
{
    let sign = (u + 1) as u16;
    if known.two[u] {
        base(known, u) ^ sign
    } else if known.predecessors[u].is_empty() {
        sign
    } else {
        first_sign(known, u) ^ sign
    }
}

/// The first of some blocks that has at least two predecessors.
fn joined(next: &[u32], two: &[bool]) -> Option<u32>
    requires { All (λ w. w < length two.now) next.now }
    ensures { MatchOption result (All (λ w. slice_index_or two.now w false ≡ false) next.now) (λ w. Contains next.now w × (slice_index_or two.now w false ≡ true)) }
{
    for w in next {
        if two[*w as usize] {
            return Some(*w);
        }
    }
    None
}

/// The adjustment that a block leaves.
fn adjustment(known: &Known, u: usize) -> u16
    requires known { IsKnown known.now.successors.items known.now.predecessors.items known.now.two.items known.now.labels.items }
    requires within { u < length known.now.two.items }
    ensures { (d : ℕ) (fan : Bool) → Leaves (IsSucc known.now.successors.items) u (record { s = u + 1; d = d; fan = fan; D = result }) }
{
    match joined(known.successors[u].as_slice(), &known.two) {
        Some(w) => (u + 1) as u16 ^ base(known, w as usize),
        None => 0,
    }
}

/// The numbers of a block.
fn mark_of(known: &Known, u: usize) -> Mark
    requires known { IsKnown known.now.successors.items known.now.predecessors.items known.now.two.items known.now.labels.items }
    requires within { u < length known.now.two.items }
    ensures { IsSigned (IsSucc known.now.successors.items) u (head_of result) }
{
    Mark {
        s: (u + 1) as u16,
        d: difference(known, u),
        fan: known.two[u],
        adjust: adjustment(known, u),
    }
}

/// The numbers of each block.
fn marks_of(alloc: Global, known: &Known) -> Result<Vec<Mark>, OutOfMemory>
    requires { IsKnown known.now.successors.items known.now.predecessors.items known.now.two.items known.now.labels.items }
    ensures { IfOk result (λ marks. AreMarked known.now.successors.items (length known.now.two.items) marks.items) }
{
    let mut marks = Vec::new(alloc);
    for u in 0..known.two.len() {
        marks.push(mark_of(known, u))?;
    }
    Ok(marks)
}

/// A program with the numbers of its blocks' heads: the signature of a block is its number, counted from 1. The work is linear
/// in the blocks and the edges.
///
/// # Errors
///
/// `OutOfMemory` where there is no memory for the graph or the marks.
pub fn sign(alloc: Global, program: HardProgram) -> Result<Signed, OutOfMemory>
    requires well_formed { WellFormed program }
    requires few { length program.blocks ≤ 65535 }
    ensures program { IfOk result (λ signed. signed.program ≡ program) }
    ensures signs { IfOk result HasSigns }
{
    let known = Known::of(alloc, &program)?;
    let marks = marks_of(alloc, &known)?;
    Ok(Signed {
        program,
        marks: Sequence::from_vec(marks),
    })
}
