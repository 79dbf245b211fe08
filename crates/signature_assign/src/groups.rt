//! The groups of blocks: those with at least two predecessors that are linked by common predecessors.

ghost use Rattle.std.specs.Prelude.{◌≡◌, ◌<◌, ℕ, [], All, length, get_or, slice_index, OnOk, IfOk, ◌^◌};
ghost use Rattle.signature_assign.specs.Pass.{passed, looked};
ghost use Rattle.signature_assign.specs.Settle.{IsGraph, Settling, Rounds};
ghost use Rattle.sign_law.specs.Graph.{IsSucc};
ghost use Rattle.sign_law.specs.Signs.{AreLabels};
ghost use Rattle.sign_law.specs.Search.{label_at};

use hard_words::{OutOfMemory, Words};
use std::alloc::Global;

/// Gives the round's label to each successor of a predecessor that has at least two predecessors and no label, and lets it wait.
fn pass_on(
    next: &[u32],
    two: &[bool],
    none: u32,
    root: u32,
    labels: &mut [u32],
    waiting: &mut Vec<u32>,
) -> Result<(), OutOfMemory>
    requires there { All (λ v. v < length labels.old) next.now }
    requires same { length two.now ≡ length labels.old }
    ensures passed { OnOk result (let s : Rattle.signature_assign.specs.Pass.Work = record { labels = labels.new; waiting = waiting.new.items } in s ≡ passed two.now none root next.now (record { labels = labels.old; waiting = waiting.old.items })) }
    ensures long { length labels.new ≡ length labels.old }
{
    for &v in next {
        if two[v as usize] && labels[v as usize] == none {
            labels[v as usize] = root;
            waiting.push(v)?;
        }
    }
    Ok(())
}

/// Lets each predecessor of a list that has not done so pass the label on.
fn look(
    successors: &[Words],
    before: &[u32],
    two: &[bool],
    none: u32,
    root: u32,
    labels: &mut [u32],
    waiting: &mut Vec<u32>,
    done: &mut [bool],
) -> Result<(), OutOfMemory>
    requires inside { (p : ℕ) → p < length successors.now → All (λ v. v < length labels.old) (get_or successors.now p []) }
    requires there { All (λ p. p < length successors.now) before.now }
    requires same { length two.now ≡ length labels.old }
    requires marked { length done.old ≡ length successors.now }
    ensures looked { OnOk result (let s : Rattle.signature_assign.specs.Pass.Looking = record { work = record { labels = labels.new; waiting = waiting.new.items }; done = done.new } in s ≡ looked successors.now two.now none root before.now (record { work = record { labels = labels.old; waiting = waiting.old.items }; done = done.old })) }
    ensures long { length labels.new ≡ length labels.old }
    ensures long_done { length done.new ≡ length done.old }
{
    for &p in before {
        if !done[p as usize] {
            pass_on(
                successors[p as usize].as_slice(),
                two,
                none,
                root,
                labels,
                waiting,
            )?;
            done[p as usize] = true;
        }
    }
    Ok(())
}

/// Looks at the predecessors of each waiting block until none waits.
fn settle(
    successors: &[Words],
    predecessors: &[Words],
    two: &[bool],
    none: u32,
    root: u32,
    labels: &mut [u32],
    waiting: &mut Vec<u32>,
    done: &mut [bool],
) -> Result<(), OutOfMemory>
    requires graph { IsGraph successors.now predecessors.now two.now none }
    requires begun { Settling successors.now none root labels.old done.old waiting.old.items }
    ensures settled { OnOk result (Settling successors.now none root labels.new done.new []) }
    ensures long { length labels.new ≡ length labels.old }
    ensures long_done { length done.new ≡ length done.old }
    ensures empty { OnOk result (waiting.new.items ≡ []) }
{
    while let Some(w) = waiting.pop() {
        look(
            successors,
            predecessors[w as usize].as_slice(),
            two,
            none,
            root,
            labels,
            waiting,
            done,
        )?;
    }
    Ok(())
}

/// Goes through the rounds.
fn rounds(
    successors: &[Words],
    predecessors: &[Words],
    two: &[bool],
    none: u32,
    labels: &mut [u32],
    waiting: &mut Vec<u32>,
    done: &mut [bool],
) -> Result<(), OutOfMemory>
    requires graph { IsGraph successors.now predecessors.now two.now none }
    requires begun { Rounds successors.now none 0 labels.old done.old }
    requires quiet { waiting.old.items ≡ [] }
    ensures { OnOk result (AreLabels (IsSucc successors.now) (label_at none labels.new)) }
{
    for root in 0..none {
        if two[root as usize] && labels[root as usize] == none {
            labels[root as usize] = root;
            waiting.push(root)?;
            settle(
                successors,
                predecessors,
                two,
                none,
                root,
                labels,
                waiting,
                done,
            )?;
        }
    }
    Ok(())
}

/// The first block of its group, for each block with at least two predecessors.
pub(crate) fn labels(
    alloc: Global,
    successors: &[Words],
    predecessors: &[Words],
    two: &[bool],
) -> Result<Vec<u32>, OutOfMemory>
    requires graph { IsGraph successors.now predecessors.now two.now (length two.now) }
    requires few { length two.now < 2 ^ 32 }
    ensures { IfOk result (λ l. AreLabels (IsSucc successors.now) (label_at (length two.now) l.items)) }
{
    let n = two.len();
    let none = n as u32;
    let mut labels = Vec::new(alloc);
    labels.resize(n, none)?;
    let mut done = Vec::new(alloc);
    done.resize(n, false)?;
    let mut waiting = Vec::new(alloc);
    rounds(
        successors,
        predecessors,
        two,
        none,
        &mut labels,
        &mut waiting,
        &mut done,
    )?;
    Ok(labels)
}
