//! Whether places fit.

ghost use Rattle.std.specs.Prelude.{◌≡◌, ℕ, ◌+◌, ◌*◌, ◌^◌, ◌<◌, ◌≤◌, [], ◌∷◌, Some, None, true, false, OnOk, IfOk, length, slice_get, vec_len, MatchOption, IsTrue, ◌↔◌};
ghost use Rattle.mid_blocks.specs.Lines.{lines, line_of, first_of};
ghost use Rattle.mid_blocks.specs.Liveness.{LineAt, PlacesFit};
ghost use Rattle.mid_blocks.specs.Valid.{ValidFunction};
ghost use Rattle.register_liveness.specs.Search.{IsFlow};
ghost use Rattle.std.specs.List.{All};
ghost use Rattle.register_halves.specs.Fit.{PairsExist, Adds, Clash, Drops, AreIn, AddsRow, ClashRow, row, Puts, IsTakenAt, AreStarts, IsUnfit, HasRoom, AddsParams, ClashParams, IsWriteAt, AreReadsAt, HoldBehind, HoldAt, FitsAt, FitWithin, Holds, AreOwn, NoneAcross};

use crate::assigning::own_slot;
use hard_words::OutOfMemory;
use mid_blocks::{MidBlock, MidEnd, MidFunction, Place, Places};
use register_liveness::{Flow, Lives, line_uses, wanted_blocks};
use std::alloc::Global;

/// A variable comes to those that hold pairs; false where another holds its pair.
fn enter(places: &[Place], now: &mut Vec<Option<u32>>, v: u32) -> bool
    requires eight { length now.old.items ≡ 8 }
    requires exists { v < length places.now }
    requires pairs { PairsExist places.now }
    ensures yes { result ≡ true → Adds places.now now.old.items now.new.items (v ∷ []) }
    ensures no { result ≡ false → Clash places.now now.old.items (v ∷ []) }
{
    match places[v as usize] {
        Place::Slot(_) => true,
        Place::Pair(k) => match now[k as usize] {
            None => {
                now[k as usize] = Some(v);
                true
            }
            Some(u) => u == v,
        },
    }
}

/// The same of each of some variables.
fn enter_each(places: &[Place], now: &mut Vec<Option<u32>>, variables: &[u32]) -> bool
    requires eight { length now.old.items ≡ 8 }
    requires exist { All (λ v. v < length places.now) variables.now }
    requires pairs { PairsExist places.now }
    ensures yes { result ≡ true → Adds places.now now.old.items now.new.items variables.now }
    ensures no { result ≡ false → Clash places.now now.old.items variables.now }
{
    for v in variables {
        if !enter(places, now, *v) {
            return false;
        }
    }
    true
}

/// A variable leaves those that hold pairs.
fn leave(places: &[Place], now: &mut Vec<Option<u32>>, v: u32)
    requires eight { length now.old.items ≡ 8 }
    requires exists { v < length places.now }
    requires pairs { PairsExist places.now }
    requires in_pairs { AreIn places.now now.old.items }
    ensures { Drops now.old.items now.new.items v }
{
    if let Place::Pair(k) = places[v as usize]
        && let Some(u) = now[k as usize]
        && u == v
    {
        now[k as usize] = None;
    }
}

/// Those that hold pairs at the start of a block come to those that hold them now; false where two would hold one pair.
fn merge(now: &mut Vec<Option<u32>>, starts: &[Option<u32>], block: u32) -> bool
    requires eight { length now.old.items ≡ 8 }
    requires there { 8 * block + 8 ≤ length starts.now }
    ensures yes { result ≡ true → AddsRow now.old.items now.new.items (row starts.now block) }
    ensures no { result ≡ false → ClashRow now.old.items (row starts.now block) }
{
    for pair in 0..8usize {
        if let Some(v) = starts[8 * block as usize + pair] {
            match now[pair] {
                None => now[pair] = Some(v),
                Some(u) => {
                    if u != v {
                        return false;
                    }
                }
            }
        }
    }
    true
}

/// Puts a variable at its pair into the rows of these blocks; false where another is there.
fn put_starts(starts: &mut Vec<Option<u32>>, v: u32, pair: u8, blocks: &[u32]) -> bool
    requires exists { pair < 8 }
    requires there { All (λ b. 8 * b + 8 ≤ length starts.old.items) blocks.now }
    ensures yes { result ≡ true → Puts starts.old.items starts.new.items v pair blocks.now }
    ensures no { result ≡ false → IsTakenAt starts.old.items v pair blocks.now }
{
    for b in blocks {
        match starts[8 * *b as usize + pair as usize] {
            None => starts[8 * *b as usize + pair as usize] = Some(v),
            Some(u) => {
                if u != v {
                    return false;
                }
            }
        }
    }
    true
}

/// For each block, who holds each pair of the variables that are wanted at its start; none where two would hold one pair.
fn starts(
    alloc: Global,
    function: &MidFunction,
    flow: &Flow,
    places: &[Place],
) -> Result<Option<Vec<Option<u32>>>, OutOfMemory>
    requires valid { ValidFunction function.now }
    requires flow { IsFlow function.now flow.now }
    requires one_each { length places.now ≡ function.now.variables }
    requires pairs { PairsExist places.now }
    ensures { IfOk result (λ found. MatchOption found (IsUnfit function.now places.now) (λ rows. AreStarts function.now places.now rows.items function.now.variables)) }
{
    let mut rows = vec![in alloc; None; function.blocks.len() * 8]?;
    for v in 0..function.variables {
        match places[v as usize] {
            Place::Slot(_) => {}
            Place::Pair(pair) => {
                let blocks = wanted_blocks(alloc, function, flow, v)?;
                if !put_starts(&mut rows, v, pair, blocks.as_slice()) {
                    return Ok(None);
                }
            }
        }
    }
    Ok(Some(rows))
}

/// Whether a variable could come to those that hold pairs.
fn may_enter(places: &[Place], now: &[Option<u32>], v: u32) -> bool
    requires eight { length now.now ≡ 8 }
    requires exists { v < length places.now }
    requires pairs { PairsExist places.now }
    ensures yes { result ≡ true → HasRoom places.now now.now v }
    ensures no { result ≡ false → Clash places.now now.now (v ∷ []) }
{
    match places[v as usize] {
        Place::Slot(_) => true,
        Place::Pair(k) => match now[k as usize] {
            None => true,
            Some(u) => u == v,
        },
    }
}

/// The parameters come to those that hold pairs; false where two would hold one pair.
fn enter_params(function: &MidFunction, places: &[Place], now: &mut Vec<Option<u32>>) -> bool
    requires eight { length now.old.items ≡ 8 }
    requires exist { function.now.params ≤ length places.now }
    requires pairs { PairsExist places.now }
    ensures yes { result ≡ true → AddsParams function.now places.now now.old.items now.new.items }
    ensures no { result ≡ false → ClashParams function.now places.now now.old.items }
{
    for v in 0..function.params {
        if !enter(places, now, v) {
            return false;
        }
    }
    true
}

/// From those that hold pairs behind a line to those at it; false where two would hold one pair.
fn want_line(
    function: &MidFunction,
    places: &[Place],
    now: &mut Vec<Option<u32>>,
    at: u32,
    reads: &[u32],
    written: Option<u32>,
) -> bool
    requires valid { ValidFunction function.now }
    requires there { at < length (lines function.now) }
    requires one_each { length places.now ≡ function.now.variables }
    requires pairs { PairsExist places.now }
    requires eight { length now.old.items ≡ 8 }
    requires behind { HoldBehind function.now places.now now.old.items at }
    requires reads { AreReadsAt function.now at reads.now }
    requires written { IsWriteAt function.now at written }
    ensures eight { result ≡ true → length now.new.items ≡ 8 }
    ensures yes { result ≡ true → HoldAt function.now places.now now.new.items at }
    ensures no { result ≡ false → IsUnfit function.now places.now }
{
    match written {
        Some(v) => leave(places, now, v),
        None => {}
    }
    enter_each(places, now, reads)
}

/// Whether no two variables that are live at a line share a pair; behind position 0 it leaves those that hold pairs.
fn check_line(
    function: &MidFunction,
    places: &[Place],
    now: &mut Vec<Option<u32>>,
    at: u32,
    written: Option<u32>,
) -> bool
    requires valid { ValidFunction function.now }
    requires there { at < length (lines function.now) }
    requires one_each { length places.now ≡ function.now.variables }
    requires pairs { PairsExist places.now }
    requires eight { length now.old.items ≡ 8 }
    requires here { HoldAt function.now places.now now.old.items at }
    requires written { IsWriteAt function.now at written }
    ensures kept { 0 < at → now.new.items ≡ now.old.items }
    ensures yes { result ≡ true → FitsAt function.now places.now at }
    ensures no { result ≡ false → IsUnfit function.now places.now }
{
    if at == 0 && !enter_params(function, places, now) {
        return false;
    }
    match written {
        Some(v) => may_enter(places, now.as_slice(), v),
        None => true,
    }
}

/// From those that hold pairs behind a line to those at it; false where the places don't fit there.
fn fit_line(
    function: &MidFunction,
    places: &[Place],
    block: &MidBlock,
    before: usize,
    at: u32,
    now: &mut Vec<Option<u32>>,
    reads: &mut Vec<u32>,
) -> Result<bool, OutOfMemory>
    requires valid { ValidFunction function.now }
    requires there { LineAt function.now at (line_of (slice_get block.now.steps before) block.now.end) }
    requires one_each { length places.now ≡ function.now.variables }
    requires pairs { PairsExist places.now }
    requires eight { length now.old.items ≡ 8 }
    requires behind { HoldBehind function.now places.now now.old.items at }
    ensures eight { IfOk result (λ fits. fits ≡ true → 0 < at → length now.new.items ≡ 8) }
    ensures here { IfOk result (λ fits. fits ≡ true → 0 < at → HoldAt function.now places.now now.new.items at) }
    ensures yes { IfOk result (λ fits. fits ≡ true → FitsAt function.now places.now at) }
    ensures no { IfOk result (λ fits. fits ≡ false → IsUnfit function.now places.now) }
{
    let written = line_uses(block, before, reads)?;
    if !want_line(function, places, now, at, reads.as_slice(), written) {
        return Ok(false);
    }
    Ok(check_line(function, places, now, at, written))
}

/// Those that hold pairs behind the last line of a block; false where two would hold one pair.
fn merge_ends(
    function: &MidFunction,
    places: &[Place],
    rows: &[Option<u32>],
    number: u32,
    block: &MidBlock,
    now: &mut Vec<Option<u32>>,
) -> bool
    requires valid { ValidFunction function.now }
    requires one_each { length places.now ≡ function.now.variables }
    requires rows { AreStarts function.now places.now rows.now function.now.variables }
    requires is { slice_get function.now.blocks number ≡ Some block.now }
    requires small { number + 1 < 2 ^ 32 }
    requires eight { length now.old.items ≡ 8 }
    requires empty { Holds places.now now.old.items (λ v. ⊥) }
    ensures eight { result ≡ true → length now.new.items ≡ 8 }
    ensures yes { result ≡ true → HoldBehind function.now places.now now.new.items (first_of function.now number + length block.now.steps) }
    ensures no { result ≡ false → IsUnfit function.now places.now }
{
    match &block.end {
        MidEnd::Jump { to } => merge(now, rows, *to),
        MidEnd::Branch { to, .. } => {
            if !merge(now, rows, number + 1) {
                return false;
            }
            merge(now, rows, *to)
        }
        MidEnd::Call { .. } => merge(now, rows, number + 1),
        MidEnd::Return { .. } => true,
    }
}

/// Whether no two variables that are live at a line of a block share a pair.
fn fit_block(
    alloc: Global,
    function: &MidFunction,
    places: &[Place],
    rows: &[Option<u32>],
    number: u32,
    block: &MidBlock,
    first: u32,
    reads: &mut Vec<u32>,
) -> Result<bool, OutOfMemory>
    requires valid { ValidFunction function.now }
    requires one_each { length places.now ≡ function.now.variables }
    requires pairs { PairsExist places.now }
    requires rows { AreStarts function.now places.now rows.now function.now.variables }
    requires is { slice_get function.now.blocks number ≡ Some block.now }
    requires small { number + 1 < 2 ^ 32 }
    requires first { first ≡ first_of function.now number }
    ensures yes { IfOk result (λ fits. fits ≡ true → FitWithin function.now places.now (first_of function.now number) (first_of function.now number + length block.now.steps + 1)) }
    ensures no { IfOk result (λ fits. fits ≡ false → IsUnfit function.now places.now) }
{
    let mut now = vec![in alloc; None; 8]?;
    if !merge_ends(function, places, rows, number, block, &mut now) {
        return Ok(false);
    }
    let mut before = block.steps.len();
    if !fit_line(
        function,
        places,
        block,
        before,
        first + before as u32,
        &mut now,
        reads,
    )? {
        return Ok(false);
    }
    while before > 0 {
        before -= 1;
        if !fit_line(
            function,
            places,
            block,
            before,
            first + before as u32,
            &mut now,
            reads,
        )? {
            return Ok(false);
        }
    }
    Ok(true)
}

/// Whether no two variables that are live at a position share a pair.
fn fit_blocks(
    alloc: Global,
    function: &MidFunction,
    flow: &Flow,
    places: &[Place],
    rows: &[Option<u32>],
) -> Result<bool, OutOfMemory>
    requires valid { ValidFunction function.now }
    requires flow { IsFlow function.now flow.now }
    requires one_each { length places.now ≡ function.now.variables }
    requires pairs { PairsExist places.now }
    requires rows { AreStarts function.now places.now rows.now function.now.variables }
    ensures yes { IfOk result (λ fits. fits ≡ true → FitWithin function.now places.now 0 (length (lines function.now))) }
    ensures no { IfOk result (λ fits. fits ≡ false → IsUnfit function.now places.now) }
{
    let mut reads = Vec::new(alloc);
    let mut number: u32 = 0;
    for block in function.blocks.as_slice() {
        if !fit_block(
            alloc,
            function,
            places,
            rows,
            number,
            block,
            flow.firsts[number as usize],
            &mut reads,
        )? {
            return Ok(false);
        }
        number += 1;
    }
    Ok(true)
}

/// Whether each pair exists and each slot is the variable's own.
fn each_fits(function: &MidFunction, places: &[Place]) -> bool
    requires valid { ValidFunction function.now }
    requires one_each { length places.now ≡ function.now.variables }
    ensures yes { result ≡ true → AreOwn function.now places.now function.now.variables }
    ensures no { result ≡ false → AreOwn function.now places.now function.now.variables → ⊥ }
{
    for v in 0..function.variables {
        match places[v as usize] {
            Place::Pair(pair) => {
                if pair > 7 {
                    return false;
                }
            }
            Place::Slot(slot) => {
                if slot != own_slot(function, v) {
                    return false;
                }
            }
        }
    }
    true
}

/// Whether no variable that is live across a Call has a pair.
fn across_fit(function: &MidFunction, places: &[Place], across: &[bool]) -> bool
    requires one_each { length places.now ≡ function.now.variables }
    requires across { length across.now ≡ function.now.variables }
    ensures yes { result ≡ true → NoneAcross places.now across.now function.now.variables }
    ensures no { result ≡ false → NoneAcross places.now across.now function.now.variables → ⊥ }
{
    for v in 0..function.variables {
        if across[v as usize]
            && let Place::Pair(_) = places[v as usize]
        {
            return false;
        }
    }
    true
}

/// Whether places fit a function.
pub fn places_fit(
    alloc: Global,
    function: &MidFunction,
    places: &Places,
) -> Result<bool, OutOfMemory>
    requires { ValidFunction function.now }
    ensures { IfOk result (λ fits. IsTrue fits ↔ PlacesFit function.now places.now) }
{
    let list = places.list.as_slice();
    if list.len() != function.variables as usize || !each_fits(function, list) {
        return Ok(false);
    }
    let flow = Flow::of(alloc, function)?;
    let lives = Lives::of(alloc, function, &flow)?;
    if !across_fit(function, list, lives.across.as_slice()) {
        return Ok(false);
    }
    match starts(alloc, function, &flow, list)? {
        None => Ok(false),
        Some(rows) => fit_blocks(alloc, function, &flow, list, rows.as_slice()),
    }
}
