//! Spans and places of functions, counted by hand.

use hard_words::{Sequence, Words};
use mid_blocks::{Mid, MidBlock, MidEnd, MidFunction, MidOp, MidStep, Place, Places};
use mid_code::{valid, valid_function};
use register_halves::{Span, assign, assign_within, few_variables, places_fit, spans};
use std::alloc::Global;
use std::test::Fail;

// Sets each of some variables, and then adds all to the first and returns it, so that all are live together.
fn all_together(alloc: Global, variables: u32) -> Result<MidFunction, Fail> {
    let mut steps = Vec::new(alloc);
    for to in 0..variables {
        steps.push(MidStep::Constant { to, word: to })?;
    }
    for right in 1..variables {
        steps.push(MidStep::Operate {
            op: MidOp::Add,
            to: 0,
            left: 0,
            right,
        })?;
    }
    let block = MidBlock {
        steps: Sequence::from_vec(steps),
        end: MidEnd::Return { from: Some(0) },
    };
    Ok(MidFunction {
        params: 0,
        variables,
        pairs: variables.saturating_add(1),
        blocks: Sequence::from_vec(vec![in alloc; block]?),
    })
}

// Adds the numbers from a parameter down: a loop over a test, with its sum and a one.
fn looping(alloc: Global) -> Result<MidFunction, Fail> {
    let first = MidBlock {
        steps: Sequence::from_vec(vec![in alloc;
            MidStep::Constant { to: 1, word: 0 },
            MidStep::Constant { to: 2, word: 1 },
        ]?),
        end: MidEnd::Jump { to: 1 },
    };
    let test = MidBlock {
        steps: Sequence::new(alloc),
        end: MidEnd::Branch {
            test: 0,
            when: false,
            to: 3,
        },
    };
    let add = MidStep::Operate {
        op: MidOp::Add,
        to: 1,
        left: 1,
        right: 0,
    };
    let less = MidStep::Operate {
        op: MidOp::Sub,
        to: 0,
        left: 0,
        right: 2,
    };
    let body = MidBlock {
        steps: Sequence::from_vec(vec![in alloc; add, less]?),
        end: MidEnd::Jump { to: 1 },
    };
    let last = MidBlock {
        steps: Sequence::new(alloc),
        end: MidEnd::Return { from: Some(1) },
    };
    Ok(MidFunction {
        params: 1,
        variables: 3,
        pairs: 4,
        blocks: Sequence::from_vec(vec![in alloc; first, test, body, last]?),
    })
}

// Calls function 1 with its second variable, and adds that to the result.
fn calling(alloc: Global) -> Result<MidFunction, Fail> {
    let first = MidBlock {
        steps: Sequence::from_vec(vec![in alloc; MidStep::Input { to: 1 }]?),
        end: MidEnd::Call {
            function: 1,
            args: Words::from_vec(vec![in alloc; 1]?),
            result: Some(0),
        },
    };
    let add = MidStep::Operate {
        op: MidOp::Add,
        to: 0,
        left: 0,
        right: 1,
    };
    let last = MidBlock {
        steps: Sequence::from_vec(vec![in alloc; add]?),
        end: MidEnd::Return { from: Some(0) },
    };
    Ok(MidFunction {
        params: 0,
        variables: 2,
        pairs: 3,
        blocks: Sequence::from_vec(vec![in alloc; first, last]?),
    })
}

fn slots(places: &Places) -> usize {
    let mut count: usize = 0;
    for place in places.list.as_slice() {
        if matches!(place, Place::Slot(_)) {
            count = count.saturating_add(1);
        }
    }
    count
}

// The function of a number in the tables: as many variables together, or, for 0 and 1, the loop and the call.
fn function_of(alloc: Global, number: u32) -> Result<MidFunction, Fail> {
    match number {
        0 => looping(alloc),
        1 => calling(alloc),
        _ => all_together(alloc, number),
    }
}

// A function, in how many pairs its variables may stand, and how many of them have a slot then. All of up to eight that are live
// together have a pair; of nine one has none. What is live across a call has a slot.
#[test]
fn counts_slots(rt: HostRuntime) -> Result<(), Fail> {
    let cases: [(u32, u8, usize); 10] = [
        (0, 8, 0),
        (0, 3, 0),
        (0, 2, 1),
        (1, 8, 1),
        (2, 1, 1),
        (8, 8, 0),
        (8, 7, 1),
        (9, 8, 1),
        (9, 4, 5),
        (20, 8, 12),
    ];
    for (number, pairs, want) in cases {
        let function = function_of(rt.alloc(), number)?;
        let fair = valid_function(&function) && 1 <= pairs && pairs <= 8;
        assert!(rt; fair);
        let places = assign_within(rt.alloc(), &function, pairs)?;
        let counted = slots(&places) == want && places_fit(rt.alloc(), &function, &places)?;
        assert!(rt; counted, "{number} {pairs}");
    }
    few_variables();
    Ok(())
}

// Eight pairs are what there is.
#[test]
fn assigns_eight_pairs(rt: HostRuntime) -> Result<(), Fail> {
    let cases: [(u32, usize); 4] = [(0, 0), (1, 1), (8, 0), (9, 1)];
    for (number, want) in cases {
        let function = function_of(rt.alloc(), number)?;
        assert!(rt; valid_function(&function));
        let places = assign(rt.alloc(), &function)?;
        let counted = slots(&places) == want && places_fit(rt.alloc(), &function, &places)?;
        assert!(rt; counted, "{number}");
    }
    Ok(())
}

// Places that don't fit: two variables that are live together in one pair, a pair across a call, too few places, a pair of no number.
#[test]
fn refuses_places(rt: HostRuntime) -> Result<(), Fail> {
    let cases: [(u32, &[Place], bool); 8] = [
        (0, &[Place::Pair(0), Place::Pair(1), Place::Pair(2)], true),
        (0, &[Place::Pair(0), Place::Pair(0), Place::Pair(2)], false),
        (0, &[Place::Slot(2), Place::Slot(0), Place::Slot(1)], true),
        (0, &[Place::Pair(0), Place::Pair(1)], false),
        (0, &[Place::Pair(8), Place::Pair(1), Place::Pair(2)], false),
        (1, &[Place::Pair(0), Place::Slot(1)], true),
        (1, &[Place::Pair(0), Place::Pair(1)], false),
        (1, &[Place::Slot(0), Place::Slot(0)], false),
    ];
    for (number, list, want) in cases {
        let function = function_of(rt.alloc(), number)?;
        assert!(rt; valid_function(&function));
        let places = Places {
            list: Sequence::from_vec(Vec::from_slice(rt.alloc(), list)?),
        };
        let told = places_fit(rt.alloc(), &function, &places)? == want;
        assert!(rt; told, "{number}");
    }
    Ok(())
}

// A function, and for each of its first variables the first and the last position where it is live. Each step and each end of a block
// is a position.
#[test]
fn finds_spans(rt: HostRuntime) -> Result<(), Fail> {
    let cases: [(u32, usize, &[(u32, u32)]); 4] = [
        (0, 3, &[(0, 6), (0, 7), (1, 6)]),
        (1, 2, &[(1, 3), (0, 2)]),
        (8, 8, &[(0, 15), (1, 8), (2, 9)]),
        (9, 9, &[(0, 17), (1, 9), (8, 16)]),
    ];
    for (number, count, want) in cases {
        let function = function_of(rt.alloc(), number)?;
        assert!(rt; valid_function(&function));
        let list = spans(rt.alloc(), &function)?;
        let mut found = list.len() == count;
        for (variable, (from, to)) in want.iter().enumerate() {
            let at = if number == 9 && variable == 2 {
                8
            } else {
                variable
            };
            let span = Span {
                variable: at as u32,
                from: *from,
                to: *to,
            };
            found = found && list.get(at).copied() == Some(span);
        }
        assert!(rt; found, "{number}");
    }
    Ok(())
}

// The program of the call and of a function that returns its parameter, and the same where nothing is called.
#[test]
fn tells_valid_programs(rt: HostRuntime) -> Result<(), Fail> {
    let cases: [(u32, bool); 3] = [(1, true), (0, false), (8, false)];
    for (number, want) in cases {
        let block = MidBlock {
            steps: Sequence::new(rt.alloc()),
            end: MidEnd::Return { from: Some(0) },
        };
        let callee = MidFunction {
            params: 1,
            variables: 1,
            pairs: 2,
            blocks: Sequence::from_vec(vec![in rt.alloc(); block]?),
        };
        let main = function_of(rt.alloc(), number)?;
        let mid = Mid {
            functions: Sequence::from_vec(vec![in rt.alloc(); main, callee]?),
            globals: Sequence::new(rt.alloc()),
            chain_pairs: 5,
        };
        let told = valid(&mid) == want;
        assert!(rt; told, "{number}");
    }
    Ok(())
}
