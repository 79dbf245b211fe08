//! The sizes of trees, counted by hand.

use c_costs::weight;
use c_lexer::tokens;
use c_meaning::{calls_return, levels_agree, more_fuel, output_is_added, recursive_is_chain};
use c_parser::{in_order, parse};
use c_syntax::{Program, TopItem};
use c_tree::{block_cost, depth, examples_hold, nodes};
use std::fmt::Write;
use std::test::Fail;

// A text, ` => ` and its depth, its nodes, its block cost and the weight of each function with a body.
const TABLE: &str = " => 0 0 2
void f(int); int x, y[2]; => 1 6 2
int main(void){return 0;} => 3 8 6 2
int main(void){return -(1 + 2);} => 6 12 6 3
int main(void){return -(1 + (2 + 3));} => 8 15 6 4
int x; int main(void){x = 1 + 2; return x;} => 5 16 6 3
int x; int main(void){x *= 1 + 2; return x;} => 5 16 6 4
int a[9]; int main(void){a[1 + (2 + 3)] = 4; return 0;} => 8 21 6 4
int a[9]; int main(void){a[0] = 4 + 5; return 0;} => 5 18 6 4
int a[9]; int main(void){a[0] -= 4 + 5; return 0;} => 5 18 6 5
int a[9]; int main(void){a[1 + (2 + (3 + 4))]++; return 0;} => 10 23 6 5
int x; int main(void){(x) *= 1 + 2; return x;} => 5 17 6 4
int a[9]; int main(void){(a[0]) -= 4 + 5; return 0;} => 6 19 6 5
int a[9]; int main(void){((a[1 + (2 + 3)])) = 4; return 0;} => 10 23 6 4
int a[2]; int main(void){return a[a[0]]++ + --a[1];} => 7 18 6 5
int main(void){switch (1) {case 2: ;} return 0;} => 3 13 16 3
int main(void){switch (1 + (2 + 3)) {} return 0;} => 6 15 12 4
int g = 3; int a[4] = {1, 2}; int f(int x, int y){return x + y;} int main(void){int k = 2; return f(k, g);} => 4 33 11 5 4
int f(int a, int b, int c){return 0;} int main(void){return f(1, f(2, 3, 4), 5 + 6);} => 5 27 12 5 5
int a[3]; int main(void){for (int i = 0; i < 3; i++) a[i] += i; if (a[0] && a[1] || !a[2]) return 1; else return a[1] ? 2 : 3;} => 6 41 38 5
int main(void){switch (in_word()) {case 1: case 2: out_word(1); break; default: out_word(2 + 3 * 4);} return 0;} => 7 26 24 4
int f(int n){return n == 0 ? 1 : n * f(n - 1);} int main(void){int a, b = 2; do {a = b--;} while (a); while (b < 0) {b <<= 1; continue;} return (a, f(-b));} => 7 54 34 5 5";

// The depth, the nodes and the block cost of a program, and the weight of each function with a body.
fn sizes_told(rt: &impl AllocGlobal, program: &Program) -> Result<String, Fail> {
    let mut told = String::new(rt.alloc());
    write!(
        told,
        "{} {} {}",
        depth(program),
        nodes(program),
        block_cost(program)
    )?;
    for item in program.items.as_slice() {
        if let TopItem::Function(function) = item {
            if function.body.is_some() {
                write!(told, " {}", weight(function))?;
            }
        }
    }
    Ok(told)
}

// Whether a text is a program with these sizes.
fn has_sizes(
    rt: &(impl AllocGlobal + std::process::Abort),
    text: &str,
    want: &str,
) -> Result<bool, Fail> {
    let bytes = text.as_bytes();
    assert!(rt; bytes.len() < 1000, "{text}");
    let list = tokens(rt.alloc(), bytes)?;
    assert!(rt; in_order(&list), "{text}");
    match parse(rt.alloc(), &list) {
        Ok(program) => Ok(sizes_told(rt, &program)?.as_str() == want),
        Err(_) => Ok(false),
    }
}

#[test]
fn sizes_are_those_of_the_table(rt: HostRuntime) -> Result<(), Fail> {
    let mut rows = 0u32;
    for line in TABLE.lines() {
        let Some((text, want)) = line.split_once(" => ") else {
            panic!(rt; "a row without an arrow: {line}");
        };
        assert!(rt; has_sizes(&rt, text, want)?, "the sizes of {text}");
        rows = rows.saturating_add(1);
    }
    assert_eq!(rt; rows, 22);
    Ok(())
}

#[test]
fn the_laws_are_there(_rt: HostRuntime) {
    examples_hold();
    more_fuel();
    levels_agree();
    output_is_added();
    calls_return();
    recursive_is_chain();
}
