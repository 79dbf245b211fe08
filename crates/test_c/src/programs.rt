//! Texts that are programs of the grammar.

use c_grammar::{one_tree, tree_or_none};
use c_lexer::tokens;
use c_parser::{in_order, parse};
use std::test::Fail;

// A program a line; the first is empty.
const TABLE: &str = "
int main(void){return 0;}
int f(int);
int f(int a){}
int f(void);
int f();
int f(const int a, unsigned b);
void f(void);
static const unsigned int x = 3, y[2], z[] = {1, 2,};
unsigned static int const x;
int a = 1, b = 2;
int a = (1, 2);
int f(void){ -a=b; 1=2; (a+b)=c; a=b=c; a+=b-=c; }
int f(void){ a++ ++; ++--a; a++=b; ++a=b; }
int f(void){ a ? b, c : d ? e : f; }
int f(void){ a || b && c | d ^ e & f == g < h << i + j * k; }
int f(void){ !~+-a; }
int f(void){ ; {} {;} {int a;} }
int f(void){ int a, b = 1, c = a = 2; }
int f(void){ const int a; }
int f(void){ if (a) if (b) c; else d; else e; }
int f(void){ while (a) { break; continue; } }
int f(void){ do a; while (b); }
int f(void){ for (;;) ; for (a;b;c) ; for (int i = 0, j; i; i++) ; }
int f(void){ return; return a, b; }
int main(void){out_word(1); return 0;}
int f(void){ if (a) ; else if (b) ; else ; }
int f(int a, int);
unsigned f(void){return 0;} int a;
int f(void){ switch(a){} }
int f(void){ switch(a,b){case 1: ; break;} }
int f(void){ switch(a){case 1: case 2: ; default: break;} }
int f(void){ switch(a){default: ; case 1: ;} }
int f(void){ switch(a){default: ; default: ;} }
int f(void){ switch(a){case 1:} }
int f(void){ switch(a){case 1: {int b;} } }
int f(void){ switch(a){case b?c:d: ;} }
int f(void){ switch(a){case 1: switch(c){case 1: ;}} }
int f(void){ if (a) switch(b){case 1: ;} else ; }
int f(void){ while (a) switch(b){case 1: continue;} }";

// Whether a text is a program.
fn is_program(rt: &(impl AllocGlobal + std::process::Abort), text: &str) -> Result<bool, Fail> {
    let bytes = text.as_bytes();
    assert!(rt; bytes.len() < 100, "{text}");
    let list = tokens(rt.alloc(), bytes)?;
    assert!(rt; in_order(&list), "{text}");
    Ok(parse(rt.alloc(), &list).is_ok())
}

#[test]
fn each_of_the_table_is_a_program(rt: HostRuntime) -> Result<(), Fail> {
    for text in TABLE.lines() {
        assert!(rt; is_program(&rt, text)?, "{text}");
    }
    one_tree();
    tree_or_none();
    Ok(())
}
