//! Texts and their tokens, against a table.

use c_lexer::{each_text_has_a_result, one_result, tokens};
use std::fmt::Write;
use std::test::Fail;

// A text, ` => ` and its tokens: each with the byte where it begins and how many it has. In a text `$` stands for a line
// feed, a backtick for a byte above 127, and an apostrophe for a NUL.
const TABLE: &str = "+ => Sign(Plus)@0+1
- => Sign(Minus)@0+1
* => Sign(Star)@0+1
/ => Sign(Slash)@0+1
% => Sign(Percent)@0+1
<< => Sign(ShiftLeft)@0+2
>> => Sign(ShiftRight)@0+2
< => Sign(Less)@0+1
> => Sign(Greater)@0+1
<= => Sign(LessEqual)@0+2
>= => Sign(GreaterEqual)@0+2
== => Sign(EqualEqual)@0+2
!= => Sign(NotEqual)@0+2
& => Sign(And)@0+1
| => Sign(Or)@0+1
^ => Sign(Caret)@0+1
~ => Sign(Tilde)@0+1
! => Sign(Bang)@0+1
&& => Sign(AndAnd)@0+2
|| => Sign(OrOr)@0+2
= => Sign(Equal)@0+1
+= => Sign(PlusEqual)@0+2
-= => Sign(MinusEqual)@0+2
*= => Sign(StarEqual)@0+2
/= => Sign(SlashEqual)@0+2
%= => Sign(PercentEqual)@0+2
<<= => Sign(ShiftLeftEqual)@0+3
>>= => Sign(ShiftRightEqual)@0+3
&= => Sign(AndEqual)@0+2
|= => Sign(OrEqual)@0+2
^= => Sign(CaretEqual)@0+2
++ => Sign(PlusPlus)@0+2
-- => Sign(MinusMinus)@0+2
? => Sign(Question)@0+1
: => Sign(Colon)@0+1
, => Sign(Comma)@0+1
; => Sign(Semicolon)@0+1
( => Sign(OpenParen)@0+1
) => Sign(CloseParen)@0+1
{ => Sign(OpenBrace)@0+1
} => Sign(CloseBrace)@0+1
[ => Sign(OpenBracket)@0+1
] => Sign(CloseBracket)@0+1
int => Word(Int)@0+3
unsigned => Word(Unsigned)@0+8
signed => Word(Signed)@0+6
void => Word(Void)@0+4
const => Word(Const)@0+5
static => Word(Static)@0+6
if => Word(If)@0+2
else => Word(Else)@0+4
while => Word(While)@0+5
do => Word(Do)@0+2
for => Word(For)@0+3
break => Word(Break)@0+5
continue => Word(Continue)@0+8
return => Word(Return)@0+6
auto => Word(Auto)@0+4
case => Word(Case)@0+4
char => Word(Char)@0+4
default => Word(Default)@0+7
double => Word(Double)@0+6
enum => Word(Enum)@0+4
extern => Word(Extern)@0+6
float => Word(Float)@0+5
goto => Word(Goto)@0+4
inline => Word(Inline)@0+6
long => Word(Long)@0+4
register => Word(Register)@0+8
restrict => Word(Restrict)@0+8
short => Word(Short)@0+5
sizeof => Word(Sizeof)@0+6
struct => Word(Struct)@0+6
switch => Word(Switch)@0+6
typedef => Word(Typedef)@0+7
union => Word(Union)@0+5
volatile => Word(Volatile)@0+8
a+++b => Name(3)@0+1 Sign(PlusPlus)@1+2 Sign(Plus)@3+1 Name(4)@4+1
a->b => Name(3)@0+1 Sign(Minus)@1+1 Sign(Greater)@2+1 Name(4)@3+1
1-1 => Number { value: 1, is_unsigned: false }@0+1 Sign(Minus)@1+1 Number { value: 1, is_unsigned: false }@2+1
x/**/y => Name(3)@0+1 Name(4)@5+1
// => 
x// => Name(3)@0+1
/**/ => 
# 12 \"f.c\"$x => Name(3)@11+1
  #  7$x => Name(3)@7+1
x$# 7 => Name(3)@0+1
1u => Number { value: 1, is_unsigned: true }@0+2
2147483647 => Number { value: 2147483647, is_unsigned: false }@0+10
2147483648u => Number { value: 2147483648, is_unsigned: true }@0+11
0x80000000 => Number { value: 2147483648, is_unsigned: true }@0+10
0X7fffFFFFU => Number { value: 2147483647, is_unsigned: true }@0+11
037777777777 => Number { value: 4294967295, is_unsigned: true }@0+12
4294967295u => Number { value: 4294967295, is_unsigned: true }@0+11
0 => Number { value: 0, is_unsigned: false }@0+1
00 => Number { value: 0, is_unsigned: false }@0+2
017 => Number { value: 15, is_unsigned: false }@0+3
0u => Number { value: 0, is_unsigned: true }@0+2
_Bool => Name(3)@0+5
_ => Name(3)@0+1
main in_word out_word other main other second => Name(0)@0+4 Name(1)@5+7 Name(2)@13+8 Name(3)@22+5 Name(0)@28+4 Name(3)@33+5 Name(4)@39+6
ints => Name(3)@0+4
if0 => Name(3)@0+3
<<=>>= => Sign(ShiftLeftEqual)@0+3 Sign(ShiftRightEqual)@3+3
<<<= => Sign(ShiftLeft)@0+2 Sign(LessEqual)@2+2
&&& => Sign(AndAnd)@0+2 Sign(And)@2+1
||| => Sign(OrOr)@0+2 Sign(Or)@2+1
a?b:c => Name(3)@0+1 Sign(Question)@1+1 Name(4)@2+1 Sign(Colon)@3+1 Name(5)@4+1
 => 
  \t$  => 
/* $ // */z => Name(3)@10+1
// /* $z => Name(3)@7+1";

fn byte_of(b: u8) -> u8 {
    match b {
        b'$' => b'\n',
        b'`' => 200,
        b'\'' => 0,
        _ => b,
    }
}

// The tokens of a text, or its fault, as the table has them.
fn tokens_told(rt: &(impl AllocGlobal + std::process::Abort), text: &str) -> Result<String, Fail> {
    let mut bytes = Vec::new(rt.alloc());
    for b in text.as_bytes() {
        bytes.push(byte_of(*b))?;
    }
    assert!(rt; bytes.len() < 100, "{text}");
    let mut told = String::new(rt.alloc());
    match tokens(rt.alloc(), &bytes) {
        Err(error) => write!(told, "{error:?}")?,
        Ok(list) => {
            for token in &list {
                if !told.is_empty() {
                    told.push(' ')?;
                }
                write!(told, "{:?}@{}+{}", token.kind, token.at, token.length)?;
            }
        }
    }
    Ok(told)
}

#[test]
fn tokens_are_those_of_the_table(rt: HostRuntime) -> Result<(), Fail> {
    let mut rows = 0u32;
    for line in TABLE.lines() {
        let Some((text, want)) = line.split_once(" => ") else {
            panic!(rt; "a row without an arrow: {line}");
        };
        let told = tokens_told(&rt, text)?;
        assert_eq!(rt; told.as_str(), want, "of {text}");
        rows = rows.saturating_add(1);
    }
    assert_eq!(rt; rows, 112);
    one_result();
    each_text_has_a_result();
    Ok(())
}
