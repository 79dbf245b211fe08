//! Reading an expression, ISO/IEC 9899 clauses 6.5.1 to 6.5.17.
//!
//! Each function answers the tree, its depth and the tokens behind it. `limit` is the greatest depth that is left: for
//! the whole in `read_comma`, `read_assign`, `read_cond` and `read_part`, for each part in the others.

ghost use Rattle.std.specs.Prelude.{◌≡◌, ◌+◌, ◌≤◌, ◌<◌, ◌^◌, IfOk, MatchResult, false, length, map, suc};
ghost use Rattle.c_grammar.specs.declared.fault.Fault.TheVariants.{OutOfMemory};
ghost use Rattle.c_syntax.specs.Sizes.{expression_depth, greatest};
ghost use Rattle.c_grammar.specs.Expressions.{comma, assign, cond, binary};
ghost use Rattle.c_grammar.specs.Gives.{Gives};
ghost use Rattle.c_grammar.specs.Marks.{is_mark};
ghost use Rattle.c_grammar.specs.Operators.{infix_at};
ghost use Rattle.c_grammar.specs.ReadExpressions.{read, found, closed, level, chain, commas, comma_from, assign_from, cond_from, after_test, after_place, middle, unary_from, postfix_from, primary_from, bumps, named, call_at, kind_of, arguments, is_unary, of_level};

use c_grammar::{
    Fault, Infix, Mark, Measured, after, assignment_sign, infix_sign, is_closing, is_comma, join,
    postfix_sign, prefix_sign, put_before,
};
use c_lexer::{Punct, Token, TokenKind};
use c_syntax::Expr;
use sqlite_items::{Boxed, Items};
use std::alloc::Global;

fn is_place(tree: &Expr) -> bool
    ensures { result ≡ is_unary tree.now }
{
    !matches!(
        tree,
        Expr::Binary { .. }
            | Expr::Logic { .. }
            | Expr::Choose { .. }
            | Expr::Assign { .. }
            | Expr::Comma { .. }
    )
}

fn infix_of_level(k: u32, kind: TokenKind) -> Option<Infix>
    ensures { result ≡ of_level k (infix_at kind) }
{
    match infix_sign(kind) {
        Some((level, op)) => { if level == k { Some(op) } else { None } }
        None => None,
    }
}

/// The tree without its box.
pub fn unboxed(tree: Option<Boxed<Expr>>) -> Option<Expr>
    ensures { result ≡ tree }
{
    match tree {
        Some(tree) => Some(tree.into_inner()),
        None => None,
    }
}

/// A tree that is read whole, of depth `depth`, before the tokens.
fn whole<'a>(
    alloc: Global,
    tree: Expr,
    depth: u32,
    tokens: &'a [Token],
) -> Result<Measured<'a, Boxed<Expr>>, Fault>
    requires { depth ≡ expression_depth tree }
    ensures gives { Gives (λ x. (x.value, x.rest.now)) result (found tree tokens.now) }
    ensures deep { IfOk result (λ x. (x.depth ≡ expression_depth x.value) × (x.depth ≡ depth)) }
{
    Ok(Measured {
        value: Boxed::new(alloc, tree)?,
        depth,
        rest: tokens,
    })
}

/// A tree of depth `depth`, with the mark that stands behind it.
fn close_tree<'a>(
    value: Boxed<Expr>,
    depth: u32,
    mark: Mark,
    tokens: &'a [Token],
) -> Result<Measured<'a, Boxed<Expr>>, Fault>
    requires { depth ≡ expression_depth value }
    ensures gives { Gives (λ x. (x.value, x.rest.now)) result (closed (is_mark mark) value tokens.now) }
    ensures deep { IfOk result (λ x. (x.depth ≡ expression_depth x.value) × (x.depth ≡ depth)) }
{
    let rest = after(tokens, mark)?;
    Ok(Measured { value, depth, rest })
}

/// A tree of depth `depth` that is read but for the mark at its end.
fn end_by<'a>(
    alloc: Global,
    tree: Expr,
    depth: u32,
    mark: Mark,
    tokens: &'a [Token],
) -> Result<Measured<'a, Boxed<Expr>>, Fault>
    requires { depth ≡ expression_depth tree }
    ensures gives { Gives (λ x. (x.value, x.rest.now)) result (closed (is_mark mark) tree tokens.now) }
    ensures deep { IfOk result (λ x. (x.depth ≡ expression_depth x.value) × (x.depth ≡ depth)) }
{
    let value = Boxed::new(alloc, tree)?;
    close_tree(value, depth, mark, tokens)
}

fn make_bump(alloc: Global, up: bool, place: Boxed<Expr>, at: u32) -> Result<Boxed<Expr>, Fault>
    ensures { MatchResult result (λ e. e ≡ Expr.Bump up false place at) (λ e. e ≡ OutOfMemory) }
{
    let before = false;
    Ok(Boxed::new(
        alloc,
        Expr::Bump {
            up,
            before,
            place,
            at,
        },
    )?)
}

fn make_comma(
    alloc: Global,
    left: Boxed<Expr>,
    right: Boxed<Expr>,
    at: u32,
) -> Result<Boxed<Expr>, Fault>
    ensures { MatchResult result (λ e. e ≡ Expr.Comma left right at) (λ e. e ≡ OutOfMemory) }
{
    Ok(Boxed::new(alloc, Expr::Comma { left, right, at })?)
}

/// The signs `++` and `--` behind an operand.
fn read_bumps<'a>(
    alloc: Global,
    limit: u32,
    place: Boxed<Expr>,
    depth: u32,
    tokens: &'a [Token],
) -> Result<Measured<'a, Boxed<Expr>>, Fault>
    requires small { limit < 2 ^ 16 }
    requires deep { (depth ≡ expression_depth place) × (depth ≤ limit + 1) }
    ensures gives { Gives (λ x. (x.value, x.rest.now)) result (bumps limit (suc limit) place tokens.now) }
    ensures deep { IfOk result (λ x. (x.depth ≡ expression_depth x.value) × (x.depth ≤ limit + 1)) }
{
    let mut place = place;
    let mut depth = depth;
    let mut rest = tokens;
    loop {
        let Some((token, behind)) = rest.split_first() else {
            return Ok(Measured {
                value: place,
                depth,
                rest,
            });
        };
        let Some(up) = postfix_sign(token.kind) else {
            return Ok(Measured {
                value: place,
                depth,
                rest,
            });
        };
        if depth > limit {
            return Err(Fault::NoProgram { left: rest.len() });
        }
        place = make_bump(alloc, up, place, token.at)?;
        depth += 1;
        rest = behind;
    }
}

#[cycle(read)]
fn read_primary<'a>(
    alloc: Global,
    limit: u32,
    tokens: &'a [Token],
) -> Result<Measured<'a, Boxed<Expr>>, Fault>
    requires { limit < 2 ^ 16 }
    ensures gives { Gives (λ x. (x.value, x.rest.now)) result (primary_from (read limit) tokens.now) }
    ensures deep { IfOk result (λ x. (x.depth ≡ expression_depth x.value) × (x.depth ≤ limit + 1)) }
{
    match tokens.split_first() {
        None => Err(Fault::NoProgram { left: 0 }),
        Some((token, rest)) => match token.kind {
            TokenKind::Number { value, is_unsigned } => {
                let at = token.at;
                let literal = Expr::Literal {
                    value,
                    is_unsigned,
                    at,
                };
                whole(alloc, literal, 1, rest)
            }
            TokenKind::Name(name) => read_named(alloc, limit, name, token.at, rest),
            TokenKind::Sign(Punct::OpenParen) => {
                let of = read_comma(alloc, limit, rest)?;
                let paren = Expr::Paren {
                    of: of.value,
                    at: token.at,
                };
                end_by(alloc, paren, of.depth + 1, Mark::CloseParen, of.rest)
            }
            _ => Err(Fault::NoProgram { left: tokens.len() }),
        },
    }
}

/// What follows a name.
#[cycle(read)]
fn read_named<'a>(
    alloc: Global,
    limit: u32,
    name: u32,
    at: u32,
    tokens: &'a [Token],
) -> Result<Measured<'a, Boxed<Expr>>, Fault>
    requires { limit < 2 ^ 16 }
    ensures gives { Gives (λ x. (x.value, x.rest.now)) result (named (read limit) name at tokens.now) }
    ensures deep { IfOk result (λ x. (x.depth ≡ expression_depth x.value) × (x.depth ≤ limit + 1)) }
{
    match tokens.split_first() {
        None => whole(alloc, Expr::Name { name, at }, 1, tokens),
        Some((token, rest)) => match token.kind {
            TokenKind::Sign(Punct::OpenBracket) => {
                let index = read_comma(alloc, limit, rest)?;
                let element = Expr::Index {
                    name,
                    index: index.value,
                    at,
                };
                end_by(
                    alloc,
                    element,
                    index.depth + 1,
                    Mark::CloseBracket,
                    index.rest,
                )
            }
            TokenKind::Sign(Punct::OpenParen) => {
                let args = read_call(alloc, limit, rest)?;
                let call = Expr::Call {
                    name,
                    args: args.value,
                    at,
                };
                whole(alloc, call, args.depth + 1, args.rest)
            }
            _ => whole(alloc, Expr::Name { name, at }, 1, tokens),
        },
    }
}

#[cycle(read)]
fn read_call<'a>(
    alloc: Global,
    limit: u32,
    tokens: &'a [Token],
) -> Result<Measured<'a, Items<Expr>>, Fault>
    requires { limit < 2 ^ 16 }
    ensures gives { Gives (λ x. (x.value, x.rest.now)) result (call_at (read limit) (kind_of tokens.now) tokens.now) }
    ensures deep { IfOk result (λ x. (x.depth ≡ greatest (map expression_depth x.value)) × (x.depth ≤ limit)) }
{
    match tokens.split_first() {
        None => read_arguments(alloc, limit, tokens),
        Some((token, rest)) => match token.kind {
            TokenKind::Sign(Punct::CloseParen) => Ok(Measured {
                value: Items::new(alloc),
                depth: 0,
                rest,
            }),
            _ => read_arguments(alloc, limit, tokens),
        },
    }
}

#[cycle(read)]
fn read_arguments<'a>(
    alloc: Global,
    limit: u32,
    tokens: &'a [Token],
) -> Result<Measured<'a, Items<Expr>>, Fault>
    requires { limit < 2 ^ 16 }
    ensures gives { Gives (λ x. (x.value, x.rest.now)) result (arguments (read limit) (length tokens.now) tokens.now) }
    ensures deep { IfOk result (λ x. (x.depth ≡ greatest (map expression_depth x.value)) × (x.depth ≤ limit)) }
{
    let mut args = Items::new(alloc);
    let mut deepest = 0u32;
    let mut rest = tokens;
    loop {
        let arg = match read_assign(alloc, limit, rest) {
            Ok(arg) => arg,
            Err(fault) => return Err(fault),
        };
        args.push(arg.value.into_inner())?;
        deepest = deepest.max(arg.depth);
        let Some((token, next)) = arg.rest.split_first() else {
            return Err(Fault::NoProgram { left: 0 });
        };
        if is_closing(token.kind) {
            return Ok(Measured {
                value: args,
                depth: deepest,
                rest: next,
            });
        }
        if !is_comma(token.kind) {
            return Err(Fault::NoProgram {
                left: arg.rest.len(),
            });
        }
        rest = next;
    }
}

#[cycle(read)]
fn read_unary<'a>(
    alloc: Global,
    limit: u32,
    tokens: &'a [Token],
) -> Result<Measured<'a, Boxed<Expr>>, Fault>
    requires { limit < 2 ^ 16 }
    ensures gives { Gives (λ x. (x.value, x.rest.now)) result (unary_from (read limit) limit tokens.now) }
    ensures deep { IfOk result (λ x. (x.depth ≡ expression_depth x.value) × (x.depth ≤ limit + 1)) }
{
    let Some((token, rest)) = tokens.split_first() else {
        return Err(Fault::NoProgram { left: 0 });
    };
    if let Some(op) = prefix_sign(token.kind) {
        let of = read_part(alloc, limit, 0, rest)?;
        return Ok(Measured {
            value: put_before(alloc, op, of.value, token.at)?,
            depth: of.depth + 1,
            rest: of.rest,
        });
    }
    let place = read_primary(alloc, limit, tokens)?;
    read_bumps(alloc, limit, place.value, place.depth, place.rest)
}

/// An expression of a level of binary operators.
#[cycle(read)]
fn read_level<'a>(
    alloc: Global,
    limit: u32,
    k: u32,
    tokens: &'a [Token],
) -> Result<Measured<'a, Boxed<Expr>>, Fault>
    requires { (limit < 2 ^ 16) × (k < 2 ^ 16) }
    ensures gives { Gives (λ x. (x.value, x.rest.now)) result (level (read limit) limit k tokens.now) }
    ensures deep { IfOk result (λ x. (x.depth ≡ expression_depth x.value) × (x.depth ≤ limit + 1)) }
{
    if k == 0 {
        return read_unary(alloc, limit, tokens);
    }
    let left = read_level(alloc, limit, k - 1, tokens)?;
    read_chain(alloc, limit, k - 1, left.value, left.depth, left.rest)
}

/// Further operands of the level `k + 1`, behind what has been read.
#[cycle(read)]
fn read_chain<'a>(
    alloc: Global,
    limit: u32,
    k: u32,
    left: Boxed<Expr>,
    depth: u32,
    tokens: &'a [Token],
) -> Result<Measured<'a, Boxed<Expr>>, Fault>
    requires small { (limit < 2 ^ 16) × (k < 2 ^ 16) }
    requires deep { (depth ≡ expression_depth left) × (depth ≤ limit + 1) }
    ensures gives { Gives (λ x. (x.value, x.rest.now)) result (chain (read limit) limit k (suc limit) left tokens.now) }
    ensures deep { IfOk result (λ x. (x.depth ≡ expression_depth x.value) × (x.depth ≤ limit + 1)) }
{
    let mut left = left;
    let mut depth = depth;
    let mut rest = tokens;
    loop {
        let Some((token, behind)) = rest.split_first() else {
            return Ok(Measured {
                value: left,
                depth,
                rest,
            });
        };
        let Some(op) = infix_of_level(k + 1, token.kind) else {
            return Ok(Measured {
                value: left,
                depth,
                rest,
            });
        };
        if depth > limit {
            return Err(Fault::NoProgram { left: rest.len() });
        }
        let right = match read_part(alloc, limit, k, behind) {
            Ok(right) => right,
            Err(fault) => return Err(fault),
        };
        left = join(alloc, op, left, right.value, token.at)?;
        depth = 1 + depth.max(right.depth);
        rest = right.rest;
    }
}

#[cycle(read)]
fn cond_layer<'a>(
    alloc: Global,
    limit: u32,
    tokens: &'a [Token],
) -> Result<Measured<'a, Boxed<Expr>>, Fault>
    requires { limit < 2 ^ 16 }
    ensures gives { Gives (λ x. (x.value, x.rest.now)) result (cond_from (read limit) limit tokens.now) }
    ensures deep { IfOk result (λ x. (x.depth ≡ expression_depth x.value) × (x.depth ≤ limit + 1)) }
{
    let test = read_level(alloc, limit, 10, tokens)?;
    read_choose(alloc, limit, test.value, test.depth, test.rest)
}

/// What stands between `?` and `:`.
#[cycle(read)]
fn read_middle<'a>(
    alloc: Global,
    limit: u32,
    tokens: &'a [Token],
) -> Result<Measured<'a, Boxed<Expr>>, Fault>
    requires { limit < 2 ^ 16 }
    ensures gives { Gives (λ x. (x.value, x.rest.now)) result (middle (read limit) tokens.now) }
    ensures deep { IfOk result (λ x. (x.depth ≡ expression_depth x.value) × (x.depth ≤ limit)) }
{
    let yes = read_comma(alloc, limit, tokens)?;
    close_tree(yes.value, yes.depth, Mark::Colon, yes.rest)
}

/// What follows a test.
#[cycle(read)]
fn read_choose<'a>(
    alloc: Global,
    limit: u32,
    test: Boxed<Expr>,
    depth: u32,
    tokens: &'a [Token],
) -> Result<Measured<'a, Boxed<Expr>>, Fault>
    requires small { limit < 2 ^ 16 }
    requires deep { (depth ≡ expression_depth test) × (depth ≤ limit + 1) }
    ensures gives { Gives (λ x. (x.value, x.rest.now)) result (after_test (read limit) limit test tokens.now) }
    ensures deep { IfOk result (λ x. (x.depth ≡ expression_depth x.value) × (x.depth ≤ limit + 1)) }
{
    match tokens.split_first() {
        None => Ok(Measured {
            value: test,
            depth,
            rest: tokens,
        }),
        Some((token, rest)) => match token.kind {
            TokenKind::Sign(Punct::Question) => {
                if depth > limit {
                    return Err(Fault::NoProgram { left: tokens.len() });
                }
                let yes = read_middle(alloc, limit, rest)?;
                let no = read_cond(alloc, limit, yes.rest)?;
                let choice = Expr::Choose {
                    test,
                    yes: yes.value,
                    no: no.value,
                    at: token.at,
                };
                let deepest = depth.max(yes.depth.max(no.depth));
                whole(alloc, choice, 1 + deepest, no.rest)
            }
            _ => Ok(Measured {
                value: test,
                depth,
                rest: tokens,
            }),
        },
    }
}

#[cycle(read)]
fn assign_layer<'a>(
    alloc: Global,
    limit: u32,
    tokens: &'a [Token],
) -> Result<Measured<'a, Boxed<Expr>>, Fault>
    requires { limit < 2 ^ 16 }
    ensures gives { Gives (λ x. (x.value, x.rest.now)) result (assign_from (read limit) limit tokens.now) }
    ensures deep { IfOk result (λ x. (x.depth ≡ expression_depth x.value) × (x.depth ≤ limit + 1)) }
{
    let place = cond_layer(alloc, limit, tokens)?;
    read_value(alloc, limit, place.value, place.depth, place.rest)
}

/// What follows the left side of an assignment.
#[cycle(read)]
fn read_value<'a>(
    alloc: Global,
    limit: u32,
    place: Boxed<Expr>,
    depth: u32,
    tokens: &'a [Token],
) -> Result<Measured<'a, Boxed<Expr>>, Fault>
    requires small { limit < 2 ^ 16 }
    requires deep { (depth ≡ expression_depth place) × (depth ≤ limit + 1) }
    ensures gives { Gives (λ x. (x.value, x.rest.now)) result (after_place (read limit) limit place tokens.now) }
    ensures deep { IfOk result (λ x. (x.depth ≡ expression_depth x.value) × (x.depth ≤ limit + 1)) }
{
    let Some((token, rest)) = tokens.split_first() else {
        return Ok(Measured {
            value: place,
            depth,
            rest: tokens,
        });
    };
    let Some(op) = assignment_sign(token.kind) else {
        return Ok(Measured {
            value: place,
            depth,
            rest: tokens,
        });
    };
    if !is_place(place.get()) || depth > limit {
        return Err(Fault::NoProgram { left: tokens.len() });
    }
    let value = read_assign(alloc, limit, rest)?;
    let assign = Expr::Assign {
        op,
        place,
        value: value.value,
        at: token.at,
    };
    whole(alloc, assign, 1 + depth.max(value.depth), value.rest)
}

#[cycle(read)]
fn comma_layer<'a>(
    alloc: Global,
    limit: u32,
    tokens: &'a [Token],
) -> Result<Measured<'a, Boxed<Expr>>, Fault>
    requires { limit < 2 ^ 16 }
    ensures gives { Gives (λ x. (x.value, x.rest.now)) result (comma_from (read limit) limit tokens.now) }
    ensures deep { IfOk result (λ x. (x.depth ≡ expression_depth x.value) × (x.depth ≤ limit + 1)) }
{
    let left = assign_layer(alloc, limit, tokens)?;
    read_commas(alloc, limit, left.value, left.depth, left.rest)
}

/// Further operands of the comma operator, behind what has been read.
#[cycle(read)]
fn read_commas<'a>(
    alloc: Global,
    limit: u32,
    left: Boxed<Expr>,
    depth: u32,
    tokens: &'a [Token],
) -> Result<Measured<'a, Boxed<Expr>>, Fault>
    requires small { limit < 2 ^ 16 }
    requires deep { (depth ≡ expression_depth left) × (depth ≤ limit + 1) }
    ensures gives { Gives (λ x. (x.value, x.rest.now)) result (commas (read limit) limit (suc limit) left tokens.now) }
    ensures deep { IfOk result (λ x. (x.depth ≡ expression_depth x.value) × (x.depth ≤ limit + 1)) }
{
    let mut left = left;
    let mut depth = depth;
    let mut rest = tokens;
    loop {
        let Some((token, behind)) = rest.split_first() else {
            return Ok(Measured {
                value: left,
                depth,
                rest,
            });
        };
        if !is_comma(token.kind) {
            return Ok(Measured {
                value: left,
                depth,
                rest,
            });
        }
        if depth > limit {
            return Err(Fault::NoProgram { left: rest.len() });
        }
        let right = match read_assign(alloc, limit, behind) {
            Ok(right) => right,
            Err(fault) => return Err(fault),
        };
        left = make_comma(alloc, left, right.value, token.at)?;
        depth = 1 + depth.max(right.depth);
        rest = right.rest;
    }
}

/// An expression whose depth is at most `limit`.
#[cycle(read)]
pub fn read_comma<'a>(
    alloc: Global,
    limit: u32,
    tokens: &'a [Token],
) -> Result<Measured<'a, Boxed<Expr>>, Fault>
    requires { limit < 2 ^ 16 }
    ensures gives { Gives (λ x. (x.value, x.rest.now)) result (read limit comma tokens.now) }
    ensures deep { IfOk result (λ x. (x.depth ≡ expression_depth x.value) × (x.depth ≤ limit)) }
{
    if limit == 0 {
        return Err(Fault::NoProgram { left: tokens.len() });
    }
    comma_layer(alloc, limit - 1, tokens)
}

/// An assignment expression whose depth is at most `limit`.
#[cycle(read)]
pub fn read_assign<'a>(
    alloc: Global,
    limit: u32,
    tokens: &'a [Token],
) -> Result<Measured<'a, Boxed<Expr>>, Fault>
    requires { limit < 2 ^ 16 }
    ensures gives { Gives (λ x. (x.value, x.rest.now)) result (read limit assign tokens.now) }
    ensures deep { IfOk result (λ x. (x.depth ≡ expression_depth x.value) × (x.depth ≤ limit)) }
{
    if limit == 0 {
        return Err(Fault::NoProgram { left: tokens.len() });
    }
    assign_layer(alloc, limit - 1, tokens)
}

/// A conditional expression whose depth is at most `limit`.
#[cycle(read)]
pub fn read_cond<'a>(
    alloc: Global,
    limit: u32,
    tokens: &'a [Token],
) -> Result<Measured<'a, Boxed<Expr>>, Fault>
    requires { limit < 2 ^ 16 }
    ensures gives { Gives (λ x. (x.value, x.rest.now)) result (read limit cond tokens.now) }
    ensures deep { IfOk result (λ x. (x.depth ≡ expression_depth x.value) × (x.depth ≤ limit)) }
{
    if limit == 0 {
        return Err(Fault::NoProgram { left: tokens.len() });
    }
    cond_layer(alloc, limit - 1, tokens)
}

/// An expression of a level of binary operators whose depth is at most `limit`.
#[cycle(read)]
fn read_part<'a>(
    alloc: Global,
    limit: u32,
    k: u32,
    tokens: &'a [Token],
) -> Result<Measured<'a, Boxed<Expr>>, Fault>
    requires { (limit < 2 ^ 16) × (k < 2 ^ 16) }
    ensures gives { Gives (λ x. (x.value, x.rest.now)) result (read limit (binary k) tokens.now) }
    ensures deep { IfOk result (λ x. (x.depth ≡ expression_depth x.value) × (x.depth ≤ limit)) }
{
    if limit == 0 {
        return Err(Fault::NoProgram { left: tokens.len() });
    }
    read_level(alloc, limit - 1, k, tokens)
}
