//! Where the jumps of a statement go.

ghost use Rattle.std.specs.Prelude.{◌≡◌};
ghost use Rattle.lower_rules.specs.Statements.{in_loop};
ghost use Rattle.lower_statements.specs.Contexts.{context_of};

/// Where a statement's jumps go, and the first free variable.
#[derive(Clone, Copy)]
pub struct Context {
    /// The block behind the innermost loop or `switch`.
    pub breaks_to: u32,
    /// The block where the innermost loop goes on with its next turn.
    pub continues_to: u32,
    /// The block where the function returns.
    pub returns_to: u32,
    /// The first free variable.
    pub free: u32,
}

/// Inside a loop.
pub(crate) fn in_loop(breaks_to: u32, continues_to: u32, to: Context) -> Context
    ensures { context_of result ≡ in_loop breaks_to continues_to (context_of to) }
{
    Context {
        breaks_to,
        continues_to,
        ..to
    }
}
