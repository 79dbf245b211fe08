//! The numbers that a made program follows from.

ghost use Rattle.std.specs.Prelude.{◌≡◌, ◌<◌, ◌%◌};
ghost use Rattle.program_maker.specs.Draws.{start, next, draw, numbers_after, operator};

/// The numbers drawn so far: the last of them, below 65537.
#[derive(Clone, Copy, Debug)]
pub(crate) struct Draws {
    pub(crate) last: u64,
    ghost small: { last < 65537 },
}

/// The numbers of one function.
#[derive(Clone, Copy, Debug)]
pub(crate) struct Numbers {
    /// What `c` begins with, below 1,000.
    pub(crate) first: u32,
    /// The turns of the loop, 2 to 8.
    pub(crate) turns: u32,
    /// The operator of `c` and `a`.
    pub(crate) inner: u8,
    /// The operator between the parentheses.
    pub(crate) outer: u8,
    /// The operator of `b` and the constant.
    pub(crate) other: u8,
    /// The constant, below 1,000.
    pub(crate) constant: u32,
    /// The operator of an element of `t` and `i`.
    pub(crate) stored: u8,
    /// The divisor, 2 to 9.
    pub(crate) divisor: u32,
}

impl Draws {
    /// The start for a number.
    pub(crate) fn of(number: u64) -> Draws
        ensures { result.last ≡ start number }
    {
        Draws {
            last: number % 65537,
        }
    }

    // A new number, modulo another one.
    fn pick(&mut self, choices: u32) -> u32
        requires { 0 < choices }
        ensures last { self.new.last ≡ next self.old.last }
        ensures picked { result ≡ next self.old.last % choices }
        ensures below { result < choices }
    {
        self.last = (75 * self.last + 74) % 65537;
        (self.last % choices as u64) as u32
    }

    /// The numbers of the next function, in their order.
    pub(crate) fn numbers(&mut self) -> Numbers
        ensures numbers { result ≡ numbers_after self.old.last }
        ensures last { self.new.last ≡ draw self.old.last 8 }
    {
        let first = self.pick(1000);
        let turns = self.pick(7) + 2;
        let inner = operator(self.pick(6));
        let outer = operator(self.pick(6));
        let other = operator(self.pick(6));
        let constant = self.pick(1000);
        let stored = operator(self.pick(6));
        let divisor = self.pick(8) + 2;
        Numbers {
            first,
            turns,
            inner,
            outer,
            other,
            constant,
            stored,
            divisor,
        }
    }
}

// The operator of a number below 6.
fn operator(number: u32) -> u8
    ensures { result ≡ operator number }
{
    match number {
        0 => b'+',
        1 => b'-',
        2 => b'*',
        3 => b'&',
        4 => b'|',
        _ => b'^',
    }
}
