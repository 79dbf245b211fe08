//! Marks of the blocks of a function, or of functions.

ghost use Rattle.std.specs.Prelude.{◌≡◌, ◌<◌, false, true, length, slice_set, replicate, IfOk};
ghost use Rattle.mid_blocks.specs.Pruned.{is_marked, function_marks};

use hard_words::OutOfMemory;
use std::alloc::Global;
use std::marker::Model;

/// Marks in order, each raised or not; contracts see the list of them.
#[derive(Debug, Drop)]
pub struct Marks {
    list: Vec<bool>,
}

impl Model for Marks {
    ghost use Rattle.std.specs.Prelude.{List, Bool};

    ghost Value = { List Bool };

    ghost view = { λ m. m.list.items };
}

impl Marks {
    /// The marks of a vector. It takes no memory.
    pub fn from_vec(list: Vec<bool>) -> Marks
        ensures { result ≡ list.items }
    {
        Marks { list }
    }

    /// So many marks, none of them raised.
    pub fn none(alloc: Global, count: usize) -> Result<Marks, OutOfMemory>
        ensures { IfOk result (λ m. m ≡ replicate count false) }
    {
        let mut list = Vec::new(alloc);
        list.resize(count, false)?;
        Ok(Marks { list })
    }

    /// How many marks there are.
    pub fn len(&self) -> usize
        ensures { result ≡ length self.now }
    {
        self.list.len()
    }

    /// Whether the mark at a place is raised; where there is none, it isn't.
    pub fn get(&self, at: usize) -> bool
        ensures { result ≡ is_marked self.now at }
    {
        at < self.list.len() && self.list[at]
    }

    /// Raises the mark at a place.
    pub(crate) fn raise(&mut self, at: usize)
        requires { at < length self.old }
        ensures { self.new ≡ slice_set self.old at true }
    {
        self.list[at] = true;
    }
}

/// The marks of the functions: a function is marked where its first block is.
pub(crate) fn function_marks(alloc: Global, marks: &[Marks]) -> Result<Marks, OutOfMemory>
    ensures { IfOk result (λ m. m ≡ function_marks marks.now) }
{
    let mut list = Vec::new(alloc);
    for blocks in marks {
        list.push(blocks.get(0))?;
    }
    Ok(Marks::from_vec(list))
}
