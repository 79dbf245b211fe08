//! The variables of a call.

ghost use Rattle.std.specs.Prelude.{◌≡◌, ◌^◌, ◌<◌, [], map, length, Option, None, Some, OnOk, IfOk, slice_get};
ghost use Rattle.mid_blocks.specs.Run.{word_in, index_in, with_word, with_result};
ghost use Rattle.test_oracle.specs.Locals.{variables_of};

use hard_words::OutOfMemory;
use std::alloc::Global;
use std::marker::Model;

/// The word of each variable of a call; a variable behind them has none.
#[derive(Drop)]
pub(crate) struct Locals {
    words: Vec<Option<u32>>,
}

impl Model for Locals {
    ghost use Rattle.std.specs.Prelude.{List, Option, ℕ};

    ghost Value = { List (Option ℕ) };

    ghost view = { λ it. it.words.items };
}

#[tactic(auto, using(crate::proofs::Variables::variable_rules))]
impl Locals {
    /// No variable has a word. It takes no memory.
    pub(crate) fn new(alloc: Global) -> Locals
        ensures { result ≡ [] }
    {
        Locals {
            words: Vec::new(alloc),
        }
    }

    /// The parameters of a call from a call with these variables.
    pub(crate) fn parameters(&self, alloc: Global, args: &[u32]) -> Result<Locals, OutOfMemory>
        ensures { IfOk result (λ it. variables_of it ≡ slice_get (map (word_in (variables_of self.now)) args.now)) }
    {
        let words = self.words_of(alloc, args)?;
        Ok(Locals { words })
    }

    // The words of some variables.
    fn words_of(&self, alloc: Global, args: &[u32]) -> Result<Vec<Option<u32>>, OutOfMemory>
        ensures { IfOk result (λ words. words.items ≡ map (λ arg. Some (word_in (variables_of self.now) arg)) args.now) }
    {
        let words = args.iter().map(|arg| Some(self.word(*arg))).collect(alloc)?;
        Ok(words)
    }

    /// The word of a variable, 0 where it has none.
    pub(crate) fn word(&self, variable: u32) -> u32
        ensures { result ≡ word_in (variables_of self.now) variable }
    {
        match self.words.get(variable as usize) {
            Some(Some(word)) => *word,
            Some(None) | None => 0,
        }
    }

    /// The word of a variable, 0 where there is no variable.
    pub(crate) fn index(&self, variable: Option<u32>) -> u32
        ensures { result ≡ index_in (variables_of self.now) variable }
    {
        match variable {
            Some(variable) => self.word(variable),
            None => 0,
        }
    }

    /// Gives a variable a word.
    pub(crate) fn put(&mut self, to: u32, word: u32) -> Result<(), OutOfMemory>
        ensures { OnOk result (variables_of self.new ≡ with_word (variables_of self.old) to word) }
    {
        self.reach(to as usize)?;
        self.words[to as usize] = Some(word);
        Ok(())
    }

    /// Gives a variable a word, if there is a variable.
    pub(crate) fn put_result(&mut self, to: Option<u32>, word: u32) -> Result<(), OutOfMemory>
        ensures { OnOk result (variables_of self.new ≡ with_result (variables_of self.old) to word) }
    {
        match to {
            Some(to) => self.put(to, word),
            None => Ok(()),
        }
    }

    // Makes room for the word of a variable.
    fn reach(&mut self, to: usize) -> Result<(), OutOfMemory>
        requires { to < 2 ^ 32 }
        ensures reaches { OnOk result (to < length self.new) }
        ensures same { OnOk result (variables_of self.new ≡ variables_of self.old) }
    {
        for at in self.words.len()..to + 1 {
            self.words.push(None)?;
        }
        Ok(())
    }
}
