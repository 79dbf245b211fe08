//! The labels of a `switch`.

ghost use Rattle.std.specs.Prelude.{◌≡◌, ◌++◌, ◌∷◌, [], true, OnOk, IfErr};
ghost use Rattle.check_rules.specs.Walk.{is_among, no_labels, walk_label, walk_labels};
ghost use Rattle.check_rules.specs.declared.error.CheckError.TheVariants.{OutOfMemory};
ghost use Rattle.check_scopes.specs.Gave.{GaveAt};

use c_syntax::Label;
use check_expressions::{constant_with_word, require};
use check_rules::{CheckError, CheckKind};
use check_scopes::Scopes;
use sqlite_items::Items;
use std::alloc::Global;
use std::collections::BTreeSet;
use std::marker::Model;

/// The labels of a `switch` so far: the words of its cases in order and as a set, and whether there is a `default`.
#[derive(Drop)]
pub struct Labels {
    cases: Items<u32>,
    words: BTreeSet<u32>,
    has_default: bool,
}

impl Model for Labels {
    ghost use Rattle.std.specs.Prelude.{◌≡◌, ℕ};
    ghost use Rattle.std.specs.BTreeSet.{contains};
    ghost use Rattle.std.specs.Ordering.{nat_cmp};
    ghost use Rattle.check_rules.specs.Walk.{Labels as Seen, is_among};

    ghost Value = { Seen };

    ghost view = { λ l. record { cases = l.cases; has_default = l.has_default } };

    ghost invariant = { λ l. (n : ℕ) → contains nat_cmp l.words n ≡ is_among n l.cases };
}

impl Labels {
    /// No labels.
    pub fn new(alloc: Global) -> Labels
        ensures { result ≡ no_labels }
    {
        Labels {
            cases: Items::new(alloc),
            words: BTreeSet::new(alloc),
            has_default: false,
        }
    }

    /// Whether the word of a case has come.
    fn has(&self, word: u32) -> bool
        ensures { result ≡ is_among word self.now.cases }
    {
        self.words.contains(&word)
    }

    /// The word of one more case.
    fn add(&mut self, word: u32) -> Result<(), CheckError>
        ensures ok { OnOk result (self.new ≡ record { cases = self.old.cases ++ word ∷ []; has_default = self.old.has_default }) }
        ensures err { IfErr result (λ e. e ≡ OutOfMemory) }
    {
        self.cases.push(word)?;
        match self.words.insert(word) {
            Ok(_) => Ok(()),
            Err(_) => {
                self.cases.pop();
                Err(CheckError::OutOfMemory)
            }
        }
    }

    /// Whether `default` has come.
    fn has_default(&self) -> bool
        ensures { result ≡ self.now.has_default }
    {
        self.has_default
    }

    /// `default` has come.
    fn set_default(&mut self)
        ensures { self.new ≡ record { cases = self.old.cases; has_default = true } }
    {
        self.has_default = true;
    }
}

fn label(alloc: Global, scopes: &Scopes, labels: &mut Labels, l: Label) -> Result<Label, CheckError>
    ensures { GaveAt result labels.new (walk_label l labels.old scopes.now) }
{
    match l {
        Label::Case { value, at } => {
            let (value, word) = constant_with_word(alloc, scopes, value)?;
            require(!labels.has(word), CheckKind::CaseTwice, at)?;
            labels.add(word)?;
            Ok(Label::Case { value, at })
        }
        Label::Otherwise { at } => {
            require(!labels.has_default(), CheckKind::CaseTwice, at)?;
            labels.set_default();
            Ok(Label::Otherwise { at })
        }
    }
}

/// The labels of one clause.
pub fn each_label(
    alloc: Global,
    scopes: &Scopes,
    labels: &mut Labels,
    ls: Items<Label>,
) -> Result<Items<Label>, CheckError>
    ensures { GaveAt result labels.new (walk_labels ls labels.old scopes.now) }
{
    let mut ls = ls;
    let mut turned = Items::new(alloc);
    while let Some(l) = ls.pop() {
        turned.push(l)?;
    }
    let mut all = Items::new(alloc);
    while let Some(l) = turned.pop() {
        all.push(label(alloc, scopes, labels, l)?)?;
    }
    Ok(all)
}
