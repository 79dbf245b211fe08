//! Which words of a signed program may be reached. The call does nothing; its contract is the law.

ghost use Rattle.layout_facts.specs.Reached.{NoWordIsDead};

/// Each word that neither begins a block nor is a break has a word before it.
pub fn no_word_is_dead()
    ensures { NoWordIsDead }
{}
