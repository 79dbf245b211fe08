//! One scope of names.

ghost use Rattle.std.specs.Prelude.{◌≡◌, [], ◌∷◌, OnOk, IfErr};
ghost use Rattle.std.specs.Option.{option_copied};
ghost use Rattle.check_rules.specs.Scopes.{lookup};
ghost use Rattle.check_rules.specs.declared.error.CheckError.TheVariants.{OutOfMemory};

use check_rules::{Binding, CheckError, Known};
use sqlite_items::{Items, at};
use std::alloc::Global;
use std::collections::BTreeMap;
use std::marker::Model;

/// The names of one scope. A look-up takes the logarithm of their number.
#[derive(Drop)]
pub(crate) struct Scope {
    /// The bindings, of which the newest stands last.
    bindings: Items<Binding>,
    /// Where the newest binding of each name stands.
    places: BTreeMap<u32, usize>,
}

impl Model for Scope {
    ghost use Rattle.std.specs.Prelude.{List, reverse};
    ghost use Rattle.check_rules.specs.declared.names.Binding.{Binding};
    ghost use Rattle.check_scopes.specs.Lookup.{HasPlaces};

    ghost Value = { List Binding };

    ghost view = { λ s. reverse s.bindings };

    ghost invariant = { λ s. HasPlaces s.places s.bindings };
}

impl Scope {
    /// No names.
    pub(crate) fn new(alloc: Global) -> Scope
        ensures { result ≡ [] }
    {
        Scope {
            bindings: Items::new(alloc),
            places: BTreeMap::new(alloc),
        }
    }

    /// The declaration of a name.
    pub(crate) fn find(&self, name: u32) -> Option<&Known>
        ensures { option_copied result ≡ lookup name self.now }
    {
        match self.places.get(&name) {
            None => None,
            Some(place) => match at(self.bindings.as_slice(), *place) {
                None => None,
                Some(binding) => Some(&binding.known),
            },
        }
    }

    /// One more name, which hides another of the same name.
    pub(crate) fn add(&mut self, binding: Binding) -> Result<(), CheckError>
        ensures ok { OnOk result (self.new ≡ binding ∷ self.old) }
        ensures err { IfErr result (λ e. e ≡ OutOfMemory) }
    {
        let name = binding.name;
        let place = self.bindings.len();
        self.bindings.push(binding)?;
        match self.places.insert(name, place) {
            Ok(_) => Ok(()),
            Err(_) => {
                self.bindings.pop();
                Err(CheckError::OutOfMemory)
            }
        }
    }
}
