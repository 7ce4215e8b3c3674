//! Names that tell no more than that they are there.
ghost use Rattle.std.specs.Prelude.{◌≡◌, [], not, position, IfOk, OnOk, OnErr};
ghost use Rattle.std.specs.Str.{bytes_eq};
ghost use Rattle.pas_rules.specs.Scopes.{contains};
ghost use Rattle.pas_rules.specs.Scopes.{with_name};

use indexmap::IndexSet;
use std::alloc::{AllocError, Global};
use std::marker::Model;

/// Names, each once, in the order in which they came. To contracts they are that list.
#[derive(Drop)]
pub struct NameSet<'p> {
    names: IndexSet<&'p [u8]>,
}

impl<'p> Model for NameSet<'p> {
    ghost use Rattle.std.specs.Prelude.{ℕ, List};

    ghost Value = { List (List ℕ) };

    ghost use Rattle.pas_scopes.specs.NameSetInside.{spellings_in};

    ghost view = { spellings_in };
}

impl<'p> NameSet<'p> {
    /// No names.
    pub fn new(alloc: Global) -> NameSet<'p>
        ensures { result ≡ [] }
    {
        NameSet {
            names: IndexSet::new(alloc),
        }
    }

    /// Whether a name is there.
    pub fn has(&self, name: &[u8]) -> bool
        ensures { result ≡ contains self.now name.now }
    {
        self.names.contains(name)
    }

    // How many names stand before this one, if it is there.
    pub(crate) fn number_of(&self, name: &[u8]) -> Option<usize>
        ensures { result ≡ position (λ other. bytes_eq other name.now) self.now }
    {
        self.names.get_index_of(name)
    }

    /// Adds a name, and tells whether it is new. Where no memory is found, the names are as they were.
    pub fn add(&mut self, name: &'p [u8]) -> Result<bool, AllocError>
        ensures new { IfOk result (λ is_new. is_new ≡ not (contains self.old name.now)) }
        ensures ok { OnOk result (self.new ≡ with_name self.old name.now) }
        ensures err { OnErr result (self.new ≡ self.old) }
    {
        let is_new = self.names.insert(name)?;
        Ok(is_new)
    }
}
