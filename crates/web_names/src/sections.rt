//! Names of sections.
ghost use Rattle.std.specs.Prelude.{◌≡◌, ◌≢◌, ◌<◌, ◌≤◌, [], length, position, true, None, Ok, Err};
ghost use Rattle.std.specs.Prelude.{IfSome, IfNone, IfOk, OnErr, IsErrOf};
ghost use Rattle.std.specs.List.{list_any};
ghost use Rattle.std.specs.Str.{bytes_eq};
ghost use Rattle.web_names.specs.SectionNames.{is_incompatible, with_section, whole_name, prefix_name};
ghost use Rattle.web_names.specs.Refusals.{IfRefused};
ghost use Rattle.web_names.specs.inner.SectionOrder.{texts_of, ordered_at, Rises, IsOrderOf, IsLowerBound};
ghost use Rattle.web_names.specs.inner.SectionOrder.{is_begun_at, begins_with_one_before, TakesNewAt};

use crate::NameErr;
use indexmap::IndexSet;
use std::alloc::Global;
use std::marker::Model;

/// The most names of sections. This project's own.
const SECTION_LIMIT: usize = 65_535;

/// The whole names of a web's sections, in the order of their first appearance. To contracts it is the list of these
/// names, and the place of a name counts from 0.
///
/// A name is found by hashing. Beside the names stand their places, of two bytes each, in the order of the names'
/// bytes, which a search halves. Since no held name begins with another, one neighbour on each side tells whether a
/// new name goes with all, and two neighbours tell what a prefix stands for. A new name moves the places after it.
#[derive(Drop)]
pub struct Sections {
    names: IndexSet<Vec<u8>>,
    order: Vec<u16>,
}

impl Model for Sections {
    ghost use Rattle.std.specs.Prelude.{List, ℕ};

    ghost Value = { List (List ℕ) };

    ghost use Rattle.web_names.specs.inner.SectionOrder.{names_in, IsInOrder};

    ghost view = { names_in };

    ghost invariant = { IsInOrder };
}

impl Sections {
    /// No names yet. It takes no memory yet, and grows by this allocator.
    pub fn new(alloc: Global) -> Sections
        ensures { result ≡ [] }
    {
        Sections {
            names: IndexSet::new(alloc),
            order: Vec::new(alloc),
        }
    }

    /// The place of a whole name, which is added at the end where it is new.
    ///
    /// Refusals: `Incompatible`, where the name is new and begins with a held name, or a held name begins with it;
    /// else `Full`, where the name is new and 65,535 names are held. After a refusal, or want of memory, the names are
    /// as they were. Want of memory comes only where the name is new.
    pub fn whole(&mut self, name: &[u8]) -> Result<u32, NameErr>
        ensures ok { IfOk result (λ place. whole_name name.now self.old ≡ Ok (place, self.new)) }
        ensures refused { IfRefused result (λ refusal. whole_name name.now self.old ≡ Err refusal) }
        ensures within { IfOk result (λ place. place < length self.new) }
        ensures grows { length self.old ≤ length self.new }
        ensures memory { IsErrOf result NameErr.OutOfMemory → position (bytes_eq name.now) self.old ≡ None }
        ensures unchanged { OnErr result (self.new ≡ self.old) }
    {
        match self.names.get_index_of(name) {
            Some(place) => Ok(place as u32),
            None => self.add(name),
        }
    }

    /// The place of the one held name that begins with this prefix, or equals it.
    ///
    /// Refusals: `NoMatch`, where there is none; `Ambiguous`, where there are several. It takes no memory.
    pub fn prefix(&self, name: &[u8]) -> Result<u32, NameErr>
        ensures ok { IfOk result (λ place. prefix_name name.now self.now ≡ Ok place) }
        ensures refused { IfRefused result (λ refusal. prefix_name name.now self.now ≡ Err refusal) }
        ensures within { IfOk result (λ place. place < length self.now) }
        ensures no_memory { result ≢ Err NameErr.OutOfMemory }
    {
        let names = self.names.as_slice();
        let at = lower_bound(names, &self.order, name);
        if !begins_at(names, &self.order, at, name) {
            return Err(NameErr::NoMatch);
        }
        if begins_at(names, &self.order, at + 1, name) {
            return Err(NameErr::Ambiguous);
        }
        Ok(u32::from(self.order[at]))
    }

    // Adds a name that is not held. All growths come before the first change.
    fn add(&mut self, name: &[u8]) -> Result<u32, NameErr>
        requires { position (bytes_eq name.now) self.old ≡ None }
        ensures ok { IfOk result (λ place. with_section name.now self.old ≡ Ok (place, self.new)) }
        ensures refused { IfRefused result (λ refusal. with_section name.now self.old ≡ Err refusal) }
        ensures unchanged { OnErr result (self.new ≡ self.old) }
    {
        let Some(index) = index_of_new(self.names.as_slice(), &self.order, name) else {
            return Err(NameErr::Incompatible);
        };
        let place = self.order.len();
        if place == SECTION_LIMIT {
            return Err(NameErr::Full);
        }
        let copy = Vec::from_slice(*self.order.allocator(), name)?;
        self.order.reserve(1)?;
        self.names.insert(copy)?;
        self.order.insert(index, place as u16).unwrap();
        Ok(place as u32)
    }
}

// The name that stands at this index in the order of bytes.
fn name_at<'n>(names: &'n [Vec<u8>], order: &[u16], index: usize) -> &'n [u8]
    requires rises { Rises (texts_of names.now) order.now }
    requires within { index < length order.now }
    ensures { result.now ≡ ordered_at (texts_of names.now) order.now index }
{
    names[usize::from(order[index])].as_slice()
}

// How many names come before this one in the order of bytes.
fn lower_bound(names: &[Vec<u8>], order: &[u16], name: &[u8]) -> usize
    requires { Rises (texts_of names.now) order.now }
    ensures { IsLowerBound (texts_of names.now) order.now name.now result }
{
    let mut low = 0;
    let mut high = order.len();
    while low < high {
        let middle = low + (high - low) / 2;
        if name_at(names, order, middle).cmp(name).is_lt() {
            low = middle + 1;
        } else {
            high = middle;
        }
    }
    low
}

// The index in the order of bytes at which a new name belongs, or none where it is incompatible with a held name.
fn index_of_new(names: &[Vec<u8>], order: &[u16], name: &[u8]) -> Option<usize>
    requires order { IsOrderOf (texts_of names.now) order.now }
    requires new { position (bytes_eq name.now) (texts_of names.now) ≡ None }
    ensures none { IfNone result (list_any (is_incompatible name.now) (texts_of names.now) ≡ true) }
    ensures some { IfSome result (TakesNewAt (texts_of names.now) order.now name.now) }
{
    let index = lower_bound(names, order, name);
    if begins_at(names, order, index, name) || begins_with_one_before(names, order, index, name) {
        return None;
    }
    Some(index)
}

// Whether there is a name at this index in the order of bytes, and it begins with this prefix.
#[tactic(auto, unfolding(crate::specs::SectionNames::is_prefix_of))]
fn begins_at(names: &[Vec<u8>], order: &[u16], index: usize, prefix: &[u8]) -> bool
    requires { Rises (texts_of names.now) order.now }
    ensures { result ≡ is_begun_at (texts_of names.now) order.now index prefix.now }
{
    index < order.len() && name_at(names, order, index).starts_with(prefix)
}

// Whether this name begins with the name before this index in the order of bytes.
#[tactic(auto, unfolding(crate::specs::SectionNames::is_prefix_of))]
fn begins_with_one_before(names: &[Vec<u8>], order: &[u16], index: usize, name: &[u8]) -> bool
    requires rises { Rises (texts_of names.now) order.now }
    requires within { index ≤ length order.now }
    ensures { result ≡ begins_with_one_before (texts_of names.now) order.now index name.now }
{
    index > 0 && name.starts_with(name_at(names, order, index - 1))
}
