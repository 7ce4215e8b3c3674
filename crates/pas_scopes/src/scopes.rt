//! Scopes (ISO 7185, 6.2): the required names lie outside the program's scope, and that outside each routine's.
ghost use Rattle.std.specs.Prelude.{◌≡◌, [], option_map, IfOk, IfSome};
ghost use Rattle.std.specs.Option.{option_copied};
ghost use Rattle.pas_syntax.specs.Views.{spelled_in, ident_in};
ghost use Rattle.pas_typed.specs.TypedViews.{slot_view, heading_view};
ghost use Rattle.pas_rules.specs.Scopes as spec;
ghost use Rattle.pas_rules.specs.Expressions as spec_of;
ghost use Rattle.pas_scopes.specs.NameViews.{entity_view, IsSmallEntity};
ghost use Rattle.pas_scopes.specs.ScopeViews.{all_idents, scopes_view, no_declarations};

use crate::name_sets::NameSet;
use crate::names::{Entity, Names, required};
use pas_syntax::tree::{Ident, Idents, Span};
use pas_typed::typed::{Heading, Home, Slot, Variable};
use pas_typed::types::{PasType, Table};
use sqlite_items::Items;
use std::alloc::{AllocError, Global};

/// The scope of a routine with this number.
#[derive(Drop)]
pub struct Inner<'p> {
    /// The number of the routine.
    pub number: u32,
    /// Its labels.
    pub labels: Items<u32>,
    /// Its names.
    pub names: Names<'p>,
    /// Its parameters and variables.
    pub variables: Items<Variable>,
    /// How many cells these have.
    pub cells: u64,
}

/// A routine as far as it is known, and the scope that its heading makes, while its body is still to come.
#[derive(Drop)]
pub struct KnownRoutine<'p> {
    /// Its heading.
    pub heading: Heading,
    /// The scope that its heading makes, while its body is still to come.
    pub awaited: Option<Inner<'p>>,
}

/// The scopes at a place in a program. Nothing in them changes while statements are looked at.
#[derive(Drop)]
pub struct Scopes<'p> {
    /// Where memory is found.
    pub alloc: Global,
    /// The spellings of the program's names and strings.
    pub spellings: &'p [u8],
    /// The names of the program's parameters.
    pub parameters: NameSet<'p>,
    /// The program's labels.
    pub labels: Items<u32>,
    /// The label of the last statement of the program, if that is empty.
    pub last_label: Option<u32>,
    /// The types made so far.
    pub types: Table,
    /// The program's names.
    pub names: Names<'p>,
    /// The program's variables.
    pub globals: Items<Variable>,
    /// How many cells these have.
    pub cells: u64,
    /// The routines.
    pub routines: Vec<KnownRoutine<'p>>,
    /// The scope of the routine that the place is in.
    pub inner: Option<Inner<'p>>,
}

impl<'p> Inner<'p> {
    /// A scope without names.
    pub fn new(alloc: Global, number: u32) -> Inner<'p>
        ensures { result ≡ record { number = number; labels = []; names = []; variables = []; cells = 0 } }
    {
        Inner {
            number,
            labels: Items::new(alloc),
            names: Names::new(alloc),
            variables: Items::new(alloc),
            cells: 0,
        }
    }
}

impl<'p> Scopes<'p> {
    /// The scope of a program without names.
    pub fn new(alloc: Global, spellings: &'p [u8]) -> Scopes<'p>
        ensures spellings { result.spellings.now ≡ spellings.now }
        ensures view { scopes_view result ≡ no_declarations }
    {
        Scopes {
            alloc,
            spellings,
            parameters: NameSet::new(alloc),
            labels: Items::new(alloc),
            last_label: None,
            types: Table::new(alloc),
            names: Names::new(alloc),
            globals: Items::new(alloc),
            cells: 0,
            routines: Vec::new(alloc),
            inner: None,
        }
    }

    /// The spelling of a name or string of the program.
    pub fn spelling(&self, span: Span) -> &'p [u8]
        ensures { result.now ≡ spelled_in self.now.spellings.now span }
    {
        let first = self.spellings.len().min(span.first as usize);
        let rest = &self.spellings[first..];
        let count = rest.len().min(span.count as usize);
        &rest[..count]
    }

    // What a name stands for: in the routine, else in the program, else outside.
    pub(crate) fn entity_of(&self, name: &[u8]) -> Option<Entity>
        ensures entity { option_map entity_view result ≡ spec.entity_of (scopes_view self.now) name.now }
        ensures small { IfSome result (λ entity. IsSmallEntity (entity_view entity)) }
    {
        match self.entity_inside(name) {
            Some(entity) => Some(entity),
            None => self.entity_outside(name),
        }
    }

    // What a name stands for in the program, else outside.
    fn entity_outside(&self, name: &[u8]) -> Option<Entity>
        ensures small { IfSome result (λ entity. IsSmallEntity (entity_view entity)) }
        ensures entity { option_map entity_view result
            ≡ spec.or_else (spec.entity_in self.now.names name.now) (spec.entity_in spec.required name.now) }
    {
        match self.names.get(name) {
            Some(entity) => Some(entity),
            None => required(name),
        }
    }

    // What a name stands for in the routine.
    fn entity_inside(&self, name: &[u8]) -> Option<Entity>
        ensures small { IfSome result (λ entity. IsSmallEntity (entity_view entity)) }
        ensures entity { option_map entity_view result
            ≡ spec.entity_in (spec.names_inside (scopes_view self.now).inner) name.now }
    {
        match &self.inner {
            Some(inner) => inner.names.get(name),
            None => None,
        }
    }

    /// What a name of the program's tree stands for.
    pub fn named(&self, ident: Ident) -> Option<Entity>
        ensures small { IfSome result (λ entity. IsSmallEntity (entity_view entity)) }
        ensures entity { option_map entity_view result
            ≡ spec.entity_of (scopes_view self.now) (ident_in self.now.spellings.now ident).name }
    {
        self.entity_of(self.spelling(ident.span))
    }

    /// The file that is meant where a call names none: the parameter of the program with this name, where nothing hides
    /// it.
    pub fn standard_file(&self, name: &[u8]) -> Option<Slot>
        ensures { option_map slot_view result ≡ spec.standard_file (scopes_view self.now) name.now }
    {
        match self.entity_of(name) {
            Some(Entity::Variable(slot))
                if slot.home == Home::Global && slot.pas_type.is(PasType::Text) => { Some(slot) },
            _ => None,
        }
    }

    /// What the heading of a routine tells.
    pub fn heading_of(&self, number: u32) -> Option<&Heading>
        ensures { option_map (heading_view self.now.spellings.now) (option_copied result)
            ≡ spec_of.heading_of (scopes_view self.now) number }
    {
        match self.routines.get(number as usize) {
            Some(known) => Some(&known.heading),
            None => None,
        }
    }

    // Whether a name is declared in the routine.
    pub(crate) fn is_local(&self, name: &[u8]) -> bool
        ensures { result ≡ spec.contains (spec.names_of (spec.names_inside (scopes_view self.now).inner)) name.now }
    {
        match &self.inner {
            Some(inner) => inner.names.has(name),
            None => false,
        }
    }
}

/// The names of a list, one after another.
pub fn idents_of(alloc: Global, idents: &Idents) -> Result<Items<Ident>, AllocError>
    ensures { IfOk result (λ all. all ≡ all_idents idents.now) }
{
    let mut all = Items::new(alloc);
    all.push(idents.first)?;
    for behind in idents.more.as_slice() {
        all.push(behind.item)?;
    }
    Ok(all)
}
