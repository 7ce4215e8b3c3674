//! Identifiers.
ghost use Rattle.std.specs.Prelude.{◌≡◌, ◌≢◌, ◌<◌, ◌≤◌, pos, [], map, length, slice_get, true, false, None, Some, Ok};
ghost use Rattle.std.specs.Prelude.{Err};
ghost use Rattle.std.specs.Prelude.{IfOk, OnErr, IsErrOf};
ghost use Rattle.web_names.specs.Identifiers.{id_of, printed_form, compared_form, new_name, with_name, with_value};
ghost use Rattle.web_names.specs.Identifiers.{used_at, used, defined_again, defined};
ghost use Rattle.web_names.specs.Identifiers.{is_one_letter, is_compared, is_form_taken};
ghost use Rattle.web_names.specs.Refusals.{IfRefused};

use crate::forms::{compared_form, printed_form};
use crate::{Class, NameErr};
use indexmap::IndexMap;
use std::alloc::Global;
use std::marker::Model;
use wb_base::Options;

/// The most names. This project's own.
const NAME_LIMIT: usize = 65_535;

// What is kept of a name beside its word.
#[derive(Drop)]
struct Entry {
    class: Class,
    value: i32,
    printed: Vec<u8>,
}

impl Entry {
    // The class and the value.
    fn kind(&self) -> (Class, i32)
        ensures { result ≡ (self.now.class, self.now.value) }
    {
        (self.class, self.value)
    }
}

// The compared form of a word.
type Form = Vec<u8>;

/// The identifiers of a web, each with its class and value, in the order of their first use. To contracts it is the
/// options with that list; the id of a name is its place in the list, from 0.
///
/// A word is found by hashing, and so is the ordinary name with a word's compared form, of which there is at most one.
/// A form leads to the place of a name, which counts no more once that name is a macro.
#[derive(Drop)]
pub struct Names {
    options: Options,
    entries: IndexMap<Vec<u8>, Entry>,
    places: IndexMap<Form, u32>,
}

impl Model for Names {
    ghost use Rattle.web_names.specs.Identifiers.{Identifiers};

    ghost Value = { Identifiers };

    ghost use Rattle.web_names.specs.inner.NameIndex.{identifiers_in, IsIndexed};

    ghost view = { identifiers_in };

    ghost invariant = { IsIndexed };
}

impl Names {
    /// No names yet. It takes no memory yet, and grows by this allocator.
    pub fn new(alloc: Global, options: Options) -> Names
        ensures { result ≡ record { options = options; names = [] } }
    {
        Names {
            options,
            entries: IndexMap::new(alloc),
            places: IndexMap::new(alloc),
        }
    }

    /// The id of a word of Pascal text. A word that is no name yet becomes an ordinary one.
    ///
    /// Refusals: `Conflict`, where the word is new and an ordinary name has the same compared form; else `Full`,
    /// where the word is new and 65,535 names are held. Words of one letter are not compared. After a refusal, or
    /// want of memory, the names are as they were. Want of memory comes only where the word is new.
    pub fn intern(&mut self, word: &[u8]) -> Result<u32, NameErr>
        ensures ok { IfOk result (λ id.
            used self.old.options word.now self.old.names ≡ Ok (id, self.new.names)) }
        ensures refused { IfRefused result (λ refusal.
            used self.old.options word.now self.old.names ≡ Err refusal) }
        ensures within { IfOk result (λ id. id < length self.new.names) }
        ensures grows { length self.old.names ≤ length self.new.names }
        ensures memory { IsErrOf result NameErr.OutOfMemory → id_of word.now self.old.names ≡ None }
        ensures unchanged { OnErr result (self.new ≡ self.old) }
        ensures options { self.new.options ≡ self.old.options }
    {
        match self.entries.get_index_of(word) {
            Some(index) => Ok(index as u32),
            None => self.add_ordinary(word),
        }
    }

    /// The id of a word that is defined as a macro of this class.
    ///
    /// Refusals: `Before`, where the word is a macro already; `Appeared`, where it is an ordinary name and the class
    /// is `Numeric`; `Full`, where it is new and 65,535 names are held. After a refusal, or want of memory, the names
    /// are as they were. Want of memory comes only where the word is new.
    pub fn define(&mut self, word: &[u8], class: Class) -> Result<u32, NameErr>
        requires { class ≢ Class.Ordinary }
        ensures ok { IfOk result (λ id. defined word.now class self.old.names ≡ Ok (id, self.new.names)) }
        ensures refused { IfRefused result (λ refusal. defined word.now class self.old.names ≡ Err refusal) }
        ensures within { IfOk result (λ id. id < length self.new.names) }
        ensures grows { length self.old.names ≤ length self.new.names }
        ensures memory { IsErrOf result NameErr.OutOfMemory → id_of word.now self.old.names ≡ None }
        ensures unchanged { OnErr result (self.new ≡ self.old) }
        ensures options { self.new.options ≡ self.old.options }
    {
        match self.entries.get_index_of(word) {
            Some(index) => self.define_again(index, class),
            None => self.add(word, class),
        }
    }

    /// Gives a name a value: a macro its value, or the number of its text. An ordinary name keeps it too, where it
    /// means nothing.
    pub fn set(&mut self, id: u32, value: i32)
        requires { id < length self.old.names }
        ensures value { self.new ≡ record self.old { names = with_value id value self.old.names } }
        ensures count { length self.new.names ≡ length self.old.names }
    {
        self.entries[id as usize].value = value;
    }

    /// The class of a name, and its value: what `set` gave it, or 0.
    pub fn kind(&self, id: u32) -> (Class, i32)
        requires { id < length self.now.names }
        ensures { slice_get (map (λ name. (name.class, name.value)) self.now.names) id ≡ Some result }
    {
        self.entries[id as usize].kind()
    }

    /// A name as it stands in the Pascal text.
    pub fn printed(&self, id: u32) -> &[u8]
        requires { id < length self.now.names }
        ensures { slice_get (map (λ name. printed_form self.now.options name.word) self.now.names) id
            ≡ Some result.now }
    {
        &self.entries[id as usize].printed
    }

    // Whether a name that is compared has this compared form.
    fn is_taken(&self, form: &Form) -> bool
        ensures { result ≡ is_form_taken self.now.options form.now.items self.now.names }
    {
        match self.places.get(form) {
            Some(place) => self.entries[*place as usize].class == Class::Ordinary,
            None => false,
        }
    }

    // Adds an ordinary name.
    fn add_ordinary(&mut self, word: &[u8]) -> Result<u32, NameErr>
        requires { id_of word.now self.old.names ≡ None }
        ensures ok { IfOk result (λ id.
            used_at None self.old.options word.now self.old.names ≡ Ok (id, self.new.names)) }
        ensures refused { IfRefused result (λ refusal.
            used_at None self.old.options word.now self.old.names ≡ Err refusal) }
        ensures unchanged { OnErr result (self.new ≡ self.old) }
        ensures options { self.new.options ≡ self.old.options }
    {
        if word.len() == 1 {
            return self.add(word, Class::Ordinary);
        }
        let form = compared_form(*self.entries.allocator(), word, &self.options)?;
        if self.is_taken(&form) {
            return Err(NameErr::Conflict);
        }
        self.add_compared(word, form)
    }

    // Makes the name at this index a macro, if it is an ordinary one.
    fn define_again(&mut self, index: usize, class: Class) -> Result<u32, NameErr>
        requires within { index < length self.old.names }
        requires class { class ≢ Class.Ordinary }
        ensures ok { IfOk result (λ id. defined_again index class self.old.names ≡ Ok (id, self.new.names)) }
        ensures refused { IfRefused result (λ refusal. defined_again index class self.old.names ≡ Err refusal) }
        ensures memory { result ≢ Err NameErr.OutOfMemory }
        ensures within { IfOk result (λ id. id < length self.new.names) }
        ensures count { length self.new.names ≡ length self.old.names }
        ensures unchanged { OnErr result (self.new ≡ self.old) }
        ensures options { self.new.options ≡ self.old.options }
    {
        if self.entries[index].class != Class::Ordinary {
            return Err(NameErr::Before);
        }
        if class == Class::Numeric {
            return Err(NameErr::Appeared);
        }
        self.entries[index].class = class;
        Ok(index as u32)
    }

    // Adds a name that is not compared.
    fn add(&mut self, word: &[u8], class: Class) -> Result<u32, NameErr>
        requires new { id_of word.now self.old.names ≡ None }
        requires not_compared { is_compared (new_name word.now class) ≡ false }
        ensures ok { IfOk result (λ id.
            with_name (new_name word.now class) self.old.names ≡ Ok (id, self.new.names)) }
        ensures refused { IfRefused result (λ refusal.
            with_name (new_name word.now class) self.old.names ≡ Err refusal) }
        ensures unchanged { OnErr result (self.new ≡ self.old) }
        ensures options { self.new.options ≡ self.old.options }
    {
        let id = self.entries.len();
        if id == NAME_LIMIT {
            return Err(NameErr::Full);
        }
        let alloc = *self.entries.allocator();
        let key = Vec::from_slice(alloc, word)?;
        let entry = new_entry(alloc, word, class, &self.options)?;
        self.entries.insert(key, entry)?;
        Ok(id as u32)
    }

    // Adds an ordinary name with its compared form, which no name that is compared has.
    fn add_compared(&mut self, word: &[u8], form: Form) -> Result<u32, NameErr>
        requires new { id_of word.now self.old.names ≡ None }
        requires letters { is_one_letter word.now ≡ false }
        requires form { form.items ≡ compared_form self.old.options word.now }
        requires free { is_form_taken self.old.options form.items self.old.names ≡ false }
        ensures ok { IfOk result (λ id.
            with_name (new_name word.now Class.Ordinary) self.old.names ≡ Ok (id, self.new.names)) }
        ensures refused { IfRefused result (λ refusal.
            with_name (new_name word.now Class.Ordinary) self.old.names ≡ Err refusal) }
        ensures unchanged { OnErr result (self.new ≡ self.old) }
        ensures options { self.new.options ≡ self.old.options }
    {
        let id = self.entries.len();
        if id == NAME_LIMIT {
            return Err(NameErr::Full);
        }
        let alloc = *self.entries.allocator();
        let key = Vec::from_slice(alloc, word)?;
        let entry = new_entry(alloc, word, Class::Ordinary, &self.options)?;
        self.entries.reserve(1)?;
        self.places.insert(form, id as u32)?;
        self.entries.insert(key, entry).unwrap();
        Ok(id as u32)
    }
}

// What is kept of a new name beside its word.
fn new_entry(alloc: Global, word: &[u8], class: Class, options: &Options) -> Result<Entry, NameErr>
    ensures class { IfOk result (λ entry. entry.class ≡ class) }
    ensures value { IfOk result (λ entry. entry.value ≡ pos 0) }
    ensures printed { IfOk result (λ entry. entry.printed.items ≡ printed_form options.now word.now) }
    ensures memory { IfRefused result (λ _. ⊥) }
{
    let printed = printed_form(alloc, word, options)?;
    Ok(Entry {
        class,
        value: 0,
        printed,
    })
}
