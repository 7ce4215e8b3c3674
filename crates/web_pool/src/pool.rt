//! The strings of a pool.
ghost use Rattle.std.specs.Prelude.{◌≡◌, ◌+◌, ◌≤◌, ℕ, List, [], ◌∷◌, ◌++◌, length, None, Ok, Err, IfOk, IfSome, OnOk};
ghost use Rattle.std.specs.Prelude.{OnErr, IsErrOf, All, position};
ghost use Rattle.std.specs.Str.{bytes_eq};
ghost use Rattle.web_pool.specs.Strings.{IfRefused, numbered, numbered_last, strings_of};
ghost use Rattle.web_pool.specs.inner.PoolParts.{strings_in};

use crate::PoolErr;
use indexmap::IndexSet;
use std::alloc::Global;
use std::marker::Model;

/// The most bytes of a string. This project's own.
pub(crate) const LONGEST_STRING: usize = 99;

/// The number of the first string of a pool.
pub(crate) const FIRST_NUMBER: u32 = 256;

/// The last number that a string can have. This project's own.
pub(crate) const LAST_NUMBER: u32 = 32_767;

/// The strings in double quotes of a web whose length is not one, without repeats, in the order of their first
/// appearance. To contracts it is that list of strings.
#[derive(Drop)]
pub struct Pool {
    strings: IndexSet<Vec<u8>>,
}

impl Model for Pool {
    ghost use Rattle.std.specs.Prelude.{ℕ, List};

    ghost Value = { List (List ℕ) };

    ghost use Rattle.web_pool.specs.inner.PoolParts.{strings_in, IsLawful};

    ghost view = { λ pool. strings_in pool.strings.keys };

    ghost invariant = { λ pool. IsLawful (strings_in pool.strings.keys) };
}

impl Pool {
    /// A pool without strings. It takes no memory yet, and grows by this allocator.
    pub fn new(alloc: Global) -> Pool
        ensures { result ≡ [] }
    {
        Pool {
            strings: IndexSet::new(alloc),
        }
    }

    /// The number of a string in double quotes, which is added where it has none yet: the code of its byte, if it has
    /// one byte, else 256 and its place in the pool.
    ///
    /// Refusals: `TooLong`, where it has more than 99 bytes (fault 15); `Full`, where it is new and its number would be
    /// past 32,767 (fault 28 (5)). After a refusal, or want of memory, the pool is as it was. Want of memory comes only
    /// where the string is new.
    pub fn add(&mut self, bytes: &[u8]) -> Result<u32, PoolErr>
        ensures ok { IfOk result (λ number. numbered bytes.now self.old ≡ Ok (number, self.new)) }
        ensures refused { IfRefused result (λ refusal. numbered bytes.now self.old ≡ Err refusal) }
        ensures memory { IsErrOf result PoolErr.OutOfMemory →
            numbered bytes.now self.old ≡ Ok (FIRST_NUMBER + length self.old, self.old ++ bytes.now ∷ []) }
        ensures unchanged { OnErr result (self.new ≡ self.old) }

        ensures number { IfOk result (λ number. number ≤ LAST_NUMBER) }
        ensures all_strings { OnOk result ((seen : List (List ℕ)) →
            self.old ≡ strings_of seen → self.new ≡ strings_of (seen ++ bytes.now ∷ [])) }
    {
        if bytes.len() == 1 {
            return Ok(u32::from(bytes[0]));
        }
        if bytes.len() > LONGEST_STRING {
            return Err(PoolErr::TooLong);
        }
        match self.place_of(bytes) {
            Some(place) => Ok(FIRST_NUMBER + place),
            None => self.add_last(bytes),
        }
    }

    /// How many strings the pool has.
    pub fn count(&self) -> u32
        ensures { result ≡ length self.now }
    {
        self.strings.len() as u32
    }

    // The strings, each of which is short enough.
    pub(crate) fn strings(&self) -> &[Vec<u8>]
        ensures strings { strings_in result.now ≡ self.now }
        ensures short { All (λ text. length text ≤ LONGEST_STRING) self.now }
    {
        self.strings.as_slice()
    }

    // The place of a string in the pool, if it is there.
    fn place_of(&self, bytes: &[u8]) -> Option<u32>
        ensures place { result ≡ position (bytes_eq bytes.now) self.now }
        ensures few { IfSome result (λ place. FIRST_NUMBER + place ≤ LAST_NUMBER) }
    {
        let place = self.strings.get_index_of(bytes)?;
        Some(place as u32)
    }

    // The number of a new string, which is added at the end.
    fn add_last(&mut self, bytes: &[u8]) -> Result<u32, PoolErr>
        requires short { length bytes.now ≤ LONGEST_STRING }
        requires new { position (bytes_eq bytes.now) self.old ≡ None }

        ensures ok { IfOk result (λ number. numbered_last bytes.now self.old ≡ Ok (number, self.new)) }
        ensures refused { IfRefused result (λ refusal. numbered_last bytes.now self.old ≡ Err refusal) }
        ensures memory { IsErrOf result PoolErr.OutOfMemory →
            numbered_last bytes.now self.old ≡ Ok (FIRST_NUMBER + length self.old, self.old ++ bytes.now ∷ []) }
        ensures grown { OnOk result (self.new ≡ self.old ++ bytes.now ∷ []) }
        ensures unchanged { OnErr result (self.new ≡ self.old) }
        ensures number { IfOk result (λ number. number ≤ LAST_NUMBER) }
    {
        let number = FIRST_NUMBER + self.count();
        if number > LAST_NUMBER {
            return Err(PoolErr::Full);
        }
        let text = Vec::from_slice(*self.strings.allocator(), bytes)?;
        self.strings.insert(text)?;
        Ok(number)
    }
}
