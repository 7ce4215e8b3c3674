//! What a web gives, as far as it was scanned.
ghost use Rattle.std.specs.Prelude.{◌≡◌, ◌≢◌, ◌+◌, ◌<◌, ◌≤◌, ℕ, List, [], ◌∷◌, ◌++◌, Some, None, Ok, Err, IfOk, IfErr};
ghost use Rattle.std.specs.Prelude.{OnOk, length, take, drop, slice_get, pos, All};
ghost use Rattle.wb_base.specs.WorkResult.{IfFault};
ghost use Rattle.wb_base.specs.declared.tokens.Tok.TheVariants as tok;
ghost use Rattle.web_names.specs.Identifiers.{folded, id_of};
ghost use Rattle.web_scan.specs.Numeric.{Term, constant, with_constant, word_value};
ghost use Rattle.web_pool.specs.Strings.{numbered};
ghost use Rattle.web_scan.specs.Pieces.{IsPieceWithin};
ghost use Rattle.web_scan.specs.inner.Under.{pieces_in, with_piece_under, AreWithin};

use crate::limits::{SECTION_LIMIT, TOKEN_LIMIT};
use crate::pieces::{Piece, Span};
use crate::refusals::{refused_name, refused_string};
use std::alloc::Global;
use std::marker::Model;
use wb_base::faults::{
    BAD_NUMERIC_DEFINITION, LIMIT_NAMES, LIMIT_SECTION_NAMES, LIMIT_SECTIONS, LIMIT_TOKENS,
};
use wb_base::{Fault, Options, OutOfMemory, Place, Text, Tok, WorkErr};
use web_lex::SectionName;
use web_names::{Class, NameErr, Names, Sections, printed_letter};
use web_pool::{Pool, PoolErr};

// What the web gives so far. To contracts it is the lists of the definition, in which texts are whole.
#[derive(Drop)]
pub(crate) struct Parts {
    options: Options,
    names: Names,
    sections: Sections,
    pool: Pool,
    quoted: Vec<Text>,
    tokens: Vec<Tok>,
    texts: Vec<Span>,
    unnamed: Vec<Piece>,
    named: Vec<Vec<Piece>>,
    count: u32,
}

impl Model for Parts {
    ghost use Rattle.web_scan.specs.Scanned.{Scanned};

    ghost Value = { Scanned };

    ghost use Rattle.web_scan.specs.inner.PartsView.{scanned_in, IsKept};

    ghost view = { scanned_in };

    ghost invariant = { IsKept };
}

impl Parts {
    ghost use Rattle.web_scan.specs.Scanned.{nothing_scanned};
    ghost use Rattle.web_scan.specs.Refusals.{with_room, stored, string_number, string_stored, section_begun};
    ghost use Rattle.web_scan.specs.Texts.{word_stored, quoted_stored};
    ghost use Rattle.web_scan.specs.Definitions.{macro_defined, value_given};
    ghost use Rattle.web_scan.specs.Sections.{name_found, with_pascal_text};

    // Nothing yet.
    pub(crate) fn new(alloc: Global, options: Options) -> Parts
        ensures { result ≡ nothing_scanned options }
    {
        Parts {
            options,
            names: Names::new(alloc, options),
            sections: Sections::new(alloc),
            pool: Pool::new(alloc),
            quoted: Vec::new(alloc),
            tokens: Vec::new(alloc),
            texts: Vec::new(alloc),
            unnamed: Vec::new(alloc),
            named: Vec::new(alloc),
            count: 0,
        }
    }

    // How many tokens are stored.
    pub(crate) fn token_count(&self) -> u32
        ensures count { result ≡ length self.now.tokens }
        ensures few { result ≤ TOKEN_LIMIT }
    {
        self.tokens.len() as u32
    }

    // Stores a token, which this place shows.
    pub(crate) fn store(&mut self, place: Place, token: Tok) -> Result<(), WorkErr>
        ensures ok { OnOk result (stored place token self.old ≡ Ok self.new) }
        ensures fault { IfFault result (λ fault. stored place token self.old ≡ Err fault) }
        ensures grows { length self.old.tokens ≤ length self.new.tokens }
    {
        self.check_room(place)?;
        self.tokens.push(token)?;
        Ok(())
    }

    // Whether one more token may be stored.
    fn check_room(&self, place: Place) -> Result<(), Fault>
        ensures ok { OnOk result (with_room place self.now ≡ Ok self.now) }
        ensures fault { IfErr result (λ fault. with_room place self.now ≡ Err fault) }
    {
        if self.tokens.len() < TOKEN_LIMIT {
            Ok(())
        } else {
            Err(Fault::limit(LIMIT_TOKENS, place))
        }
    }

    // Stores a word of one letter.
    pub(crate) fn store_letter(&mut self, place: Place, letter: u8) -> Result<(), WorkErr>
        ensures ok { let token = tok.Letter (folded self.old.names.options.case letter) in
            OnOk result (stored place token self.old ≡ Ok self.new) }
        ensures fault { let token = tok.Letter (folded self.old.names.options.case letter) in
            IfFault result (λ fault. stored place token self.old ≡ Err fault) }
        ensures grows { length self.old.tokens ≤ length self.new.tokens }
    {
        let options = self.options;
        self.store(place, Tok::Letter(printed_letter(letter, &options)))
    }

    // Stores a word, which is a use of its name.
    pub(crate) fn store_word(&mut self, place: Place, word: &[u8]) -> Result<(), WorkErr>
        ensures ok { OnOk result (word_stored place word.now self.old ≡ Ok self.new) }
        ensures fault { IfFault result (λ fault. word_stored place word.now self.old ≡ Err fault) }
        ensures grows { length self.old.tokens ≤ length self.new.tokens }
    {
        match self.names.intern(word) {
            Ok(id) => self.store(place, Tok::Name(id)),
            Err(refusal) => Err(refused_name(LIMIT_NAMES, place, refusal)),
        }
    }

    // Stores a string in single quotes, which is printed so.
    pub(crate) fn store_quoted(&mut self, place: Place, text: Text) -> Result<(), WorkErr>
        ensures ok { OnOk result (quoted_stored place tok.Quoted text self.old ≡ Ok self.new) }
        ensures fault { IfFault result (λ fault. quoted_stored place tok.Quoted text self.old ≡ Err fault) }
        ensures grows { length self.old.tokens ≤ length self.new.tokens }
    {
        let number = self.quoted.len() as u32;
        self.store(place, Tok::Quoted(number))?;
        self.quoted.push(text)?;
        Ok(())
    }

    // Stores a verbatim text, which is printed so.
    pub(crate) fn store_verbatim(&mut self, place: Place, text: Text) -> Result<(), WorkErr>
        ensures ok { OnOk result (quoted_stored place tok.Verbatim text self.old ≡ Ok self.new) }
        ensures fault { IfFault result (λ fault. quoted_stored place tok.Verbatim text self.old ≡ Err fault) }
        ensures grows { length self.old.tokens ≤ length self.new.tokens }
    {
        let number = self.quoted.len() as u32;
        self.store(place, Tok::Verbatim(number))?;
        self.quoted.push(text)?;
        Ok(())
    }

    // Stores a string in double quotes with this value, as its number.
    pub(crate) fn store_string(&mut self, place: Place, value: &[u8]) -> Result<(), WorkErr>
        ensures ok { OnOk result (string_stored place self.old (numbered value.now self.old.strings) ≡ Ok self.new) }
        ensures fault { IfFault result (λ fault.
            string_stored place self.old (numbered value.now self.old.strings) ≡ Err fault) }
        ensures grows { length self.old.tokens ≤ length self.new.tokens }
    {
        match self.pool.add(value) {
            Ok(number) => self.store(place, Tok::Number(i64::from(number))),
            Err(PoolErr::Full) => {
                self.check_room(place)?;
                Err(refused_string(place, PoolErr::Full))
            }
            Err(refusal) => Err(refused_string(place, refusal)),
        }
    }

    // The number of a string in double quotes with this value.
    pub(crate) fn number_string(&mut self, place: Place, value: &[u8]) -> Result<u32, WorkErr>
        ensures ok { IfOk result (λ number.
            string_number place self.old (numbered value.now self.old.strings) ≡ Ok (number, self.new)) }
        ensures fault { IfFault result (λ fault.
            string_number place self.old (numbered value.now self.old.strings) ≡ Err fault) }
        ensures few { IfOk result (λ number. number < 32768) }
        ensures names { self.new.names ≡ self.old.names }
    {
        self.pool
            .add(value)
            .map_err(|refusal| refused_string(place, refusal))
    }

    // The place of a section's name among the names; a whole name is added where it is new.
    pub(crate) fn find_section(&mut self, place: Place, name: &SectionName) -> Result<u32, WorkErr>
        ensures ok { IfOk result (λ found. name_found place name.now self.old ≡ Ok (found, self.new)) }
        ensures fault { IfFault result (λ fault. name_found place name.now self.old ≡ Err fault) }
        ensures tokens { self.new.tokens ≡ self.old.tokens }
    {
        let text = name.text.bytes();
        let found = if name.prefix {
            self.sections.prefix(text)
        } else {
            self.sections.whole(text)
        };
        found.map_err(|refusal| refused_name(LIMIT_SECTION_NAMES, place, refusal))
    }

    // Makes a word a macro of this class, and answers its id.
    pub(crate) fn define(&mut self, place: Place, word: &[u8], class: Class) -> Result<u32, WorkErr>
        requires { class ≢ Class.Ordinary }
        ensures ok { IfOk result (λ id. macro_defined place word.now class self.old ≡ Ok (id, self.new)) }
        ensures fault { IfFault result (λ fault. macro_defined place word.now class self.old ≡ Err fault) }
        ensures id { IfOk result (λ id. id < length self.new.names.names) }
    {
        match self.names.define(word, class) {
            Ok(id) => Ok(id),
            Err(refusal) => Err(refused_name(LIMIT_NAMES, place, refusal)),
        }
    }

    // The value of a word in a numeric definition of the name with this id: that of a numeric macro, but of no other
    // word.
    pub(crate) fn word_value(
        &mut self,
        place: Place,
        defining: u32,
        word: &[u8],
    ) -> Result<i32, WorkErr>
        ensures ok { IfOk result (λ value. (terms : List Term) →
            with_constant place (word_value defining (id_of word.now self.old.names.names) self.old.names.names) terms
            ≡ Ok (constant value ∷ terms)) }
        ensures fault { IfFault result (λ fault. (terms : List Term) →
            with_constant place (word_value defining (id_of word.now self.old.names.names) self.old.names.names) terms
            ≡ Err fault) }
        ensures unchanged { OnOk result (self.new ≡ self.old) }
    {
        let refusal = WorkErr::Fault(Fault::at(BAD_NUMERIC_DEFINITION, place));
        let id = match self.names.intern(word) {
            Ok(id) => id,
            Err(NameErr::OutOfMemory) => return Err(WorkErr::OutOfMemory),
            Err(_) => return Err(refusal),
        };
        if id == defining {
            return Err(refusal);
        }
        let (class, value) = self.names.kind(id);
        match class {
            Class::Numeric => Ok(value),
            _ => Err(refusal),
        }
    }

    // Gives a numeric macro its value.
    pub(crate) fn set_value(&mut self, id: u32, value: i32)
        requires { id < length self.old.names.names }
        ensures { self.new ≡ value_given id value self.old }
    {
        self.names.set(id, value);
    }

    // Gives a macro the number of the text that is read next.
    pub(crate) fn set_text_number(&mut self, id: u32) -> Result<(), WorkErr>
        requires { id < length self.old.names.names }
        ensures ok { OnOk result (self.new ≡ value_given id (pos (length self.old.texts)) self.old) }
        ensures memory { IfFault result (λ _. ⊥) }
    {
        // So many texts that their number is past the type's range find no memory before.
        let Ok(number) = i32::try_from(self.texts.len()) else {
            return Err(WorkErr::OutOfMemory);
        };
        self.names.set(id, number);
        Ok(())
    }

    // Adds the text of a macro: the tokens that were stored since there were so many.
    pub(crate) fn add_text(&mut self, first: u32) -> Result<(), WorkErr>
        requires { first ≤ length self.old.tokens }
        ensures ok { OnOk result (self.new
            ≡ record self.old { texts = self.old.texts ++ drop first self.old.tokens ∷ [] }) }
        ensures memory { IfFault result (λ _. ⊥) }
    {
        let count = self.token_count() - first;
        self.texts.push(Span { first, count })?;
        Ok(())
    }

    // Adds the text of the last section: the tokens that were stored since there were so many, under the name with
    // this place, or as one of the unnamed section.
    pub(crate) fn add_piece(&mut self, name: Option<u32>, first: u32) -> Result<(), WorkErr>
        requires { first ≤ length self.old.tokens }
        ensures ok { OnOk result (self.new ≡ with_pascal_text name (drop first self.old.tokens) self.old) }
        ensures memory { IfFault result (λ _. ⊥) }
    {
        let piece = Piece {
            number: self.count,
            first,
            count: self.token_count() - first,
        };
        match name {
            None => self.unnamed.push(piece)?,
            Some(name) => push_under(&mut self.named, name as usize, piece)?,
        }
        Ok(())
    }

    // Begins a section, which this place shows.
    pub(crate) fn begin_section(&mut self, place: Place) -> Result<(), WorkErr>
        ensures ok { OnOk result (section_begun place self.old ≡ Ok self.new) }
        ensures fault { IfFault result (λ fault. section_begun place self.old ≡ Err fault) }
    {
        if (self.count as usize) < SECTION_LIMIT {
            self.count += 1;
            Ok(())
        } else {
            Err(Fault::limit(LIMIT_SECTIONS, place).into())
        }
    }
}

// Adds a text under the name with this place.
fn push_under(named: &mut Vec<Vec<Piece>>, name: usize, piece: Piece) -> Result<(), OutOfMemory>
    ensures ok { OnOk result (pieces_in named.new.items ≡ with_piece_under name piece (pieces_in named.old.items)) }
    ensures within { (size : ℕ) → IsPieceWithin size piece → AreWithin size named.old.items
        → AreWithin size named.new.items }
{
    let alloc = *named.allocator();
    'padded: while named.len() <= name {
        named.push(Vec::new(alloc))?;
    }
    named[name].push(piece)?;
    Ok(())
}

impl Parts {
    ghost use Rattle.web_scan.specs.Scanned.{texts_under};
    ghost use Rattle.web_scan.specs.Pieces.{pascal_texts_at};

    // The texts of the unnamed section.
    pub(crate) fn unnamed(&self) -> &[Piece]
        ensures texts { pascal_texts_at self.now.tokens result.now ≡ self.now.unnamed }
        ensures within { All (IsPieceWithin (length self.now.tokens)) result.now }
    {
        &self.unnamed
    }

    // The texts under the name with this place.
    pub(crate) fn pieces(&self, section: u32) -> &[Piece]
        ensures texts { pascal_texts_at self.now.tokens result.now ≡ texts_under section self.now.named }
        ensures within { All (IsPieceWithin (length self.now.tokens)) result.now }
    {
        match self.named.get(section as usize) {
            Some(pieces) => pieces,
            None => &[],
        }
    }

    // So many tokens after the first ones.
    pub(crate) fn tokens(&self, first: u32, count: u32) -> &[Tok]
        requires { first + count ≤ length self.now.tokens }
        ensures { result.now ≡ take count (drop first self.now.tokens) }
    {
        let first = first as usize;
        let end = first + count as usize;
        let tokens = self.tokens.as_slice();
        &tokens[first..end]
    }

    // The text of a macro with this number.
    pub(crate) fn text(&self, number: u32) -> &[Tok]
        requires { number < length self.now.texts }
        ensures { slice_get self.now.texts number ≡ Some result.now }
    {
        let text = self.texts[number as usize];
        self.tokens(text.first, text.count)
    }

    // A text that is printed as it stands.
    pub(crate) fn quoted(&self, index: u32) -> &[u8]
        requires { index < length self.now.quoted }
        ensures { slice_get self.now.quoted index ≡ Some result.now }
    {
        self.quoted[index as usize].bytes()
    }

    // The names.
    pub(crate) fn names(&self) -> &Names
        ensures { result.now ≡ self.now.names }
    {
        &self.names
    }

    // The strings of the pool.
    pub(crate) fn pool(&self) -> &Pool
        ensures { result.now ≡ self.now.strings }
    {
        &self.pool
    }
}
