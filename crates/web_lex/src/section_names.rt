//! The names of sections.
ghost use Rattle.std.specs.Prelude.{◌≡◌, ◌<◌, ◌≤◌, ◌∷◌, [], Some, Ok, Err, IfOk, OnOk, true, false, List, ℕ, length};
ghost use Rattle.wb_base.specs.WorkResult.{IfFault};
ghost use Rattle.wb_base.specs.Bytes.{is_blank};
ghost use Rattle.web_lex.specs.Raw.{PlacedByte};
ghost use Rattle.web_lex.specs.SectionName.{name_at, named_by, name_or_prefix, ends_in_dots, is_name_byte};
ghost use Rattle.web_lex.specs.inner.Ahead.{first_byte};
ghost use Rattle.web_lex.specs.inner.Spelling.{continued, spelled_after, spelling_after, with_gap};

use crate::codes::{Code, control_code};
use crate::cursor::Cursor;
use std::alloc::Global;
use wb_base::faults::{BAD_BYTE, SECTION_NAME_NOT_ENDED};
use wb_base::{Fault, OutOfMemory, Place, Text, WorkErr};

// The dots that end a prefix.
const DOTS: &[u8] = b"...";

/// The name of a section, or a prefix of one.
#[derive(Drop)]
pub struct SectionName {
    /// The name with one space for each run of white space and none at its ends; of a prefix what stands before its
    /// three dots.
    pub text: Text,
    /// Whether it is a prefix.
    pub prefix: bool,
}

// What is read of a name: its bytes with one space for each run of white space between them, and whether white space
// stands after them.
#[derive(Drop)]
struct Spelling {
    text: Text,
    blank: bool,
}

// Reads the name that comes next, and the `@>` that ends it.
pub(crate) fn read_name(cursor: &mut Cursor<'_>, alloc: Global) -> Result<SectionName, WorkErr>
    ensures ok { IfOk result (λ name. name_at cursor.old.end cursor.old.rest ≡ Ok (name, cursor.new.rest)) }
    ensures fault { IfFault result (λ fault. name_at cursor.old.end cursor.old.rest ≡ Err fault) }
    ensures not_longer { length cursor.new.rest ≤ length cursor.old.rest }
    ensures end { cursor.new.end ≡ cursor.old.end }
{
    let mut spelling = Spelling {
        text: Text::new(alloc),
        blank: false,
    };
    let end = spell(cursor, &mut spelling)?;
    name_of(alloc, spelling.text, end)
}

// Reads the bytes of a name on, and the `@>` that ends it. Answers the place of that.
fn spell(cursor: &mut Cursor<'_>, spelling: &mut Spelling) -> Result<Place, WorkErr>
    ensures ok { IfOk result (λ end.
        spelled_after spelling.old.text spelling.old.blank cursor.old.end cursor.old.rest
        ≡ Ok (record { bytes = spelling.new.text; end = end; rest = cursor.new.rest })) }
    ensures fault { IfFault result (λ fault.
        spelled_after spelling.old.text spelling.old.blank cursor.old.end cursor.old.rest ≡ Err fault) }
    ensures not_longer { length cursor.new.rest ≤ length cursor.old.rest }
    ensures end { cursor.new.end ≡ cursor.old.end }
{
    while let Some(byte) = cursor.first() {
        if let Some(end) = spell_byte(cursor, byte, spelling)? {
            return Ok(end);
        }
    }
    Err(WorkErr::Fault(Fault::at(SECTION_NAME_NOT_ENDED, cursor.end())))
}

// Reads this byte of a name, and where it is an at sign, the byte after it. Answers the place of the at sign where the
// two end the name.
fn spell_byte(
    cursor: &mut Cursor<'_>,
    byte: u8,
    spelling: &mut Spelling,
) -> Result<Option<Place>, WorkErr>
    requires { first_byte cursor.old.rest ≡ Some byte }
    ensures ok { IfOk result (λ end.
        spelled_after spelling.old.text spelling.old.blank cursor.old.end cursor.old.rest
        ≡ spelling_after end spelling.new.text spelling.new.blank cursor.new.end cursor.new.rest) }
    ensures fault { IfFault result (λ fault.
        spelled_after spelling.old.text spelling.old.blank cursor.old.end cursor.old.rest ≡ Err fault) }
    ensures end { cursor.new.end ≡ cursor.old.end }
    ensures shorter { length cursor.new.rest < length cursor.old.rest }
{
    let place = cursor.place();
    cursor.pass(1);
    if byte != b'@' {
        if !is_name_byte(byte) {
            return Err(WorkErr::Fault(Fault::at(BAD_BYTE, place)));
        }
        spelling.add(byte)?;
        return Ok(None);
    }
    let Some(next) = cursor.first() else {
        return Ok(None);
    };
    match control_code(next) {
        Code::Stray => {
            cursor.pass(1);
            return Ok(Some(place));
        }
        Code::Section => return Err(WorkErr::Fault(Fault::at(SECTION_NAME_NOT_ENDED, place))),
        _ => {}
    }
    if !is_name_byte(next) {
        return Err(WorkErr::Fault(Fault::at(BAD_BYTE, cursor.place())));
    }
    spelling.add(b'@')?;
    spelling.add(next)?;
    cursor.pass(1);
    Ok(None)
}

impl Spelling {
    // Adds a byte.
    fn add(&mut self, byte: u8) -> Result<(), OutOfMemory>
        ensures { OnOk result ((bytes : List ℕ) →
            continued self.old.text self.old.blank (byte ∷ bytes)
            ≡ continued self.new.text self.new.blank bytes) }
    {
        if is_blank(byte) {
            self.blank = true;
            return Ok(());
        }
        self.add_gap()?;
        self.text.push(byte)?;
        self.blank = false;
        Ok(())
    }

    // Adds a space for white space that stands after the text.
    fn add_gap(&mut self) -> Result<(), OutOfMemory>
        ensures text { OnOk result (self.new.text ≡ with_gap self.old.text self.old.blank) }
    {
        if self.blank && !self.text.bytes().is_empty() {
            self.text.push(b' ')?;
        }
        Ok(())
    }
}

// Whether the byte is a space or a tab.
fn is_blank(byte: u8) -> bool
    ensures { result ≡ is_blank byte }
{
    matches!(byte, b' ' | b'\t')
}

// Whether the byte may stand in a name.
fn is_name_byte(byte: u8) -> bool
    ensures { result ≡ is_name_byte byte }
{
    matches!(byte, b' '..=b'~' | b'\t')
}

// The name of this text, or the prefix where it ends in three dots. It may not be empty; its end is at this place.
fn name_of(alloc: Global, text: Text, end: Place) -> Result<SectionName, WorkErr>
    ensures ok { IfOk result (λ name. (rest : List PlacedByte) → named_by text end rest ≡ Ok (name, rest)) }
    ensures fault { IfFault result (λ fault. (rest : List PlacedByte) → named_by text end rest ≡ Err fault) }
{
    let bytes = text.bytes();
    if bytes.is_empty() {
        return Err(WorkErr::Fault(Fault::at(SECTION_NAME_NOT_ENDED, end)));
    }
    if !ends_in_dots(bytes) {
        return Ok(SectionName {
            text,
            prefix: false,
        });
    }
    let mut prefix = Text::new(alloc);
    prefix.push_all(&bytes[..bytes.len() - DOTS.len()])?;
    Ok(SectionName {
        text: prefix,
        prefix: true,
    })
}

// Whether a name of more than three bytes ends in three dots.
fn ends_in_dots(name: &[u8]) -> bool
    ensures value { result ≡ ends_in_dots name.now }
    ensures long { result ≡ true → 3 < length name.now }
{
    name.len() > DOTS.len() && &name[name.len() - DOTS.len()..] == DOTS
}
