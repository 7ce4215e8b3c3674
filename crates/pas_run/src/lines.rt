//! What is written on the files of a run, and how a line is passed.
ghost use Rattle.std.specs.Prelude.{◌≡◌, is_err};
ghost use Rattle.std.specs.Prelude.{◌≤ℤ◌, ◌++◌, pos, OnOk, replicate, take, false};
ghost use Rattle.pas_meaning.specs.Files as files;
ghost use Rattle.pas_typed.specs.Texts.{undoubled};
ghost use Rattle.wb_ports.specs.Counts.{CountsFailure};
ghost use Rattle.pas_run.specs.declared.files.Usage.{Usage};
ghost use Rattle.pas_run.specs.RunFiles.{Puts, Pieces, Appends, Demands, is_port_failed};

use crate::Refused;
use crate::files::{LINE_END, RunFile, Usage};
use crate::quoted::{behind_first, text_length};
use pas_meaning::{UNDEFINED_BUFFER, WIDTH_BELOW_1, WRONG_MODE, write_int};
use wb_ports::{Failed, Port};

// The byte that fills a field.
const SPACE: u8 = 32;

impl<P: Port> RunFile<P> {
    /// Put.
    pub fn put(&mut self) -> Result<(), Refused>
        ensures step { Puts self.old.state (P.told self.old.port) self.new.state (P.told self.new.port) result }
        ensures cause { CountsFailure (is_port_failed result) (P.failures self.old.port) (P.failures self.new.port) }
    {
        if self.state.usage != Usage::Writing {
            return Err(Refused::Wrong(WRONG_MODE));
        }
        let Some(byte) = self.state.buffer else {
            return Err(Refused::Wrong(UNDEFINED_BUFFER));
        };
        self.port.put(byte)?;
        self.state.buffer = None;
        Ok(())
    }

    /// Writes a number on a text in a field of this width.
    pub fn write_number(&mut self, number: i32, width: i32) -> Result<(), Refused>
        ensures step { Appends (files.written (λ field. files.number_in_field field number) width) self.old.state
            (P.told self.old.port) self.new.state (P.told self.new.port) result }
        ensures cause { CountsFailure (is_port_failed result) (P.failures self.old.port) (P.failures self.new.port) }
    {
        self.demand_text(width)?;
        let text = write_int(i64::from(number), i64::from(width));
        match self.put_field(text.spaces.unsigned_abs() as usize, text.digits.as_slice()) {
            Ok(()) => Ok(()),
            Err(_) => Err(Refused::Failed),
        }
    }

    /// Writes a string on a text in a field of this width, which cuts it where it is longer.
    pub fn write_text(&mut self, bytes: &[u8], width: i32) -> Result<(), Refused>
        ensures step { Appends (files.written (λ field. files.string_in_field field bytes.now) width) self.old.state
            (P.told self.old.port) self.new.state (P.told self.new.port) result }
        ensures cause { CountsFailure (is_port_failed result) (P.failures self.old.port) (P.failures self.new.port) }
    {
        self.demand_text(width)?;
        let field = width.unsigned_abs() as usize;
        let count = field.min(bytes.len());
        match self.put_field(field - count, &bytes[..count]) {
            Ok(()) => Ok(()),
            Err(_) => Err(Refused::Failed),
        }
    }

    /// Writes a string on a text as `write_text` does, from a spelling in which each of its quotes stands twice.
    pub fn write_quoted(&mut self, spelled: &[u8], width: i32) -> Result<(), Refused>
        ensures step { Appends (files.written (λ field. files.string_in_field field (undoubled spelled.now)) width)
            self.old.state (P.told self.old.port) self.new.state (P.told self.new.port) result }
        ensures cause { CountsFailure (is_port_failed result) (P.failures self.old.port) (P.failures self.new.port) }
    {
        self.demand_text(width)?;
        let field = width.unsigned_abs() as usize;
        let count = field.min(text_length(spelled));
        match self.put_quoted_field(field - count, spelled, count) {
            Ok(()) => Ok(()),
            Err(_) => Err(Refused::Failed),
        }
    }

    /// Writes a byte on a text in a field of this width.
    pub fn write_char(&mut self, byte: u8, width: i32) -> Result<(), Refused>
        ensures step { Appends (files.written (λ field. files.char_in_field field byte) width) self.old.state
            (P.told self.old.port) self.new.state (P.told self.new.port) result }
        ensures cause { CountsFailure (is_port_failed result) (P.failures self.old.port) (P.failures self.new.port) }
    {
        self.demand_text(width)?;
        match self.put_field(width.unsigned_abs() as usize - 1, &[byte]) {
            Ok(()) => Ok(()),
            Err(_) => Err(Refused::Failed),
        }
    }

    /// Ends a line of a text.
    pub fn writeln(&mut self) -> Result<(), Refused>
        ensures step { Appends files.writeln self.old.state (P.told self.old.port) self.new.state
            (P.told self.new.port) result }
        ensures cause { CountsFailure (is_port_failed result) (P.failures self.old.port) (P.failures self.new.port) }
    {
        if !self.state.is_text {
            return Err(Refused::Wrong(WRONG_MODE));
        }
        if self.state.usage != Usage::Writing {
            return Err(Refused::Wrong(WRONG_MODE));
        }
        match self.put_all(&[LINE_END]) {
            Ok(()) => Ok(()),
            Err(_) => Err(Refused::Failed),
        }
    }

    // A text that is written, and a width of at least 1.
    fn demand_text(&self, width: i32) -> Result<(), Refused>
        ensures demands { Demands width self.now.state (P.told self.now.port) result }
        ensures writing { OnOk result (self.now.state.usage ≡ Usage.Writing) }
        ensures width { OnOk result (pos 1 ≤ℤ width) }
        ensures quiet { is_port_failed result ≡ false }
    {
        if !self.state.is_text {
            return Err(Refused::Wrong(WRONG_MODE));
        }
        if self.state.usage != Usage::Writing {
            return Err(Refused::Wrong(WRONG_MODE));
        }
        if width < 1 {
            return Err(Refused::Wrong(WIDTH_BELOW_1));
        }
        Ok(())
    }

    // Appends so many spaces.
    fn put_spaces(&mut self, count: usize) -> Result<(), Failed>
        requires { self.old.state.usage ≡ Usage.Writing }

        ensures pieces { Pieces (replicate count files.space) self.old.state (P.told self.old.port)
            self.new.state (P.told self.new.port) result }
        ensures same { self.new.state ≡ self.old.state }
        ensures cause { CountsFailure (is_err result) (P.failures self.old.port) (P.failures self.new.port) }
    {
        for _done in 0..count {
            match self.port.put(SPACE) {
                Ok(()) => {}
                Err(failed) => return Err(failed),
            }
        }
        Ok(())
    }

    // Appends so many spaces, and bytes behind them.
    fn put_field(&mut self, spaces: usize, bytes: &[u8]) -> Result<(), Failed>
        requires { self.old.state.usage ≡ Usage.Writing }

        ensures pieces { Pieces (replicate spaces files.space ++ bytes.now) self.old.state (P.told self.old.port)
            self.new.state (P.told self.new.port) result }
        ensures same { self.new.state ≡ self.old.state }
        ensures cause { CountsFailure (is_err result) (P.failures self.old.port) (P.failures self.new.port) }
    {
        match self.put_spaces(spaces) {
            Ok(()) => self.put_all(bytes),
            Err(failed) => Err(failed),
        }
    }

    // Appends bytes.
    fn put_all(&mut self, bytes: &[u8]) -> Result<(), Failed>
        requires { self.old.state.usage ≡ Usage.Writing }

        ensures pieces { Pieces bytes.now self.old.state (P.told self.old.port) self.new.state
            (P.told self.new.port) result }
        ensures same { self.new.state ≡ self.old.state }
        ensures cause { CountsFailure (is_err result) (P.failures self.old.port) (P.failures self.new.port) }
    {
        for byte in bytes {
            match self.port.put(*byte) {
                Ok(()) => {}
                Err(failed) => return Err(failed),
            }
        }
        Ok(())
    }

    // Appends so many spaces, and this many bytes of a text behind them.
    fn put_quoted_field(
        &mut self,
        spaces: usize,
        spelled: &[u8],
        count: usize,
    ) -> Result<(), Failed>
        requires { self.old.state.usage ≡ Usage.Writing }

        ensures pieces { Pieces (replicate spaces files.space ++ take count (undoubled spelled.now)) self.old.state
            (P.told self.old.port) self.new.state (P.told self.new.port) result }
        ensures same { self.new.state ≡ self.old.state }
        ensures cause { CountsFailure (is_err result) (P.failures self.old.port) (P.failures self.new.port) }
    {
        match self.put_spaces(spaces) {
            Ok(()) => self.put_quoted(spelled, count),
            Err(failed) => Err(failed),
        }
    }

    // Appends this many bytes of a text, or all where it has fewer.
    fn put_quoted(&mut self, spelled: &[u8], count: usize) -> Result<(), Failed>
        requires { self.old.state.usage ≡ Usage.Writing }

        ensures pieces { Pieces (take count (undoubled spelled.now)) self.old.state (P.told self.old.port)
            self.new.state (P.told self.new.port) result }
        ensures same { self.new.state ≡ self.old.state }
        ensures cause { CountsFailure (is_err result) (P.failures self.old.port) (P.failures self.new.port) }
    {
        let mut rest = spelled;
        for _done in 0..count {
            let Some(byte) = rest.first() else {
                return Ok(());
            };
            match self.port.put(*byte) {
                Ok(()) => rest = behind_first(rest),
                Err(failed) => return Err(failed),
            }
        }
        Ok(())
    }
}
