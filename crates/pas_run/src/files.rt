//! The files of a run, each over a port.
ghost use Rattle.std.specs.Prelude.{◌≡◌, ◌≢◌, None, Some, OnOk, OnErr, IfOk, is_err};
ghost use Rattle.wb_ports.specs.Counts.{CountsFailure};
ghost use Rattle.wb_ports.specs.Held.{WhereTold, Becomes};
ghost use Rattle.wb_ports.specs.PortState.{finished_port};
ghost use Rattle.wb_ports.specs.declared.port.Mode.{Mode};
ghost use Rattle.pas_run.specs.declared.files.Usage.{Usage};
ghost use Rattle.pas_meaning.specs.Answers.{fine};
ghost use Rattle.pas_meaning.specs.Files as files;
ghost use Rattle.pas_run.specs.RunFiles.{IsFile, Shows, Asks, Makes, Looks, Rewrites, is_port_failed, byte_seen};
ghost use Rattle.pas_run.specs.RunFiles.{ahead_behind, ahead_passed};

use crate::Refused;
use pas_meaning::{AT_END_OF_FILE, WRONG_MODE};
use wb_ports::{Failed, Port};

// The byte that ends a line.
pub(crate) const LINE_END: u8 = 10;

/// What a file is used for. This project's own.
#[derive(Clone, Copy, Debug, PartialEq, Eq)]
pub enum Usage {
    /// Nothing before its first reset or rewrite.
    Unused,
    /// It is read.
    Reading,
    /// It is written.
    Writing,
}

/// What is known of the byte at the place of a file that is read. This project's own.
#[derive(Clone, Copy, Debug, PartialEq, Eq)]
pub enum Ahead {
    /// Nothing: it was not looked at.
    Unknown,
    /// It is this one, which the port has given.
    Byte(u8),
    /// It ends the last line of a text, where the port has no such byte.
    LineEnd,
    /// There is none.
    End,
}

/// What is kept of a file beside its port. This project's own.
#[derive(Clone, Copy, Debug, PartialEq, Eq)]
pub struct FileState {
    /// Whether it is a text.
    pub is_text: bool,
    /// What it is used for.
    pub usage: Usage,
    /// The byte at its place, while it is read.
    pub ahead: Ahead,
    /// The byte that the port gave last since the reset.
    pub last: Option<u8>,
    /// The buffer of a file that is written, where it is defined.
    pub buffer: Option<u8>,
}

/// A file of a run. This project's own.
#[derive(Drop)]
pub struct RunFile<P: Port> {
    pub(crate) port: P,
    pub(crate) state: FileState,
    ghost reading: { state.usage ≡ Usage.Reading → P.mode port ≡ Mode.Reading },
    ghost writing: { state.usage ≡ Usage.Writing → P.mode port ≡ Mode.Writing },
}

impl<P: Port> RunFile<P> {
    /// A file that is not in use.
    pub fn new(port: P, is_text: bool) -> RunFile<P>
        ensures port { result.port ≡ port }
        ensures state { result.state ≡ record {
          is_text = is_text;
          usage = Usage.Unused;
          ahead = Ahead.Unknown;
          last = None;
          buffer = None;
        } }
    {
        RunFile {
            port,
            state: FileState {
                is_text,
                usage: Usage::Unused,
                ahead: Ahead::Unknown,
                last: None,
                buffer: None,
            },
        }
    }

    /// Reset.
    pub fn reset(&mut self) -> Result<(), Refused>
        ensures step { Makes (λ file. fine (files.reset file)) self.old.state (P.told self.old.port) self.new.state
            (P.told self.new.port) result }
        ensures cause { CountsFailure (is_port_failed result) (P.failures self.old.port) (P.failures self.new.port) }
    {
        self.port.rewind()?;
        self.state.usage = Usage::Reading;
        self.state.ahead = Ahead::Unknown;
        self.state.last = None;
        self.state.buffer = None;
        Ok(())
    }

    /// Rewrite.
    pub fn rewrite(&mut self) -> Result<(), Refused>
        ensures step { Rewrites self.old.state (P.told self.old.port) self.new.state (P.told self.new.port) result }
        ensures cause { CountsFailure (is_port_failed result) (P.failures self.old.port) (P.failures self.new.port) }
    {
        self.port.begin()?;
        self.state.usage = Usage::Writing;
        self.state.ahead = Ahead::Unknown;
        self.state.last = None;
        self.state.buffer = None;
        Ok(())
    }

    /// Whether it is at its end.
    pub fn eof(&mut self) -> Result<bool, Refused>
        ensures step { Asks files.eof (λ found. found) self.old.state (P.told self.old.port) self.new.state
            (P.told self.new.port) result }
        ensures cause { CountsFailure (is_port_failed result) (P.failures self.old.port) (P.failures self.new.port) }
    {
        match self.state.usage {
            Usage::Unused => Err(Refused::Wrong(WRONG_MODE)),
            Usage::Reading => Ok(self.look()?.is_none()),
            Usage::Writing => Ok(true),
        }
    }

    /// Whether the end of a line is at its place.
    pub fn eoln(&mut self) -> Result<bool, Refused>
        ensures step { Asks files.eoln (λ found. found) self.old.state (P.told self.old.port) self.new.state
            (P.told self.new.port) result }
        ensures cause { CountsFailure (is_port_failed result) (P.failures self.old.port) (P.failures self.new.port) }
    {
        if !self.state.is_text {
            return Err(Refused::Wrong(WRONG_MODE));
        }
        Ok(self.next_byte()? == LINE_END)
    }

    /// The buffer while it is read.
    pub fn buffer_read(&mut self) -> Result<u8, Refused>
        ensures step { Asks files.buffer_read (λ byte. byte) self.old.state (P.told self.old.port) self.new.state
            (P.told self.new.port) result }
        ensures cause { CountsFailure (is_port_failed result) (P.failures self.old.port) (P.failures self.new.port) }
    {
        let byte = self.next_byte()?;
        Ok(if self.state.is_text && byte == LINE_END {
            b' '
        } else {
            byte
        })
    }

    /// Get.
    pub fn get(&mut self) -> Result<(), Refused>
        ensures step { Makes files.get self.old.state (P.told self.old.port) self.new.state (P.told self.new.port)
            result }
        ensures cause { CountsFailure (is_port_failed result) (P.failures self.old.port) (P.failures self.new.port) }
    {
        self.next_byte()?;
        self.state.ahead = passed(self.state.ahead);
        Ok(())
    }

    /// The buffer is set while it is written.
    pub fn buffer_set(&mut self, byte: u8) -> Result<(), Refused>
        ensures step { Makes (files.buffer_set byte) self.old.state (P.told self.old.port) self.new.state
            (P.told self.new.port) result }
        ensures cause { CountsFailure (is_port_failed result) (P.failures self.old.port) (P.failures self.new.port) }
    {
        if self.state.usage != Usage::Writing {
            return Err(Refused::Wrong(WRONG_MODE));
        }
        self.state.buffer = Some(byte);
        Ok(())
    }

    // Ends the use of the port.
    pub(crate) fn finish(&mut self) -> Result<(), Failed>
        ensures finished { WhereTold (Becomes finished_port) (P.told self.old.port) (P.told self.new.port) }
        ensures same { self.new.state ≡ self.old.state }
        ensures cause { CountsFailure (is_err result) (P.failures self.old.port) (P.failures self.new.port) }
    {
        self.port.finish()
    }

    // The byte at the place of a file that is read.
    pub(crate) fn next_byte(&mut self) -> Result<u8, Refused>
        ensures step { Asks files.next_byte (λ byte. byte) self.old.state (P.told self.old.port) self.new.state
            (P.told self.new.port) result }
        ensures seen { IfOk result (λ byte. byte_seen self.new.state.ahead ≡ Some byte) }
        ensures same { OnOk result ((self.new.state.usage ≡ self.old.state.usage)
            × (self.new.state.is_text ≡ self.old.state.is_text)) }
        ensures cause { CountsFailure (is_port_failed result) (P.failures self.old.port) (P.failures self.new.port) }
    {
        if self.state.usage != Usage::Reading {
            return Err(Refused::Wrong(WRONG_MODE));
        }
        self.look()?.ok_or(Refused::Wrong(AT_END_OF_FILE))
    }

    // The byte at the place of a file that is read, or none at its end.
    fn look(&mut self) -> Result<Option<u8>, Failed>
        requires { self.old.state.usage ≡ Usage.Reading }

        ensures byte { Looks self.old.state (P.told self.old.port) self.new.state (P.told self.new.port) result }
        ensures seen { IfOk result (λ byte. byte ≡ byte_seen self.new.state.ahead) }
        ensures same { (self.new.state.usage ≡ self.old.state.usage)
            × (self.new.state.is_text ≡ self.old.state.is_text) }
        ensures cause { CountsFailure (is_err result) (P.failures self.old.port) (P.failures self.new.port) }
    {
        if self.state.ahead == Ahead::Unknown {
            self.read_ahead()?;
        }
        Ok(seen(self.state.ahead))
    }

    // Takes the next byte of the port.
    fn read_ahead(&mut self) -> Result<(), Failed>
        requires read { self.old.state.usage ≡ Usage.Reading }
        requires unknown { self.old.state.ahead ≡ Ahead.Unknown }

        ensures same_file { OnOk result ((bound : _) (file : _)
            → IsFile bound self.old.state (P.told self.old.port) file
            → IsFile bound self.new.state (P.told self.new.port) file) }
        ensures known { OnOk result (self.new.state.ahead ≢ Ahead.Unknown) }
        ensures failed { OnErr result ((bound : _) (file : _)
            → IsFile bound self.old.state (P.told self.old.port) file
            → Shows file.bytes (P.told self.new.port)) }
        ensures same { (self.new.state.usage ≡ self.old.state.usage)
            × (self.new.state.is_text ≡ self.old.state.is_text) }
        ensures cause { CountsFailure (is_err result) (P.failures self.old.port) (P.failures self.new.port) }
    {
        match self.port.take()? {
            Some(byte) => {
                self.state.last = Some(byte);
                self.state.ahead = Ahead::Byte(byte);
            }
            None => self.state.ahead = behind_last(self.state.is_text, self.state.last),
        }
        Ok(())
    }
}

// What is at the place behind the last byte of the port.
fn behind_last(is_text: bool, last: Option<u8>) -> Ahead
    ensures { result ≡ ahead_behind is_text last }
{
    match last {
        Some(byte) if is_text && byte != LINE_END => Ahead::LineEnd,
        _ => Ahead::End,
    }
}

// The byte that is looked at.
fn seen(ahead: Ahead) -> Option<u8>
    ensures { result ≡ byte_seen ahead }
{
    match ahead {
        Ahead::Byte(byte) => Some(byte),
        Ahead::LineEnd => Some(LINE_END),
        Ahead::Unknown | Ahead::End => None,
    }
}

// What is known behind the byte that was looked at.
pub(crate) fn passed(ahead: Ahead) -> Ahead
    ensures { result ≡ ahead_passed ahead }
{
    match ahead {
        Ahead::LineEnd | Ahead::End => Ahead::End,
        Ahead::Unknown | Ahead::Byte(_) => Ahead::Unknown,
    }
}
