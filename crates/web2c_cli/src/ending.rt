//! How the run of a program ended, and how that is told.
ghost use Rattle.std.specs.Prelude.{◌≡◌, [], IfOk};
ghost use Rattle.wb_base.specs.ConsoleLine.{text_beside};
ghost use Rattle.web2c_cli.specs.Runs.{end_text, end_line, status_after, error_texts};
ghost use Rattle.web2c_cli.specs.inner.Running.{end_by};

use crate::status::Status;
use pas_meaning::{
    AT_END_OF_FILE, CHR_OUT_OF_RANGE, DIVISION_BY_ZERO, INDEX_OUT_OF_RANGE, MOD_BELOW_1,
    NO_CASE_MATCHES, OUT_OF_RANGE, PAST_MAXINT, STATUS_OUT_OF_RANGE, UNDEFINED_BUFFER,
    UNDEFINED_RESULT, UNDEFINED_VALUE, WIDTH_BELOW_1, WRONG_MODE,
};
use std::alloc::Global;
use wb_base::{OutOfMemory, Text};

/// How the run of a program ended.
#[derive(Clone, Copy)]
pub enum Ending {
    /// It halted with this status.
    Halted(u8),
    /// It went on at its bound of steps.
    Going,
    /// It committed the error of this kind.
    Error(u8),
    /// Its calls nested too deep.
    TooDeep,
}

impl Ending {
    /// The line that tells it of a run within this bound of steps, with its byte 10.
    pub fn line(self, alloc: Global, steps: u32) -> Result<Text, OutOfMemory>
        ensures { IfOk result (λ line. line ≡ end_line steps (end_by self)) }
    {
        let mut line = Text::new(alloc);
        self.push_text(steps, &mut line)?;
        line.push(b'\n')?;
        Ok(line)
    }

    // Appends the text that tells it to an empty line.
    fn push_text(self, steps: u32, line: &mut Text) -> Result<(), OutOfMemory>
        requires { line.old ≡ [] }
        ensures { IfOk result (λ _. line.new ≡ end_text steps (end_by self)) }
    {
        match self {
            Ending::Halted(status) => {
                line.push_all(b"Halted with status ")?;
                line.push_number(i64::from(status))?;
                line.push_all(b".")
            }
            Ending::Going => {
                line.push_all(b"! Stopped after ")?;
                line.push_number(i64::from(steps))?;
                line.push_all(b" steps.")
            }
            Ending::Error(kind) => {
                line.push_all(b"! Error: ")?;
                line.push_all(error_text(kind))?;
                line.push_all(b" (E")?;
                line.push_number(i64::from(kind))?;
                line.push_all(b")")
            }
            Ending::TooDeep => line.push_all(b"! Calls nested too deep."),
        }
    }

    /// The status that the program ends with behind it.
    pub fn status(self) -> Status
        ensures { result ≡ status_after (end_by self) }
    {
        match self {
            Ending::Halted(_) => Status::Done,
            Ending::Going => Status::Unfinished,
            Ending::Error(_) => Status::Erroneous,
            Ending::TooDeep => Status::TooDeep,
        }
    }
}

// The text of the error of this kind.
fn error_text(kind: u8) -> &'static [u8]
    ensures { result.now ≡ text_beside error_texts kind }
{
    match kind {
        UNDEFINED_VALUE => b"undefined value",
        OUT_OF_RANGE => b"value out of its range",
        INDEX_OUT_OF_RANGE => b"index out of range",
        PAST_MAXINT => b"integer past maxint",
        DIVISION_BY_ZERO => b"division by zero",
        MOD_BELOW_1 => b"mod by a number below 1",
        CHR_OUT_OF_RANGE => b"chr out of range",
        NO_CASE_MATCHES => b"no case matches",
        WIDTH_BELOW_1 => b"width below 1",
        WRONG_MODE => b"file not in the needed mode",
        AT_END_OF_FILE => b"at the end of the file",
        UNDEFINED_BUFFER => b"put of an undefined buffer",
        UNDEFINED_RESULT => b"function result undefined",
        STATUS_OUT_OF_RANGE => b"uexit not in 0 to 255",
        _ => b"",
    }
}
