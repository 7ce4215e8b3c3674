//! Faults, by their numbers and places. The numbers are this project's own.
ghost use Rattle.std.specs.Prelude.{◌≡◌, IfOk};

use crate::fault_texts::{fault_detail, fault_text};
use crate::{FileTag, OutOfMemory, Place, Text};
use std::alloc::{AllocError, AllocFailed, Global};

/// The most bytes of an input. This project's own.
pub const FILE_LIMIT: usize = 16_777_216;

/// A line is too long.
pub const LINE_TOO_LONG: u16 = 1;
/// `@y` or `@z` outside a block of a change file.
pub const STRAY_CHANGE_MARK: u16 = 2;
/// An old part without its `@y`.
pub const NO_NEW_PART: u16 = 3;
/// A new part without its `@z`.
pub const NO_END_OF_CHANGE: u16 = 4;
/// A block without old lines.
pub const EMPTY_CHANGE: u16 = 5;
/// A block that applies nowhere.
pub const CHANGE_NOT_FOUND: u16 = 6;
/// An old line that is not the next line of the web.
pub const CHANGE_LINES_DIFFER: u16 = 7;
/// A byte that may not stand in a web.
pub const BAD_BYTE: u16 = 8;
/// A comment without its end.
pub const COMMENT_NOT_ENDED: u16 = 9;
/// A string without its end on its line.
pub const STRING_NOT_ENDED: u16 = 10;
/// A single at sign in a string or a verbatim text.
pub const AT_SIGN_NOT_DOUBLED: u16 = 11;
/// A section name without its end, or an empty one.
pub const SECTION_NAME_NOT_ENDED: u16 = 12;
/// `@>` or `}` where nothing is to be ended.
pub const STRAY_END: u16 = 13;
/// A control text without its end, or a constant without digits.
pub const BAD_CONTROL_TEXT: u16 = 14;
/// A string too long for the pool.
pub const POOL_STRING_TOO_LONG: u16 = 15;
/// A definition out of form.
pub const BAD_DEFINITION: u16 = 16;
/// A numeric definition out of form.
pub const BAD_NUMERIC_DEFINITION: u16 = 17;
/// A value past its limit.
pub const VALUE_TOO_BIG: u16 = 18;
/// A numeric name that appeared before its definition.
pub const NAME_APPEARED: u16 = 19;
/// A name that is a macro already.
pub const NAME_DEFINED: u16 = 20;
/// A name that cannot be told from an earlier one.
pub const NAME_CONFLICT: u16 = 21;
/// Parentheses of a replacement text that do not balance.
pub const UNBALANCED_PARENTHESES: u16 = 22;
/// A section name without its equals sign.
pub const NO_EQUALS_SIGN: u16 = 23;
/// A definition in Pascal text.
pub const DEFINITION_IN_PASCAL: u16 = 24;
/// A prefix of no section name.
pub const NO_NAME_MATCHES: u16 = 25;
/// A prefix of several section names.
pub const SEVERAL_NAMES_MATCH: u16 = 26;
/// A section name that another one begins with.
pub const INCOMPATIBLE_NAMES: u16 = 27;
/// A limit was passed; `which` tells it.
pub const LIMIT_PASSED: u16 = 28;
/// A section that has a name and no text.
pub const SECTION_NOT_PRESENT: u16 = 29;
/// A parametric macro without an argument.
pub const NO_PARAMETER_GIVEN: u16 = 30;
/// Replacements within replacements past the limit.
pub const TOO_MANY_LEVELS: u16 = 31;
/// An expansion past its limit of steps.
pub const TOO_MANY_STEPS: u16 = 32;
/// Two numbers without a sign between them.
pub const NUMBERS_WITHOUT_SIGN: u16 = 33;
/// A constant past the largest integer.
pub const CONSTANT_TOO_BIG: u16 = 34;
/// A real constant.
pub const REAL_CONSTANT: u16 = 35;
/// A string longer than an output line.
pub const STRING_TOO_LONG: u16 = 36;
/// An output line without a place to cut it.
pub const LINE_NOT_CUT: u16 = 37;
/// The end of a metacomment that was not begun.
pub const STRAY_END_OF_METACOMMENT: u16 = 38;
/// A metacomment without its end.
pub const METACOMMENT_NOT_ENDED: u16 = 39;
/// A line of a pool that does not begin with a length.
pub const BAD_POOL_LENGTH: u16 = 40;
/// A line of a pool that is shorter than its length says.
pub const POOL_LINE_TOO_SHORT: u16 = 41;
/// A pool without its last line.
pub const BAD_LAST_LINE: u16 = 42;
/// The check sum of the pool, which is left out.
pub const CHECK_SUM_LEFT_OUT: u16 = 43;
/// A byte that may not stand in Pascal.
pub const BAD_PASCAL_BYTE: u16 = 50;
/// What is no token of Pascal.
pub const BAD_PASCAL_TOKEN: u16 = 51;
/// A token that the grammar of Pascal does not allow.
pub const PASCAL_SYNTAX: u16 = 52;
/// A part of Pascal that is left out; `which` tells it.
pub const PASCAL_LEFT_OUT: u16 = 53;
/// A name that is not declared.
pub const UNKNOWN_NAME: u16 = 54;
/// A name that is declared twice.
pub const DUPLICATE_NAME: u16 = 55;
/// What has another type than is needed.
pub const WRONG_TYPE: u16 = 56;
/// A constant out of its range.
pub const CONSTANT_OUT_OF_RANGE: u16 = 57;
/// A label that is not declared or does not stand.
pub const WRONG_LABEL: u16 = 58;
/// A goto to a place that it may not reach.
pub const WRONG_GOTO: u16 = 59;
/// A type or program that is too large.
pub const TOO_LARGE: u16 = 60;
/// A file against the rules of files.
pub const FILE_RULE: u16 = 61;
/// A function whose result is never assigned.
pub const RESULT_NEVER_ASSIGNED: u16 = 62;
/// What is no token of C.
pub const BAD_C_TOKEN: u16 = 70;
/// A token that the grammar of C does not allow.
pub const C_SYNTAX: u16 = 71;
/// A C file out of its structure.
pub const C_STRUCTURE: u16 = 72;

/// The limit of a file's bytes.
pub const LIMIT_FILE_BYTES: u8 = 1;
/// The limit of names.
pub const LIMIT_NAMES: u8 = 2;
/// The limit of section names.
pub const LIMIT_SECTION_NAMES: u8 = 3;
/// The limit of stored tokens.
pub const LIMIT_TOKENS: u8 = 4;
/// The limit of strings.
pub const LIMIT_STRINGS: u8 = 5;
/// The limit of sections.
pub const LIMIT_SECTIONS: u8 = 6;

/// Real numbers.
pub const REAL_NUMBERS: u8 = 1;
/// Variant records.
pub const VARIANT_RECORDS: u8 = 2;
/// Routines within routines.
pub const NESTED_ROUTINES: u8 = 3;
/// Enumerations.
pub const ENUMERATIONS: u8 = 4;
/// Sets.
pub const SETS: u8 = 5;
/// Pointers.
pub const POINTERS: u8 = 6;
/// `with`.
pub const WITH_STATEMENTS: u8 = 7;
/// Routines as parameters.
pub const ROUTINES_AS_PARAMETERS: u8 = 8;
/// Reading a number from a text.
pub const READING_NUMBERS: u8 = 9;
/// Strings outside `write`.
pub const STRINGS_OUTSIDE_WRITE: u8 = 10;
/// Constants and types of a routine.
pub const LOCAL_CONSTANTS_AND_TYPES: u8 = 11;
/// Nesting past its limit.
pub const NESTING_PAST_LIMIT: u8 = 12;

/// What is wrong with an input, and where. The numbers and texts are this project's own.
#[derive(Clone, Copy, Debug, PartialEq, Eq)]
pub struct Fault {
    /// The fault's number.
    pub code: u16,
    /// The file that shows it.
    pub file: FileTag,
    /// The line that shows it, from 1, or 0 where the file as a whole shows it.
    pub line: u32,
    /// For a fault of several kinds, which of them it is, from 1; else 0. Of a limit passed (number 28) it is
    /// the limit: 1 the bytes of a file, 2 names, 3 section names, 4 tokens, 5 strings, 6 sections. Of Pascal that is
    /// left out (number 53) it is the part: 1 real numbers, 2 variant records, 3 nested routines, 4 enumerations,
    /// 5 sets, 6 pointers, 7 `with`, 8 routines as parameters, 9 reading a number, 10 strings outside `write`,
    /// 11 local constants and types, 12 nesting past the limit.
    pub which: u8,
}

impl Fault {
    ghost use Rattle.wb_base.specs.ConsoleLine.{console_line};
    ghost use Rattle.wb_base.specs.FaultAt.{fault_at, limit_passed};

    /// The fault of this number that this place shows, with no `which`.
    pub fn at(code: u16, place: Place) -> Fault
        ensures { result ≡ fault_at code place }
    {
        Fault {
            code,
            file: place.file,
            line: place.line,
            which: 0,
        }
    }

    /// The fault of passing a limit, which this place shows. `which` is one of the limits, as `LIMIT_NAMES`.
    pub fn limit(which: u8, place: Place) -> Fault
        ensures { result ≡ limit_passed which place }
    {
        Fault {
            code: LIMIT_PASSED,
            file: place.file,
            line: place.line,
            which,
        }
    }

    /// The console line that reports the fault in the file of this name, without the byte 10 at its end.
    pub fn text(&self, alloc: Global, name: &[u8]) -> Result<Text, OutOfMemory>
        ensures { IfOk result (λ text. text ≡ console_line self.now name.now) }
    {
        let mut line = Text::new(alloc);
        line.push_all(b"! ")?;
        line.push_all(name)?;
        line.push_all(b":")?;
        line.push_number(i64::from(self.line))?;
        line.push_all(b": ")?;
        line.push_all(fault_text(self.code))?;
        line.push_all(fault_detail(self.code, self.which))?;
        line.push_all(b" (F")?;
        line.push_number(i64::from(self.code))?;
        line.push_all(b")")?;
        Ok(line)
    }
}

/// Why work on an input ended.
#[derive(Clone, Copy, Debug, PartialEq, Eq)]
pub enum WorkErr {
    /// The input has a fault.
    Fault(Fault),
    /// No memory was found.
    OutOfMemory,
}

impl From<Fault> for WorkErr {
    ghost use Rattle.wb_base.specs.declared.faults.WorkErr.TheVariants.{Fault as of_input};

    ghost from_gives = { λ fault e. e ≡ of_input fault };

    fn from(fault: Fault) -> Self {
        WorkErr::Fault(fault)
    }
}

impl From<OutOfMemory> for WorkErr {
    ghost use Rattle.wb_base.specs.declared.faults.WorkErr.TheVariants.{OutOfMemory};

    ghost from_gives = { λ _ e. e ≡ OutOfMemory };

    fn from(_: OutOfMemory) -> Self {
        WorkErr::OutOfMemory
    }
}

impl From<AllocError> for WorkErr {
    ghost use Rattle.wb_base.specs.declared.faults.WorkErr.TheVariants.{OutOfMemory};

    ghost from_gives = { λ _ e. e ≡ OutOfMemory };

    fn from(_: AllocError) -> Self {
        WorkErr::OutOfMemory
    }
}

impl<T: Drop> From<AllocFailed<T>> for WorkErr {
    ghost use Rattle.wb_base.specs.declared.faults.WorkErr.TheVariants.{OutOfMemory};

    ghost from_gives = { λ _ e. e ≡ OutOfMemory };

    fn from(_: AllocFailed<T>) -> Self {
        WorkErr::OutOfMemory
    }
}
