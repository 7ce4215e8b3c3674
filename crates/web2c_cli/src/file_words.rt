//! The words of a command line that name the files of a run.
ghost use Rattle.std.specs.Prelude.{◌≡◌, IfOk, drop};
ghost use Rattle.std.specs.List.{filter_map};
ghost use Rattle.web2c_cli.specs.CommandLine.{parts_of, name_in, names_files, asks_for_run, names_said, file_words};
ghost use Rattle.web2c_cli.specs.inner.Table.{options_by};
ghost use Rattle.web2c_cli.specs.inner.Reading.{request_as};

use crate::command_line::{Request, command_row, read_request};
use crate::command_table::{Command, OptionRow};
use crate::parts::{Cursor, Part, next_part};
use std::alloc::Global;
use wb_base::{OutOfMemory, Words};

/// The words that name the files of a run, in their order: all names but the first. Words that ask for no run have
/// none. This project's own.
pub fn file_words(alloc: Global, words: &Words) -> Result<Words, OutOfMemory>
    ensures { IfOk result (λ files. files ≡ file_words words.now) }
{
    if asks_for_run(&read_request(words)) {
        later_names(alloc, words)
    } else {
        Ok(Words::new(alloc))
    }
}

/// Whether the request is for the run of a program.
pub fn asks_for_run(request: &Request<'_>) -> bool
    ensures { result ≡ asks_for_run (request_as request.now) }
{
    match request {
        Request::Ordered(order) => names_files(order.command),
        Request::Usage => false,
    }
}

// Whether the names behind a command's first are those of the files of a run.
fn names_files(command: Command) -> bool
    ensures { result ≡ names_files command }
{
    match command {
        Command::Tangle | Command::Pooltype => false,
        Command::Prun => true,
    }
}

// The names that are said in the words, but for the first.
fn later_names(alloc: Global, words: &Words) -> Result<Words, OutOfMemory>
    ensures { IfOk result (λ names. names ≡ drop 1 (names_said words.now)) }
{
    if words.count() == 0 {
        return Ok(Words::new(alloc));
    }
    match command_row(words.word(0)) {
        Some(row) => names_after_first(alloc, words, row.options),
        None => Ok(Words::new(alloc)),
    }
}

// The names after the command, but for the first.
fn names_after_first(
    alloc: Global,
    words: &Words,
    options: &[OptionRow],
) -> Result<Words, OutOfMemory>
    ensures { IfOk result
        (λ names. names ≡ drop 1 (filter_map name_in (parts_of (options_by options.now) (drop 1 words.now)))) }
{
    let mut names = Words::new(alloc);
    let mut is_first = true;
    let mut cursor = Cursor::FIRST;
    while let Some(part) = next_part(words, options, &mut cursor) {
        if let Part::Name(word) = part {
            if is_first {
                is_first = false;
            } else {
                names.add(word)?;
            }
        }
    }
    Ok(names)
}
