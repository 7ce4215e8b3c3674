//! What the words of a command line ask for.
ghost use Rattle.std.specs.Prelude.{◌≡◌, find, map, drop, nat_le};
ghost use Rattle.std.specs.List.{list_all};
ghost use Rattle.std.specs.Option.{option_map};
ghost use Rattle.std.specs.Str.{bytes_eq};
ghost use Rattle.web2c_cli.specs.CommandLine.{set_the_same, sets, times_set, with_setting};
ghost use Rattle.web2c_cli.specs.CommandLine.{options_by_settings, with_steps, steps_by_settings};
ghost use Rattle.web2c_cli.specs.CommandLine.{parts_of, names_for, command_of, request_by, request_of};
ghost use Rattle.web2c_cli.specs.inner.Table.{options_by, command_by};
ghost use Rattle.web2c_cli.specs.inner.Reading.{names_by, request_as, with_name, is_name_at};

use crate::command_table::{COMMANDS, Command, CommandRow, Comparison, OptionRow, Setting, Value};
use crate::file_names::is_name_of;
use crate::parts::{Cursor, Part, next_part};
use std::marker::Model;
use wb_base::{Case, Options, Words};

/// The names of a command line.
#[derive(Clone, Copy)]
pub struct Names<'w> {
    /// The first.
    pub first: &'w [u8],
    /// The second, if there is one.
    pub second: Option<&'w [u8]>,
}

/// The settings that a command line gives, in their order. They are read from its words where they are wanted.
#[derive(Drop)]
pub struct Settings<'w> {
    words: &'w Words,
    options: &'static [OptionRow],
}

impl<'w> Model for Settings<'w> {
    ghost use Rattle.std.specs.Prelude.{List, drop};
    ghost use Rattle.std.specs.List.{filter_map};
    ghost use Rattle.web2c_cli.specs.declared.command_table.Setting.{Setting};
    ghost use Rattle.web2c_cli.specs.CommandLine.{parts_of, setting_in};
    ghost use Rattle.web2c_cli.specs.inner.Table.{options_by};

    ghost Value = { List Setting };

    ghost view = { λ settings.
        filter_map setting_in (parts_of (options_by settings.options.now) (drop 1 settings.words.now)) };
}

/// What a command is asked to do.
#[derive(Drop)]
pub struct Order<'w> {
    /// The command.
    pub command: Command,
    /// The names.
    pub names: Names<'w>,
    /// The settings.
    pub settings: Settings<'w>,
}

/// What the words ask for.
#[derive(Drop)]
pub enum Request<'w> {
    /// The work of a command.
    Ordered(Order<'w>),
    /// Nothing that is known: the command line is faulty.
    Usage,
}

/// Reads the words, without the program's own name. It takes no memory.
pub fn read_request(words: &Words) -> Request<'_>
    ensures { request_as result ≡ request_of words.now }
{
    if words.count() == 0 {
        return Request::Usage;
    }
    match command_row(words.word(0)) {
        Some(row) => read_order(words, &row),
        None => Request::Usage,
    }
}

/// The row of the command of this word.
pub fn command_row(word: &[u8]) -> Option<CommandRow>
    ensures { option_map command_by result ≡ command_of word.now }
{
    row_of_word(&COMMANDS, word)
}

// The row of this word.
fn row_of_word(rows: &[CommandRow], word: &[u8]) -> Option<CommandRow>
    ensures { option_map command_by result ≡ find (λ form. bytes_eq form.word word.now) (map command_by rows.now) }
{
    for row in rows {
        if row.word == word {
            return Some(*row);
        }
    }
    None
}

// Reads the words after that of the command.
fn read_order<'w>(words: &'w Words, row: &CommandRow) -> Request<'w>
    ensures { request_as result
        ≡ request_by (command_by row.now) (parts_of (options_by row.now.options.now) (drop 1 words.now)) }
{
    let settings = Settings {
        words,
        options: row.options,
    };
    if !are_set_at_most_once(&settings, row.options) {
        return Request::Usage;
    }
    match read_names(words, row) {
        Some(names) => Request::Ordered(Order {
            command: row.command,
            names,
            settings,
        }),
        None => Request::Usage,
    }
}

// Whether nothing is set twice.
fn are_set_at_most_once(settings: &Settings<'_>, options: &[OptionRow]) -> bool
    ensures { result ≡ list_all (λ row. nat_le (times_set row.value settings.now) 1) options.now }
{
    options
        .iter()
        .all(|row| settings.is_set_at_most_once(row.value))
}

impl Settings<'_> {
    // Whether that is not set twice which an option with this value sets.
    fn is_set_at_most_once(&self, value: Value) -> bool
        ensures { result ≡ nat_le (times_set value self.now) 1 }
    {
        let mut is_set = false;
        let mut cursor = Cursor::FIRST;
        while let Some(part) = next_part(self.words, self.options, &mut cursor) {
            if let Part::Given(setting) = part
                && sets(value, setting)
            {
                if is_set {
                    return false;
                }
                is_set = true;
            }
        }
        true
    }

    /// The options that the settings choose.
    pub fn options(&self) -> Options
        ensures { result ≡ options_by_settings self.now }
    {
        let mut options = DEFAULT_OPTIONS;
        let mut cursor = Cursor::FIRST;
        while let Some(part) = next_part(self.words, self.options, &mut cursor) {
            if let Part::Given(setting) = part {
                options = with_setting(options, setting);
            }
        }
        options
    }

    /// How many steps a run may take by the settings.
    pub fn steps(&self) -> u32
        ensures { result ≡ steps_by_settings self.now }
    {
        let mut steps = DEFAULT_STEPS;
        let mut cursor = Cursor::FIRST;
        while let Some(part) = next_part(self.words, self.options, &mut cursor) {
            if let Part::Given(setting) = part {
                steps = with_steps(steps, setting);
            }
        }
        steps
    }
}

// What tangling chooses where nothing is set.
const DEFAULT_OPTIONS: Options = Options {
    length: 32,
    underline: false,
    case: Case::Mixed,
    strict: false,
};

// The options after a setting.
fn with_setting(options: Options, setting: Setting) -> Options
    ensures { result ≡ with_setting options setting }
{
    match setting {
        Setting::Length(length) => Options { length, ..options },
        Setting::Underline => Options {
            underline: true,
            ..options
        },
        Setting::Letters(case) => Options { case, ..options },
        Setting::Words(comparison) => Options {
            strict: comparison == Comparison::Strict,
            ..options
        },
        Setting::Steps(_) => options,
    }
}

// How many steps a run may take where nothing is set.
const DEFAULT_STEPS: u32 = 1_000_000_000;

// How many steps a run may take after a setting.
fn with_steps(steps: u32, setting: Setting) -> u32
    ensures { result ≡ with_steps steps setting }
{
    match setting {
        Setting::Steps(most) => most,
        Setting::Length(_) | Setting::Underline | Setting::Letters(_) | Setting::Words(_) => steps,
    }
}

// Whether an option with this value sets what the setting does.
fn sets(value: Value, setting: Setting) -> bool
    ensures { result ≡ sets value setting }
{
    match value {
        Value::Fixed(given) => set_the_same(given, setting),
        Value::Length => matches!(setting, Setting::Length(_)),
        Value::Steps => matches!(setting, Setting::Steps(_)),
    }
}

// Whether two settings set the same.
fn set_the_same(setting: Setting, other: Setting) -> bool
    ensures { result ≡ set_the_same setting other }
{
    match setting {
        Setting::Length(_) => matches!(other, Setting::Length(_)),
        Setting::Underline => matches!(other, Setting::Underline),
        Setting::Letters(_) => matches!(other, Setting::Letters(_)),
        Setting::Words(_) => matches!(other, Setting::Words(_)),
        Setting::Steps(_) => matches!(other, Setting::Steps(_)),
    }
}

// The names, where the command knows all that is said, and each is one that it may have, and there are enough.
fn read_names<'w>(words: &'w Words, row: &CommandRow) -> Option<Names<'w>>
    ensures { option_map names_by result
        ≡ names_for (command_by row.now) (parts_of (options_by row.now.options.now) (drop 1 words.now)) }
{
    let mut names: Option<Names<'w>> = None;
    let mut count = 0;
    let mut cursor = Cursor::FIRST;
    while let Some(part) = next_part(words, row.options, &mut cursor) {
        match part {
            Part::Name(word) => {
                if !is_name_at(row, count, word) {
                    return None;
                }
                names = Some(with_name(names, word));
                count += 1;
            }
            Part::Given(_) => {}
            Part::Unknown => return None,
        }
    }
    if count < row.needed { None } else { names }
}

// Whether the word can name what stands at this place, from 0.
fn is_name_at(row: &CommandRow, index: usize, word: &[u8]) -> bool
    ensures { result ≡ is_name_at (command_by row.now) index word.now }
{
    match row.names.get(index).copied().or(row.more) {
        Some(kind) => is_name_of(kind, word),
        None => false,
    }
}

// The names with one more, of which the first two are kept.
fn with_name<'w>(names: Option<Names<'w>>, word: &'w [u8]) -> Names<'w>
    ensures { names_by result ≡ with_name (option_map names_by names.entry) word.now }
{
    match names {
        None => Names {
            first: word,
            second: None,
        },
        Some(names) => Names {
            first: names.first,
            second: names.second.or(Some(word)),
        },
    }
}
