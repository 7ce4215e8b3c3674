//! What the words of a command line say, part by part.
ghost use Rattle.std.specs.Prelude.{◌≡◌, ◌<◌, ◌^◌, ◌≤◌, ℕ, List, [], ◌∷◌, Some, None, MatchOption, IfSome, false};
ghost use Rattle.std.specs.Prelude.{slice_get, length, find, if◌then◌else◌};
ghost use Rattle.std.specs.Option.{option_copied, option_map};
ghost use Rattle.std.specs.Str.{bytes_eq};
ghost use Rattle.web2c_cli.specs.CommandLine.{OptionForm, ends_options, is_dashed, option_part, takes_next, word_part};
ghost use Rattle.web2c_cli.specs.CommandLine.{equals_sign_in, spelling_in, value_in, option_of};
ghost use Rattle.web2c_cli.specs.CommandLine.{number_written, is_number_within, setting_by, takes_value};
ghost use Rattle.web2c_cli.specs.inner.Table.{option_by, options_by};
ghost use Rattle.web2c_cli.specs.inner.Reading.{part_by, parts_from};

use crate::command_table::{
    GREATEST_LENGTH, GREATEST_STEPS, LEAST_LENGTH, LEAST_STEPS, OptionRow, Setting, Value,
};
use wb_base::Words;

/// What a word says, or an option and the word after it.
#[derive(Clone, Copy)]
pub enum Part<'w> {
    /// A name.
    Name(&'w [u8]),
    /// A setting.
    Given(Setting),
    /// Nothing that the command knows.
    Unknown,
}

/// A place in the words, from 0, and whether all words from there on are names.
#[derive(Clone, Copy)]
pub struct Cursor {
    /// The place.
    pub at: usize,
    /// Whether all words from there on are names.
    pub names_only: bool,
}

impl Cursor {
    /// The place after the command.
    pub const FIRST: Cursor = Cursor {
        at: 1,
        names_only: false,
    };
}

/// Reads the next part, and moves the cursor after it; none comes at the end.
pub fn next_part<'w>(
    words: &'w Words,
    options: &[OptionRow],
    cursor: &mut Cursor,
) -> Option<Part<'w>>
    ensures part { MatchOption result
        (parts_from (options_by options.now) cursor.old words.now ≡ [])
        (λ part. parts_from (options_by options.now) cursor.old words.now
        ≡ part_by part ∷ parts_from (options_by options.now) cursor.new words.now) }
    ensures moved { IfSome result (λ part. (cursor.old.at < cursor.new.at) × (cursor.new.at < 2 ^ 64)) }
{
    pass_end_mark(words, cursor);
    if cursor.at >= words.count() {
        return None;
    }
    let word = words.word(cursor.at);
    cursor.at += 1;
    if cursor.names_only {
        return Some(Part::Name(word));
    }
    if cursor.at < words.count() && takes_next(options, word) {
        let value = words.word(cursor.at);
        cursor.at += 1;
        return Some(option_part(options, word, Some(value)));
    }
    Some(word_part(options, word))
}

// Moves the cursor after a `--` that ends the options, if it stands there.
fn pass_end_mark(words: &Words, cursor: &mut Cursor)
    ensures same { (options : List OptionForm) →
        parts_from options cursor.new words.now ≡ parts_from options cursor.old words.now }
    ensures passed { (word : List ℕ) → cursor.new.names_only ≡ false → slice_get words.now cursor.new.at ≡ Some word
        → ends_options word ≡ false }
    ensures moved { cursor.old.at ≤ cursor.new.at }
{
    if cursor.names_only || cursor.at >= words.count() {
        return;
    }
    if ends_options(words.word(cursor.at)) {
        cursor.at += 1;
        cursor.names_only = true;
    }
}

// Whether the word is `--`.
fn ends_options(word: &[u8]) -> bool
    ensures { result ≡ ends_options word.now }
{
    word == b"--".as_slice()
}

// Whether the word is an option's.
fn is_dashed(word: &[u8]) -> bool
    ensures { result ≡ is_dashed word.now }
{
    match word {
        [first, _, ..] => *first == b'-',
        _ => false,
    }
}

// Whether the word is an option whose value is the next word.
fn takes_next(options: &[OptionRow], word: &[u8]) -> bool
    ensures { result ≡ takes_next (options_by options.now) word.now }
{
    if !is_dashed(word) || value_in(word).is_some() {
        return false;
    }
    match option_of(options, word) {
        Some(row) => takes_value(row.value),
        None => false,
    }
}

// Whether an option with such a value takes it from the command line.
fn takes_value(value: Value) -> bool
    ensures { result ≡ takes_value value }
{
    match value {
        Value::Fixed(_) => false,
        Value::Length | Value::Steps => true,
    }
}

// What the word says by itself.
fn word_part<'w>(options: &[OptionRow], word: &'w [u8]) -> Part<'w>
    ensures { part_by result ≡ word_part (options_by options.now) word.now }
{
    if is_dashed(word) {
        option_part(options, word, value_in(word))
    } else {
        Part::Name(word)
    }
}

// What the word of an option says with this value, or without one.
fn option_part<'w>(options: &[OptionRow], word: &[u8], value: Option<&[u8]>) -> Part<'w>
    ensures { part_by result ≡ option_part (options_by options.now) word.now (option_copied value.entry) }
{
    match option_of(options, word) {
        Some(row) => setting_by(row.value, value),
        None => Part::Unknown,
    }
}

// What an option says with this value, or without one.
fn setting_by<'w>(value: Value, written: Option<&[u8]>) -> Part<'w>
    ensures { part_by result ≡ setting_by value (option_copied written.entry) }
{
    match (value, written) {
        (Value::Fixed(setting), None) => Part::Given(setting),
        (Value::Length, Some(text)) => match number_within(LEAST_LENGTH, GREATEST_LENGTH, text) {
            Some(length) => Part::Given(Setting::Length(length as u8)),
            None => Part::Unknown,
        },
        (Value::Steps, Some(text)) => match number_within(LEAST_STEPS, GREATEST_STEPS, text) {
            Some(steps) => Part::Given(Setting::Steps(steps as u32)),
            None => Part::Unknown,
        },
        (Value::Fixed(_), Some(_)) | (Value::Length | Value::Steps, None) => Part::Unknown,
    }
}

// The number that is written so, if it is one from the first to the second.
fn number_within(least: u64, most: u64, text: &[u8]) -> Option<u64>
    ensures { result ≡ (if is_number_within least most text.now then Some (number_written text.now) else None) }
{
    let mut number: u64 = 0;
    for byte in text {
        if !byte.is_ascii_digit() {
            return None;
        }
        number = number
            .checked_mul(10)?
            .checked_add(u64::from(*byte - b'0'))?;
    }
    if !text.is_empty() && least <= number && number <= most {
        Some(number)
    } else {
        None
    }
}

// The option of the word.
fn option_of(options: &[OptionRow], word: &[u8]) -> Option<OptionRow>
    ensures { option_map option_by result ≡ option_of (options_by options.now) word.now }
{
    option_spelled(options, spelling_in(word))
}

// The option of this spelling.
fn option_spelled(options: &[OptionRow], spelling: &[u8]) -> Option<OptionRow>
    ensures { result ≡ find (λ row. bytes_eq row.spelling.now spelling.now) options.now }
{
    for row in options {
        if row.spelling == spelling {
            return Some(*row);
        }
    }
    None
}

// What stands before the first `=` of the word.
fn spelling_in(word: &[u8]) -> &[u8]
    ensures { result.now ≡ spelling_in word.now }
{
    match equals_sign_in(word) {
        Some(index) => &word[..index],
        None => word,
    }
}

// What stands after the first `=` of the word, if it has one.
fn value_in(word: &[u8]) -> Option<&[u8]>
    ensures { option_copied result ≡ value_in word.now }
{
    match equals_sign_in(word) {
        Some(index) => Some(&word[index + 1..]),
        None => None,
    }
}

// Where the first `=` of the word stands.
fn equals_sign_in(word: &[u8]) -> Option<usize>
    ensures place { result ≡ equals_sign_in word.now }
    ensures within { IfSome result (λ index. index < length word.now) }
{
    word.iter().position(|byte| *byte == b'=')
}
