//! The commands that are built, each with its names and its options.

use wb_base::Case;

/// A command that is built.
#[derive(Clone, Copy)]
pub enum Command {
    /// `tangle`: from a web to Pascal.
    Tangle,
    /// `pooltype`: the listing of a pool.
    Pooltype,
    /// `prun`: the run of a Pascal program.
    Prun,
}

/// What a word names.
#[derive(Clone, Copy)]
pub enum NameKind {
    /// A web, by whose name other files are named.
    Web,
    /// A Pascal program.
    Pascal,
    /// Another file.
    File,
}

/// How words are compared.
#[derive(Clone, Copy, Debug, PartialEq, Eq)]
pub enum Comparison {
    /// As they are printed.
    Loose,
    /// In upper case and without underlines.
    Strict,
}

/// What an option sets.
#[derive(Clone, Copy, Debug, PartialEq, Eq)]
pub enum Setting {
    /// How many bytes of a word tell it from others.
    Length(u8),
    /// That underlines stay in the Pascal text.
    Underline,
    /// How letters are folded.
    Letters(Case),
    /// How words are compared.
    Words(Comparison),
    /// How many steps a run may take.
    Steps(u32),
}

/// The least length of words that may be set.
pub const LEAST_LENGTH: u64 = 1;

/// The greatest length of words that may be set.
pub const GREATEST_LENGTH: u64 = 50;

/// The least number of steps that may be set.
pub const LEAST_STEPS: u64 = 0;

/// The greatest number of steps that may be set.
pub const GREATEST_STEPS: u64 = 1_000_000_000;

/// The value of an option.
#[derive(Clone, Copy)]
pub enum Value {
    /// None is written, and this is set.
    Fixed(Setting),
    /// A length of words is written, from the least to the greatest.
    Length,
    /// A number of steps is written, from the least to the greatest.
    Steps,
}

/// An option of a command.
#[derive(Clone, Copy)]
pub struct OptionRow {
    /// How it is spelled, with its dashes.
    pub spelling: &'static [u8],
    /// Its value. Options that set the same exclude one another.
    pub value: Value,
}

/// A command.
#[derive(Clone, Copy)]
pub struct CommandRow {
    /// Its word.
    pub word: &'static [u8],
    /// Which command it is.
    pub command: Command,
    /// How many names it needs.
    pub needed: usize,
    /// What each name that it may have names.
    pub names: &'static [NameKind],
    /// What each name behind those names, where any number of them may come.
    pub more: Option<NameKind>,
    /// Its options.
    pub options: &'static [OptionRow],
}

/// The options of tangling.
const TANGLE_OPTIONS: [OptionRow; 7] = [
    OptionRow {
        spelling: b"--length",
        value: Value::Length,
    },
    OptionRow {
        spelling: b"--underline",
        value: Value::Fixed(Setting::Underline),
    },
    OptionRow {
        spelling: b"--uppercase",
        value: Value::Fixed(Setting::Letters(Case::Upper)),
    },
    OptionRow {
        spelling: b"--lowercase",
        value: Value::Fixed(Setting::Letters(Case::Lower)),
    },
    OptionRow {
        spelling: b"--mixedcase",
        value: Value::Fixed(Setting::Letters(Case::Mixed)),
    },
    OptionRow {
        spelling: b"--loose",
        value: Value::Fixed(Setting::Words(Comparison::Loose)),
    },
    OptionRow {
        spelling: b"--strict",
        value: Value::Fixed(Setting::Words(Comparison::Strict)),
    },
];

/// The option of the run of a program.
const RUN_OPTIONS: [OptionRow; 1] = [OptionRow {
    spelling: b"--steps",
    value: Value::Steps,
}];

/// The commands that are built.
pub const COMMANDS: [CommandRow; 3] = [
    CommandRow {
        word: b"tangle",
        command: Command::Tangle,
        needed: 1,
        names: &[NameKind::Web, NameKind::File],
        more: None,
        options: &TANGLE_OPTIONS,
    },
    CommandRow {
        word: b"pooltype",
        command: Command::Pooltype,
        needed: 1,
        names: &[NameKind::File],
        more: None,
        options: &[],
    },
    CommandRow {
        word: b"prun",
        command: Command::Prun,
        needed: 1,
        names: &[NameKind::Pascal],
        more: Some(NameKind::File),
        options: &RUN_OPTIONS,
    },
];
