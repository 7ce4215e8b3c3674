//! Names of files on the command line, and of the files that are made of a web.
ghost use Rattle.std.specs.Prelude.{◌≡◌, IfOk};
ghost use Rattle.std.specs.List.{list_all};
ghost use Rattle.web2c_cli.specs.FileNames.{is_name_byte, is_file_name, is_name_of, base_of, output_name, code_name};
ghost use Rattle.web2c_cli.specs.FileNames.{pascal_base_of};

use crate::command_table::NameKind;
use std::alloc::Global;
use wb_base::{OutOfMemory, Text};

/// Whether the word can name what is named there.
pub fn is_name_of(kind: NameKind, word: &[u8]) -> bool
    ensures { result ≡ is_name_of kind word.now }
{
    match kind {
        NameKind::Web => is_file_name(word) && !base(word).is_empty(),
        NameKind::Pascal => is_file_name(word) && !pascal_base(word).is_empty(),
        NameKind::File => is_file_name(word),
    }
}

// Whether the word can be a file's name.
fn is_file_name(word: &[u8]) -> bool
    ensures { result ≡ is_file_name word.now }
{
    !word.is_empty() && has_name_bytes(word)
}

// Whether each byte of the word is one that a file's name may have.
fn has_name_bytes(word: &[u8]) -> bool
    ensures { result ≡ list_all is_name_byte word.now }
{
    word.iter().all(|byte| is_name_byte(*byte))
}

// Whether a file's name may have this byte.
fn is_name_byte(byte: u8) -> bool
    ensures { result ≡ is_name_byte byte }
{
    (33..=126).contains(&byte) && byte != b'"' && byte != b'\\'
}

// The name of a web without a last `.web`: the files that are made of the web are named by it.
fn base(web: &[u8]) -> &[u8]
    ensures { result.now ≡ base_of web.now }
{
    web.strip_suffix(b".web".as_slice()).unwrap_or(web)
}

// The name of a Pascal program without a last `.p`.
fn pascal_base(pascal: &[u8]) -> &[u8]
    ensures { result.now ≡ pascal_base_of pascal.now }
{
    pascal.strip_suffix(b".p".as_slice()).unwrap_or(pascal)
}

/// The name of a file that is made of a web, with this ending.
pub fn output_name(alloc: Global, web: &[u8], ending: &[u8]) -> Result<Text, OutOfMemory>
    ensures { IfOk result (λ name. name ≡ output_name web.now ending.now) }
{
    let mut name = Text::new(alloc);
    name.push_all(base(web))?;
    name.push_all(ending)?;
    Ok(name)
}

/// The name of the C file of this number.
pub fn code_name(alloc: Global, web: &[u8], number: u32) -> Result<Text, OutOfMemory>
    ensures { IfOk result (λ name. name ≡ code_name web.now number) }
{
    let mut name = Text::new(alloc);
    name.push_all(base(web))?;
    name.push_number(i64::from(number))?;
    name.push_all(b".c")?;
    Ok(name)
}
