//! How words are printed and compared.
ghost use Rattle.std.specs.Prelude.{◌≡◌, IfOk, take};
ghost use Rattle.web_names.specs.Identifiers.{folded, is_kept, spelled, printed_form, compared_form};

use std::alloc::{AllocError, Global};
use wb_base::{Case, Options};

/// The most bytes of an identifier in the Pascal text.
const PRINTED_LIMIT: usize = 50;

/// A word of one letter as it stands in the Pascal text: the letter, folded by the options.
pub fn printed_letter(letter: u8, options: &Options) -> u8
    ensures { result ≡ folded options.now.case letter }
{
    folded(letter, options.case)
}

// A byte of a word, folded.
fn folded(byte: u8, case: Case) -> u8
    ensures { result ≡ folded case byte }
{
    match case {
        Case::Upper => byte.to_ascii_uppercase(),
        Case::Lower => byte.to_ascii_lowercase(),
        Case::Mixed => byte,
    }
}

// A word as it stands in the Pascal text.
#[tactic(auto, unfolding(crate::specs::Identifiers::printed_form))]
pub(crate) fn printed_form(
    alloc: Global,
    word: &[u8],
    options: &Options,
) -> Result<Vec<u8>, AllocError>
    ensures { IfOk result (λ form. form.items ≡ printed_form options.now word.now) }
{
    spelled(alloc, word, options.underline, options.case, PRINTED_LIMIT)
}

// What of a word tells it from others.
#[tactic(auto, unfolding(crate::specs::Identifiers::compared_form))]
pub(crate) fn compared_form(
    alloc: Global,
    word: &[u8],
    options: &Options,
) -> Result<Vec<u8>, AllocError>
    ensures { IfOk result (λ form. form.items ≡ compared_form options.now word.now) }
{
    let length = usize::from(options.length);
    if options.strict {
        return spelled(alloc, word, false, Case::Upper, length);
    }
    spelled(alloc, word, options.underline, options.case, length)
}

// This many bytes of a word, with its underlines kept or removed and its letters folded.
fn spelled(
    alloc: Global,
    word: &[u8],
    underline: bool,
    case: Case,
    limit: usize,
) -> Result<Vec<u8>, AllocError>
    ensures { IfOk result (λ form. form.items ≡ take limit (spelled underline case word.now)) }
{
    word.iter()
        .copied()
        .filter(|byte| underline || *byte != b'_')
        .map(|byte| folded(byte, case))
        .take(limit)
        .collect(alloc)
}
