//! How reserved words and signs are spelled.
ghost use Rattle.std.specs.Prelude.{◌≡◌, map};
ghost use Rattle.std.specs.Char.{to_ascii_lowercase};
ghost use Rattle.std.specs.Str.{bytes_eq};
ghost use Rattle.pas_tokens.specs.Spellings.{reserved_words, signs_of_one, signs_of_two, kind_in};
ghost use Rattle.pas_tokens.specs.inner.CodeCuts.{spelling_by, folded_by};

use crate::Kind;

// A spelling, and what is spelled so.
#[derive(Clone, Copy)]
struct Spelling {
    spelled: &'static [u8],
    kind: Kind,
}

// The reserved words, in small letters.
#[rattlefmt::skip]
const RESERVED_WORDS: [Spelling; 35] = [
    Spelling { spelled: b"and", kind: Kind::And },
    Spelling { spelled: b"array", kind: Kind::Array },
    Spelling { spelled: b"begin", kind: Kind::Begin },
    Spelling { spelled: b"case", kind: Kind::Case },
    Spelling { spelled: b"const", kind: Kind::Const },
    Spelling { spelled: b"div", kind: Kind::Div },
    Spelling { spelled: b"do", kind: Kind::Do },
    Spelling { spelled: b"downto", kind: Kind::Downto },
    Spelling { spelled: b"else", kind: Kind::Else },
    Spelling { spelled: b"end", kind: Kind::End },
    Spelling { spelled: b"file", kind: Kind::File },
    Spelling { spelled: b"for", kind: Kind::For },
    Spelling { spelled: b"function", kind: Kind::Function },
    Spelling { spelled: b"goto", kind: Kind::Goto },
    Spelling { spelled: b"if", kind: Kind::If },
    Spelling { spelled: b"in", kind: Kind::In },
    Spelling { spelled: b"label", kind: Kind::Label },
    Spelling { spelled: b"mod", kind: Kind::Mod },
    Spelling { spelled: b"nil", kind: Kind::Nil },
    Spelling { spelled: b"not", kind: Kind::Not },
    Spelling { spelled: b"of", kind: Kind::Of },
    Spelling { spelled: b"or", kind: Kind::Or },
    Spelling { spelled: b"packed", kind: Kind::Packed },
    Spelling { spelled: b"procedure", kind: Kind::Procedure },
    Spelling { spelled: b"program", kind: Kind::Program },
    Spelling { spelled: b"record", kind: Kind::Record },
    Spelling { spelled: b"repeat", kind: Kind::Repeat },
    Spelling { spelled: b"set", kind: Kind::Set },
    Spelling { spelled: b"then", kind: Kind::Then },
    Spelling { spelled: b"to", kind: Kind::To },
    Spelling { spelled: b"type", kind: Kind::Type },
    Spelling { spelled: b"until", kind: Kind::Until },
    Spelling { spelled: b"var", kind: Kind::Var },
    Spelling { spelled: b"while", kind: Kind::While },
    Spelling { spelled: b"with", kind: Kind::With },
];

// The signs of two bytes.
#[rattlefmt::skip]
const SIGNS_OF_TWO: [Spelling; 7] = [
    Spelling { spelled: b"<>", kind: Kind::NotEqual },
    Spelling { spelled: b"<=", kind: Kind::LessOrEqual },
    Spelling { spelled: b">=", kind: Kind::GreaterOrEqual },
    Spelling { spelled: b":=", kind: Kind::Becomes },
    Spelling { spelled: b"..", kind: Kind::Dots },
    Spelling { spelled: b"(.", kind: Kind::LeftBracket },
    Spelling { spelled: b".)", kind: Kind::RightBracket },
];

// The signs of one byte.
#[rattlefmt::skip]
const SIGNS_OF_ONE: [Spelling; 16] = [
    Spelling { spelled: b"+", kind: Kind::Plus },
    Spelling { spelled: b"-", kind: Kind::Minus },
    Spelling { spelled: b"*", kind: Kind::Star },
    Spelling { spelled: b"/", kind: Kind::Slash },
    Spelling { spelled: b"=", kind: Kind::Equal },
    Spelling { spelled: b"<", kind: Kind::Less },
    Spelling { spelled: b">", kind: Kind::Greater },
    Spelling { spelled: b"(", kind: Kind::LeftParenthesis },
    Spelling { spelled: b")", kind: Kind::RightParenthesis },
    Spelling { spelled: b"[", kind: Kind::LeftBracket },
    Spelling { spelled: b"]", kind: Kind::RightBracket },
    Spelling { spelled: b",", kind: Kind::Comma },
    Spelling { spelled: b";", kind: Kind::Semicolon },
    Spelling { spelled: b":", kind: Kind::Colon },
    Spelling { spelled: b".", kind: Kind::Dot },
    Spelling { spelled: b"^", kind: Kind::Caret },
];

// The reserved word that is spelled so, in letters of either case.
pub(crate) fn reserved_word(word: &[u8]) -> Option<Kind>
    ensures { result ≡ kind_in reserved_words (map to_ascii_lowercase word.now) }
{
    kind_of_word(&RESERVED_WORDS, word)
}

// The sign of two bytes that is spelled so.
pub(crate) fn sign_of_two(bytes: &[u8]) -> Option<Kind>
    ensures { result ≡ kind_in signs_of_two bytes.now }
{
    kind_of(&SIGNS_OF_TWO, bytes)
}

// The sign of one byte that is spelled so.
pub(crate) fn sign_of_one(bytes: &[u8]) -> Option<Kind>
    ensures { result ≡ kind_in signs_of_one bytes.now }
{
    kind_of(&SIGNS_OF_ONE, bytes)
}

// What is spelled so in these rows.
fn kind_of(rows: &[Spelling], bytes: &[u8]) -> Option<Kind>
    ensures { result ≡ kind_in (map spelling_by rows.now) bytes.now }
{
    for row in rows {
        if row.spelled == bytes {
            return Some(row.kind);
        }
    }
    None
}

// What is spelled so in these rows, where the case of letters does not matter.
fn kind_of_word(rows: &[Spelling], word: &[u8]) -> Option<Kind>
    ensures { result ≡ kind_in (map folded_by rows.now) (map to_ascii_lowercase word.now) }
{
    for row in rows {
        if is_spelled(row.spelled, word) {
            return Some(row.kind);
        }
    }
    None
}

// Whether two words are spelled alike but for the case of letters.
fn is_spelled(spelled: &[u8], word: &[u8]) -> bool
    ensures { result ≡ bytes_eq (map to_ascii_lowercase spelled.now) (map to_ascii_lowercase word.now) }
{
    spelled.eq_ignore_ascii_case(word)
}
