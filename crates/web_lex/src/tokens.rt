//! The tokens of Pascal text that stand on one line.
ghost use Rattle.std.specs.Prelude.{◌≡◌, ◌+◌, ◌<◌, ◌≤◌, [], ◌∷◌, IfOk, List, ℕ, length, drop};
ghost use Rattle.std.specs.List.{prefix_len};
ghost use Rattle.web_lex.specs.Token.{token_of, token_on, word_on, is_word_byte, coded_on, string_on, sign_on, sign};
ghost use Rattle.web_lex.specs.Token.{sign_beside, pair_table, number_of, code_before, quoted, pool, verbatim};
ghost use Rattle.web_lex.specs.Token.{text_token, text_size, end_code, ends_in_digit};
ghost use Rattle.web_lex.specs.inner.LineTokens.{line_token_of, line_token_view};

use crate::codes::{Code, control_code};
use crate::numbers::{hex_digits, octal_digits, value_of};
use crate::quoting::{Delimiter, text_size};
use wb_base::Joined;
use wb_base::faults::{BAD_BYTE, BAD_CONTROL_TEXT, CHECK_SUM_LEFT_OUT, STRAY_END, VALUE_TOO_BIG};

/// A token of Pascal text, as the reader answers it. Texts are slices of the web.
#[derive(Clone, Copy, Debug, PartialEq, Eq)]
pub enum Lexed<'l> {
    /// The end of the input.
    End,
    /// A control code. It stands by itself; the name after `@<` is read by a call of its own.
    Code(Code),
    /// A word of one letter.
    Letter(u8),
    /// A decimal digit.
    Digit(u8),
    /// A word of several bytes: a letter, and then letters, digits and underlines.
    Word(&'l [u8]),
    /// An octal or hexadecimal number, by its value.
    Based(u32),
    /// A sign of one byte.
    Sign(u8),
    /// A sign of two bytes.
    Joined(Joined),
    /// A string in single quotes: what stands between them, with at signs and quotes still doubled.
    Quoted(&'l [u8]),
    /// A string in double quotes: what stands between them, with at signs and quotes still doubled.
    Pool(&'l [u8]),
    /// A verbatim text: what stands between `@=` and `@>`, with at signs still doubled.
    Verbatim(&'l [u8]),
}

// A token of a line, and how many bytes it takes. The end of the line counts as one.
#[derive(Clone, Copy)]
pub(crate) struct LineToken<'l> {
    pub(crate) token: Lexed<'l>,
    pub(crate) size: usize,
}

// The first token of what is left of a line, or the number of its fault.
pub(crate) fn first_of_line<'l>(line: &'l [u8]) -> Result<LineToken<'l>, u16>
    requires { 0 < length line.now }
    ensures value { (first : ℕ) (after : List ℕ) → line.now ≡ first ∷ after
        → token_on first after ≡ line_token_of result }
    ensures some { IfOk result (λ found. 0 < found.size) }
    ensures within { IfOk result (λ found. found.size ≤ length line.now + 1) }
{
    let first = line[0];
    let after = &line[1..];
    match first {
        b'a'..=b'z' | b'A'..=b'Z' => Ok(word(line)),
        b'0'..=b'9' => Ok(LineToken {
            token: Lexed::Digit(first),
            size: 1,
        }),
        b'\'' => quoted(after),
        b'"' => pool(after),
        b'@' => coded(after),
        b'}' => Err(STRAY_END),
        _ if first.is_ascii_graphic() => Ok(sign(first, after)),
        _ => Err(BAD_BYTE),
    }
}

// The word that a letter begins.
fn word<'l>(line: &'l [u8]) -> LineToken<'l>
    requires { 0 < length line.now }
    ensures value { (first : ℕ) (after : List ℕ) → line.now ≡ first ∷ after
        → word_on first after ≡ line_token_view result }
    ensures some { 0 < result.size }
    ensures within { result.size ≤ length line.now }
{
    let size = 1 + word_bytes(&line[1..]);
    if size == 1 {
        LineToken {
            token: Lexed::Letter(line[0]),
            size,
        }
    } else {
        LineToken {
            token: Lexed::Word(&line[..size]),
            size,
        }
    }
}

// How many of the first bytes are letters, digits and underlines.
fn word_bytes(bytes: &[u8]) -> usize
    ensures value { result ≡ prefix_len is_word_byte bytes.now }
    ensures within { result ≤ length bytes.now }
{
    bytes
        .iter()
        .take_while(|byte| matches!(byte, b'0'..=b'9' | b'A'..=b'Z' | b'a'..=b'z' | b'_'))
        .count()
}

// The string in single quotes of which this stands after the first.
fn quoted<'l>(after: &'l [u8]) -> Result<LineToken<'l>, u16>
    ensures value { string_on quoted 39 after.now ≡ line_token_of result }
    ensures within { IfOk result (λ found. found.size ≤ length after.now + 1) }
    ensures some { IfOk result (λ found. 0 < found.size) }
{
    let size = text_size(Delimiter::Quote(b'\''), after)?;
    Ok(LineToken {
        token: Lexed::Quoted(&after[..size]),
        size: size + 2,
    })
}

// The string in double quotes of which this stands after the first.
fn pool<'l>(after: &'l [u8]) -> Result<LineToken<'l>, u16>
    ensures value { string_on pool 34 after.now ≡ line_token_of result }
    ensures within { IfOk result (λ found. found.size ≤ length after.now + 1) }
    ensures some { IfOk result (λ found. 0 < found.size) }
{
    let size = text_size(Delimiter::Quote(b'"'), after)?;
    Ok(LineToken {
        token: Lexed::Pool(&after[..size]),
        size: size + 2,
    })
}

// The token that an at sign begins, which stands before this. The line's end counts as a space.
fn coded<'l>(after: &'l [u8]) -> Result<LineToken<'l>, u16>
    ensures value { coded_on (code_before after.now) (drop 1 after.now) ≡ line_token_of result }
    ensures within { IfOk result (λ found. found.size ≤ length after.now + 2) }
    ensures some { IfOk result (λ found. 0 < found.size) }
{
    let (next, text) = match after {
        [] => (b' ', after),
        [next, text @ ..] => (*next, text),
    };
    match control_code(next) {
        Code::At => Ok(LineToken {
            token: Lexed::Sign(b'@'),
            size: 2,
        }),
        Code::Octal => number(8, &text[..octal_digits(text)]),
        Code::Hex => number(16, &text[..hex_digits(text)]),
        Code::LeftOut => Err(CHECK_SUM_LEFT_OUT),
        Code::Verbatim => verbatim(text),
        Code::Stray => Err(STRAY_END),
        code => Ok(LineToken {
            token: Lexed::Code(code),
            size: 2,
        }),
    }
}

// The verbatim text of which this stands after its `@=`.
fn verbatim<'l>(text: &'l [u8]) -> Result<LineToken<'l>, u16>
    ensures value { text_token verbatim 4 text.now (text_size end_code text.now) ≡ line_token_of result }
    ensures within { IfOk result (λ found. found.size ≤ length text.now + 3) }
    ensures some { IfOk result (λ found. 0 < found.size) }
{
    let size = text_size(Delimiter::EndCode, text)?;
    Ok(LineToken {
        token: Lexed::Verbatim(&text[..size]),
        size: size + 4,
    })
}

// The number of these digits, after an at sign and a quote.
fn number<'l>(base: u64, digits: &[u8]) -> Result<LineToken<'l>, u16>
    requires low { 0 < base }
    requires high { base ≤ 16 }
    ensures value { number_of base digits.now ≡ line_token_of result }
    ensures within { IfOk result (λ found. found.size ≤ length digits.now + 2) }
    ensures some { IfOk result (λ found. 0 < found.size) }
{
    if digits.is_empty() {
        return Err(BAD_CONTROL_TEXT);
    }
    match value_of(base, digits) {
        Some(value) => Ok(LineToken {
            token: Lexed::Based(value),
            size: digits.len() + 2,
        }),
        None => Err(VALUE_TOO_BIG),
    }
}

// The sign that a byte begins, which stands before this.
fn sign<'l>(first: u8, after: &[u8]) -> LineToken<'l>
    ensures value { sign_on first after.now ≡ line_token_view result }
    ensures within { result.size ≤ length after.now + 1 }
    ensures some { 0 < result.size }
{
    match after {
        [] => LineToken {
            token: Lexed::Sign(first),
            size: 1,
        },
        [next, ..] => pair(first, *next),
    }
}

// The sign of two bytes, or where they make none, that of the first.
fn pair<'l>(first: u8, next: u8) -> LineToken<'l>
    ensures value { sign_beside pair_table (first ∷ next ∷ []) (record { token = sign first; size = 1 })
        ≡ line_token_view result }
    ensures within { result.size ≤ 2 }
    ensures some { 0 < result.size }
{
    let token = match (first, next) {
        (b'.', b'.') => Lexed::Joined(Joined::Dots),
        (b':', b'=') => Lexed::Joined(Joined::Becomes),
        (b'<', b'=') => Lexed::Joined(Joined::NotMore),
        (b'>', b'=') => Lexed::Joined(Joined::NotLess),
        (b'<', b'>') => Lexed::Joined(Joined::Differs),
        (b'=', b'=') => Lexed::Joined(Joined::Same),
        (b'(', b'*') => Lexed::Code(Code::MetaOpen),
        (b'*', b')') => Lexed::Code(Code::MetaClose),
        (b'(', b'.') => Lexed::Sign(b'['),
        (b'.', b')') => Lexed::Sign(b']'),
        _ => return LineToken {
            token: Lexed::Sign(first),
            size: 1,
        },
    };
    LineToken { token, size: 2 }
}

impl Lexed<'_> {
    // Whether the token is a digit, or a number whose last byte this is and which is a decimal digit.
    pub(crate) fn ends_in_digit(&self, last: Option<u8>) -> bool
        ensures { result ≡ ends_in_digit (token_of self.now) last }
    {
        match self {
            Lexed::Digit(_) => true,
            Lexed::Based(_) => matches!(last, Some(b'0'..=b'9')),
            _ => false,
        }
    }
}
