//! The bytes of numbers, signs and marks.
ghost use Rattle.std.specs.Prelude.{◌≡◌, ℕ, ◌+◌, ◌<◌, ◌≤◌, ℤ, pos, negsuc, ◌≤ℤ◌, ◌++◌, [], ◌∷◌, length};
ghost use Rattle.std.specs.Fmt.{signed_decimal};
ghost use Rattle.tangle_out.specs.Folding.{sum_text, alone_text, sign_byte, opening, closing, joined_text};
ghost use Rattle.tangle_out.specs.Folding.{begin_text, end_text, kind_by_end};
ghost use Rattle.macro_expand.specs.Foldable.{IsConstant};

use crate::folding::{Lead, Sign};
use crate::pieces::PieceKind;
use arrayvec::ArrayVec;
use itoa::Buffer;
use wb_base::Joined;

// The bytes of a number, a sign or a mark.
pub(crate) type Short = ArrayVec<u8, 16>;

// Adds a number in decimal.
fn push_number(text: &mut Short, value: i64)
    requires room { length text.old.items ≤ 5 }
    requires low { negsuc 4294967294 ≤ℤ value }
    requires high { value ≤ℤ pos 4294967295 }
    ensures items { text.new.items ≡ text.old.items ++ signed_decimal value }
    ensures len { length text.new.items ≤ length text.old.items + 11 }
{
    let mut buffer = Buffer::new();
    let _ = text.try_extend_from_slice(buffer.format(value).as_bytes());
}

// The text of a sum.
pub(crate) fn sum_text(lead: Lead, value: i64) -> Short
    requires { IsConstant value }
    ensures items { result.items ≡ sum_text lead value }
    ensures len { length result.items ≤ 16 }
{
    let mut text = Short::new();
    if value >= 0 && matches!(lead, Lead::Signed) {
        text.push(b'+');
    }
    push_number(&mut text, value);
    text
}

// The text of a number that stands alone.
pub(crate) fn alone_text(value: i64) -> Short
    requires { IsConstant value }
    ensures items { result.items ≡ alone_text value }
    ensures len { length result.items ≤ 16 }
{
    let mut text = Short::new();
    if value >= 0 {
        push_number(&mut text, value);
        return text;
    }
    text.push(b'(');
    push_number(&mut text, value);
    text.push(b')');
    text
}

// One byte.
#[inline(always)]
pub(crate) fn byte_text(byte: u8) -> Short
    ensures items { result.items ≡ byte ∷ [] }
    ensures len { length result.items ≤ 1 }
{
    let mut text = Short::new();
    text.push(byte);
    text
}

// The byte of a sign.
pub(crate) fn sign_byte(sign: Sign) -> u8
    ensures { result ≡ sign_byte sign }
{
    match sign {
        Sign::Plus => b'+',
        Sign::Minus => b'-',
    }
}

// The opening brace inside this many metacomments.
#[inline(always)]
pub(crate) fn opening(depth: u32) -> u8
    ensures { result ≡ opening depth }
{
    if depth == 0 { b'{' } else { b'[' }
}

// The closing brace inside this many metacomments.
#[inline(always)]
pub(crate) fn closing(depth: u32) -> u8
    ensures { result ≡ closing depth }
{
    if depth == 0 { b'}' } else { b']' }
}

// The mark of the begin of a section's piece.
pub(crate) fn begin_text(depth: u32, section: u32) -> Short
    ensures items { result.items ≡ begin_text depth section }
    ensures len { length result.items ≤ 16 }
{
    let mut text = byte_text(opening(depth));
    push_number(&mut text, i64::from(section));
    text.push(b':');
    text.push(closing(depth));
    text
}

// The mark of the end of a section's piece.
pub(crate) fn end_text(depth: u32, section: u32) -> Short
    ensures items { result.items ≡ end_text depth section }
    ensures len { length result.items ≤ 16 }
{
    let mut text = byte_text(opening(depth));
    text.push(b':');
    push_number(&mut text, i64::from(section));
    text.push(closing(depth));
    text
}

// The bytes of a sign of two bytes.
#[inline(always)]
pub(crate) fn joined_text(sign: Joined) -> &'static [u8]
    ensures items { result.now ≡ joined_text sign }
    ensures len { length result.now ≤ 2 }
{
    match sign {
        Joined::Dots => b"..",
        Joined::Becomes => b":=",
        Joined::NotMore => b"<=",
        Joined::NotLess => b">=",
        Joined::Differs => b"<>",
        Joined::Same => b"==",
    }
}

// The kind of a sign or a mark that ends in this byte.
#[inline(always)]
pub(crate) fn kind_by_end(byte: u8) -> PieceKind
    ensures { result ≡ kind_by_end byte }
{
    match byte {
        b';' | b'}' => PieceKind::Semi,
        _ => PieceKind::Other,
    }
}
