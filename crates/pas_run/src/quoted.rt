//! The texts of strings, as they are spelled: each quote stands twice.
ghost use Rattle.std.specs.Prelude.{◌≡◌, drop, length};
ghost use Rattle.pas_typed.specs.Texts.{undoubled};

// The byte that stands twice.
const QUOTE: u8 = b'\'';

// The spelling of what stands behind the first byte of a text.
pub(crate) fn behind_first(spelled: &[u8]) -> &[u8]
    ensures { undoubled result.now ≡ drop 1 (undoubled spelled.now) }
{
    match spelled {
        [QUOTE, _, behind @ ..] => behind,
        [_, behind @ ..] => behind,
        [] => &[],
    }
}

// How many bytes a text has.
pub(crate) fn text_length(spelled: &[u8]) -> usize
    ensures { result ≡ length (undoubled spelled.now) }
{
    let mut count = 0;
    let mut rest = spelled;
    while !rest.is_empty() {
        count += 1;
        rest = behind_first(rest);
    }
    count
}
