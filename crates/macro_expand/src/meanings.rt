//! What tokens stand for.
ghost use Rattle.std.specs.Prelude.{◌≡◌, ◌<◌, length, slice_get};
ghost use Rattle.web_scan.specs.Lawful.{IsLawful, IsTokenOf};
ghost use Rattle.macro_expand.specs.Expansion.{meaning, name_meaning};
ghost use Rattle.macro_expand.specs.inner.Heads.{meaning_in, IsMeaningOf};

use crate::items::Item;
use std::slice;
use wb_base::Tok;
use web_names::Class;
use web_scan::{Piece, Web};

// What a token stands for: an item, the text of a simple or of a parametric macro, or the texts of a section.
pub(crate) enum Meaning<'w> {
    Itself(Item<'w>),
    Simple(&'w [Tok]),
    Parametric(&'w [Tok]),
    Section(&'w [Piece]),
}

// What a token stands for.
pub(crate) fn meaning_of<'w>(web: &'w Web, token: &'w Tok) -> Meaning<'w>
    requires lawful { IsLawful web.now }
    requires token { IsTokenOf web.now token.now }
    ensures means { meaning_in web.now.tokens result ≡ meaning web.now token.now }
    ensures kept { IsMeaningOf web.now result }
{
    match token {
        Tok::Name(id) => meaning_of_name(web, *id),
        Tok::Section(name) => Meaning::Section(web.pieces(*name)),
        Tok::Letter(byte) => Meaning::Itself(Item::Word(slice::from_ref(byte))),
        Tok::Digit(byte) => Meaning::Itself(Item::Digit(*byte)),
        Tok::Number(value) => Meaning::Itself(Item::Number(*value)),
        Tok::Sign(byte) => Meaning::Itself(Item::Sign(*byte)),
        Tok::Joined(joined) => Meaning::Itself(Item::Joined(*joined)),
        Tok::Quoted(index) => Meaning::Itself(Item::Quoted(web.string(*index))),
        Tok::Verbatim(index) => Meaning::Itself(Item::Verbatim(web.string(*index))),
        Tok::Param => Meaning::Simple(&[]),
        Tok::Join => Meaning::Itself(Item::Join),
        Tok::Line => Meaning::Itself(Item::Line),
        Tok::MetaOpen => Meaning::Itself(Item::MetaOpen),
        Tok::MetaClose => Meaning::Itself(Item::MetaClose),
    }
}

// What a word of several letters stands for.
fn meaning_of_name(web: &Web, id: u32) -> Meaning<'_>
    requires { id < length web.now.names.names }
    ensures means { meaning_in web.now.tokens result ≡ name_meaning web.now (slice_get web.now.names.names id) }
    ensures kept { IsMeaningOf web.now result }
{
    let names = web.names();
    match names.kind(id) {
        (Class::Ordinary, _) => Meaning::Itself(Item::Word(names.printed(id))),
        (Class::Numeric, value) => Meaning::Itself(Item::Number(i64::from(value))),
        (Class::Simple, _) => Meaning::Simple(web.macro_text(id)),
        (Class::Parametric, _) => Meaning::Parametric(web.macro_text(id)),
    }
}
