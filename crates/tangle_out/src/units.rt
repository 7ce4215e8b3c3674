//! The units of items.
ghost use Rattle.std.specs.Prelude.{◌≡◌};
ghost use Rattle.macro_expand.specs.Items.{item_of};
ghost use Rattle.tangle_out.specs.Units.{is_div_or_mod, unit_of};
ghost use Rattle.tangle_out.specs.inner.CodeUnits.{unit_seen};

use crate::folding::Sign;
use macro_expand::Item;

// A unit of folding.
#[derive(Clone, Copy)]
pub(crate) enum Unit<'w> {
    Sign(Sign),
    Number(i64),
    // A sign or word of multiplication or division.
    Product(Item<'w>),
    Join,
    Other(Item<'w>),
}

// The unit that an item is.
#[inline(always)]
pub(crate) fn unit_of(item: Item<'_>) -> Unit<'_>
    ensures { unit_seen result ≡ unit_of (item_of item.entry) }
{
    match item {
        Item::Number(value) => Unit::Number(value),
        Item::Sign(b'+') => Unit::Sign(Sign::Plus),
        Item::Sign(b'-') => Unit::Sign(Sign::Minus),
        Item::Sign(b'*' | b'/') => Unit::Product(item),
        Item::Word(bytes) if is_div_or_mod(bytes) => Unit::Product(item),
        Item::Join => Unit::Join,
        _ => Unit::Other(item),
    }
}

// Whether the bytes are the word div or mod, in any case.
fn is_div_or_mod(bytes: &[u8]) -> bool
    ensures { result ≡ is_div_or_mod bytes.now }
{
    bytes.eq_ignore_ascii_case(b"div") || bytes.eq_ignore_ascii_case(b"mod")
}
