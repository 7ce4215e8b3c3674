//! Integers as they are written on a text.
ghost use Rattle.std.specs.Prelude.{◌≡◌, ◌-◌, nat_abs, length, pos, negsuc, ◌≤ℤ◌};
ghost use Rattle.std.specs.Fmt.{signed_decimal};
ghost use Rattle.pas_meaning.specs.Files.{number_in_field};
ghost use Rattle.pas_meaning.specs.Fields.{text_of};

use arrayvec::ArrayVec;
use itoa::Buffer;

/// An integer as it is written: spaces, and behind them its digits.
#[derive(Drop)]
pub struct IntText {
    /// How many spaces stand in front.
    pub spaces: i64,
    /// The digits, with `-` in front where the integer is below 0.
    pub digits: ArrayVec<u8, 20>,
}

/// The text of an integer in a field of this width (ISO 7185, 6.9.3.1): as many spaces in front as it wants to be so
/// wide, and none where its digits alone are.
pub fn write_int(value: i64, width: i64) -> IntText
    requires low { negsuc 2147483647 ≤ℤ value }
    requires high { value ≤ℤ pos 2147483647 }
    requires least { pos 1 ≤ℤ width }
    requires most { width ≤ℤ pos 2147483647 }
    ensures digits { result.digits.items ≡ signed_decimal value }
    ensures spaces { result.spaces ≡ pos (nat_abs width - length (signed_decimal value)) }
    ensures text { text_of result ≡ number_in_field (nat_abs width) value }
{
    let mut digits = ArrayVec::new();
    let _ = digits.try_extend_from_slice(Buffer::new().format(value).as_bytes());
    let spaces = (width - digits.len() as i64).max(0);
    IntText { spaces, digits }
}
