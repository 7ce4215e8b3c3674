//! The lines that are written of a pool and of its listing.
ghost use Rattle.std.specs.Prelude.{◌≡◌, ◌+◌, ◌-◌, ◌^◌, ◌<◌, ◌≤◌, ◌++◌, ◌*◌, length, codes};
ghost use Rattle.std.specs.List.{flat_map};
ghost use Rattle.web_pool.specs.Listing.{shown_byte, quoted_byte, hex_digit, in_three_places, entry, closing_line};
ghost use Rattle.web_pool.specs.PoolText.{pool_line};

use crate::pool::LONGEST_STRING;
use arrayvec::ArrayVec;
use itoa::Buffer;

// The most bytes of a line that is written. The longest has a string of the most bytes, each shown by four.
pub(crate) const LINE_ROOM: usize = 512;

// A line that is written.
pub(crate) type Line = ArrayVec<u8, LINE_ROOM>;

// A byte as it is printed.
type Shown = ArrayVec<u8, 4>;

// Adds bytes at the end of a line.
fn add(line: &mut Line, bytes: &[u8])
    requires { length line.old.items + length bytes.now ≤ LINE_ROOM }
    ensures { line.new.items ≡ line.old.items ++ bytes.now }
{
    let added = line.try_extend_from_slice(bytes);
    prove!(added.is_ok());
}

// A line with these bytes.
fn line_of(bytes: &[u8]) -> Line
    requires { length bytes.now ≤ LINE_ROOM }
    ensures { result.items ≡ bytes.now }
{
    let mut line = Line::new();
    add(&mut line, bytes);
    line
}

// A digit of base 16, in lower case.
fn hex_digit(digit: u8) -> u8
    requires { digit < 16 }
    ensures { result ≡ hex_digit digit }
{
    if digit < 10 {
        b'0' + digit
    } else {
        b'a' + (digit - 10)
    }
}

// These bytes, as one that is shown.
fn shown(bytes: &[u8]) -> Shown
    requires { length bytes.now ≤ 4 }
    ensures { result.items ≡ bytes.now }
{
    let mut shown = Shown::new();
    let added = shown.try_extend_from_slice(bytes);
    prove!(added.is_ok());
    shown
}

// A byte as it is shown: itself where it is visible or a space.
pub(crate) fn shown_byte(byte: u8) -> Shown
    ensures bytes { result.items ≡ shown_byte byte }
    ensures short { length result.items ≤ 4 }
{
    match byte {
        0..=31 => shown(&[b'^', b'^', b'@' + byte]),
        32..=126 => shown(&[byte]),
        127 => shown(b"^^?"),
        _ => shown(&[b'^', b'^', hex_digit(byte / 16), hex_digit(byte % 16)]),
    }
}

// A byte as it is printed within double quotes.
fn quoted_byte(byte: u8) -> Shown
    ensures bytes { result.items ≡ quoted_byte byte }
    ensures short { length result.items ≤ 4 }
{
    if byte == b'"' {
        shown(b"\"\"")
    } else {
        shown_byte(byte)
    }
}

// The first part of the line of a string: its number in three places at least, and the quote that opens.
fn numbered(number: u32) -> Line
    ensures bytes { result.items ≡ in_three_places number ++ codes ": \"" }
    ensures short { length result.items ≤ 46 }
{
    let mut buffer = Buffer::new();
    let digits = buffer.format(number).as_bytes();
    let mut line = line_of(match digits.len() {
        0 => b"   ".as_slice(),
        1 => b"  ".as_slice(),
        2 => b" ".as_slice(),
        _ => b"".as_slice(),
    });
    add(&mut line, digits);
    add(&mut line, b": \"");
    line
}

// The line of a string in a listing.
pub(crate) fn entry(number: u32, string: &[u8]) -> Line
    requires { length string.now ≤ LONGEST_STRING }
    ensures { result.items ≡ entry number string.now }
{
    let mut line = numbered(number);
    for byte in string {
        add(&mut line, &quoted_byte(*byte));
    }
    add(&mut line, b"\"\n");
    line
}

// How many characters are shown of a string.
pub(crate) fn characters_of(string: &[u8]) -> u32
    requires { length string.now ≤ LONGEST_STRING }
    ensures count { result ≡ length (flat_map shown_byte string.now) }
    ensures few { result ≤ 4 * LONGEST_STRING }
{
    let mut count = 0;
    for byte in string {
        count += shown_byte(*byte).len() as u32;
    }
    count
}

// The last line of a listing, which tells how many characters were shown.
pub(crate) fn closing_line(characters: u32) -> Line
    ensures { result.items ≡ closing_line characters }
{
    let mut buffer = Buffer::new();
    let mut line = line_of(b"(");
    add(&mut line, buffer.format(characters).as_bytes());
    add(&mut line, b" characters in all.)\n");
    line
}

// The line of a string in the text of a pool.
pub(crate) fn pool_line(string: &[u8]) -> Line
    requires { length string.now ≤ LONGEST_STRING }
    ensures { result.items ≡ pool_line string.now }
{
    let length = string.len() as u8;
    let mut line = line_of(&[b'0' + length / 10, b'0' + length % 10]);
    add(&mut line, string);
    add(&mut line, b"\n");
    line
}
