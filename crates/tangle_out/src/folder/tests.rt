//! Rows of folding, worked out by hand: each state of what is held, and each unit after it, once.
ghost use Rattle.macro_expand.specs.Items.{item_of};
ghost use Rattle.macro_expand.specs.Foldable.{IsFoldable};

use super::Folder;
use crate::{OutPiece, PieceText};
use macro_expand::Item;
use std::alloc::{AllocError, Global};
use std::test::Fail;
use wb_base::faults;

// Items, one a byte: a digit, `a` a word and `d` the word div, `N` the number 4, `n` the number -3, `M` the greatest
// constant, `&` a join, `_` a forced line, `{` and `}` a metacomment, `q` a string, and other bytes as signs. Then the
// pieces, a space before each or `~` where it is glued, and the fault or 0.
#[derive(Clone, Copy)]
struct Row {
    items: &'static [u8],
    pieces: &'static [u8],
    fault: u16,
}

#[test]
fn folds_items(rt: HostRuntime) -> Result<(), Fail> {
    #[rattlefmt::skip]
    let rows = [
        Row { items: b"-", pieces: b" -", fault: 0 },
        Row { items: b"5", pieces: b" 5", fault: 0 },
        Row { items: b"a-", pieces: b" a -", fault: 0 },
        Row { items: b"a5", pieces: b" a 5", fault: 0 },
        Row { items: b"aan", pieces: b" a a -3", fault: 0 },
        Row { items: b"*-", pieces: b" * -", fault: 0 },
        Row { items: b"*5", pieces: b" * 5", fault: 0 },
        Row { items: b"*n", pieces: b" * (-3)", fault: 0 },
        Row { items: b"/*", pieces: b" / *", fault: 0 },
        Row { items: b"*&5", pieces: b" *~5", fault: 0 },
        Row { items: b"*a", pieces: b" * a", fault: 0 },
        Row { items: b"d-5", pieces: b" div -5", fault: 0 },
        Row { items: b"d5N", pieces: b" div 5 4", fault: 0 },
        Row { items: b"dd", pieces: b" div div", fault: 0 },
        Row { items: b"&-", pieces: b"~-", fault: 0 },
        Row { items: b"&n", pieces: b"~(-3)", fault: 0 },
        Row { items: b"&*", pieces: b"~*", fault: 0 },
        Row { items: b"&a", pieces: b"~a", fault: 0 },
        Row { items: b"--", pieces: b" +", fault: 0 },
        Row { items: b"+5", pieces: b" +5", fault: 0 },
        Row { items: b"+*", pieces: b" + *", fault: 0 },
        Row { items: b"-a", pieces: b" - a", fault: 0 },
        Row { items: b"7-", pieces: b" 7 -", fault: 0 },
        Row { items: b"7N", pieces: b"", fault: faults::NUMBERS_WITHOUT_SIGN },
        Row { items: b"+7*", pieces: b" +7 *", fault: 0 },
        Row { items: b"7&a", pieces: b" 7~a", fault: 0 },
        Row { items: b"7a", pieces: b" 7 a", fault: 0 },
        Row { items: b"7+-", pieces: b" 7 -", fault: 0 },
        Row { items: b"7+*", pieces: b" 7 + *", fault: 0 },
        Row { items: b"7+a", pieces: b" 7 + a", fault: 0 },
        Row { items: b"7+2", pieces: b" 9", fault: 0 },
        Row { items: b"7+2-", pieces: b" 9 -", fault: 0 },
        Row { items: b"7+2N", pieces: b"", fault: faults::NUMBERS_WITHOUT_SIGN },
        Row { items: b"7+2*", pieces: b" 7 +2 *", fault: 0 },
        Row { items: b"a+3-5;", pieces: b" a -2 ;", fault: 0 },
        Row { items: b"a*n;a-n", pieces: b" a * (-3) ; a +3", fault: 0 },
        Row { items: b"007", pieces: b" 7", fault: 0 },
        Row { items: b"M+1;", pieces: b"", fault: faults::CONSTANT_TOO_BIG },
        Row { items: b"M+1*", pieces: b" 2147483647 +1 *", fault: 0 },
        Row { items: b"2147483648", pieces: b"", fault: faults::CONSTANT_TOO_BIG },
        Row { items: b".5", pieces: b" .", fault: faults::REAL_CONSTANT },
        Row { items: b"}", pieces: b"", fault: faults::STRAY_END_OF_METACOMMENT },
        Row { items: b"{{}}{", pieces: b" { [ ] } {", fault: faults::METACOMMENT_NOT_ENDED },
        Row { items: b"qq&_q", pieces: b" 'x'~'x'~ 'x'", fault: 0 },
    ];
    for (index, row) in rows.iter().enumerate() {
        let mut text = Vec::new(rt.alloc());
        let fault = match fold(row.items, &mut text)? {
            Ok(()) => 0,
            Err(code) => code,
        };
        assert_eq!(rt; (index, fault), (index, row.fault));
        assert_eq!(rt; (index, text.as_slice()), (index, row.pieces));
    }
    Ok(())
}

// Folds the items, and writes the pieces.
fn fold(items: &[u8], text: &mut Vec<u8>) -> Result<Result<(), u16>, AllocError> {
    let mut folder = Folder::new();
    for letter in items {
        if folder.open_metacomments() == u32::MAX {
            return Ok(Ok(()));
        }
        match folder.push(item_of_letter(*letter)) {
            Ok(pieces) => write(pieces.as_slice(), text)?,
            Err(code) => return Ok(Err(code)),
        }
    }
    match folder.finish() {
        Ok(pieces) => write(pieces.as_slice(), text)?,
        Err(code) => return Ok(Err(code)),
    }
    Ok(Ok(()))
}

// The item of a letter of a row.
fn item_of_letter(letter: u8) -> Item<'static>
    ensures { IsFoldable (item_of result) }
{
    match letter {
        b'0'..=b'9' => Item::Digit(letter),
        b'a' => Item::Word(b"a"),
        b'd' => Item::Word(b"div"),
        b'N' => Item::Number(4),
        b'n' => Item::Number(-3),
        b'M' => Item::Number(2_147_483_647),
        b'&' => Item::Join,
        b'_' => Item::Line,
        b'{' => Item::MetaOpen,
        b'}' => Item::MetaClose,
        b'q' => Item::Quoted(b"'x'"),
        _ => Item::Sign(letter),
    }
}

// Writes pieces.
fn write(pieces: &[OutPiece<'_>], text: &mut Vec<u8>) -> Result<(), AllocError> {
    for piece in pieces {
        text.push(if piece.glued { b'~' } else { b' ' })?;
        match &piece.text {
            PieceText::Slice(bytes) => text.extend_from_slice(bytes)?,
            PieceText::Short(bytes) => text.extend_from_slice(bytes.as_slice())?,
        }
    }
    Ok(())
}
