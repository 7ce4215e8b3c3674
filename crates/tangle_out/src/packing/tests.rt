//! Rows of packing, worked out by hand.
ghost use Rattle.std.specs.Prelude.{◌≤◌, ◌↔◌, length, IsTrue};
ghost use Rattle.tangle_out.specs.Pieces.{piece_of};
ghost use Rattle.tangle_out.specs.Packer.{longest_text};

use super::{Packer, WIDTH};
use crate::{OutErr, OutPiece, PieceKind, PieceText};
use std::alloc::Global;
use std::process::Abort;
use std::test::Fail;
use wb_base::faults::LINE_NOT_CUT;
use wb_base::{OutOfMemory, Text};
use wb_ports::MemSink;

// The room of the sink, which is more than any row needs.
const ROOM: usize = 400;

// Pieces with a space between them, each after the letter of its kind: `w` a word, `n` a number, `s` a sign or a mark
// that ends in `;` or `}`, `o` another, `!` a forced line; a capital letter where it is glued. Then the lines, with `|`
// after each, and what is answered. `#` stands for ten letters.
#[derive(Clone, Copy)]
struct Row {
    pieces: &'static [u8],
    lines: &'static [u8],
    answer: Result<(), OutErr>,
}

#[test]
fn packs_pieces(rt: HostRuntime) -> Result<(), Fail> {
    #[rattlefmt::skip]
    let rows = [
        Row { pieces: b"wprogram wt s; wbegin wend o.", lines: b"program t;begin end.|", answer: Ok(()) },
        Row { pieces: b"s{1:} wx o:= wa n-2 s; wz o:= n12 s{:1}", lines: b"{1:}x:=a-2;z:=12{:1}|", answer: Ok(()) },
        Row { pieces: b"s{1:} wx o:= n2 n+3 o* n4 s{:1}", lines: b"{1:}x:=2+3*4{:1}|", answer: Ok(()) },
        Row { pieces: b"s{1:} waa ! wbb s{:1}", lines: b"{1:}aa|bb{:1}|", answer: Ok(()) },
        Row { pieces: b"s{1:} wa Wb n1 N2 s{:1}", lines: b"{1:}ab 12{:1}|", answer: Ok(()) },
        Row { pieces: b"s{1:} o'#######' s{:1}", lines: b"{1:}|'#######'|{:1}|", answer: Ok(()) },
        Row { pieces: b"s{1:} wx o:= n1 s; w##### w## s{:1}", lines: b"{1:}x:=1;|##### ##|{:1}|", answer: Ok(()) },
        Row { pieces: b"s{1:} wx o:= n1 s; w##### w##bb s{:1}", lines: b"{1:}x:=1;#####|##bb{:1}|", answer: Ok(()) },
        Row { pieces: b"wa ! w##### W##bbb", lines: b"a|", answer: Err(OutErr::Fault(LINE_NOT_CUT)) },
        Row { pieces: b"s{1:} w##### W##bbb", lines: b"", answer: Err(OutErr::Fault(LINE_NOT_CUT)) },
    ];
    for (index, row) in rows.iter().enumerate() {
        let pieces = written_out(rt.alloc(), row.pieces)?;
        let lines = written_out(rt.alloc(), row.lines)?;
        let mut sink = MemSink::new(rt.alloc(), ROOM, &[])?;
        let mut packer = Packer::new();
        let answer = pack(&rt, pieces.bytes(), &mut packer, &mut sink);
        assert_eq!(rt; (index, answer), (index, row.answer));
        assert_eq!(rt;
            (index, packer.finished() as usize),
            (index, ends_of_lines(row.lines))
        );
        assert_eq!(rt; (index, sink.bytes()), (index, lines.bytes()));
    }
    Ok(())
}

// How many lines a row has.
fn ends_of_lines(lines: &[u8]) -> usize {
    lines.iter().filter(|byte| **byte == b'|').count()
}

// Gives the pieces of a row to a packer, and then the end.
fn pack(
    rt: &impl Abort,
    pieces: &[u8],
    packer: &mut Packer,
    sink: &mut MemSink,
) -> Result<(), OutErr> {
    for text in pieces.split(|byte| *byte == b' ') {
        let piece = piece_in(text);
        assert!(rt; is_short(&piece));
        assert!(rt; packer.finished() < u32::MAX);
        packer.push(piece, sink)?;
    }
    assert!(rt; packer.finished() < u32::MAX);
    packer.finish(sink)
}

// The piece after the letter of its kind.
fn piece_in(text: &[u8]) -> OutPiece<'_> {
    let (letter, rest) = text.split_first().unwrap_or((&b'!', b""));
    OutPiece {
        text: PieceText::Slice(rest),
        kind: match letter.to_ascii_lowercase() {
            b'w' => PieceKind::Word,
            b'n' => PieceKind::Number,
            b's' => PieceKind::Semi,
            b'o' => PieceKind::Other,
            _ => PieceKind::Break,
        },
        glued: letter.is_ascii_uppercase(),
    }
}

// Whether a packer takes the piece.
fn is_short(piece: &OutPiece<'_>) -> bool
    ensures { IsTrue result ↔ (length (piece_of piece.now).text ≤ longest_text WIDTH (piece_of piece.now).kind) }
{
    let length = match &piece.text {
        PieceText::Slice(bytes) => bytes.len(),
        PieceText::Short(bytes) => bytes.len(),
    };
    match piece.kind {
        PieceKind::Word => length <= 50,
        PieceKind::Number => length <= 16,
        PieceKind::Semi | PieceKind::Other | PieceKind::Break => length <= WIDTH,
    }
}

// A text with its ten letters and ends of lines written out.
fn written_out(alloc: Global, short: &[u8]) -> Result<Text, OutOfMemory> {
    let mut text = Text::new(alloc);
    for byte in short {
        match byte {
            b'#' => text.push_all(b"bbbbbbbbbb")?,
            b'|' => text.push(b'\n')?,
            _ => text.push(*byte)?,
        }
    }
    Ok(text)
}
