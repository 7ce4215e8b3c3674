//! Texts and their tokens, worked out by hand.
use pas_tokens::{Cursor, Kind, Payload};
use std::test::Fail;
use wb_base::Fault;

// A text, and the kinds of its tokens before the end.
#[derive(Clone, Copy)]
struct Cut {
    text: &'static [u8],
    kinds: &'static [Kind],
}

#[test]
fn cuts_texts(rt: HostRuntime) -> Result<(), Fail> {
    #[rattlefmt::skip]
    let rows = [
        Cut { text: b"", kinds: &[] },
        Cut { text: b"begin END. ", kinds: &[Kind::Begin, Kind::End, Kind::Dot] },
        Cut { text: b"2..5", kinds: &[Kind::Number, Kind::Dots, Kind::Number] },
        Cut { text: b"a(.1.)", kinds: &[Kind::Name, Kind::LeftBracket, Kind::Number, Kind::RightBracket] },
        Cut { text: b"a:='x'", kinds: &[Kind::Name, Kind::Becomes, Kind::Text] },
        Cut { text: b"x{ (* }y(* { *)z", kinds: &[Kind::Name, Kind::Name, Kind::Name] },
        Cut { text: b"<=<>>=", kinds: &[Kind::LessOrEqual, Kind::NotEqual, Kind::GreaterOrEqual] },
        Cut { text: b"<>=^", kinds: &[Kind::NotEqual, Kind::Equal, Kind::Caret] },
        Cut { text: b"1e;", kinds: &[Kind::Number, Kind::Name, Kind::Semicolon] },
        Cut { text: b"downto to_ forward", kinds: &[Kind::Downto, Kind::Name, Kind::Name] },
    ];
    for (index, row) in rows.iter().enumerate() {
        let mut cursor = Cursor::new(row.text)?;
        for kind in row.kinds {
            assert_eq!(rt; (index, cursor.peek().kind), (index, *kind));
            cursor.advance();
        }
        assert_eq!(rt; (index, cursor.peek().kind), (index, Kind::EndOfText));
    }
    Ok(())
}

// A text, and the number, the part and the line of its fault.
#[derive(Clone, Copy)]
struct Faulty {
    text: &'static [u8],
    code: u16,
    which: u8,
    line: u32,
}

#[test]
fn tells_faults(rt: HostRuntime) -> Result<(), Fail> {
    #[rattlefmt::skip]
    let rows = [
        Faulty { text: b"a\n b?", code: 50, which: 0, line: 2 },
        Faulty { text: b"a\n2147483648", code: 51, which: 0, line: 2 },
        Faulty { text: b"a\n{ b\nc", code: 51, which: 0, line: 2 },
        Faulty { text: b"'a\n'", code: 51, which: 0, line: 1 },
        Faulty { text: b"''", code: 51, which: 0, line: 1 },
        Faulty { text: b"'\t'", code: 51, which: 0, line: 1 },
        Faulty { text: b"x:=\n1.5", code: 53, which: 1, line: 2 },
        Faulty { text: b"1E+", code: 53, which: 1, line: 1 },
    ];
    for (index, row) in rows.iter().enumerate() {
        let told = match Cursor::new(row.text) {
            Ok(_) => (0, 0, 0),
            Err(
                Fault {
                    code,
                    which,
                    line,
                    ..
                },
            ) => (code, which, line),
        };
        assert_eq!(rt; (index, told), (index, (row.code, row.which, row.line)));
    }
    Ok(())
}

#[test]
fn tells_payloads_and_lines(rt: HostRuntime) -> Result<(), Fail> {
    let mut cursor = Cursor::new(b"\nAb 'it''s'\n007\n")?;
    let name = cursor.peek();
    assert!(rt; matches!(name.payload, Payload::Spelling(b"Ab")));
    assert_eq!(rt; name.line, 2);
    cursor.advance();
    assert!(rt; matches!(cursor.peek().payload, Payload::Spelling(b"it''s")));
    cursor.advance();
    assert!(rt; matches!(cursor.peek().payload, Payload::Value(7)));
    cursor.advance();
    cursor.advance();
    assert_eq!(rt;
        (cursor.peek().kind, cursor.peek().line),
        (Kind::EndOfText, 3)
    );
    Ok(())
}
