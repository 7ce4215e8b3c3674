//! What no clause shows: that the calls find memory, and words of webs beside values worked out by hand.
use crate::webs::merged;
use change_merge::Lines;
use std::alloc::Global;
use std::test::Fail;
use wb_base::faults::STRAY_END;
use wb_base::{Fault, FileTag, Joined, OutOfMemory, Place, Text, WorkErr};
use web_lex::{Code, Lexed, Reader, control_code};

// A web with its change file, and its tokens up to the end or a fault, each with its line.
#[derive(Clone, Copy)]
struct Tokens {
    web: &'static [u8],
    change: &'static [u8],
    shown: &'static [u8],
}

#[test]
fn reads_tokens(rt: HostRuntime) -> Result<(), Fail> {
    #[rattlefmt::skip]
    let rows = [
        Tokens { web: b"x:=a_b;", change: b"", shown: b"w1 letter x|w1 joined|w1 word a_b|w1 sign ;|w1 end|" },
        Tokens { web: b"", change: b"", shown: b"w0 end|" },
        Tokens { web: b"a\n\n\t{b{@}}\\}\nc}@!9", change: b"", shown: b"w1 letter a|w4 digit 9|w4 end|" },
        Tokens { web: b"(.@@ @'17 @\"F @d@<", change: b"",
            shown: b"w1 sign [|w1 sign @|w1 based 15|w1 based 15|w1 code|w1 code|w1 end|" },
        Tokens { web: b"'it''s'\"\"\"\"@=x@@@>", change: b"",
            shown: b"w1 quoted it''s|w1 pool \"\"|w1 verbatim x@@|w1 end|" },
        Tokens { web: b"a\nb\nc", change: b"@x\nb\n@y\n{\x7f\n}\x7f\n@z", shown: b"w1 letter a|F8 c5|" },
        Tokens { web: b"a\nb", change: b"@x\nb\n@y\n\n{@ }\n@z", shown: b"w1 letter a|F9 c5|" },
        Tokens { web: b"{a\n}{", change: b"", shown: b"F9 w2|" },
        Tokens { web: b"\n'a''", change: b"", shown: b"F10 w2|" },
        Tokens { web: b"\"a@\"", change: b"", shown: b"F11 w1|" },
        Tokens { web: b"a@>", change: b"", shown: b"w1 letter a|F13 w1|" },
        Tokens { web: b"@ta\n@p@>", change: b"", shown: b"F14 w2|" },
        Tokens { web: b"@\"80000000", change: b"", shown: b"F18 w1|" },
        Tokens { web: b"1 e2End", change: b"", shown: b"w1 digit 1|w1 word e2End|w1 end|" },
        Tokens { web: b"1\n12End", change: b"", shown: b"w1 digit 1|w2 digit 1|w2 digit 2|F35 w2|" },
        Tokens { web: b"@$", change: b"", shown: b"F43 w1|" },
    ];
    for (index, row) in rows.iter().enumerate() {
        let lines = merged(rt.alloc(), row.web, row.change)?;
        let shown = shown_tokens(rt.alloc(), &lines)?;
        assert_eq!(rt; (index, shown.bytes()), (index, row.shown));
    }
    Ok(())
}

// A web that begins with a name, and the name with the next token, or the fault.
#[derive(Clone, Copy)]
struct Name {
    web: &'static [u8],
    shown: &'static [u8],
}

#[test]
fn reads_names(rt: HostRuntime) -> Result<(), Fail> {
    #[rattlefmt::skip]
    let rows = [
        Name { web: b"@<\t a\n \tb@@@>c", shown: b"a b@@|w2 letter c|" },
        Name { web: b"@<Ini ... @>", shown: b"Ini ...|w1 end|" },
        Name { web: b"@<...@>", shown: b"...|w1 end|" },
        Name { web: b"@<a\n@*@>", shown: b"F12 w2|" },
        Name { web: b"@<a\nb", shown: b"F12 w2|" },
        Name { web: b"@<\n\n@>", shown: b"F12 w3|" },
        Name { web: b"@<a@\x7f@>", shown: b"F8 w1|" },
    ];
    for (index, row) in rows.iter().enumerate() {
        let lines = merged(rt.alloc(), row.web, b"")?;
        let shown = shown_name(rt.alloc(), &lines)?;
        assert_eq!(rt; (index, shown.bytes()), (index, row.shown));
    }
    Ok(())
}

#[test]
fn skips_ahead(rt: HostRuntime) -> Result<(), Fail> {
    let lines = merged(rt.alloc(), b"a @@ @!\n@D}\n", b"")?;
    let mut reader = Reader::new(&lines);
    assert_eq!(rt; reader.place(), web_line(0));
    assert_eq!(rt; reader.skip_ahead(), Code::Definition);
    assert_eq!(rt; reader.place(), web_line(2));
    let fault = Fault::at(STRAY_END, web_line(2));
    assert_eq!(rt; reader.next(), Err(fault));
    assert_eq!(rt; reader.next(), Err(fault));
    assert!(rt; matches!(reader.section_name(rt.alloc()), Err(WorkErr::Fault(_))));
    assert_eq!(rt; reader.skip_ahead(), Code::End);
    assert_eq!(rt; reader.place(), web_line(2));
    Ok(())
}

#[test]
fn tells_codes(rt: HostRuntime) {
    assert_eq!(rt; control_code(b'T'), Code::Control);
    assert_eq!(rt; control_code(b'\t'), Code::Section);
    assert_eq!(rt; control_code(b'x'), Code::Ignore);
}

// The line of this number of the web.
fn web_line(line: u32) -> Place {
    Place {
        file: FileTag::Web,
        line,
    }
}

// The tokens up to the end or a fault.
fn shown_tokens(alloc: Global, lines: &Lines) -> Result<Text, OutOfMemory> {
    let mut reader = Reader::new(lines);
    let mut shown = Text::new(alloc);
    for _ in 0..100 {
        match reader.next() {
            Ok(token) => {
                show_token(&mut shown, token, reader.place())?;
                if token == Lexed::End {
                    break;
                }
            }
            Err(fault) => {
                show_fault(&mut shown, fault)?;
                break;
            }
        }
    }
    Ok(shown)
}

// The name after the first `@<`, with three dots where it is a prefix, and the token after it.
fn shown_name(alloc: Global, lines: &Lines) -> Result<Text, WorkErr> {
    let mut reader = Reader::new(lines);
    let mut shown = Text::new(alloc);
    let _ = reader.skip_ahead();
    match reader.section_name(alloc) {
        Ok(name) => {
            shown.push_all(name.text.bytes())?;
            if name.prefix {
                shown.push_all(b"...")?;
            }
            shown.push(b'|')?;
            if let Ok(token) = reader.next() {
                show_token(&mut shown, token, reader.place())?;
            }
        }
        Err(WorkErr::Fault(fault)) => show_fault(&mut shown, fault)?,
        Err(WorkErr::OutOfMemory) => return Err(WorkErr::OutOfMemory),
    }
    Ok(shown)
}

fn show_token(shown: &mut Text, token: Lexed<'_>, place: Place) -> Result<(), OutOfMemory> {
    show_place(shown, place.file, place.line)?;
    match token {
        Lexed::End => shown.push_all(b" end")?,
        Lexed::Code(_) => shown.push_all(b" code")?,
        Lexed::Letter(byte) => show_byte(shown, b" letter ", byte)?,
        Lexed::Digit(byte) => show_byte(shown, b" digit ", byte)?,
        Lexed::Sign(byte) => show_byte(shown, b" sign ", byte)?,
        Lexed::Joined(Joined::Becomes) => shown.push_all(b" joined")?,
        Lexed::Joined(_) => shown.push_all(b" other")?,
        Lexed::Based(value) => {
            shown.push_all(b" based ")?;
            shown.push_number(i64::from(value))?;
        }
        Lexed::Word(bytes) => show_text(shown, b" word ", bytes)?,
        Lexed::Quoted(bytes) => show_text(shown, b" quoted ", bytes)?,
        Lexed::Pool(bytes) => show_text(shown, b" pool ", bytes)?,
        Lexed::Verbatim(bytes) => show_text(shown, b" verbatim ", bytes)?,
    }
    shown.push(b'|')
}

fn show_byte(shown: &mut Text, kind: &[u8], byte: u8) -> Result<(), OutOfMemory> {
    shown.push_all(kind)?;
    shown.push(byte)
}

fn show_text(shown: &mut Text, kind: &[u8], bytes: &[u8]) -> Result<(), OutOfMemory> {
    shown.push_all(kind)?;
    shown.push_all(bytes)
}

fn show_fault(shown: &mut Text, fault: Fault) -> Result<(), OutOfMemory> {
    shown.push(b'F')?;
    shown.push_number(i64::from(fault.code))?;
    shown.push(b' ')?;
    show_place(shown, fault.file, fault.line)?;
    shown.push(b'|')
}

fn show_place(shown: &mut Text, file: FileTag, line: u32) -> Result<(), OutOfMemory> {
    shown.push(match file {
        FileTag::Web => b'w',
        _ => b'c',
    })?;
    shown.push_number(i64::from(line))
}
