//! What no clause says: that calls succeed with ample memory, and that webs give the known lines.

use crate::webs::{BY_DEFAULT, HELPERS, NUMERIC, scan_text};
use std::alloc::Global;
use std::test::Fail;
use tangle_core::{Done, EmitErr, Job, TangleErr, TextCopy, expand_to, tangle};
use wb_base::faults::{
    CONSTANT_TOO_BIG, LINE_NOT_CUT, METACOMMENT_NOT_ENDED, NO_PARAMETER_GIVEN,
    NUMBERS_WITHOUT_SIGN, REAL_CONSTANT, SECTION_NOT_PRESENT, STRAY_END_OF_METACOMMENT,
    STRING_TOO_LONG, TOO_MANY_LEVELS, TOO_MANY_STEPS,
};
use wb_base::{Fault, FileTag, OutOfMemory, Place, Text};
use wb_ports::{MemShelf, MemSink};

// The room of a sink or a file, which is more than any row needs.
const ROOM: usize = 400;

// The fault of this number at a line of the Pascal file.
fn fault(code: u16, line: u32) -> Fault {
    Fault::at(
        code,
        Place {
            file: FileTag::Pas,
            line,
        },
    )
}

// A text with each `%` written out as ten letters.
fn written_out(alloc: Global, short: &[u8]) -> Result<Text, OutOfMemory> {
    let mut text = Text::new(alloc);
    for byte in short {
        match byte {
            b'%' => text.push_all(b"bbbbbbbbbb")?,
            _ => text.push(*byte)?,
        }
    }
    Ok(text)
}

// A web, the lines that a sink gets of it, and what is answered. `%` stands for ten letters in both.
#[derive(Clone, Copy)]
struct Row {
    web: &'static [u8],
    lines: &'static [u8],
    answer: Result<u32, EmitErr>,
}

// What is answered where the Pascal text has a fault.
fn refused(code: u16, line: u32) -> Result<u32, EmitErr> {
    Err(EmitErr::Fault(fault(code, line)))
}

#[test]
fn webs_give_their_lines(rt: HostRuntime) -> Result<(), Fail> {
    #[rattlefmt::skip]
    let rows = [
        Row { web: b"@ @p x:=a+3-5; y:=2+3*4; z:=1 2", lines: b"{1:}x:=a-2;y:=2+3*4;z:=12{:1}\n", answer: Ok(1) },
        Row { web: b"@ @p x:=3@&4", lines: b"{1:}x:=34{:1}\n", answer: Ok(1) },
        Row { web: b"@ @p aa@\\bb", lines: b"{1:}aa\nbb{:1}\n", answer: Ok(2) },
        Row { web: HELPERS, lines: b"{1:}begin p(a);p(b);end{:1}\n", answer: Ok(1) },
        Row { web: b"@ @d ff(#)==gg(#+#)\n@d gg(#)==#*#\n@p ff(k)", lines: b"{1:}k+k*k+k{:1}\n", answer: Ok(1) },
        Row { web: b"@ @d ff(#)==gg(#+#)\n@d gg(#)==#*#\n@p ff;k", lines: b"", answer: refused(NO_PARAMETER_GIVEN, 1) },
        Row { web: b"@ @d ff(#)==#\n@p ff(ff(ff(k)))", lines: b"{1:}k{:1}\n", answer: Ok(1) },
        Row { web: b"@ @d aa==aa\n@p aa", lines: b"", answer: refused(TOO_MANY_LEVELS, 1) },
        Row { web: b"@ @p @<Initialize@>@<Ini...@>\n@ @<Initialize@>=x;",
            lines: b"{1:}{2:}x;{:2}{2:}x;{:2}{:1}\n", answer: Ok(1) },
        Row { web: b"@ @p @<Initialize@>@<Ini...@>", lines: b"", answer: refused(SECTION_NOT_PRESENT, 1) },
        Row { web: b"@ @d ab==cd\n@p ab(ab)", lines: b"{1:}cd(cd){:1}\n", answer: Ok(1) },
        Row { web: b"@ @p '%%%%%%%'", lines: b"{1:}\n'%%%%%%%'\n{:1}\n", answer: Ok(3) },
        Row { web: b"@ @p '%%%%%%%b'", lines: b"", answer: refused(STRING_TOO_LONG, 1) },
        Row { web: b"@ @p x:=1; %%%%% %%", lines: b"{1:}x:=1;\n%%%%% %%\n{:1}\n", answer: Ok(3) },
        Row { web: b"@ @p x:=1; %%%%% %%bb", lines: b"{1:}x:=1;%%%%%\n%%bb{:1}\n", answer: Ok(2) },
        Row { web: b"@ @p %%%%%@&%%bbb", lines: b"", answer: refused(LINE_NOT_CUT, 1) },
        Row { web: NUMERIC,
            lines: b"{1:}x*(-3);x+3;x:=124{:1}\n", answer: Ok(1) },
        Row { web: b"@ @p @{@<X y@>@}\n@ @<X y@>=b;", lines: b"{1:}{[2:]b;[:2]}{:1}\n", answer: Ok(1) },
        Row { web: b"@ @p 1 mm\n@ @d mm==2", lines: b"{1:}12{:1}\n", answer: Ok(1) },
        Row { web: b"@ @d mm=2\n@p 1 mm", lines: b"", answer: refused(NUMBERS_WITHOUT_SIGN, 1) },
        Row { web: b"@ @p 1+2 div 3", lines: b"{1:}1+2 div 3{:1}\n", answer: Ok(1) },
        Row { web: b"@ @p 1+2 Div 3", lines: b"{1:}1+2 Div 3{:1}\n", answer: Ok(1) },
        Row { web: b"@ @p 1+2 DIV 3", lines: b"{1:}1+2 DIV 3{:1}\n", answer: Ok(1) },
        Row { web: b"@ @p 1+2 mod 3", lines: b"{1:}1+2 mod 3{:1}\n", answer: Ok(1) },
        Row { web: b"@ @p 1+2 mOd 3", lines: b"{1:}1+2 mOd 3{:1}\n", answer: Ok(1) },
        Row { web: b"@ @p 1+2 MOD 3", lines: b"{1:}1+2 MOD 3{:1}\n", answer: Ok(1) },
        Row { web: b"@ @p x:=007", lines: b"{1:}x:=7{:1}\n", answer: Ok(1) },
        Row { web: b"@ @d big==2147483647\n@p aa@\\x:=big+1;",
            lines: b"{1:}aa\n", answer: refused(CONSTANT_TOO_BIG, 2) },
        Row { web: b"@ @d five==5\n@p aa@\\a.five", lines: b"{1:}aa\n", answer: refused(REAL_CONSTANT, 2) },
        Row { web: b"@ @p aa@\\@}", lines: b"{1:}aa\n", answer: refused(STRAY_END_OF_METACOMMENT, 2) },
        Row { web: b"@ @p aa@\\@{bb", lines: b"{1:}aa\n", answer: refused(METACOMMENT_NOT_ENDED, 2) },
        Row { web: b"", lines: b"", answer: Ok(0) },
    ];
    for (index, row) in rows.iter().enumerate() {
        let text = written_out(rt.alloc(), row.web)?;
        let lines = written_out(rt.alloc(), row.lines)?;
        let web = scan_text(rt.alloc(), text.bytes(), BY_DEFAULT)?;
        let mut sink = MemSink::new(rt.alloc(), ROOM, &[])?;
        let answer = expand_to(&web, &mut sink);
        assert_eq!(rt; (index, answer), (index, row.answer));
        assert_eq!(rt; (index, sink.bytes()), (index, lines.bytes()));
    }
    Ok(())
}

// A chain of macros: the text of the first, how many uses of the one before each other is replaced by, and the number
// of the one that the web uses. Then the lines, and what is answered.
#[derive(Clone, Copy)]
struct Chain {
    first: &'static [u8],
    uses: u32,
    used: i64,
    lines: &'static [u8],
    answer: Result<u32, EmitErr>,
}

// The web of a chain.
fn web_of_chain(alloc: Global, chain: &Chain) -> Result<Text, OutOfMemory> {
    let mut text = text_of(alloc, b"@ @d c0==")?;
    text.push_all(chain.first)?;
    for number in 0..chain.used {
        text.push_all(b"\n@d c")?;
        text.push_number(number + 1)?;
        text.push_all(b"==")?;
        for _ in 0..chain.uses {
            text.push_all(b"c")?;
            text.push_number(number)?;
            text.push_all(b" ")?;
        }
    }
    text.push_all(b"\n@p c")?;
    text.push_number(chain.used)?;
    Ok(text)
}

#[test]
fn chains_reach_the_limits(rt: HostRuntime) -> Result<(), Fail> {
    #[rattlefmt::skip]
    let rows = [
        Chain { first: b"x", uses: 1, used: 198, lines: b"{1:}x{:1}\n", answer: Ok(1) },
        Chain { first: b"x", uses: 1, used: 199, lines: b"", answer: refused(TOO_MANY_LEVELS, 1) },
        Chain { first: b"", uses: 2, used: 30, lines: b"", answer: refused(TOO_MANY_STEPS, 1) },
    ];
    for (index, row) in rows.iter().enumerate() {
        let text = web_of_chain(rt.alloc(), row)?;
        let web = scan_text(rt.alloc(), text.bytes(), BY_DEFAULT)?;
        let mut sink = MemSink::new(rt.alloc(), ROOM, &[])?;
        let answer = expand_to(&web, &mut sink);
        assert_eq!(rt; (index, answer), (index, row.answer));
        assert_eq!(rt; (index, sink.bytes()), (index, row.lines));
    }
    Ok(())
}

// A web and its change file, the Pascal file and the pool that it leaves, and what is answered.
#[derive(Clone, Copy)]
struct JobRow {
    web: &'static [u8],
    change: Option<&'static [u8]>,
    pascal: Option<&'static [u8]>,
    pool: Option<&'static [u8]>,
    answer: Result<Done, TangleErr>,
}

// What is answered where the job is done.
fn done(lines: u32, strings: u32, no_output: bool) -> Result<Done, TangleErr> {
    Ok(Done {
        lines,
        strings,
        no_output,
    })
}

// A text of these bytes.
fn text_of(alloc: Global, bytes: &[u8]) -> Result<Text, OutOfMemory> {
    let mut text = Text::new(alloc);
    text.push_all(bytes)?;
    Ok(text)
}

// The job of tangling `t.web`, with the change file `t.ch` if there is one.
fn job_of(alloc: Global, has_change: bool) -> Result<Job, OutOfMemory> {
    let change = if has_change {
        Some(text_of(alloc, b"t.ch")?)
    } else {
        None
    };
    Ok(Job {
        web: text_of(alloc, b"t.web")?,
        change,
        base: text_of(alloc, b"t")?,
        options: BY_DEFAULT,
    })
}

#[test]
fn jobs_leave_their_files(rt: HostRuntime) -> Result<(), Fail> {
    #[rattlefmt::skip]
    let rows = [
        JobRow { web: b"@ @p x:=a+3-5; y:=2+3*4; z:=1 2", change: None,
            pascal: Some(b"{1:}x:=a-2;y:=2+3*4;z:=12{:1}\n"), pool: None, answer: done(1, 0, false) },
        JobRow { web: b"@ @p x:=\"ab\"; y:=\"A\"", change: None,
            pascal: Some(b"{1:}x:=256;y:=65{:1}\n"), pool: Some(b"02ab\n*000000000\n"), answer: done(1, 1, false) },
        JobRow { web: b"", change: None, pascal: Some(b""), pool: None, answer: done(0, 0, true) },
        JobRow { web: b"@ @p aa", change: Some(b"@x\n@ @p aa\n@y\n@ @p\na+b\n@z\n"),
            pascal: Some(b"{1:}a+b{:1}\n"), pool: None, answer: done(1, 0, false) },
        JobRow { web: b"@ @p \"ab\"@\\@}", change: None,
            pascal: Some(b"{1:}256\n"), pool: None, answer: Err(TangleErr::Fault(fault(STRAY_END_OF_METACOMMENT, 2))) },
    ];
    for (index, row) in rows.iter().enumerate() {
        let mut shelf = MemShelf::new(rt.alloc(), ROOM, &[])?;
        shelf.put_file(b"t.web", row.web)?;
        if let Some(change) = row.change {
            shelf.put_file(b"t.ch", change)?;
        }
        let job = job_of(rt.alloc(), row.change.is_some())?;
        let mut copy = TextCopy {
            kept: text_of(rt.alloc(), b"earlier")?,
            wanted: true,
            refused: true,
        };
        let answer = tangle(rt.alloc(), &job, &mut copy, &mut shelf);
        assert_eq!(rt; (index, answer), (index, row.answer));
        assert_eq!(rt; (index, shelf.file(b"t.p")), (index, row.pascal));
        assert_eq!(rt; (index, shelf.file(b"t.pool")), (index, row.pool));
        if row.answer.is_ok() {
            assert_eq!(rt; (index, Some(copy.kept.bytes())), (index, row.pascal));
            assert!(rt; !copy.refused);
        }
    }
    Ok(())
}
