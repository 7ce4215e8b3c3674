//! Texts, and what is answered of them, worked out by hand.
use pas_syntax::parse;
use std::alloc::Global;
use std::test::Fail;
use wb_base::{OutOfMemory, Text, WorkErr};

// A text, and the number, the part and the line of its fault, or zeros where it has none.
#[derive(Clone, Copy)]
struct Row {
    text: &'static [u8],
    code: u16,
    which: u8,
    line: u32,
}

// The number, the part and the line of the fault of a text, or zeros where it has none.
fn answer(alloc: Global, text: &[u8]) -> Result<(u16, u8, u32), OutOfMemory> {
    match parse(alloc, text) {
        Ok(_) => Ok((0, 0, 0)),
        Err(WorkErr::Fault(fault)) => Ok((fault.code, fault.which, fault.line)),
        Err(WorkErr::OutOfMemory) => Err(OutOfMemory),
    }
}

#[test]
fn reads_texts(rt: HostRuntime) -> Result<(), Fail> {
    #[rattlefmt::skip]
    let rows = [
        Row { text: b"program t;begin if true then else end.", code: 0, which: 0, line: 0 },
        Row { text: b"program t;begin x:=1.5 end.", code: 53, which: 1, line: 1 },
        Row { text: b"program t;label 5;begin 5: end.", code: 0, which: 0, line: 0 },
        Row { text: b"program t;var a:array[3..1] of char;begin end.", code: 0, which: 0, line: 0 },
        Row { text: b"program t;function f:integer;begin end;begin end.", code: 0, which: 0, line: 0 },
        Row { text: b"program t;begin goto 7 end.", code: 0, which: 0, line: 0 },
        Row { text: b"program t;begin x:=1 end.", code: 0, which: 0, line: 0 },
        Row { text: b"program t;var x:\nset of char;begin end.", code: 53, which: 5, line: 2 },
        // the ends of a text, of a program and of its parts
        Row { text: b"", code: 52, which: 0, line: 1 },
        Row { text: b"program t;begin end\n", code: 52, which: 0, line: 1 },
        Row { text: b"program t;begin end\n\n", code: 52, which: 0, line: 2 },
        Row { text: b"program t;begin end.\n.", code: 52, which: 0, line: 2 },
        Row { text: b"program t(input,output,f);begin end.", code: 0, which: 0, line: 0 },
        Row { text: b"program t(\n);begin end.", code: 52, which: 0, line: 2 },
        Row { text: b"program t;label 1,2;const a=-b;c='x';type d=0..9;e=d;var f,g:e;h:d;begin end.",
            code: 0, which: 0, line: 0 },
        Row { text: b"program t;const a=1;\nconst b=2;begin end.", code: 52, which: 0, line: 2 },
        Row { text: b"program t;var a:b;\nconst c=1;begin end.", code: 52, which: 0, line: 2 },
        Row { text: b"program t;const a=-\n'x';begin end.", code: 52, which: 0, line: 2 },
        Row { text: b"program t;const a=\nnil;begin end.", code: 52, which: 0, line: 2 },
        // types
        Row { text: b"program t;type a=packed array[b,0..9,'a'..'z',-1..+c] of d;begin end.",
            code: 0, which: 0, line: 0 },
        Row { text: b"program t;type a=array[\n(b,c)] of d;begin end.", code: 53, which: 4, line: 2 },
        Row { text: b"program t;type a=array[b,\n^c] of d;begin end.", code: 53, which: 6, line: 2 },
        Row { text: b"program t;type a=packed\nset of b;begin end.", code: 52, which: 0, line: 2 },
        Row { text: b"program t;type a=packed\n(b);begin end.", code: 52, which: 0, line: 2 },
        Row { text: b"program t;type a=file of packed file of b;begin end.", code: 0, which: 0, line: 0 },
        Row { text: b"program t;type a=record b,c:d;e:f end;begin end.", code: 0, which: 0, line: 0 },
        Row { text: b"program t;type a=packed record b:record c:d;end;end;begin end.", code: 0, which: 0, line: 0 },
        Row { text: b"program t;type a=record\nend;begin end.", code: 52, which: 0, line: 2 },
        Row { text: b"program t;type a=record b:c;\n;end;begin end.", code: 52, which: 0, line: 2 },
        Row { text: b"program t;type a=record b:c;\ncase d of", code: 53, which: 2, line: 2 },
        Row { text: b"program t;type a=record b:record c:d end\ncase", code: 53, which: 2, line: 2 },
        Row { text: b"program t;type a=record b:c end\ncase", code: 52, which: 0, line: 2 },
        Row { text: b"program t;type a=0..\nb..c;begin end.", code: 52, which: 0, line: 2 },
        // routines
        Row { text: b"program t;procedure p;forward;function f(a:b;var c,d:e):g;forward;begin end.",
            code: 0, which: 0, line: 0 },
        Row { text: b"program t;procedure p;\nprocedure q;", code: 53, which: 3, line: 2 },
        Row { text: b"program t;procedure p;label 1;\nfunction q;", code: 53, which: 3, line: 2 },
        Row { text: b"program t;procedure p;\nconst a=1;", code: 53, which: 11, line: 2 },
        Row { text: b"program t;procedure p;var a:b;\ntype c=d;", code: 53, which: 11, line: 2 },
        Row { text: b"program t;procedure p;begin\nconst a=1;", code: 52, which: 0, line: 2 },
        Row { text: b"program t;procedure p;forward\nprocedure q;", code: 52, which: 0, line: 2 },
        Row { text: b"program t;procedure p\nprocedure q;", code: 52, which: 0, line: 2 },
        Row { text: b"program t;procedure p;\nforwards;", code: 52, which: 0, line: 2 },
        Row { text: b"program t;procedure p(\nprocedure q);", code: 53, which: 8, line: 2 },
        Row { text: b"program t;procedure p(a:b;\nfunction q);", code: 53, which: 8, line: 2 },
        Row { text: b"program t;procedure p(var\nfunction q);", code: 52, which: 0, line: 2 },
        Row { text: b"program t;procedure p(a:\n^b);begin end.", code: 53, which: 6, line: 2 },
        Row { text: b"program t;function f:\nset;begin end.", code: 53, which: 5, line: 2 },
        Row { text: b"program t;function f:\narray;begin end.", code: 52, which: 0, line: 2 },
        Row { text: b"program t;procedure p\n:a;begin end;begin end.", code: 52, which: 0, line: 2 },
        // statements
        Row { text: b"program t;begin 1:2:\nend.", code: 52, which: 0, line: 1 },
        Row { text: b"program t;begin\nwith a do end.", code: 53, which: 7, line: 2 },
        Row { text: b"program t;begin 1:\nwith a do end.", code: 53, which: 7, line: 2 },
        Row { text: b"program t;begin a\nwith", code: 52, which: 0, line: 2 },
        Row { text: b"program t;begin if a then if b then c else d else e end.", code: 0, which: 0, line: 0 },
        Row { text: b"program t;begin if a then b;\nelse c end.", code: 52, which: 0, line: 2 },
        Row { text: b"program t;begin if a then while b do if c then d else e else f\nelse g end.",
            code: 52, which: 0, line: 2 },
        Row { text: b"program t;begin repeat a;;b until c=d;for i:=1 to 2 do for j:=2 downto 1 do end.",
            code: 0, which: 0, line: 0 },
        Row { text: b"program t;begin for a\n.b:=1 to 2 do end.", code: 52, which: 0, line: 2 },
        Row { text: b"program t;begin a(b:1,c,d:e+f) end.", code: 0, which: 0, line: 0 },
        Row { text: b"program t;begin a(b:1\n:2) end.", code: 52, which: 0, line: 2 },
        Row { text: b"program t;begin a(b)\n:=c end.", code: 52, which: 0, line: 2 },
        Row { text: b"program t;begin a[b]\n;c end.", code: 52, which: 0, line: 2 },
        Row { text: b"program t;begin a\n/2 end.", code: 52, which: 0, line: 2 },
        // cases
        Row { text: b"program t;begin case a of 1,-b:c;'d':e end end.", code: 0, which: 0, line: 0 },
        Row { text: b"program t;begin case a of 1:b;others:c end end.", code: 0, which: 0, line: 0 },
        Row { text: b"program t;begin case a of 1:b;OTHERS:c;end end.", code: 0, which: 0, line: 0 },
        Row { text: b"program t;begin case a of 1:b;end end.", code: 0, which: 0, line: 0 },
        Row { text: b"program t;begin case a of others,1:b;others,2:c end end.", code: 0, which: 0, line: 0 },
        Row { text: b"program t;begin case a of 1:write(others:3) end end.", code: 0, which: 0, line: 0 },
        Row { text: b"program t;begin case a of others\n:b end end.", code: 52, which: 0, line: 2 },
        Row { text: b"program t;begin case a of 1:b;1,others\n:c end end.", code: 52, which: 0, line: 2 },
        Row { text: b"program t;begin case a of 1:b;-others\n:c end end.", code: 52, which: 0, line: 2 },
        Row { text: b"program t;begin case a of 1:b;others:c\nelse end end.", code: 52, which: 0, line: 2 },
        Row { text: b"program t;begin case a of 1:b;others:c;\nothers:d end end.", code: 52, which: 0, line: 2 },
        Row { text: b"program t;begin case a of 1:b;\nwith c do end.", code: 52, which: 0, line: 2 },
        Row { text: b"program t;begin case a of 1:\nwith c do end.", code: 53, which: 7, line: 2 },
        Row { text: b"program t;begin case a of 1:b;\n;end.", code: 52, which: 0, line: 2 },
        // expressions
        Row { text: b"program t;begin a:=-b*(c+1) div f(d,e) and not not g[1,2][h].i^ or 'j'<=+k end.",
            code: 0, which: 0, line: 0 },
        Row { text: b"program t;begin a:=b=c\n=d end.", code: 52, which: 0, line: 2 },
        Row { text: b"program t;begin a:=b\nin c end.", code: 53, which: 5, line: 2 },
        Row { text: b"program t;begin a:=b=c\nin d end.", code: 53, which: 5, line: 2 },
        Row { text: b"program t;begin a:=b+\nin c end.", code: 52, which: 0, line: 2 },
        Row { text: b"program t;begin a:=b*c\n/d end.", code: 53, which: 1, line: 2 },
        Row { text: b"program t;begin a:=not b\n/d end.", code: 53, which: 1, line: 2 },
        Row { text: b"program t;begin a:=\n[1] end.", code: 53, which: 5, line: 2 },
        Row { text: b"program t;begin a:=b and\nnil end.", code: 53, which: 6, line: 2 },
        Row { text: b"program t;begin a:=b*\n-c end.", code: 52, which: 0, line: 2 },
        Row { text: b"program t;begin a:=f(b\n:1) end.", code: 52, which: 0, line: 2 },
        Row { text: b"program t;begin a:=f(b)\n^ end.", code: 52, which: 0, line: 2 },
        Row { text: b"program t;begin a:=f(\n) end.", code: 52, which: 0, line: 2 },
        Row { text: b"program t;begin a:=b.\n1 end.", code: 52, which: 0, line: 2 },
        // the tokens come first
        Row { text: b"begin\n?", code: 50, which: 0, line: 2 },
        Row { text: b"begin\n{", code: 51, which: 0, line: 2 },
    ];
    for (index, row) in rows.iter().enumerate() {
        let got = answer(rt.alloc(), row.text)?;
        assert_eq!(rt; (index, got), (index, (row.code, row.which, row.line)));
    }
    Ok(())
}

// A text of a front, a part so many times, a middle, another part so many times, and a back; and its fault.
#[derive(Clone, Copy)]
pub(crate) struct Nested {
    pub(crate) front: &'static [u8],
    pub(crate) part: &'static [u8],
    pub(crate) times: usize,
    pub(crate) middle: &'static [u8],
    pub(crate) other: &'static [u8],
    pub(crate) back: &'static [u8],
    pub(crate) code: u16,
    pub(crate) which: u8,
}

// The text of a row.
pub(crate) fn text_of(alloc: Global, row: Nested) -> Result<Text, OutOfMemory> {
    let mut text = Text::new(alloc);
    text.push_all(row.front)?;
    for _ in 0..row.times {
        text.push_all(row.part)?;
    }
    text.push_all(row.middle)?;
    for _ in 0..row.times {
        text.push_all(row.other)?;
    }
    text.push_all(row.back)?;
    Ok(text)
}

#[test]
fn counts_nesting(rt: HostRuntime) -> Result<(), Fail> {
    let front: &'static [u8] = b"program t;begin a:=";
    let back: &'static [u8] = b" end.";
    #[rattlefmt::skip]
    let rows = [
        Nested { front: b"program t;", part: b"begin ", times: 100, middle: b"",
            other: b"end ", back: b".", code: 0, which: 0 },
        Nested { front: b"program t;", part: b"begin ", times: 250, middle: b"",
            other: b"end ", back: b".", code: 0, which: 0 },
        Nested { front: b"program t;", part: b"begin ", times: 251, middle: b"",
            other: b"end ", back: b".", code: 53, which: 12 },
        Nested { front: b"program t;", part: b"begin ", times: 400, middle: b"",
            other: b"end ", back: b".", code: 53, which: 12 },
        Nested { front, part: b"(", times: 249, middle: b"b", other: b")", back, code: 0, which: 0 },
        Nested { front, part: b"(", times: 250, middle: b"b", other: b")", back, code: 53, which: 12 },
        Nested { front, part: b"b[", times: 249, middle: b"1", other: b"]", back, code: 0, which: 0 },
        Nested { front, part: b"f(", times: 250, middle: b"1", other: b")", back, code: 53, which: 12 },
        Nested { front, part: b"not ", times: 250, middle: b"b", other: b"", back, code: 0, which: 0 },
        Nested { front, part: b"not ", times: 251, middle: b"b", other: b"", back, code: 53, which: 12 },
        Nested { front, part: b"b+", times: 250, middle: b"b", other: b"", back, code: 0, which: 0 },
        Nested { front, part: b"b+", times: 251, middle: b"b", other: b"", back, code: 53, which: 12 },
        Nested { front, part: b"b*", times: 249, middle: b"b", other: b"", back: b"<-c end.", code: 0, which: 0 },
        Nested { front, part: b"b*", times: 250, middle: b"b", other: b"", back: b"<-c end.", code: 53, which: 12 },
        Nested { front, part: b"-(", times: 249, middle: b"b", other: b")", back: b"=c end.", code: 0, which: 0 },
        Nested { front, part: b"a+(", times: 249, middle: b"b*not c", other: b")", back, code: 53, which: 12 },
        Nested { front: b"program t;type a=", part: b"array[b] of ", times: 249, middle: b"c",
            other: b"", back: b";begin end.", code: 0, which: 0 },
        Nested { front: b"program t;type a=", part: b"array[b] of ", times: 250, middle: b"c",
            other: b"", back: b";begin end.", code: 53, which: 12 },
        Nested { front: b"program t;type a=", part: b"file of ", times: 250, middle: b"c",
            other: b"", back: b";begin end.", code: 0, which: 0 },
        Nested { front: b"program t;type a=", part: b"record b:", times: 250, middle: b"c",
            other: b" end", back: b";begin end.", code: 0, which: 0 },
        Nested { front: b"program t;type a=", part: b"packed record b:", times: 251, middle: b"c",
            other: b" end", back: b";begin end.", code: 53, which: 12 },
        Nested { front: b"program t;begin ", part: b"if a then else ", times: 249, middle: b"",
            other: b"", back, code: 0, which: 0 },
        Nested { front: b"program t;begin ", part: b"if a then else ", times: 250, middle: b"",
            other: b"", back, code: 53, which: 12 },
        Nested { front: b"program t;begin ", part: b"repeat ", times: 249, middle: b"",
            other: b" until a", back, code: 0, which: 0 },
        Nested { front: b"program t;begin ", part: b"repeat ", times: 249, middle: b"",
            other: b" until (a)", back, code: 53, which: 12 },
        Nested { front: b"program t;begin ", part: b"case a of 1:", times: 249, middle: b"",
            other: b" end", back, code: 0, which: 0 },
        Nested { front: b"program t;begin ", part: b"while a do ", times: 249, middle: b"b(1)",
            other: b"", back, code: 53, which: 12 },
        Nested { front: b"program t;begin ", part: b"for a:=1 to 2 do ", times: 249, middle: b"b",
            other: b"", back, code: 0, which: 0 },
        Nested { front, part: b"b^", times: 1, middle: b"", other: b"^", back, code: 0, which: 0 },
        Nested { front: b"program t;begin a(", part: b"b,", times: 2_000, middle: b"c)",
            other: b";", back, code: 0, which: 0 },
        Nested { front, part: b"(", times: 10_000, middle: b"", other: b"", back, code: 53, which: 12 },
        Nested { front: b"program t;begin a", part: b".b^", times: 2_000, middle: b":=1",
            other: b"", back, code: 0, which: 0 },
        Nested { front: b"program t;begin case a of 1:", part: b";1:", times: 2_000, middle: b"",
            other: b"", back: b";end end.", code: 0, which: 0 },
    ];
    for (index, row) in rows.iter().enumerate() {
        let text = text_of(rt.alloc(), *row)?;
        let got = answer(rt.alloc(), text.bytes())?;
        assert_eq!(rt; (index, got.0, got.1), (index, row.code, row.which));
    }
    Ok(())
}
