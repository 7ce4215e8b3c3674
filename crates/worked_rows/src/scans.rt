//! What no clause shows: that the scan finds memory, and webs beside values worked out by hand.
use crate::webs::{BY_DEFAULT, merged, scan_text};
use std::alloc::Global;
use std::test::Fail;
use wb_base::faults::{
    LIMIT_NAMES, LIMIT_PASSED, LIMIT_SECTION_NAMES, LIMIT_SECTIONS, LIMIT_STRINGS, LIMIT_TOKENS,
    POOL_STRING_TOO_LONG,
};
use wb_base::{Case, FileTag, Options, OutOfMemory, Text, Tok, WorkErr};
use web_scan::{Piece, Web, scan};

const UNDERLINES: Options = Options {
    length: 32,
    underline: true,
    case: Case::Upper,
    strict: false,
};

const STRICT: Options = Options {
    length: 32,
    underline: true,
    case: Case::Mixed,
    strict: true,
};

const THREE_BYTES: Options = Options {
    length: 3,
    underline: false,
    case: Case::Mixed,
    strict: false,
};

// The number, the line and the limit of the fault of a scan, or 0s.
fn fault_of(scanned: Result<Web, WorkErr>) -> (u16, u32, u8) {
    match scanned {
        Ok(_) => (0, 0, 0),
        Err(WorkErr::OutOfMemory) => (99, 0, 0),
        Err(WorkErr::Fault(fault)) => (fault.code, fault.line, fault.which),
    }
}

// A web, and the number and the line of its first fault, or 0s.
#[derive(Clone, Copy)]
struct Faulty {
    web: &'static [u8],
    code: u16,
    line: u32,
}

#[test]
fn tells_faults(rt: HostRuntime) -> Result<(), Fail> {
    #[rattlefmt::skip]
    let rows = [
        Faulty { web: b"no section @d ' @p (", code: 0, line: 0 },
        Faulty { web: b"@p (\n@ x", code: 0, line: 0 },
        Faulty { web: b"@ @p x\n'\t'", code: 8, line: 2 },
        Faulty { web: b"@ @p @<a\nb\x01@>", code: 8, line: 2 },
        Faulty { web: b"@ @p x@\x01y", code: 0, line: 0 },
        Faulty { web: b"@ @p {\nx @* y", code: 9, line: 2 },
        Faulty { web: b"@ @p x\n'ab", code: 10, line: 2 },
        Faulty { web: b"@ @p x\n'a@b'", code: 11, line: 2 },
        Faulty { web: b"@ @p @<a\nb @*", code: 12, line: 2 },
        Faulty { web: b"@ @p @<\n@>", code: 12, line: 2 },
        Faulty { web: b"@ @p x\n}\n@d", code: 13, line: 2 },
        Faulty { web: b"@ @p @^a\nb @p", code: 14, line: 2 },
        Faulty { web: b"@ @d x\n=1", code: 16, line: 1 },
        Faulty { web: b"@ @d\n2", code: 16, line: 2 },
        Faulty { web: b"@ @d xx(#)\n=y", code: 16, line: 2 },
        Faulty { web: b"@ @p xx_y\n@ @d\nab\nxxy=1", code: 16, line: 4 },
        Faulty { web: b"@ @d nn=nn+1", code: 17, line: 1 },
        Faulty { web: b"@ @d nn=1\n*2", code: 17, line: 2 },
        Faulty { web: b"@ @d nn=214748364{c}\n8\n}", code: 18, line: 2 },
        Faulty { web: b"@ @d mm=32768", code: 18, line: 1 },
        Faulty { web: b"@ @d mm=-3\n@d nn=mm+@'17+@\"F+\"a\"\n@d pp=nn+32643", code: 0, line: 0 },
        Faulty { web: b"@ @d mm=-3\n@d nn=mm+@'17+@\"F+\"a\"\n@d pp=nn+32644", code: 18, line: 3 },
        Faulty { web: b"@ @d\nmm\n=-32768\n\n@<", code: 18, line: 2 },
        Faulty { web: b"@ @d\nmm\n=-32768\n}", code: 13, line: 4 },
        Faulty { web: b"@ @d mm=32767", code: 0, line: 0 },
        Faulty { web: b"@ @p xx\n@ @d xx=1", code: 19, line: 2 },
        Faulty { web: b"@ @p xx\n@ @d xx\n=\n}", code: 19, line: 3 },
        Faulty { web: b"@ @d xx==y\n@d xx(#)\n==(", code: 20, line: 3 },
        Faulty { web: b"@ @p (\n)\n)", code: 22, line: 3 },
        Faulty { web: b"@ @d xx==(\n@<}", code: 22, line: 2 },
        Faulty { web: b"@ @f ( ' @d xx==1\n@p )", code: 22, line: 2 },
        Faulty { web: b"@ @p x\n@ @d xx==(", code: 22, line: 2 },
        Faulty { web: b"@ @<A@>+\n@<", code: 23, line: 2 },
        Faulty { web: b"@ @p xx_y\n@ @<A@>\nxxy", code: 23, line: 3 },
        Faulty { web: b"@ @p (\n@f", code: 24, line: 2 },
        Faulty { web: b"@ @p @<Ini...@>@<Initialize@>", code: 25, line: 1 },
        Faulty { web: b"@ @p x\n@<Ini\n...@>@<Initialize@>", code: 25, line: 2 },
        Faulty { web: b"@ @p @<Initial@>\n@<Ini ...@>", code: 25, line: 2 },
        Faulty { web: b"@ @p @<Initialize@>@<Ini...@>\n@ @<Initialize@>=x;", code: 0, line: 0 },
        Faulty { web: b"@ @p @<Inner part@> @<Initialize@> @<In...@>", code: 26, line: 1 },
        Faulty { web: b"@ @p @<Initial@>\n@<Initialize@>", code: 27, line: 2 },
        Faulty { web: b"@ @d xx=1\n2e", code: 35, line: 2 },
        Faulty { web: b"@ @d xx==1\n@$", code: 43, line: 2 },
    ];
    for (index, row) in rows.iter().enumerate() {
        let told = fault_of(scan_text(rt.alloc(), row.web, BY_DEFAULT));
        assert_eq!(rt; (index, told), (index, (row.code, row.line, 0)));
    }
    Ok(())
}

// A web, options, and the number of its first fault, or 0.
#[derive(Clone, Copy)]
struct Looking {
    web: &'static [u8],
    options: Options,
    code: u16,
}

#[test]
fn obeys_options(rt: HostRuntime) -> Result<(), Fail> {
    #[rattlefmt::skip]
    let rows = [
        Looking { web: b"@ @p foo_bar:=foobar", options: BY_DEFAULT, code: 21 },
        Looking { web: b"@ @p foo_bar:=foobar", options: UNDERLINES, code: 0 },
        Looking { web: b"@ @p foo_bar:=foobar", options: STRICT, code: 21 },
        Looking { web: b"@ @p foo:=FOO", options: UNDERLINES, code: 21 },
        Looking { web: b"@ @p foo:=FOO", options: BY_DEFAULT, code: 0 },
        Looking { web: b"@ @p foo1:=foo2", options: THREE_BYTES, code: 21 },
        Looking { web: b"@ @p foo1:=foo2", options: BY_DEFAULT, code: 0 },
        Looking { web: b"@ @p foo_bar @ @d foobar==x @p foobar", options: BY_DEFAULT, code: 0 },
    ];
    for (index, row) in rows.iter().enumerate() {
        let told = fault_of(scan_text(rt.alloc(), row.web, row.options));
        assert_eq!(rt; (index, told.0), (index, row.code));
    }
    Ok(())
}

#[test]
fn reads_a_web(rt: HostRuntime) -> Result<(), Fail> {
    let text = b"@p no @ @d ff(#)==#\"ab\"'c' @p x@&foo_bar\n@*@<A b@>++=@<A...@>#@ @p\"\"";
    let web = scan_text(rt.alloc(), text, UNDERLINES)?;
    assert_eq!(rt; web.pool().count(), 2);
    #[rattlefmt::skip]
    let unnamed = [Piece { number: 1, first: 3, count: 3 }, Piece { number: 3, first: 8, count: 1 }];
    assert_eq!(rt; web.unnamed(), unnamed.as_slice());
    if let [first, second] = web.unnamed() {
        let tokens = [Tok::Letter(b'X'), Tok::Join, Tok::Name(1)];
        assert_eq!(rt; web.tokens(first.first, first.count), tokens.as_slice());
        assert_eq!(rt;
            web.tokens(second.first, second.count),
            [Tok::Number(257)].as_slice()
        );
    }
    Ok(())
}

#[test]
fn ends_in_a_change_file(rt: HostRuntime) -> Result<(), Fail> {
    let alloc = rt.alloc();
    let list = merged(alloc, b"@ @p a\nb", b"\n@x\nb\n@y\n(\n@z")?;
    match scan(alloc, &list, BY_DEFAULT) {
        Err(WorkErr::Fault(fault)) => {
            assert_eq!(rt;
                (fault.code, fault.file, fault.line),
                (22, FileTag::Change, 5)
            );
        }
        _ => assert!(rt; false),
    }
    Ok(())
}

// A web with this first line, and then the numbers from 0 on, so many, each on a new line between these bytes.
fn counted(
    alloc: Global,
    first: &[u8],
    before: &[u8],
    after: &[u8],
    count: i64,
) -> Result<Text, OutOfMemory> {
    let mut text = Text::new(alloc);
    text.push_all(first)?;
    for number in 0..count {
        text.push(b'\n')?;
        text.push_all(before)?;
        text.push_number(number)?;
        text.push_all(after)?;
    }
    Ok(text)
}

// A web of numbers, and the line at which the last of them passes a limit, which no earlier line does.
#[derive(Clone, Copy)]
struct Limited {
    first: &'static [u8],
    before: &'static [u8],
    after: &'static [u8],
    count: i64,
    line: u32,
    which: u8,
}

// What the scan of such a web tells.
fn told_of(alloc: Global, row: &Limited) -> Result<(u16, u32, u8), OutOfMemory> {
    let web = counted(alloc, row.first, row.before, row.after, row.count)?;
    Ok(fault_of(scan_text(alloc, web.bytes(), BY_DEFAULT)))
}

#[test]
fn obeys_limits_of_names(rt: HostRuntime) -> Result<(), Fail> {
    #[rattlefmt::skip]
    let rows = [
        Limited { first: b"@ ", before: b"@d n", after: b"\n==", count: 65_536, line: 131_073, which: LIMIT_NAMES },
        Limited { first: b"@ @p", before: b"@<s", after: b".@>", count: 65_536, line: 65_537,
            which: LIMIT_SECTION_NAMES },
    ];
    for row in rows.iter() {
        let told = told_of(rt.alloc(), row)?;
        assert_eq!(rt; told, (LIMIT_PASSED, row.line, row.which));
    }
    Ok(())
}

#[test]
fn obeys_limits(rt: HostRuntime) -> Result<(), Fail> {
    #[rattlefmt::skip]
    let rows = [
        Limited { first: b"@ @p", before: b"\"s", after: b"\"", count: 32_513, line: 32_514, which: LIMIT_STRINGS },
        Limited { first: b"", before: b"@*", after: b"@p", count: 65_536, line: 65_537, which: LIMIT_SECTIONS },
        Limited { first: b"@ @p", before: b"[[[[[[[[[n", after: b"[[[[[[[[[[", count: 50_001, line: 50_002,
            which: LIMIT_TOKENS },
    ];
    for row in rows.iter() {
        let told = told_of(rt.alloc(), row)?;
        assert_eq!(rt; told, (LIMIT_PASSED, row.line, row.which));
    }
    Ok(())
}

#[test]
fn measures_strings(rt: HostRuntime) -> Result<(), Fail> {
    let mut web = Text::new(rt.alloc());
    web.push_all(b"@ @p x\n\"\"\"")?;
    for _ in 0..98 {
        web.push(b'a')?;
    }
    web.push_all(b"\"")?;
    assert_eq!(rt;
        fault_of(scan_text(rt.alloc(), web.bytes(), BY_DEFAULT)),
        (0, 0, 0)
    );
    web.push_all(b"\"\"")?;
    assert_eq!(rt;
        fault_of(scan_text(rt.alloc(), web.bytes(), BY_DEFAULT)),
        (POOL_STRING_TOO_LONG, 2, 0)
    );
    Ok(())
}
