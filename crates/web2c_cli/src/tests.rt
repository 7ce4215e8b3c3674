//! The worked rows over a shelf, a console and ports in memory, and calls that fail on the way.
use crate::file_words::file_words;
use crate::run::run;
use std::alloc::Global;
use std::test::Fail;
use wb_base::{OutOfMemory, Words};
use wb_ports::{MemPort, MemShelf, MemSink, Port};

// The room of a written file and of the console.
const ROOM: usize = 4096;

// What `t.p` and `t.pool` hold before each run.
const OLD: &[u8] = b"old";

const USAGE: &[u8] = b"usage: web2c tangle|pooltype|convert|chain|prun|crun|gen [options] names\n";

const DONE: &[u8] = b"{1:}aa bb{:1}\n";

const NO_OUTPUT: &[u8] = b"! No output was specified.\n";

// What is given to a run: the words, with `|` between two; what `t.web` and `a.pool` hold, and what `t.ch` does; and
// the numbers of the calls of the shelf and of the console that fail, or 0.
#[derive(Clone, Copy)]
struct Given<'a> {
    words: &'a [u8],
    web: &'a [u8],
    change: &'a [u8],
    shelf_fails: u64,
    console_fails: u64,
}

// The words, with `|` between two.
fn words_of(alloc: Global, line: &[u8]) -> Result<Words, OutOfMemory> {
    let mut words = Words::new(alloc);
    if line.is_empty() {
        return Ok(words);
    }
    for word in line.split(|byte| *byte == b'|') {
        words.add(word)?;
    }
    Ok(words)
}

// What a run leaves.
#[derive(Drop)]
struct Left {
    status: u8,
    shelf: MemShelf,
    con: MemSink,
}

impl Left {
    // What a file holds.
    fn file(&self, name: &[u8]) -> &[u8] {
        self.shelf.file(name).unwrap_or(b"")
    }
}

// Runs the words over `t.web`, `a.pool`, `t.ch`, an old `t.p` and an old `t.pool`.
fn left_by(alloc: Global, given: &Given<'_>) -> Result<Left, OutOfMemory> {
    let mut shelf = MemShelf::new(alloc, ROOM, &[given.shelf_fails])?;
    shelf.put_file(b"t.web", given.web)?;
    shelf.put_file(b"a.pool", given.web)?;
    shelf.put_file(b"t.ch", given.change)?;
    shelf.put_file(b"t.p", OLD)?;
    shelf.put_file(b"t.pool", OLD)?;
    let mut con = MemSink::new(alloc, ROOM, &[given.console_fails])?;
    let words = words_of(alloc, given.words)?;
    let status = run(alloc, &words, &mut shelf, &mut con, &mut Vec::new(alloc));
    Ok(Left { status, shelf, con })
}

// Words over the web `@ @p aa bb`, and the status to which they lead where there is no other file than those of a run.
#[derive(Clone, Copy)]
struct Line {
    words: &'static [u8],
    status: u8,
}

#[test]
fn reads_the_words(rt: HostRuntime) -> Result<(), Fail> {
    #[rattlefmt::skip]
    let rows = [
        Line { words: b"tangle|t.web", status: 0 },
        Line { words: b"tangle|t.web|t.ch", status: 0 },
        Line { words: b"tangle|--|t.web", status: 0 },
        Line { words: b"tangle|t.web|--|t.ch", status: 0 },
        Line { words: b"tangle|--length|50|--strict|t.web", status: 0 },
        Line { words: b"tangle|t.web|--length=007|--mixedcase|--loose", status: 0 },
        Line { words: b"", status: 2 },
        Line { words: b"tangle", status: 2 },
        Line { words: b"tangle|--", status: 2 },
        Line { words: b"tangle|-x|t.web", status: 2 },
        Line { words: b"tangle|-t.web", status: 2 },
        Line { words: b"tangle|--|--|t.web|t.ch", status: 2 },
        Line { words: b"tangle|t.web|t.ch|t2.ch", status: 2 },
        Line { words: b"tangle|", status: 2 },
        Line { words: b"|t.web", status: 2 },
        Line { words: b"tangle|.web", status: 2 },
        Line { words: b"tangle|t web", status: 2 },
        Line { words: b"tangle|t\"web", status: 2 },
        Line { words: b"tangle|t\\web", status: 2 },
        Line { words: b"tangle|t\x7f", status: 2 },
        Line { words: b"tangle|t\xc8", status: 2 },
        Line { words: b"Tangle|t.web", status: 2 },
        Line { words: b"tangle|t.web|--length|0", status: 2 },
        Line { words: b"tangle|t.web|--length=51", status: 2 },
        Line { words: b"tangle|t.web|--length", status: 2 },
        Line { words: b"tangle|--length|--|t.web", status: 2 },
        Line { words: b"tangle|--strict|--loose|t.web", status: 2 },
        Line { words: b"tangle|--underline|--underline|t.web", status: 2 },
        Line { words: b"tangle|--uppercase|t.web|--lowercase", status: 2 },
        Line { words: b"tangle|--strict=1|t.web", status: 2 },
        Line { words: b"convert|t.p", status: 2 },
        Line { words: b"pooltype", status: 2 },
        Line { words: b"pooltype|--", status: 2 },
        Line { words: b"pooltype|a.pool|b.pool", status: 2 },
        Line { words: b"pooltype|--strict|a.pool", status: 2 },
        Line { words: b"pooltype|", status: 2 },
        Line { words: b"pooltype|a pool", status: 2 },
        Line { words: b"pooltype|b.pool", status: 3 },
        Line { words: b"prun", status: 2 },
        Line { words: b"prun|.p", status: 2 },
        Line { words: b"prun|t.p|a b", status: 2 },
        Line { words: b"prun|--strict|t.p", status: 2 },
        Line { words: b"prun|t.p|--steps=1000000001", status: 2 },
        Line { words: b"prun|t.p|--steps=1|--steps=1", status: 2 },
        Line { words: b"prun|u.p", status: 3 },
        Line { words: b"prun|--steps|0|u.p|:std|:std", status: 3 },
        Line { words: b"tangle|-", status: 3 },
        Line { words: b"tangle|--|-t.web", status: 3 },
        Line { words: b"tangle|u.web", status: 3 },
        Line { words: b"tangle|t.web|u.ch", status: 3 },
    ];
    for (index, row) in rows.iter().enumerate() {
        let given = Given {
            words: row.words,
            web: b"@ @p aa bb",
            change: b"",
            shelf_fails: 0,
            console_fails: 0,
        };
        let left = left_by(rt.alloc(), &given)?;
        let console = if row.status == 2 { USAGE } else { b"" };
        let pascal = if row.status == 0 { DONE } else { OLD };
        assert_eq!(rt; (index, left.status), (index, row.status));
        assert_eq!(rt; (index, left.con.bytes()), (index, console));
        assert_eq!(rt; (index, left.file(b"t.p")), (index, pascal));
        assert_eq!(rt; (index, left.file(b"t.pool")), (index, OLD));
    }
    Ok(())
}

// Words, a web and a change file, and what they come to: the status, the console's text, the Pascal file and the pool.
#[derive(Clone, Copy)]
struct Web {
    words: &'static [u8],
    web: &'static [u8],
    change: &'static [u8],
    status: u8,
    console: &'static [u8],
    pascal: &'static [u8],
    pool: &'static [u8],
}

const T: &[u8] = b"tangle|t.web";

const T_CH: &[u8] = b"tangle|t.web|t.ch";

const THREE: &[u8] = b"@ @p program t;\nbegin\nend.";

const WHOLE: &[u8] = b"{1:}program t;begin end.{:1}\n";

const SUM_LEFT_OUT: &[u8] = b"! t.web:1: check sum left out (F43)\n";

const NOT_PRESENT: &[u8] = b"! t.p:2: section not present (F29)\n";

const DIFFERS: &[u8] = b"! t.ch:4: change lines differ (F7)\n";

const NOT_FOUND: &[u8] = b"! t.ch:1: change block not found (F6)\n";

const NO_NEW_PART: &[u8] = b"! t.ch:1: no @y (F3)\n";

const BAD_BYTE: &[u8] = b"! t.web:1: bad byte (F8)\n";

const BAD_BYTE_5: &[u8] = b"! t.ch:5: bad byte (F8)\n";

const STRAY_MARK: &[u8] = b"! t.ch:1: stray change mark (F2)\n";

const NO_END: &[u8] = b"! t.ch:1: no @z (F4)\n";

#[test]
fn tangles_webs(rt: HostRuntime) -> Result<(), Fail> {
    #[rattlefmt::skip]
    let rows = [
        Web { words: T, web: THREE, change: b"", status: 0, console: b"", pascal: WHOLE, pool: OLD },
        Web { words: T, web: b"@ @p x:=\"ab\"; y:=\"A\"", change: b"",
            status: 0, console: b"", pascal: b"{1:}x:=256;y:=65{:1}\n", pool: b"02ab\n*000000000\n" },
        Web { words: T, web: b"@ @p x:=\"\"; y:=\"\"\"\"", change: b"",
            status: 0, console: b"", pascal: b"{1:}x:=256;y:=34{:1}\n", pool: b"00\n*000000000\n" },
        Web { words: T, web: b"", change: b"", status: 0, console: NO_OUTPUT, pascal: b"", pool: OLD },
        Web { words: T, web: b"@ @p aa bb\n@ text @p cc", change: b"",
            status: 0, console: b"", pascal: b"{1:}aa bb{:1}{2:}cc{:2}\n", pool: OLD },
        Web { words: T, web: b"@ @p z:=@$", change: b"", status: 1, console: SUM_LEFT_OUT, pascal: OLD, pool: OLD },
        Web { words: T, web: b"@ @p x\xc8", change: b"", status: 1, console: BAD_BYTE, pascal: OLD, pool: OLD },
        Web { words: T, web: b"@ @p \"ab\"@\\bb @<X@>", change: b"",
            status: 1, console: NOT_PRESENT, pascal: b"{1:}256\n", pool: OLD },
        Web { words: b"tangle|--uppercase|t.web", web: b"@ @p foo:=x", change: b"",
            status: 0, console: b"", pascal: b"{1:}FOO:=X{:1}\n", pool: OLD },
        Web { words: b"tangle|t.web|--underline", web: b"@ @p a_b:=A_B", change: b"",
            status: 0, console: b"", pascal: b"{1:}a_b:=A_B{:1}\n", pool: OLD },
        Web { words: T_CH, web: b"@ @p aa", change: b"@x\n@ @p aa\n@y\n@ @p\na+b\n@z",
            status: 0, console: b"", pascal: b"{1:}a+b{:1}\n", pool: OLD },
        Web { words: T_CH, web: b"@ @p aa", change: b"@x\n@ @p aa\n@y\n@*\n@z",
            status: 0, console: NO_OUTPUT, pascal: b"", pool: OLD },
        Web { words: T_CH, web: THREE, change: b"@x\n\nbegin\nend;\n@y\nbegin end.\n@z",
            status: 1, console: DIFFERS, pascal: OLD, pool: OLD },
        Web { words: T_CH, web: THREE, change: b"@x\n\nbegin\nend.\n@y\nbegin end.\n@z",
            status: 0, console: b"", pascal: WHOLE, pool: OLD },
        Web { words: T_CH, web: THREE, change: b"@x\n\nstart\nend.\n@y\nbegin end.\n@z",
            status: 1, console: NOT_FOUND, pascal: OLD, pool: OLD },
        Web { words: T_CH, web: THREE, change: b"@x\n\nbegin\nend.\n@z\nbegin end.\n@z",
            status: 1, console: NO_NEW_PART, pascal: OLD, pool: OLD },
        Web { words: T_CH, web: THREE, change: b"@x\nbegin\n@y\n\n\xc8\n@z",
            status: 1, console: BAD_BYTE_5, pascal: OLD, pool: OLD },
        Web { words: T_CH, web: b"@ @p }", change: b"@y", status: 1, console: STRAY_MARK, pascal: OLD, pool: OLD },
        Web { words: T_CH, web: b"@ @p aa", change: b"@x\n@ @p aa\n@y\n@ @z",
            status: 1, console: NO_END, pascal: OLD, pool: OLD },
    ];
    for (index, row) in rows.iter().enumerate() {
        let given = Given {
            words: row.words,
            web: row.web,
            change: row.change,
            shelf_fails: 0,
            console_fails: 0,
        };
        let left = left_by(rt.alloc(), &given)?;
        assert_eq!(rt; (index, left.status), (index, row.status));
        assert_eq!(rt; (index, left.con.bytes()), (index, row.console));
        assert_eq!(rt; (index, left.file(b"t.p")), (index, row.pascal));
        assert_eq!(rt; (index, left.file(b"t.pool")), (index, row.pool));
    }
    Ok(())
}

// A pool, and what listing it comes to: the status, how many lines are printed, and how they end.
#[derive(Clone, Copy)]
struct Pool {
    words: &'static [u8],
    pool: &'static [u8],
    status: u8,
    lines: usize,
    end: &'static [u8],
}

const LISTED: &[u8] = b"\n255: \"^^ff\"\n256: \"ab\"\n(708 characters in all.)\n";

const NO_END_1: &[u8] = b"\n255: \"^^ff\"\n! a.pool:1: bad last line (F42)\n";

const NO_END_2: &[u8] = b"\n256: \"ab\"\n! a.pool:2: bad last line (F42)\n";

const BAD_LENGTH: &[u8] = b"\n255: \"^^ff\"\n! a.pool:1: pool length bad (F40)\n";

const TOO_SHORT: &[u8] = b"\n255: \"^^ff\"\n! a.pool:1: pool line too short (F41)\n";

#[test]
fn lists_pools(rt: HostRuntime) -> Result<(), Fail> {
    #[rattlefmt::skip]
    let rows = [
        Pool { words: b"pooltype|a.pool", pool: b"02ab\n*000000000\n", status: 0, lines: 258, end: LISTED },
        Pool { words: b"pooltype|--|a.pool", pool: b"02ab\n*000000000\n", status: 0, lines: 258, end: LISTED },
        Pool { words: b"pooltype|a.pool", pool: b"02ab\n*123456789\n", status: 0, lines: 258, end: LISTED },
        Pool { words: b"pooltype|a.pool", pool: b"02ab\n*12345678\n", status: 1, lines: 258, end: NO_END_2 },
        Pool { words: b"pooltype|a.pool", pool: b"", status: 1, lines: 257, end: NO_END_1 },
        Pool { words: b"pooltype|a.pool", pool: b"0", status: 1, lines: 257, end: BAD_LENGTH },
        Pool { words: b"pooltype|a.pool", pool: b"02", status: 1, lines: 257, end: TOO_SHORT },
        Pool { words: b"pooltype|a.pool", pool: b"02a", status: 1, lines: 257, end: TOO_SHORT },
        Pool { words: b"pooltype|a.pool", pool: b"02ab", status: 1, lines: 258, end: NO_END_2 },
        Pool { words: b"pooltype|a.pool", pool: b"02ab\n*00000000", status: 1, lines: 258, end: NO_END_2 },
        Pool { words: b"pooltype|a.pool", pool: b"02ab\n*000000000", status: 0, lines: 258, end: LISTED },
    ];
    for (index, row) in rows.iter().enumerate() {
        let given = Given {
            words: row.words,
            web: row.pool,
            change: b"",
            shelf_fails: 0,
            console_fails: 0,
        };
        let left = left_by(rt.alloc(), &given)?;
        let printed = left.con.bytes();
        let lines = printed.iter().filter(|byte| **byte == b'\n').count();
        assert_eq!(rt; (index, left.status), (index, row.status));
        assert_eq!(rt; (index, lines), (index, row.lines));
        assert!(rt;
            printed.starts_with(b"  0: \"^^@\"\n  1: \"^^A\"\n".as_slice()),
            "row {index}"
        );
        assert!(rt; printed.ends_with(row.end), "row {index}");
        assert_eq!(rt; (index, left.file(b"t.p")), (index, OLD));
    }
    Ok(())
}

// A program of `p.p`, the words over a port for each name behind it, what the ports hold and the calls at which each
// fails, and what it comes to: the status, the console's text and how many ports are left.
#[derive(Clone, Copy)]
struct Run {
    words: &'static [u8],
    program: &'static [u8],
    input: &'static [u8],
    fails: u64,
    status: u8,
    console: &'static [u8],
    ports: usize,
}

const P: &[u8] = b"prun|p.p";

const P_O: &[u8] = b"prun|p.p|o";

const P_I_O: &[u8] = b"prun|p.p|i|o";

const P_1: &[u8] = b"prun|p.p|o|--steps=1";

const HALTED: &[u8] = b"Halted with status 0.\n";

const HALTED_7: &[u8] = b"Halted with status 7.\n";

const STOPPED: &[u8] = b"! Stopped after 1 steps.\n";

const UNDEFINED: &[u8] = b"! Error: undefined value (E1)\n";

const AT_END: &[u8] = b"! Error: at the end of the file (E11)\n";

const DEEP: &[u8] = b"! Calls nested too deep.\n";

const FILE_RULE: &[u8] = b"! p.p:2: file rule (F61)\n";

const UNKNOWN: &[u8] = b"! p.p:1: unknown name (F54)\n";

const SYNTAX: &[u8] = b"! p.p:1: syntax (F52)\n";

const WRITES: &[u8] = b"\nprogram t(output);begin write(output,'a') end.";

const READS: &[u8] = b"program t(input,output);var c:char;begin read(input,c);write(output,c) end.";

const TWO_TURNS: &[u8] =
    b"program t(output);var i:integer;begin for i:=1 to 2 do write(output,i:1) end.";

const CALLS_ITSELF: &[u8] = b"program t(output);procedure q;begin q end;begin q end.";

#[test]
fn runs_programs(rt: HostRuntime) -> Result<(), Fail> {
    #[rattlefmt::skip]
    let rows = [
        Run { words: P_O, program: WRITES, input: b"", fails: 0, status: 0, console: HALTED, ports: 1 },
        Run { words: P_I_O, program: WRITES, input: b"", fails: 0, status: 0, console: HALTED, ports: 1 },
        Run { words: P, program: WRITES, input: b"", fails: 0, status: 1, console: FILE_RULE, ports: 0 },
        Run { words: P_I_O, program: READS, input: b"ab", fails: 0, status: 0, console: HALTED, ports: 2 },
        Run { words: P_I_O, program: READS, input: b"", fails: 0, status: 6, console: AT_END, ports: 2 },
        Run { words: P_I_O, program: READS, input: b"ab", fails: 1, status: 3, console: b"", ports: 2 },
        Run { words: P_I_O, program: READS, input: b"ab", fails: 9, status: 0, console: HALTED, ports: 2 },
        Run { words: P_O, program: TWO_TURNS, input: b"", fails: 0, status: 0, console: HALTED, ports: 1 },
        Run { words: P_1, program: TWO_TURNS, input: b"", fails: 0, status: 5, console: STOPPED, ports: 1 },
        Run { words: P_O, program: CALLS_ITSELF, input: b"", fails: 0, status: 7, console: DEEP, ports: 1 },
        Run { words: P_O, program: b"program t;begin uexit(7) end.", input: b"",
            fails: 0, status: 0, console: HALTED_7, ports: 0 },
        Run { words: P_O, program: b"program t;var i:integer;begin i:=i+1 end.", input: b"",
            fails: 0, status: 6, console: UNDEFINED, ports: 0 },
        Run { words: P_O, program: b"program t;begin x:=1 end.", input: b"",
            fails: 0, status: 1, console: UNKNOWN, ports: 1 },
        Run { words: P_O, program: b"program", input: b"", fails: 0, status: 1, console: SYNTAX, ports: 1 },
    ];
    for (index, row) in rows.iter().enumerate() {
        let alloc = rt.alloc();
        let mut shelf = MemShelf::new(alloc, ROOM, &[])?;
        shelf.put_file(b"p.p", row.program)?;
        let mut con = MemSink::new(alloc, ROOM, &[])?;
        let words = words_of(alloc, row.words)?;
        let files = file_words(alloc, &words)?;
        let mut ports: Vec<Box<dyn Port>> = Vec::new(alloc);
        for _ in 0..files.count() {
            let input = &row.input[..row.input.len().min(ROOM)];
            ports.push(Box::new(alloc, MemPort::new(alloc, input, ROOM, &[row.fails])?)?)?;
        }
        let status = run(alloc, &words, &mut shelf, &mut con, &mut ports);
        assert_eq!(rt; (index, status), (index, row.status));
        assert_eq!(rt; (index, con.bytes()), (index, row.console));
        assert_eq!(rt; (index, ports.len()), (index, row.ports));
    }
    Ok(())
}

// The number of a call of the shelf that fails, and what `t.p` and `t.pool` then hold. The calls are two of `load`, and
// `create`, `write` and `close` of either file.
#[derive(Clone, Copy)]
struct FailingShelf {
    fails: u64,
    status: u8,
    pascal: &'static [u8],
    pool: &'static [u8],
}

const X: &[u8] = b"{1:}x:=256{:1}\n";

const POOL: &[u8] = b"02ab\n*000000000\n";

#[test]
fn ends_with_status_3_where_the_shelf_fails(rt: HostRuntime) -> Result<(), Fail> {
    #[rattlefmt::skip]
    let rows = [
        FailingShelf { fails: 1, status: 3, pascal: OLD, pool: OLD },
        FailingShelf { fails: 2, status: 3, pascal: OLD, pool: OLD },
        FailingShelf { fails: 3, status: 3, pascal: OLD, pool: OLD },
        FailingShelf { fails: 4, status: 3, pascal: b"", pool: OLD },
        FailingShelf { fails: 5, status: 3, pascal: X, pool: OLD },
        FailingShelf { fails: 6, status: 3, pascal: X, pool: OLD },
        FailingShelf { fails: 7, status: 3, pascal: X, pool: b"" },
        FailingShelf { fails: 8, status: 3, pascal: X, pool: POOL },
        FailingShelf { fails: 9, status: 0, pascal: X, pool: POOL },
    ];
    for (index, row) in rows.iter().enumerate() {
        let given = Given {
            words: T_CH,
            web: b"@ @p x:=\"ab\"",
            change: b"",
            shelf_fails: row.fails,
            console_fails: 0,
        };
        let left = left_by(rt.alloc(), &given)?;
        assert_eq!(rt; (index, left.status), (index, row.status));
        assert!(rt; left.con.bytes().is_empty(), "row {index}");
        assert_eq!(rt; (index, left.file(b"t.p")), (index, row.pascal));
        assert_eq!(rt; (index, left.file(b"t.pool")), (index, row.pool));
    }
    Ok(())
}

// Words, what `t.web` and `a.pool` hold, at which the console is called, and what `t.p` then holds.
#[derive(Clone, Copy)]
struct FailingConsole {
    words: &'static [u8],
    web: &'static [u8],
    pascal: &'static [u8],
}

#[test]
fn ends_with_status_3_where_the_console_fails(rt: HostRuntime) -> Result<(), Fail> {
    #[rattlefmt::skip]
    let rows = [
        FailingConsole { words: b"tangle", web: b"", pascal: OLD },
        FailingConsole { words: T, web: b"@ @p }", pascal: OLD },
        FailingConsole { words: T, web: b"@ text", pascal: b"" },
        FailingConsole { words: b"pooltype|a.pool", web: POOL, pascal: OLD },
    ];
    for (index, row) in rows.iter().enumerate() {
        let given = Given {
            words: row.words,
            web: row.web,
            change: b"",
            shelf_fails: 0,
            console_fails: 1,
        };
        let left = left_by(rt.alloc(), &given)?;
        assert_eq!(rt; (index, left.status), (index, 3));
        assert!(rt; left.con.bytes().is_empty(), "row {index}");
        assert_eq!(rt; (index, left.file(b"t.p")), (index, row.pascal));
    }
    Ok(())
}
