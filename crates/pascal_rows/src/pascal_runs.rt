//! Whole runs of programs over ports in memory, worked out by hand from the rules of what a program does.
ghost use Rattle.std.specs.Prelude.{◌≡◌, ◌≤◌, length};
ghost use Rattle.wb_ports.specs.declared.port.Mode.{Mode};
ghost use Rattle.wb_ports.specs.declared.port.TheConstants.{PORT_LIMIT};

use crate::pascal_types::POOL_LISTING;
use Told::{Deep, Goes, Halts, NoMemory, PortFails, Wrong};
use pas_run::{End, RunErr, run};
use pas_syntax::parse;
use pas_types::check;
use std::alloc::Global;
use std::test::Fail;
use wb_base::Text;
use wb_ports::{Failed, MemPort, Port, QuietSink};
use web_pool::pooltype;

// How a run ends: it halts with a status, would go on, commits an error, calls too deep, meets a failed call of a
// port, or finds no memory.
#[derive(Clone, Copy, Debug, PartialEq, Eq)]
enum Told {
    Halts(u8),
    Goes,
    Wrong(u8),
    Deep,
    PortFails,
    NoMemory,
}

// What a run answers, in one word.
fn end_told(end: Result<End, RunErr>) -> Told {
    match end {
        Ok(End::Halted(status)) => Halts(status),
        Ok(End::Going) => Goes,
        Ok(End::Error(kind)) => Wrong(kind),
        Err(RunErr::TooDeep) => Deep,
        Err(RunErr::PortFailed) => PortFails,
        Err(RunErr::OutOfMemory) => NoMemory,
    }
}

// How many bytes a written file has room for.
const ROOM: usize = 8192;

// As many steps as a run may be given.
const MANY: u64 = 1_000_000_000;

// Two ports with these bytes, the first of which fails at these calls, and one more.
fn three_ports(
    alloc: Global,
    first: &[u8],
    second: &[u8],
    fails: &[u64],
) -> Result<Vec<Box<dyn Port>>, Fail>
    requires first { length first.now ≤ PORT_LIMIT }
    requires second { length second.now ≤ PORT_LIMIT }
{
    let mut ports: Vec<Box<dyn Port>> = Vec::new(alloc);
    ports.push(Box::new(alloc, MemPort::new(alloc, first, ROOM, fails)?)?)?;
    ports.push(Box::new(alloc, MemPort::new(alloc, second, ROOM, &[])?)?)?;
    ports.push(Box::new(alloc, MemPort::new(alloc, b"", ROOM, &[])?)?)?;
    Ok(ports)
}

// The first of these bytes, at most as many as a file has room for.
fn first_bytes(bytes: &[u8]) -> &[u8]
    ensures { length result.now ≤ PORT_LIMIT }
{
    &bytes[..bytes.len().min(ROOM)]
}

// What a run of a program answers over ports, or none where the program is not lawful or has more files than these.
fn run_over(
    alloc: Global,
    text: &[u8],
    steps: u64,
    ports: &mut Vec<Box<dyn Port>>,
) -> Result<Option<Told>, Fail> {
    let program = check(alloc, &parse(alloc, text)?)?;
    if (program.file_count() as usize) > ports.len() {
        return Ok(None);
    }
    Ok(Some(end_told(run(alloc, &program, steps, ports))))
}

// Whether a port gives these bytes, and then is at its end.
fn gives<P: Port>(port: &mut P, bytes: &[u8]) -> Result<bool, Failed>
    requires { P.mode port.old ≡ Mode.Reading }
{
    for byte in bytes {
        if port.take()? != Some(*byte) {
            return Ok(false);
        }
    }
    Ok(port.take()?.is_none())
}

// Whether a port holds these bytes and no more.
fn holds<P: Port>(port: &mut P, bytes: &[u8]) -> bool {
    match port.rewind() {
        Ok(()) => gives(port, bytes) == Ok(true),
        Err(Failed) => false,
    }
}

// A program of the file `output`: what is declared, what is done, how a run of it ends, and what it has written then.
#[derive(Clone, Copy)]
struct Row(&'static str, &'static str, Told, &'static str);

// The rows of which a run ends otherwise, writes something else, or keeps more ports than that of `output`: what is
// done, how the run ends, and whether it has written what is told.
fn failing(alloc: Global, rows: &[Row]) -> Result<Vec<(&'static str, Option<Told>, bool)>, Fail> {
    let mut others = Vec::new(alloc);
    for row in rows {
        let mut text = Text::new(alloc);
        text.push_all(b"program t(output);")?;
        text.push_all(row.0.as_bytes())?;
        text.push_all(b"begin ")?;
        text.push_all(row.1.as_bytes())?;
        text.push_all(b" end.")?;
        let mut ports = three_ports(alloc, b"", b"", &[])?;
        let end = run_over(alloc, text.bytes(), MANY, &mut ports)?;
        let as_told = ports.len() == 1 && holds(&mut ports[0], row.3.as_bytes());
        if end != Some(row.2) || !as_told {
            others.push((row.1, end, as_told))?;
        }
    }
    Ok(others)
}

#[test]
fn errors_of_values_end_a_run(rt: HostRuntime) -> Result<(), Fail> {
    #[rattlefmt::skip]
    let rows = [
        // an undefined value
        Row("var i,j:integer;", "write(output,1);i:=j;write(output,2)", Wrong(1), "1"),
        Row("var i,j:integer;", "write(output,1);j:=3;i:=j;write(output,i)", Halts(0), "13"),
        Row("var i:integer;", "i:=-i", Wrong(1), ""),
        Row("var i:integer;", "i:=2+i", Wrong(1), ""),
        Row("var i:integer;", "i:=i-2", Wrong(1), ""),
        Row("var i:integer;", "i:=2*i", Wrong(1), ""),
        Row("var i:integer;", "i:=i div 2", Wrong(1), ""),
        Row("var i:integer;", "i:=7 mod i", Wrong(1), ""),
        Row("var i:integer;b:boolean;", "b:=i<2", Wrong(1), ""),
        Row("var b:boolean;", "b:=not b", Wrong(1), ""),
        Row("var b,c:boolean;", "b:=false and c;write(output,ord(b));b:=true and c", Wrong(1), "0"),
        Row("var b,c:boolean;", "b:=true or c;write(output,ord(b));b:=false or c", Wrong(1), "1"),
        Row("var b,c:boolean;", "b:=c and false", Wrong(1), ""),
        Row("var b,c:boolean;", "b:=c or true", Wrong(1), ""),
        Row("var i:integer;c:char;", "i:=ord(c)", Wrong(1), ""),
        Row("var i:integer;c:char;", "c:=chr(i)", Wrong(1), ""),
        Row("var i:integer;", "i:=abs(i)", Wrong(1), ""),
        Row("var i:integer;b:boolean;", "b:=odd(i)", Wrong(1), ""),
        Row("var b:boolean;", "if b then", Wrong(1), ""),
        Row("var b:boolean;", "while b do", Wrong(1), ""),
        Row("var b:boolean;", "repeat write(output,'r') until b", Wrong(1), "r"),
        Row("var i:integer;", "case i of 1: end", Wrong(1), ""),
        Row("var i,j:integer;", "for i:=j to 2 do write(output,i)", Wrong(1), ""),
        Row("var i,j:integer;", "for i:=2 to j do write(output,i)", Wrong(1), ""),
        Row("var i:integer;", "write(output,1,i)", Wrong(1), "1"),
        Row("var c:char;", "write(output,c)", Wrong(1), ""),
        Row("var i:integer;", "write(output,1:i)", Wrong(1), ""),
        Row("var i:integer;", "write(output,'ab':i)", Wrong(1), ""),
        Row("var i:integer;", "uexit(i)", Wrong(1), ""),
        Row("var i:integer;procedure p(x:integer);begin write(output,x) end;", "p(4);p(i)", Wrong(1), "4"),
        Row("var i:integer;a:array[1..2] of integer;", "a[1]:=5;write(output,a[1]);a[i]:=1", Wrong(1), "5"),
        Row("var i:integer;a:array[1..2] of integer;", "a[1]:=5;write(output,a[1]);i:=a[2]", Wrong(1), "5"),
        Row("var i:integer;r:record x,y:integer end;", "r.x:=1;write(output,r.x);i:=r.y", Wrong(1), "1"),
        Row("var i:integer;procedure p;var x:integer;begin if i=1 then x:=3;write(output,x) end;", "i:=1;p;i:=2;p",
            Wrong(1), "3"),
        // whole arrays and records are copied with their undefined parts
        Row("var i:integer;a,b:array[1..2] of integer;", "a[1]:=5;b:=a;write(output,b[1]);i:=b[2]", Wrong(1), "5"),
        Row("type s=array[1..2] of integer;var a:s;procedure p(x:s);begin write(output,x[2]);x[2]:=9;\
            write(output,x[2]) end;", "a[2]:=3;p(a);write(output,a[2])", Halts(0), "393"),
        // the variable of a `for` behind its end
        Row("var i:integer;", "for i:=1 to 2 do write(output,i);write(output,i)", Wrong(1), "12"),
        Row("var i:integer;", "i:=5;for i:=2 to 1 do write(output,i);write(output,i)", Wrong(1), ""),
        Row("label 5;var i:integer;", "for i:=1 to 3 do if i=2 then goto 5;5:write(output,i)", Halts(0), "2"),
        Row("var i:integer;", "for i:=1 to 2 do for i:=3 to 3 do write(output,i)", Wrong(1), "3"),
        // a value out of its range
        Row("var s:1..5;", "s:=5;write(output,s);s:=6", Wrong(2), "5"),
        Row("var s:1..5;", "s:=1;write(output,s);s:=0", Wrong(2), "1"),
        Row("var c:'a'..'c';", "c:='c';write(output,c);c:='d'", Wrong(2), "c"),
        Row("var b:false..false;", "b:=false;write(output,ord(b));b:=true", Wrong(2), "0"),
        Row("var a:array[1..2] of 1..5;", "a[1]:=5;write(output,a[1]);a[2]:=6", Wrong(2), "5"),
        Row("var r:record x:1..5 end;", "r.x:=5;write(output,r.x);r.x:=6", Wrong(2), "5"),
        Row("type s=1..5;procedure p(x:s);begin write(output,x) end;", "p(5);p(6)", Wrong(2), "5"),
        Row("type s=1..5;procedure p(x:s;y:integer);begin end;", "p(6,1 div 0)", Wrong(2), ""),
        Row("type s=1..5;procedure p(x:s;y:integer);begin end;", "p(5,1 div 0)", Wrong(5), ""),
        Row("type s=1..5;var i:s;procedure p(var x:s);begin x:=x+1 end;", "i:=4;p(i);write(output,i);p(i)", Wrong(2),
            "5"),
        Row("type s=1..5;function f(x:integer):s;begin f:=x end;", "write(output,f(5));write(output,f(6))", Wrong(2),
            "5"),
        Row("var s:1..5;", "for s:=4 to 5 do write(output,s)", Halts(0), "45"),
        Row("var s:1..5;", "for s:=4 to 6 do write(output,s)", Wrong(2), ""),
        Row("var s:1..5;", "for s:=0 to 1 do write(output,s)", Wrong(2), ""),
        Row("var s:1..5;", "for s:=5 downto 0 do write(output,s)", Wrong(2), ""),
        Row("var s:1..5;", "for s:=9 to 8 do write(output,s);write(output,'n')", Halts(0), "n"),
        Row("var s:1..5;", "for s:=1 to 2 do begin write(output,s);s:=5 end", Wrong(2), "1"),
        Row("var s:1..5;", "for s:=1 to 5 do begin write(output,s);s:=5 end", Halts(0), "1"),
        // an index out of its range
        Row("var a:array[1..2] of integer;", "a[2]:=4;write(output,a[2]);a[3]:=1", Wrong(3), "4"),
        Row("var a:array[1..2] of integer;", "a[1]:=4;write(output,a[1]);a[0]:=1", Wrong(3), "4"),
        Row("var a:array[1..2] of integer;", "a[2]:=4;write(output,a[2]);write(output,a[3])", Wrong(3), "4"),
        Row("var a:array[-2..-1] of char;", "a[-2]:='x';write(output,a[-2]);a[0]:='y'", Wrong(3), "x"),
        Row("var a:array['b'..'c'] of integer;", "a['c']:=1;write(output,a['c']);a['d']:=1", Wrong(3), "1"),
        Row("var a:array[boolean] of integer;", "a[true]:=1;a[false]:=2;write(output,a[true],a[false])", Halts(0),
            "12"),
        Row("var a:array[1..2,3..4] of integer;", "a[2,4]:=1;write(output,a[2][4]);a[2,2]:=1", Wrong(3), "1"),
        Row("var a:array[1..2,3..4] of integer;", "a[3,1 div 0]:=1", Wrong(3), ""),
        Row("var a:array[1..2,3..4] of integer;", "a[1 div 0,9]:=1", Wrong(5), ""),
        Row("var a:array[1..2] of integer;procedure p(var x:integer);begin x:=7 end;",
            "p(a[2]);write(output,a[2]);p(a[3])", Wrong(3), "7"),
        Row("var a:array[1..2] of integer;", "a[3]:=1 div 0", Wrong(5), ""),
        Row("var a:array[1..2] of 1..5;", "a[3]:=6", Wrong(3), ""),
    ];
    let others = failing(rt.alloc(), &rows)?;
    assert!(rt; others.is_empty(), "{others:?}");
    Ok(())
}

#[test]
fn errors_of_numbers_and_calls_end_a_run(rt: HostRuntime) -> Result<(), Fail> {
    #[rattlefmt::skip]
    let rows = [
        // an integer past maxint
        Row("var i:integer;", "i:=maxint;write(output,i);i:=i+1", Wrong(4), "2147483647"),
        Row("var i:integer;", "i:=-maxint;write(output,i);i:=i-1", Wrong(4), "-2147483647"),
        Row("var i:integer;", "i:=46340*46340;write(output,i);i:=46341*46341", Wrong(4), "2147395600"),
        Row("var i:integer;", "i:=maxint*(-1);write(output,i);i:=maxint*(-2)", Wrong(4), "-2147483647"),
        Row("var i:integer;", "i:=(-maxint) div (-1);write(output,i,abs(-maxint))", Halts(0), "21474836472147483647"),
        Row("var i:integer;", "for i:=1 to 2 do begin write(output,i);i:=maxint end", Wrong(4), "1"),
        Row("var i:integer;", "for i:=2 downto 1 do begin write(output,i);i:=-maxint end", Wrong(4), "2"),
        Row("var s:0..maxint;", "for s:=1 to 2 do begin write(output,s);s:=maxint end", Wrong(4), "1"),
        // a division by zero, and `mod` by a number below 1
        Row("", "write(output,7 div 2);write(output,7 div 0)", Wrong(5), "3"),
        Row("", "write(output,(-7) div 2,7 div (-2),(-7) div (-2))", Halts(0), "-3-33"),
        Row("", "write(output,7 mod 2);write(output,7 mod 0)", Wrong(6), "1"),
        Row("", "write(output,7 mod (-2))", Wrong(6), ""),
        Row("", "write(output,(-7) mod 3:1,(-7) div 2:3,(-1) mod 2147483647:11)", Halts(0), "2 -3 2147483646"),
        // operands and arguments from left to right
        Row("", "write(output,(1 mod 0)+(1 div 0))", Wrong(6), ""),
        Row("", "write(output,(1 div 0)*(1 mod 0))", Wrong(5), ""),
        Row("", "if (1 mod 0)=(1 div 0) then", Wrong(6), ""),
        Row("procedure p(x,y:integer);begin end;", "p(1 mod 0,1 div 0)", Wrong(6), ""),
        // no char, no case, no width
        Row("", "write(output,chr(65));write(output,chr(256))", Wrong(7), "A"),
        Row("", "write(output,ord(chr(255)),ord(chr(0)));write(output,chr(-1))", Wrong(7), "2550"),
        Row("var i:integer;", "for i:=1 to 3 do case i of 1:write(output,'a');2:write(output,'b') end", Wrong(8), "ab"),
        Row("var i:integer;", "for i:=1 to 3 do case i of 1:write(output,'a');2:write(output,'b');\
            others:write(output,'o') end", Halts(0), "abo"),
        Row("", "case 'x' of 'a','x':write(output,'y') end", Halts(0), "y"),
        Row("", "write(output,-7:4,12:1);write(output,1:0)", Wrong(9), "  -712"),
        Row("", "write(output,1:-1)", Wrong(9), ""),
        Row("", "write(output,'a':2);write(output,'a':0)", Wrong(9), " a"),
        Row("", "write(output,'abc':2,'abc':4,'it''s');write(output,'abc':0)", Wrong(9), "ab abcit's"),
        Row("", "writeln(output,1,2:0,3)", Wrong(9), "1"),
        Row("", "write(output,1 div 0:0)", Wrong(5), ""),
        Row("", "write(output,1:1 div 0)", Wrong(5), ""),
        // no result, and no status
        Row("var i:integer;function f(x:integer):integer;begin write(output,x);if x>0 then f:=x;write(output,'b') end;",
            "i:=f(1);i:=f(0)", Wrong(13), "1b0b"),
        Row("function f(x:integer):integer;begin if x>0 then f:=x else if f(1)=1 then write(output,'r') end;",
            "write(output,f(0))", Wrong(13), "r"),
        Row("", "uexit(255);write(output,1)", Halts(255), ""),
        Row("", "uexit(256)", Wrong(14), ""),
        Row("", "uexit(-1)", Wrong(14), ""),
        Row("procedure p;begin uexit(3) end;", "write(output,1);p;write(output,2)", Halts(3), "1"),
        // calls
        Row("function f(n:integer):integer;begin if n<2 then f:=1 else f:=n*f(n-1) end;",
            "write(output,f(12));write(output,f(13))", Wrong(4), "479001600"),
        Row("procedure b;forward;procedure a;begin write(output,'a');b end;procedure b;begin write(output,'b') end;",
            "a", Halts(0), "ab"),
        Row("procedure q(n:integer);begin if n>1 then q(n-1) else write(output,'d') end;", "q(999)", Halts(0), "d"),
        Row("procedure q(n:integer);begin if n>1 then q(n-1) else write(output,'d') end;", "q(1000)", Deep, ""),
        // gotos
        Row("label 9999;procedure q;begin write(output,'a');goto 9999 end;", "q;write(output,'b');9999:", Halts(1),
            "a"),
        Row("label 9;", "write(output,'a');goto 9;write(output,'b');9:", Halts(0), "a"),
        Row("procedure p;label 7;begin write(output,'a');goto 7;write(output,'b');7: end;", "p;write(output,'c')",
            Halts(0), "ac"),
        Row("label 5,6;var i:integer;", "i:=0;5:i:=i+1;write(output,i);if i<3 then goto 5;6:write(output,'z')",
            Halts(0), "123z"),
    ];
    let others = failing(rt.alloc(), &rows)?;
    assert!(rt; others.is_empty(), "{others:?}");
    Ok(())
}

#[test]
fn what_has_a_meaning_is_done(rt: HostRuntime) -> Result<(), Fail> {
    #[rattlefmt::skip]
    let rows = [
        Row("var i:integer;", "for i:=2147483646 to 2147483647 do write(output,i:11)", Halts(0),
            " 2147483646 2147483647"),
        Row("var i:integer;", "for i:=-2147483646 downto -2147483647 do write(output,i:12)", Halts(0),
            " -2147483646 -2147483647"),
        Row("var i,n:integer;", "n:=2;for i:=1 to n do begin n:=9;write(output,i) end", Halts(0), "12"),
        Row("var i:integer;", "for i:=1 to 3 do begin write(output,i);i:=3 end", Halts(0), "1"),
        Row("const c=-5;q='x';", "write(output,c,-c:2,q,ord('a'),ord(true),maxint)", Halts(0), "-5 5x9712147483647"),
        // a variable argument is fixed when it is evaluated, and may be a part of another
        Row("var i:integer;a:array[1..2] of integer;function f(var x:integer):integer;begin x:=x+1;f:=7 end;",
            "i:=1;a[1]:=0;a[2]:=0;a[i]:=f(i);writeln(output,a[1]:1,a[2]:1)", Halts(0), "07\n"),
        Row("var i:integer;a:array[1..2] of integer;procedure p(var x:integer);begin i:=2;x:=7 end;",
            "i:=1;a[2]:=0;p(a[i]);write(output,a[1],a[2],i)", Halts(0), "702"),
        Row("type s=array[1..2] of integer;var a:s;procedure p(var x:integer;b:s);begin x:=5;b[2]:=8;\
            write(output,a[1],b[1],b[2],x,a[2]) end;", "a[1]:=1;a[2]:=2;p(a[1],a)", Halts(0), "51852"),
        Row("type s=array[1..2] of integer;var a,c:s;procedure p(var x:integer;var b:s);begin x:=5;\
            write(output,b[1]);b:=c;write(output,x);x:=6;write(output,a[1],b[1],c[1]) end;",
            "a[1]:=1;c[1]:=3;p(a[1],a)", Halts(0), "53663"),
        Row("var a:array[1..2] of integer;", "a[1]:=1;a[2]:=2;a:=a;write(output,a[1],a[2])", Halts(0), "12"),
        Row("var a:array[1..2] of record x:integer;y:array[1..2] of char end;", "a[1].x:=4;a[1].y[2]:='k';a[2]:=a[1];\
            a[1].x:=5;write(output,a[2].x,a[2].y[2],a[1].x)", Halts(0), "4k5"),
    ];
    let others = failing(rt.alloc(), &rows)?;
    assert!(rt; others.is_empty(), "{others:?}");
    Ok(())
}

// A program of the files `f` and `output`: what is declared and done, the bytes of `f` before a run, how the run ends,
// the bytes of `f` then, and what is written then.
#[derive(Clone, Copy)]
struct FileRow {
    declared: &'static str,
    done: &'static str,
    given: &'static [u8],
    end: Told,
    held: &'static [u8],
    written: &'static str,
}

// The rows of which a run ends otherwise, or leaves other files: what is done, how the run ends, and whether each file
// is as it is told.
fn failing_of_files(
    alloc: Global,
    rows: &[FileRow],
) -> Result<Vec<(&'static str, Option<Told>, bool, bool)>, Fail> {
    let mut others = Vec::new(alloc);
    for row in rows {
        let mut text = Text::new(alloc);
        text.push_all(
            b"program t(f,output);var c:char;b:boolean;i:integer;s:1..5;a:array[1..2] of integer;f:",
        )?;
        text.push_all(row.declared.as_bytes())?;
        text.push_all(b";procedure p(var g:text);begin write(g,'p') end;begin ")?;
        text.push_all(row.done.as_bytes())?;
        text.push_all(b" end.")?;
        let mut ports = three_ports(alloc, &row.given[..row.given.len().min(ROOM)], b"old", &[])?;
        let end = run_over(alloc, text.bytes(), MANY, &mut ports)?;
        let as_held = ports.len() == 2 && holds(&mut ports[0], row.held);
        let as_written = ports.len() == 2 && holds(&mut ports[1], row.written.as_bytes());
        if end != Some(row.end) || !as_held || !as_written {
            others.push((row.done, end, as_held, as_written))?;
        }
    }
    Ok(others)
}

#[test]
fn texts_are_read_and_written(rt: HostRuntime) -> Result<(), Fail> {
    #[rattlefmt::skip]
    let rows = [
        FileRow { declared: "text", done: "write(output,1)", given: b"ab", end: Halts(0), held: b"ab", written: "1" },
        // not in use, read, or written
        FileRow { declared: "text", done: "c:=f^", given: b"ab", end: Wrong(10), held: b"ab", written: "" },
        FileRow { declared: "text", done: "get(f)", given: b"ab", end: Wrong(10), held: b"ab", written: "" },
        FileRow { declared: "text", done: "put(f)", given: b"ab", end: Wrong(10), held: b"ab", written: "" },
        FileRow { declared: "text", done: "f^:='a'", given: b"ab", end: Wrong(10), held: b"ab", written: "" },
        FileRow { declared: "text", done: "b:=eof(f)", given: b"ab", end: Wrong(10), held: b"ab", written: "" },
        FileRow { declared: "text", done: "b:=eoln(f)", given: b"ab", end: Wrong(10), held: b"ab", written: "" },
        FileRow { declared: "text", done: "read(f,c)", given: b"ab", end: Wrong(10), held: b"ab", written: "" },
        FileRow { declared: "text", done: "readln(f)", given: b"ab", end: Wrong(10), held: b"ab", written: "" },
        FileRow { declared: "text", done: "write(f,'a')", given: b"ab", end: Wrong(10), held: b"ab", written: "" },
        FileRow { declared: "text", done: "write(f,1)", given: b"ab", end: Wrong(10), held: b"ab", written: "" },
        FileRow { declared: "text", done: "write(f,'ab')", given: b"ab", end: Wrong(10), held: b"ab", written: "" },
        FileRow { declared: "text", done: "writeln(f)", given: b"ab", end: Wrong(10), held: b"ab", written: "" },
        FileRow { declared: "text", done: "reset(f);write(output,f^,ord(eof(f)));put(f)", given: b"ab", end: Wrong(10),
            held: b"ab", written: "a0" },
        FileRow { declared: "text", done: "reset(f);f^:='a'", given: b"ab", end: Wrong(10), held: b"ab", written: "" },
        FileRow { declared: "text", done: "reset(f);write(f,'a')", given: b"ab", end: Wrong(10), held: b"ab",
            written: "" },
        FileRow { declared: "text", done: "reset(f);writeln(f)", given: b"ab", end: Wrong(10), held: b"ab",
            written: "" },
        FileRow { declared: "text", done: "rewrite(f);write(output,ord(eof(f)));c:=f^", given: b"ab", end: Wrong(10),
            held: b"", written: "1" },
        FileRow { declared: "text", done: "rewrite(f);get(f)", given: b"ab", end: Wrong(10), held: b"", written: "" },
        FileRow { declared: "text", done: "rewrite(f);b:=eoln(f)", given: b"ab", end: Wrong(10), held: b"",
            written: "" },
        FileRow { declared: "text", done: "rewrite(f);read(f,c)", given: b"ab", end: Wrong(10), held: b"",
            written: "" },
        FileRow { declared: "text", done: "rewrite(f);readln(f)", given: b"ab", end: Wrong(10), held: b"",
            written: "" },
        // the value, the mode, and then the width
        FileRow { declared: "text", done: "write(f,'a':0)", given: b"ab", end: Wrong(10), held: b"ab", written: "" },
        FileRow { declared: "text", done: "write(f,1 div 0)", given: b"ab", end: Wrong(5), held: b"ab", written: "" },
        FileRow { declared: "text", done: "write(f,c)", given: b"ab", end: Wrong(1), held: b"ab", written: "" },
        FileRow { declared: "text", done: "f^:=c", given: b"ab", end: Wrong(1), held: b"ab", written: "" },
        FileRow { declared: "text", done: "rewrite(f);writeln(f,'a',1:0)", given: b"ab", end: Wrong(9), held: b"a",
            written: "" },
        // the end of the file
        FileRow { declared: "text", done: "reset(f);write(output,ord(eof(f)));c:=f^", given: b"", end: Wrong(11),
            held: b"", written: "1" },
        FileRow { declared: "text", done: "reset(f);get(f)", given: b"", end: Wrong(11), held: b"", written: "" },
        FileRow { declared: "text", done: "reset(f);b:=eoln(f)", given: b"", end: Wrong(11), held: b"", written: "" },
        FileRow { declared: "text", done: "reset(f);read(f,c)", given: b"", end: Wrong(11), held: b"", written: "" },
        FileRow { declared: "text", done: "reset(f);readln(f)", given: b"", end: Wrong(11), held: b"", written: "" },
        FileRow { declared: "text", done: "reset(f);read(f,c);write(output,c,ord(eoln(f)),f^,ord(eof(f)));get(f);\
            write(output,ord(eof(f)));get(f)", given: b"a", end: Wrong(11), held: b"a", written: "a1 01" },
        FileRow { declared: "text", done: "reset(f);read(f,c);write(output,c,ord(eoln(f)),f^,ord(eof(f)));get(f);\
            write(output,ord(eof(f)));get(f)", given: b"a\n", end: Wrong(11), held: b"a\n", written: "a1 01" },
        FileRow { declared: "text", done: "reset(f);while not eof(f) do begin if eoln(f) then write(output,'/') \
            else write(output,f^);get(f) end", given: b"ab\n\nc", end: Halts(0), held: b"ab\n\nc", written: "ab//c/" },
        FileRow { declared: "text", done: "reset(f);readln(f,c);write(output,c);readln(f,c);write(output,c);readln(f)",
            given: b"ab\ncd\n", end: Wrong(11), held: b"ab\ncd\n", written: "ac" },
        // the buffer
        FileRow { declared: "text", done: "rewrite(f);put(f)", given: b"ab", end: Wrong(12), held: b"", written: "" },
        FileRow { declared: "text", done: "rewrite(f);f^:='q'", given: b"ab", end: Halts(0), held: b"", written: "" },
        FileRow { declared: "text", done: "rewrite(f);f^:='a';put(f);put(f)", given: b"", end: Wrong(12), held: b"a",
            written: "" },
        FileRow { declared: "text", done: "rewrite(f);f^:='b';write(f,'a');put(f)", given: b"", end: Halts(0),
            held: b"ab", written: "" },
        FileRow { declared: "text", done: "rewrite(f);f^:='b';writeln(f);put(f)", given: b"", end: Halts(0),
            held: b"\nb", written: "" },
        FileRow { declared: "text", done: "rewrite(f);f^:='a';rewrite(f);put(f)", given: b"", end: Wrong(12),
            held: b"", written: "" },
        FileRow { declared: "text", done: "rewrite(f);f^:='a';reset(f);rewrite(f);put(f)", given: b"", end: Wrong(12),
            held: b"", written: "" },
        FileRow { declared: "text", done: "reset(f);c:=f^;rewrite(f);f^:=c;put(f);f^:='z';put(f);reset(f);\
            write(output,f^);get(f);write(output,f^)", given: b"ab", end: Halts(0), held: b"az", written: "az" },
        FileRow { declared: "text", done: "reset(f);read(f,output^);put(output)", given: b"ab", end: Halts(0),
            held: b"ab", written: "a" },
        // fields, and files as arguments
        FileRow { declared: "text", done: "rewrite(f);write(f,'c':3,'it''s':6,12:4,'abc':2,chr(255));writeln(f)",
            given: b"", end: Halts(0), held: b"  c  it's  12ab\xff\n", written: "" },
        FileRow { declared: "text", done: "rewrite(f);p(f);p(output)", given: b"", end: Halts(0), held: b"p",
            written: "p" },
    ];
    let others = failing_of_files(rt.alloc(), &rows)?;
    assert!(rt; others.is_empty(), "{others:?}");
    Ok(())
}

#[test]
fn bytes_are_read_and_written(rt: HostRuntime) -> Result<(), Fail> {
    #[rattlefmt::skip]
    let rows = [
        FileRow { declared: "file of 0..255", done: "rewrite(f);write(f,0,255,10,13);reset(f);while not eof(f) do \
            begin read(f,i);write(output,i:4) end;read(f,i)", given: b"", end: Wrong(11), held: b"\x00\xff\x0a\x0d",
            written: "   0 255  10  13" },
        FileRow { declared: "file of 0..255", done: "reset(f);get(f);write(output,ord(eof(f)));i:=f^", given: b"a",
            end: Wrong(11), held: b"a", written: "1" },
        FileRow { declared: "file of 0..255", done: "reset(f);get(f);get(f)", given: b"a", end: Wrong(11), held: b"a",
            written: "" },
        // the range, and then the mode
        FileRow { declared: "file of 0..255", done: "f^:=256", given: b"a", end: Wrong(2), held: b"a", written: "" },
        FileRow { declared: "file of 0..255", done: "f^:=255", given: b"a", end: Wrong(10), held: b"a", written: "" },
        FileRow { declared: "file of 0..255", done: "write(f,256)", given: b"a", end: Wrong(2), held: b"a",
            written: "" },
        FileRow { declared: "file of 0..255", done: "write(f,255)", given: b"a", end: Wrong(10), held: b"a",
            written: "" },
        FileRow { declared: "file of 0..255", done: "rewrite(f);write(f,7,-1)", given: b"a", end: Wrong(2),
            held: b"\x07", written: "" },
        FileRow { declared: "file of 0..100", done: "rewrite(f);write(f,100);write(f,101)", given: b"a", end: Wrong(2),
            held: b"d", written: "" },
        FileRow { declared: "file of 0..255", done: "rewrite(f);f^:=1;write(f,2);put(f)", given: b"a", end: Wrong(12),
            held: b"\x02", written: "" },
        // a byte that is no component; then the indexes of the target, and its range
        FileRow { declared: "file of 0..100", done: "reset(f);get(f);write(output,f^)", given: b"\xc8\x07",
            end: Halts(0), held: b"\xc8\x07", written: "7" },
        FileRow { declared: "file of 0..100", done: "i:=f^", given: b"\xc8\x07", end: Wrong(10), held: b"\xc8\x07",
            written: "" },
        FileRow { declared: "file of 0..100", done: "reset(f);i:=f^", given: b"\xc8\x07", end: Wrong(2),
            held: b"\xc8\x07", written: "" },
        FileRow { declared: "file of 0..100", done: "reset(f);read(f,a[3])", given: b"\xc8\x07", end: Wrong(2),
            held: b"\xc8\x07", written: "" },
        FileRow { declared: "file of 0..100", done: "reset(f);read(f,a[3])", given: b"\x07", end: Wrong(3),
            held: b"\x07", written: "" },
        FileRow { declared: "file of 0..100", done: "reset(f);read(f,s);write(output,s);read(f,s)", given: b"\x05\x07",
            end: Wrong(2), held: b"\x05\x07", written: "5" },
        // a file of chars is no text
        FileRow { declared: "file of char", done: "reset(f);while not eof(f) do begin write(output,ord(f^):3);get(f) \
            end", given: b"a\n", end: Halts(0), held: b"a\n", written: " 97 10" },
        FileRow { declared: "file of char", done: "reset(f);while not eof(f) do begin write(output,ord(f^):3);get(f) \
            end", given: b"ab", end: Halts(0), held: b"ab", written: " 97 98" },
        FileRow { declared: "file of char", done: "rewrite(f);write(f,'x');f^:='y';write(f,'z');put(f)", given: b"ab",
            end: Wrong(12), held: b"xz", written: "" },
        FileRow { declared: "file of char", done: "reset(f);read(f,output^,c);put(output);write(c)", given: b"ab",
            end: Halts(0), held: b"ab", written: "ab" },
    ];
    let others = failing_of_files(rt.alloc(), &rows)?;
    assert!(rt; others.is_empty(), "{others:?}");
    Ok(())
}

// A whole program, the steps that a run of it may take, the bytes of its first file, how the run ends, and what its
// last file holds then.
#[derive(Clone, Copy)]
struct StepRow(&'static str, u64, &'static [u8], Told, &'static [u8]);

const AND_THEN: &str =
    "program t(output);var k,n:integer;function g(x:integer):boolean;begin write(output,x:1);\
    g:=true end;begin k:=1;n:=0;if (k<=n) and g(k) then write(output,'y');n:=1;if (k<=n) and g(k) then \
    write(output,'z') end.";

const TO_LAST: &str =
    "program t(output);var i:integer;begin for i:=2147483646 to 2147483647 do writeln(output,i:1) \
    end.";

const WITHOUT_END: &str = "program t(output);begin while true do write(output,'x') end.";

const COUNTED: &str = "program t(output);label 5;var i:integer;begin i:=0;5:i:=i+1;write(output,i);\
    if i<3 then goto 5 end.";

const CALLS: &str = "program t(output);type s=1..5;procedure p(x:s);begin write(output,x) end;\
    begin p(1);p(6) end.";

const DEEPER: &str = "program t(output);procedure q;begin q end;begin write(output,'a');q end.";

const SKIPPING: &str =
    "program t(output);var i:integer;begin for i:=1 to 3 do begin write(output,i);i:=i+1 end end.";

const PAST_MAXINT: &str = "program t(output);var i:integer;begin for i:=1 to 2 do i:=maxint end.";

const PAST_RANGE: &str = "program t(output);var s:1..5;begin for s:=1 to 2 do s:=5 end.";

const UNDEFINED: &str =
    "program t(output);var i:integer;begin for i:=1 to 2 do for i:=3 to 3 do end.";

const ECHO: &str = "program t(input,output);var c:char;begin while not eof do begin read(c);\
    if eoln then writeln else write(c) end end.";

#[test]
fn steps_are_taken(rt: HostRuntime) -> Result<(), Fail> {
    #[rattlefmt::skip]
    let rows = [
        StepRow(TO_LAST, 0, b"", Goes, b""),
        StepRow(TO_LAST, 1, b"", Goes, b"2147483646\n"),
        StepRow(TO_LAST, 2, b"", Halts(0), b"2147483646\n2147483647\n"),
        StepRow(TO_LAST, MANY, b"", Halts(0), b"2147483646\n2147483647\n"),
        StepRow(AND_THEN, 0, b"", Goes, b""),
        StepRow(AND_THEN, 1, b"", Halts(0), b"1z"),
        StepRow(AND_THEN, 2, b"", Halts(0), b"1z"),
        StepRow(WITHOUT_END, 0, b"", Goes, b""),
        StepRow(WITHOUT_END, 1, b"", Goes, b"x"),
        StepRow(WITHOUT_END, 1000, b"", Goes, &[b'x'; 1000]),
        StepRow("program t(output);begin while false do;write(output,'w') end.", 0, b"", Goes, b""),
        StepRow("program t(output);begin while false do;write(output,'w') end.", 1, b"", Halts(0), b"w"),
        StepRow("program t(output);begin repeat write(output,'r') until false end.", 0, b"", Goes, b""),
        StepRow("program t(output);begin repeat write(output,'r') until false end.", 2, b"", Goes, b"rr"),
        StepRow("program t(output);var i:integer;begin for i:=2 to 1 do;write(output,'n':2) end.", 0, b"", Halts(0),
            b" n"),
        StepRow(COUNTED, 0, b"", Goes, b"1"),
        StepRow(COUNTED, 1, b"", Goes, b"12"),
        StepRow(COUNTED, 2, b"", Halts(0), b"123"),
        StepRow("program t(output);label 9;begin write(output,'a');goto 9;9:end.", 0, b"", Halts(0), b"a"),
        // the arguments, the step, and then the depth
        StepRow(CALLS, 0, b"", Goes, b""),
        StepRow(CALLS, 1, b"", Wrong(2), b"1"),
        StepRow(DEEPER, 500, b"", Goes, b"a"),
        StepRow(DEEPER, 999, b"", Goes, b"a"),
        StepRow(DEEPER, 1000, b"", Deep, b"a"),
        StepRow(DEEPER, 5000, b"", Deep, b"a"),
        // the next value of a `for`, and then the step of its turn
        StepRow(SKIPPING, 3, b"", Goes, b"135"),
        StepRow(PAST_MAXINT, 0, b"", Goes, b""),
        StepRow(PAST_MAXINT, 1, b"", Wrong(4), b""),
        StepRow(PAST_RANGE, 1, b"", Wrong(2), b""),
        StepRow(UNDEFINED, 1, b"", Goes, b""),
        StepRow(UNDEFINED, 2, b"", Wrong(1), b""),
        // files
        StepRow(ECHO, MANY, b"ab", Wrong(11), b"a\n"),
        StepRow(ECHO, 1, b"ab", Goes, b"a"),
        StepRow("program t(output);begin write(output,1) end.", 0, b"old", Halts(0), b"1"),
    ];
    for (index, row) in rows.iter().enumerate() {
        let mut ports = three_ports(rt.alloc(), first_bytes(row.2), b"", &[])?;
        let end = run_over(rt.alloc(), row.0.as_bytes(), row.1, &mut ports)?;
        assert_eq!(rt; (index, end), (index, Some(row.3)));
        let as_told = match ports.pop() {
            Some(mut last) => holds(&mut last, row.4),
            None => false,
        };
        assert_eq!(rt; (index, as_told), (index, true));
    }
    let mut ports = three_ports(rt.alloc(), b"old", b"", &[])?;
    let end = run_over(rt.alloc(), b"program t;begin end.", 0, &mut ports)?;
    assert_eq!(rt; (end, ports.len()), (Some(Halts(0)), 0));
    Ok(())
}

// A whole program, the steps that a run of it may take, how the run ends where no call fails, and what its last file
// holds where its first port fails at the first call, at the second, and so on, and where none fails, at last.
#[derive(Clone, Copy)]
struct FailRow(&'static str, u64, Told, &'static [&'static [u8]]);

#[test]
fn a_failed_call_ends_a_run_at_a_moment(rt: HostRuntime) -> Result<(), Fail> {
    #[rattlefmt::skip]
    let rows = [
        FailRow("program t(output);begin write(output,'ab') end.", 0, Halts(0),
            &[b"ab", b"ab", b"", b"a", b"ab", b"ab"]),
        FailRow(WITHOUT_END, 1, Goes, &[b"ab", b"ab", b"", b"x", b"x"]),
        FailRow("program t(output);begin write(output,'a');uexit(256) end.", 0, Wrong(14),
            &[b"ab", b"ab", b"", b"a", b"a"]),
        FailRow(DEEPER, MANY, Deep, &[b"ab", b"ab", b"", b"a", b"a"]),
        FailRow(ECHO, MANY, Wrong(11), &[b"old", b"old", b"", b"", b"a", b"a\n", b"a\n"]),
    ];
    for (index, row) in rows.iter().enumerate() {
        for (before, held) in row.3.iter().enumerate() {
            let number = (before as u64).saturating_add(1);
            let is_last = before + 1 == row.3.len();
            // The call behind those of the run is one of the test.
            let fails = [number, number.saturating_add(1)];
            let count = if is_last { 1 } else { 2 };
            let mut ports = three_ports(rt.alloc(), b"ab", b"old", &fails[..count])?;
            let end = run_over(rt.alloc(), row.0.as_bytes(), row.1, &mut ports)?;
            let wanted = if is_last { row.2 } else { PortFails };
            assert_eq!(rt; (index, number, end), (index, number, Some(wanted)));
            let is_next = match ports.first_mut() {
                Some(first) => first.rewind().is_err(),
                None => false,
            };
            let as_told = match ports.pop() {
                Some(mut last) => holds(&mut last, *held),
                None => false,
            };
            assert_eq!(rt;
                (index, number, is_next, as_told),
                (index, number, true, true)
            );
        }
    }
    Ok(())
}

#[test]
fn a_program_that_lists_pools_writes_what_pooltype_prints(rt: HostRuntime) -> Result<(), Fail> {
    let pool = b"02ab\n*000000000\n";
    let mut listing = QuietSink::new(rt.alloc(), ROOM)?;
    assert!(rt; pooltype(pool, &mut listing).is_ok());
    let mut ports = three_ports(rt.alloc(), pool, b"", &[])?;
    let end = run_over(rt.alloc(), POOL_LISTING, MANY, &mut ports)?;
    assert_eq!(rt; (end, ports.len()), (Some(Halts(0)), 2));
    let as_told = match (ports.pop(), listing.bytes()) {
        (Some(mut last), Some(bytes)) => holds(&mut last, bytes),
        _ => false,
    };
    assert!(rt; as_told);
    Ok(())
}
