//! Programs, and what checking them answers, worked out by hand from the rules on names, types, files and labels.
use crate::pascal_grammar::{Nested, text_of};
use Answer::{Faulty, Lawful, LeftOut};
use pas_syntax::parse;
use pas_types::{Typed, check};
use std::alloc::Global;
use std::test::Fail;
use wb_base::faults::PASCAL_LEFT_OUT;
use wb_base::{Fault, FileTag, OutOfMemory, Text, WorkErr};

// What is answered of a program: that it is lawful, the number and the line of its fault, or the number and the line
// of a part of Pascal that is left out.
#[derive(Clone, Copy)]
enum Answer {
    Lawful,
    Faulty(u16, u32),
    LeftOut(u8, u32),
}

// A text, and what is answered. Where a fault is no matter of the whole text, a line ends before the token that shows
// it, and behind that token.
#[derive(Clone, Copy)]
struct Row(&'static str, Answer);

// The fault that an answer speaks of.
fn fault_in(answer: Answer) -> Option<Fault> {
    let (code, line, which) = match answer {
        Lawful => return None,
        Faulty(code, line) => (code, line, 0),
        LeftOut(which, line) => (PASCAL_LEFT_OUT, line, which),
    };
    Some(Fault {
        code,
        file: FileTag::Pas,
        line,
        which,
    })
}

// The typed program of a text.
fn checked(alloc: Global, text: &[u8]) -> Result<Typed, WorkErr> {
    let program = parse(alloc, text)?;
    check(alloc, &program)
}

// The fault of a text.
fn fault_of(alloc: Global, text: &[u8]) -> Result<Option<Fault>, OutOfMemory> {
    match checked(alloc, text) {
        Ok(_) => Ok(None),
        Err(WorkErr::Fault(fault)) => Ok(Some(fault)),
        Err(WorkErr::OutOfMemory) => Err(OutOfMemory),
    }
}

// The rows of which another fault is answered between this front and back, with that fault.
fn failing(
    alloc: Global,
    front: &str,
    rows: &[Row],
    back: &str,
) -> Result<Vec<(&'static str, Option<Fault>)>, OutOfMemory> {
    let mut others = Vec::new(alloc);
    for row in rows {
        let mut text = Text::new(alloc);
        text.push_all(front.as_bytes())?;
        text.push_all(row.0.as_bytes())?;
        text.push_all(back.as_bytes())?;
        let fault = fault_of(alloc, text.bytes())?;
        if fault != fault_in(row.1) {
            others.push((row.0, fault))?;
        }
    }
    Ok(others)
}

#[test]
fn programs_are_lawful_or_not(rt: HostRuntime) -> Result<(), Fail> {
    #[rattlefmt::skip]
    let rows = [
        Row("program t;begin if true then else end.", Lawful),
        Row("program t;begin x:=1.5 end.", LeftOut(1, 1)),
        Row("program t;label 5;begin 5: end.", Lawful),
        Row("program t;var a:array[3..1] of char;begin end.", Faulty(57, 1)),
        Row("program t;function f:integer;begin end;begin end.", Faulty(62, 1)),
        Row("program t;begin goto 7 end.", Faulty(58, 1)),
        Row("program t;begin x:=1 end.", Faulty(54, 1)),
        Row("program t;var x:set of char;begin end.", LeftOut(5, 1)),
        // programs that are run elsewhere
        Row("program t(output);var i:integer;begin for i:=2147483646 to 2147483647 do writeln(output,i:1) end.",
            Lawful),
        Row("program t(output);begin write(output,(-7) mod 3:1,(-7) div 2:3,(-1) mod 2147483647:11) end.", Lawful),
        Row("program t(output);\nvar i:integer;a:array[1..2] of integer;\nfunction f(var x:integer):integer;\n\
            begin x:=x+1;f:=7 end;\nbegin i:=1;a[1]:=0;a[2]:=0;a[i]:=f(i);writeln(output,a[1]:1,a[2]:1) end.", Lawful),
        Row("program t(output);\nvar k,n:integer;\nfunction g(x:integer):boolean;\n\
            begin write(output,x:1);g:=true end;\nbegin k:=1;n:=0;if (k<=n) and g(k) then write(output,'y');\n\
            n:=1;if (k<=n) and g(k) then write(output,'z') end.", Lawful),
        Row("program t(output);begin while true do write(output,'x') end.", Lawful),
        Row("program t(output);\nlabel 9999;\nprocedure q;\nbegin write(output,'a');goto 9999 end;\n\
            begin q;write(output,'b');\n9999:end.", Lawful),
        Row("program t;procedure q;begin q end;begin q end.", Lawful),
        Row("program t;var i:integer;begin i:=i+1 end.", Lawful),
        Row("program t(input,output);var c:char;begin while not eof do \
            begin read(c);if eoln then writeln else write(c) end end.", Lawful),
        Row("program t(output);var a:array[2..3] of integer;begin a[3]:=5;write(output,a[3]:2) end.", Lawful),
        Row("program t(output);var b:0..255;h:-5..300;begin b:=200;h:=b+100;writeln(output,b:1,h:4) end.", Lawful),
        Row("program t(output);procedure a;begin write(output,'a') end;procedure b;begin b end;begin a end.", Lawful),
        Row("program gen(output);var xx,yy:integer;procedure proc1;begin xx:=xx+7;if odd(xx) then yy:=yy+9 \
            else yy:=yy+256;end;begin xx:=1;yy:=2;proc1;writeln(output,xx+yy:1);end.", Lawful),
        // the programs of docs/PASCAL.md
        Row("program t;begin\nx:=1 end.", Faulty(54, 2)),
        Row("program t;type p=array[1..2] of char;var a:p;b:array[1..2] of char;begin a:=\nb end.", Faulty(56, 2)),
        Row("program t;function f:integer;begin\nend;begin end.", Faulty(62, 2)),
        Row("program t;label 5;begin\nend.", Faulty(58, 2)),
        Row("program t;label 5;begin goto\n5;begin 5: end end.", Faulty(59, 2)),
        Row("program t;label 9;procedure p;begin goto 9 end;begin p;9: end.", Lawful),
        Row("program t;var f:\ntext;begin end.", Faulty(61, 2)),
        Row("program t(f);var f:text;begin reset(f);read(f,\n1) end.", LeftOut(9, 2)),
        // the earlier token, and at one token the lower number
        Row("program t;var a:\nb\n;c:d;begin end.", Faulty(54, 2)),
        Row("program t;var a:array[2..\n1\n] of char;begin x:=1 end.", Faulty(57, 2)),
        Row("program t(\na\n);begin x:=1 end.", Faulty(54, 2)),
        Row("program t;var a:array[1..4194305] of\ntext\n;begin end.", Faulty(60, 2)),
        Row("program t;label 5;begin goto\n5\n end.", Faulty(59, 2)),
        Row("program t;begin goto\n12345\n end.", Faulty(57, 2)),
        Row("program t;procedure p;begin end;begin p(\nz\n) end.", Faulty(54, 2)),
        Row("program t(input);begin read(input,1+\n1\n) end.", LeftOut(9, 2)),
    ];
    let others = failing(rt.alloc(), "", &rows, "")?;
    assert!(rt; others.is_empty(), "{others:?}");
    Ok(())
}

#[test]
fn names_are_declared_once_and_before_their_use(rt: HostRuntime) -> Result<(), Fail> {
    #[rattlefmt::skip]
    let rows = [
        // before its use
        Row("program t;begin\nx\n:=1 end.", Faulty(54, 2)),
        Row("program t;begin\nt\nend.", Faulty(54, 2)),
        Row("program t;var t:char;begin t:='a' end.", Lawful),
        Row("program t;const a=-\nb\n;begin end.", Faulty(54, 2)),
        Row("program t;const b=1;a=-b;begin end.", Lawful),
        Row("program t;type a=\nb\n;b=char;begin end.", Faulty(54, 2)),
        Row("program t;type b=char;a=b;begin end.", Lawful),
        Row("program t;procedure p(a:\nb\n);begin end;begin end.", Faulty(54, 2)),
        Row("program t;function f:\nb\n;begin end;begin end.", Faulty(54, 2)),
        Row("program t;procedure p;begin\nq\nend;procedure q;begin end;begin end.", Faulty(54, 2)),
        Row("program t;procedure q;begin end;procedure p;begin q end;begin end.", Lawful),
        // not within its own declaration
        Row("program t;type a=array[1..2] of\na\n;begin end.", Faulty(54, 2)),
        Row("program t;type a=record b:\na\nend;begin end.", Faulty(54, 2)),
        Row("program t;const a=\na\n;begin end.", Faulty(54, 2)),
        Row("program t;var a:\na\n;begin end.", Faulty(54, 2)),
        Row("program t;procedure p(a:\np\n);begin end;begin end.", Faulty(54, 2)),
        Row("program t;const maxint=maxint;var a:0..maxint;begin end.", Lawful),
        Row("program t;type char=char;var a:char;begin a:='x' end.", Lawful),
        Row("program t;procedure p(char:char);begin char:='x' end;begin end.", Lawful),
        Row("program t;procedure p(char:integer;a:\nchar\n);begin end;begin end.", Faulty(56, 2)),
        // in its scope alone, of which the inner one comes first
        Row("program t;procedure p;var a:char;begin a:='x' end;begin\na\n:='y' end.", Faulty(54, 2)),
        Row("program t;procedure p(a:char);begin end;procedure q;begin\na\n:='y' end;begin end.", Faulty(54, 2)),
        Row("program t;var a:char;procedure p;begin a:='x' end;begin end.", Lawful),
        Row("program t;var a:char;procedure p;var a:boolean;begin a:=true end;begin a:='x' end.", Lawful),
        Row("program t;var a:char;procedure p(a:integer);begin a:=1 end;begin a:='x' end.", Lawful),
        Row("program t;var a:char;procedure p(a:integer);begin a:=\n'x'\n end;begin end.", Faulty(56, 2)),
        Row("program t;var A:char;begin a:='x' end.", Lawful),
        // required names may be hidden
        Row("program t;var integer:char;begin integer:='a' end.", Lawful),
        Row("program t;var integer:char;procedure p;var a:\ninteger\n;begin end;begin end.", Faulty(56, 2)),
        Row("program t;const true='a';var b:char;begin b:=true end.", Lawful),
        Row("program t;type text=char;var a:text;begin a:='x' end.", Lawful),
        Row("program t;procedure write(a:char);begin end;begin write('a') end.", Lawful),
        Row("program t;procedure uexit;begin end;begin uexit end.", Lawful),
        Row("program t;var a:char;function abs(b:char):char;begin abs:=b end;begin a:=abs('x') end.", Lawful),
        Row("program t;procedure p;var ord:char;begin ord:='a' end;begin end.", Lawful),
        Row("program t;var chr:char;begin chr:=\nchr\n(65) end.", Faulty(56, 2)),
        Row("program t;var eof:boolean;begin if eof then end.", Lawful),
        // once in its scope
        Row("program t;const a=1;\na\n=2;begin end.", Faulty(55, 2)),
        Row("program t;const a=1;\na\n=b;begin end.", Faulty(55, 2)),
        Row("program t;const a=1;type\na\n=char;begin end.", Faulty(55, 2)),
        Row("program t;type a=char;var\na\n:char;begin end.", Faulty(55, 2)),
        Row("program t;var a,\na\n:char;begin end.", Faulty(55, 2)),
        Row("program t;var a:char;\nA\n:char;begin end.", Faulty(55, 2)),
        Row("program t;var a:char;procedure\na\n;begin end;begin end.", Faulty(55, 2)),
        Row("program t;procedure p;begin end;procedure\np\n;begin end;begin end.", Faulty(55, 2)),
        Row("program t;procedure p;begin end;function\np\n:char;begin p:='x' end;begin end.", Faulty(55, 2)),
        Row("program t;procedure p(a,\na\n:char);begin end;begin end.", Faulty(55, 2)),
        Row("program t;procedure p(a:char;var\na\n:char);begin end;begin end.", Faulty(55, 2)),
        Row("program t;procedure p(a:char);var\na\n:char;begin end;begin end.", Faulty(55, 2)),
        Row("program t;procedure p;var a:char;\na\n:char;begin end;begin end.", Faulty(55, 2)),
        Row("program t;procedure p(a:char);begin end;procedure q(a:char);begin end;begin end.", Lawful),
        Row("program t;procedure p(p:char);begin p:='x' end;begin end.", Lawful),
        // fields
        Row("program t;var a:record b,\nb\n:char end;begin end.", Faulty(55, 2)),
        Row("program t;var a:record b:char;\nb\n:char end;begin end.", Faulty(55, 2)),
        Row("program t;var a:record b:record b:char end end;c:record b:char end;begin a.b.b:='x' end.", Lawful),
        Row("program t;type a=record a:char end;var b:a;begin b.a:='x' end.", Lawful),
        Row("program t;var a:record b:char end;begin a.\nc\n:='x' end.", Faulty(54, 2)),
        Row("program t;var a:record b:char end;begin\nb\n:='x' end.", Faulty(54, 2)),
    ];
    let others = failing(rt.alloc(), "", &rows, "")?;
    assert!(rt; others.is_empty(), "{others:?}");
    Ok(())
}

#[test]
fn routines_have_headings_and_results(rt: HostRuntime) -> Result<(), Fail> {
    #[rattlefmt::skip]
    let rows = [
        // forward headings
        Row("program t;procedure p;forward;procedure p;begin end;begin end.", Lawful),
        Row("program t;procedure p;forward;begin\nend\n.", Faulty(54, 2)),
        Row("program t;procedure p;forward;procedure q;begin p end;procedure p;begin q end;begin p end.", Lawful),
        Row("program t;procedure p(a:char);forward;procedure p;begin a:='x' end;begin p('y') end.", Lawful),
        Row("program t;function f(a:char):char;forward;function f;begin f:=a end;begin end.", Lawful),
        Row("program t;procedure p;forward;procedure p\n(a:char);begin end;begin end.", Faulty(56, 2)),
        Row("program t;procedure p(a:char);forward;procedure p\n(a:char);begin end;begin end.", Faulty(56, 2)),
        Row("program t;function f:char;forward;function f\n:char;begin f:='x' end;begin end.", Faulty(56, 2)),
        Row("program t;procedure p;forward;procedure p;\nforward\n;begin end.", Faulty(56, 2)),
        Row("program t;procedure p;forward;function\np\n;begin end;begin end.", Faulty(55, 2)),
        Row("program t;function f:char;forward;procedure\nf\n;begin end;begin end.", Faulty(55, 2)),
        Row("program t;procedure p;forward;procedure p;begin end;procedure\np\n;begin end;begin end.", Faulty(55, 2)),
        // the type of a function
        Row("program t;function f\n;begin f:=1 end;begin end.", Faulty(56, 2)),
        Row("program t;function f(a:char)\n;forward;begin end.", Faulty(56, 2)),
        Row("program t;type a=array[1..2] of char;function f:\na\n;begin end;begin end.", Faulty(56, 2)),
        Row("program t;function f:\ntext\n;begin end;begin end.", Faulty(56, 2)),
        Row("program t;type a=1..5;function f:a;begin f:=3 end;begin end.", Lawful),
        // its name is a target in its own body, and must be one there
        Row("program t;function f:char;begin f:='x' end;begin end.", Lawful),
        Row("program t;function f:char;begin\nend\n;begin end.", Faulty(62, 2)),
        Row("program t;function f:char;forward;function f;begin\nend\n;begin end.", Faulty(62, 2)),
        Row("program t;function f:char;begin if true then f:='x' end;begin end.", Lawful),
        Row("program t;function f:integer;begin if f=1 then\nend\n;begin end.", Faulty(62, 2)),
        Row("program t;function f:char;var f:char;begin f:='x'\nend\n;begin end.", Faulty(62, 2)),
        Row("program t;function f:integer;begin f:=f+1 end;begin end.", Lawful),
        Row("program t;function f(a:char):char;begin f:=f(a) end;begin end.", Lawful),
        Row("program t;function f:char;begin f:=\n1\n end;begin end.", Faulty(56, 2)),
        Row("program t;function f:char;begin f:='x' end;begin\nf\n:='y' end.", Faulty(56, 2)),
        Row("program t;function f:char;begin f:='x' end;function g:char;begin\nf\n:='y';g:='x' end;begin end.",
            Faulty(56, 2)),
        // and nothing else that a variable is
        Row("program t;function f:integer;begin\nf\n[1]:=1 end;begin end.", Faulty(56, 2)),
        Row("program t;function f:integer;begin f:=1;for\nf\n:=1 to 2 do end;begin end.", Faulty(56, 2)),
        Row("program t(input);function f:char;begin f:='x';read(\nf\n) end;begin end.", Faulty(56, 2)),
        Row("program t;procedure p(var a:char);begin end;function f:char;begin f:='x';p(\nf\n) end;begin end.",
            Faulty(56, 2)),
        Row("program t;function f:char;begin f:='x';\nf\nend;begin end.", Faulty(56, 2)),
        // no parameter is the variable of a `for`
        Row("program t;procedure p;var i:integer;begin for i:=1 to 2 do end;begin end.", Lawful),
        Row("program t;var i:integer;procedure p;begin for i:=1 to 2 do end;begin end.", Lawful),
        Row("program t;procedure p(i:integer);begin for\ni\n:=1 to 2 do end;begin end.", Faulty(56, 2)),
        Row("program t;procedure p(var i:integer);begin for\ni\n:=1 to 2 do end;begin end.", Faulty(56, 2)),
        // the same type, for a variable argument
        Row("program t;type b=integer;var a:b;procedure p(var c:integer);begin end;begin p(a) end.", Lawful),
        Row("program t;type b=1..5;c=b;var a:c;procedure p(var d:b);begin end;begin p(a) end.", Lawful),
        Row("program t;type b=1..5;var a:1..5;procedure p(var c:b);begin end;begin p(\na\n) end.", Faulty(56, 2)),
        Row("program t;var a:1..5;procedure p(var c:integer);begin end;begin p(\na\n) end.", Faulty(56, 2)),
        Row("program t;type b=array[1..2] of char;var a:b;procedure p(var c:b);begin end;begin p(a) end.", Lawful),
        Row("program t;type b=array[1..2] of char;var a:array[1..2] of char;procedure p(var c:b);begin end;\
            begin p(\na\n) end.", Faulty(56, 2)),
    ];
    let others = failing(rt.alloc(), "", &rows, "")?;
    assert!(rt; others.is_empty(), "{others:?}");
    Ok(())
}

#[test]
fn types_fit_their_places(rt: HostRuntime) -> Result<(), Fail> {
    #[rattlefmt::skip]
    let rows = [
        // real
        Row("program t;var a:\nreal\n;begin end.", LeftOut(1, 2)),
        Row("program t;type a=\nreal\n;begin end.", LeftOut(1, 2)),
        Row("program t;var a:array[\nreal\n] of char;begin end.", LeftOut(1, 2)),
        Row("program t;var a:array[1..2] of\nreal\n;begin end.", LeftOut(1, 2)),
        Row("program t;var a:record b:\nreal\nend;begin end.", LeftOut(1, 2)),
        Row("program t;type a=file of\nreal\n;begin end.", LeftOut(1, 2)),
        Row("program t;procedure p(a:\nreal\n);begin end;begin end.", LeftOut(1, 2)),
        Row("program t;function f:\nreal\n;begin end;begin end.", LeftOut(1, 2)),
        Row("program t;begin\nreal\n:=1 end.", Faulty(54, 2)),
        Row("program t;const a=\nreal\n;begin end.", Faulty(54, 2)),
        // constants
        Row("program t;const a=+maxint;b=-a;c='x';d=c;e=true;f=e;begin end.", Lawful),
        Row("program t;const a=-\ntrue\n;begin end.", Faulty(56, 2)),
        Row("program t;const a='x';b=-\na\n;begin end.", Faulty(56, 2)),
        Row("program t;const a=\nchar\n;begin end.", Faulty(56, 2)),
        Row("program t;const a=\nabs\n;begin end.", Faulty(56, 2)),
        Row("program t;const a=\n'ab'\n;begin end.", LeftOut(10, 2)),
        // subranges
        Row("program t;const e=2;var a:1..5;b:'a'..'z';c:false..true;d:-5..-e;f:1..1;begin end.", Lawful),
        Row("program t;var a:5..\n1\n;begin end.", Faulty(57, 2)),
        Row("program t;var a:-1..-\n2\n;begin end.", Faulty(57, 2)),
        Row("program t;var a:'b'..\n'a'\n;begin end.", Faulty(57, 2)),
        Row("program t;var a:true..\nfalse\n;begin end.", Faulty(57, 2)),
        Row("program t;const b=3;var a:array[b..\n1\n] of char;begin end.", Faulty(57, 2)),
        Row("program t;var a:1..\n'c'\n;begin end.", Faulty(56, 2)),
        Row("program t;var a:1..\ntrue\n;begin end.", Faulty(56, 2)),
        Row("program t;var a:1..\nchar\n;begin end.", Faulty(56, 2)),
        Row("program t;var b:char;a:\nb\n..'z';begin end.", Faulty(56, 2)),
        Row("program t;var a:\n'ab'\n..'z';begin end.", LeftOut(10, 2)),
        // names that are no types
        Row("program t;var a:char;b:\na\n;begin end.", Faulty(56, 2)),
        Row("program t;var a:\ntrue\n;begin end.", Faulty(56, 2)),
        Row("program t;var a:\nabs\n;begin end.", Faulty(56, 2)),
        Row("program t;var a:\nwrite\n;begin end.", Faulty(56, 2)),
        Row("program t;procedure p(a:\nmaxint\n);begin end;begin end.", Faulty(56, 2)),
        // indexes
        Row("program t;type b=1..3;var a:array[char,boolean,b,'a'..'c'] of char;begin end.", Lawful),
        Row("program t;var a:array[\ntext\n] of char;begin end.", Faulty(56, 2)),
        Row("program t;type b=array[1..2] of char;var a:array[\nb\n] of char;begin end.", Faulty(56, 2)),
        Row("program t;var a:array[\ninteger\n] of char;begin end.", Faulty(60, 2)),
        Row("program t;type b=integer;var a:array[1..2,\nb\n] of char;begin end.", Faulty(60, 2)),
        Row("program t;var a:array[-maxint..maxint] of\nchar\n;begin end.", Faulty(60, 2)),
        // cells of one type
        Row("program t;type a=array[1..4194304] of char;begin end.", Lawful),
        Row("program t;type a=array[1..4194305] of\nchar\n;begin end.", Faulty(60, 2)),
        Row("program t;type a=array[1..2048,0..2047] of char;begin end.", Lawful),
        Row("program t;type a=array[1..2048,0..2048] of\nchar\n;begin end.", Faulty(60, 2)),
        Row("program t;type a=array[0..maxint,0..maxint,1..4] of\nchar\n;begin end.", Faulty(60, 2)),
        Row("program t;type a=record b:array[1..4194303] of char;c:char end;begin end.", Lawful),
        Row("program t;type a=record b:array[1..4194304] of char;c:char\nend\n;begin end.", Faulty(60, 2)),
        Row("program t;type a=record b:array[1..4194304] of char;c:char;\nend\n;begin end.", Faulty(60, 2)),
        // cells of the globals
        Row("program t;var a,b:array[1..2097152] of char;begin end.", Lawful),
        Row("program t;var a,b,c:array[1..2097152] of\nchar\n;begin end.", Faulty(60, 2)),
        Row("program t;var a:array[1..4194304] of char;b:\nchar\n;begin end.", Faulty(60, 2)),
        Row("program t(output);var a:array[1..4194303] of char;begin end.", Lawful),
        Row("program t(output);var a:array[1..4194304] of\nchar\n;begin end.", Faulty(60, 2)),
        Row("program t(a);var a:text;b:array[1..4194304] of\nchar\n;begin end.", Faulty(60, 2)),
        // cells of a routine
        Row("program t;procedure p(a:integer);var b:array[1..4095] of char;begin end;begin end.", Lawful),
        Row("program t;procedure p(a:integer);var b:array[1..4096] of\nchar\n;begin end;begin end.", Faulty(60, 2)),
        Row("program t;procedure p;var a:array[1..4096] of char;b:\nchar\n;begin end;begin end.", Faulty(60, 2)),
        Row("program t;type a=array[1..5000] of char;procedure p(var b:a);begin end;begin end.", Lawful),
        Row("program t;type a=array[1..5000] of char;procedure p(b:\na\n);begin end;begin end.", Faulty(60, 2)),
        Row("program t;type a=array[1..4096] of char;procedure p(b:a;var c:\na\n);begin end;begin end.",
            Faulty(60, 2)),
    ];
    let others = failing(rt.alloc(), "", &rows, "")?;
    assert!(rt; others.is_empty(), "{others:?}");
    Ok(())
}

#[test]
fn files_are_parameters(rt: HostRuntime) -> Result<(), Fail> {
    #[rattlefmt::skip]
    let rows = [
        // the parameters of a program
        Row("program t(input,output,a,b,c);type d=0..9;var a:text;b:file of char;c:packed file of d;begin end.",
            Lawful),
        Row("program t(\na\n);begin end.", Faulty(54, 2)),
        Row("program t(\na\n);procedure p;var a:char;begin end;begin end.", Faulty(54, 2)),
        Row("program t(\na\n);const a=1;begin end.", Faulty(61, 2)),
        Row("program t(\na\n);type a=text;begin end.", Faulty(61, 2)),
        Row("program t(\na\n);var a:char;begin end.", Faulty(61, 2)),
        Row("program t(\na\n);procedure a;begin end;begin end.", Faulty(61, 2)),
        Row("program t(\na\n);var a:file of integer;begin end.", Faulty(61, 2)),
        Row("program t(a,\na\n);var a:text;begin end.", Faulty(55, 2)),
        Row("program t(output,\noutput\n);begin end.", Faulty(55, 2)),
        // `input` and `output` are declared by nothing else
        Row("program t(output);var\noutput\n:text;begin end.", Faulty(55, 2)),
        Row("program t;var\ninput\n:char;begin end.", Faulty(55, 2)),
        Row("program t;const\ninput\n=1;begin end.", Faulty(55, 2)),
        Row("program t;type\noutput\n=char;begin end.", Faulty(55, 2)),
        Row("program t;procedure\ninput\n;begin end;begin end.", Faulty(55, 2)),
        Row("program t;procedure p(output:char);var input:char;begin input:=output end;begin end.", Lawful),
        // the types of files
        Row("program t;type a=text;b=file of char;c=file of 0..255;d=char;e=file of d;begin end.", Lawful),
        Row("program t;type a=file of\ninteger\n;begin end.", Faulty(61, 2)),
        Row("program t;type a=file of\nboolean\n;begin end.", Faulty(61, 2)),
        Row("program t;type a=file of 0..\n256\n;begin end.", Faulty(61, 2)),
        Row("program t;type a=file of -1..\n5\n;begin end.", Faulty(61, 2)),
        Row("program t;type a=file of 'a'..\n'b'\n;begin end.", Faulty(61, 2)),
        Row("program t;type b=1..300;a=file of\nb\n;begin end.", Faulty(61, 2)),
        Row("program t;type a=file of\ntext\n;begin end.", Faulty(61, 2)),
        Row("program t;type a=file of file of\nchar\n;begin end.", Faulty(61, 2)),
        Row("program t;type a=file of array[1..2] of\nchar\n;begin end.", Faulty(61, 2)),
        Row("program t;type a=file of record b:char\nend\n;begin end.", Faulty(61, 2)),
        Row("program t;type a=file of 5..\n3\n;begin end.", Faulty(57, 2)),
        // where a file may stand
        Row("program t(a);var a:text;procedure p(var b:text);begin end;begin p(a) end.", Lawful),
        Row("program t(output);procedure p(var b:text);begin p(b) end;begin p(output) end.", Lawful),
        Row("program t(a);type b=file of char;var a:b;procedure p(var c:b);begin end;begin p(a) end.", Lawful),
        Row("program t(a);type b=file of char;var a:file of char;procedure p(var c:b);begin end;begin p(\na\n) end.",
            Faulty(56, 2)),
        Row("program t;var a:\ntext\n;begin end.", Faulty(61, 2)),
        Row("program t;var a:file of\nchar\n;begin end.", Faulty(61, 2)),
        Row("program t(a);var a,b:\ntext\n;begin end.", Faulty(61, 2)),
        Row("program t;procedure p(a:\ntext\n);begin end;begin end.", Faulty(61, 2)),
        Row("program t;procedure p;var a:\ntext\n;begin end;begin end.", Faulty(61, 2)),
        Row("program t;type a=array[1..2] of\ntext\n;begin end.", Faulty(61, 2)),
        Row("program t;type a=record b:\ntext\n;c:char end;begin end.", Faulty(61, 2)),
        // the files that are meant where none is named
        Row("program t(input);var c:char;begin read(c);readln;if eof or eoln then end.", Lawful),
        Row("program t(output);var c:char;begin\nread\n(c) end.", Faulty(61, 2)),
        Row("program t;begin\nreadln\nend.", Faulty(61, 2)),
        Row("program t;begin if\neof\nthen end.", Faulty(61, 2)),
        Row("program t;begin if\neoln\nthen end.", Faulty(61, 2)),
        Row("program t(output);begin write(1);writeln end.", Lawful),
        Row("program t(input);begin\nwrite\n(1) end.", Faulty(61, 2)),
        Row("program t;begin\nwriteln\nend.", Faulty(61, 2)),
        Row("program t;begin\nwrite\n(zz,1) end.", Faulty(61, 2)),
        Row("program t;begin\nwrite\n(output,1) end.", Faulty(61, 2)),
        Row("program t;begin reset(\ninput\n) end.", Faulty(54, 2)),
        Row("program t(output);procedure p;begin write(1) end;begin end.", Lawful),
        Row("program t(output);procedure p;var output:char;begin\nwrite\n(1) end;begin end.", Faulty(61, 2)),
        Row("program t(output);procedure p(output:char);begin\nwriteln\nend;begin end.", Faulty(61, 2)),
        Row("program t(input);procedure p(input:char);begin if\neof\nthen end;begin end.", Faulty(61, 2)),
        Row("program t(a,input);var a:text;c:char;procedure p(input:char);begin\nread\n(c) end;begin end.",
            Faulty(61, 2)),
        Row("program t(a,input);var a:text;c:char;procedure p(input:char);begin read(a,c) end;begin end.", Lawful),
    ];
    let others = failing(rt.alloc(), "", &rows, "")?;
    assert!(rt; others.is_empty(), "{others:?}");
    Ok(())
}

#[test]
fn labels_stand_and_gotos_reach_them(rt: HostRuntime) -> Result<(), Fail> {
    #[rattlefmt::skip]
    let rows = [
        // declared
        Row("program t;label 9999,1;begin 1:;9999: end.", Lawful),
        Row("program t;label 1,\n10000\n;begin end.", Faulty(57, 2)),
        Row("program t;label 1,\n1\n;begin end.", Faulty(55, 2)),
        Row("program t;label 1,\n01\n;begin end.", Faulty(55, 2)),
        Row("program t;label 1;procedure p;label 1,\n1\n;begin end;begin end.", Faulty(55, 2)),
        Row("program t;begin\n5\n: end.", Faulty(58, 2)),
        Row("program t;begin\n10000\n: end.", Faulty(57, 2)),
        Row("program t;begin goto\n5\n end.", Faulty(58, 2)),
        Row("program t;procedure p;label 5;begin 5: end;begin goto\n5\n end.", Faulty(58, 2)),
        Row("program t;procedure p;begin goto\n5\n end;begin end.", Faulty(58, 2)),
        Row("program t;label 5;procedure p;begin\n5\n: end;begin 5: end.", Faulty(58, 2)),
        // standing once
        Row("program t;label 5;begin\nend\n.", Faulty(58, 2)),
        Row("program t;procedure p;label 5;begin\nend\n;begin end.", Faulty(58, 2)),
        Row("program t;label 5;procedure p;label 5;begin 5: end;begin\nend\n.", Faulty(58, 2)),
        Row("program t;label 5;begin 5:;\n5\n: end.", Faulty(58, 2)),
        Row("program t;label 5;procedure p;label 5;begin 5: end;begin 5: end.", Lawful),
        Row("program t;label 05;begin goto 5;5: end.", Lawful),
        // on a statement of a list
        Row("program t;label 5;begin begin 5: end end.", Lawful),
        Row("program t;label 5;begin repeat 5: until true end.", Lawful),
        Row("program t;label 5;begin case 1 of 1:begin 5: end end end.", Lawful),
        Row("program t;label 5;begin if true then\n5\n: end.", Faulty(58, 2)),
        Row("program t;label 5;begin if true then else\n5\n: end.", Faulty(58, 2)),
        Row("program t;label 5;begin while true do\n5\n: end.", Faulty(58, 2)),
        Row("program t;label 5;var i:integer;begin for i:=1 to 2 do\n5\n: end.", Faulty(58, 2)),
        Row("program t;label 5;begin case 1 of 1:\n5\n: end end.", Faulty(58, 2)),
        Row("program t;label 5;begin case 1 of 1:;others:\n5\n: end end.", Faulty(58, 2)),
        // gotos
        Row("program t;label 5;begin 5:;goto 5 end.", Lawful),
        Row("program t;label 5;begin if true then goto 5;begin goto 5 end;5:;end.", Lawful),
        Row("program t;label 5;begin repeat goto 5;5: until true end.", Lawful),
        Row("program t;label 5;begin goto\n5\n;begin 5: end end.", Faulty(59, 2)),
        Row("program t;label 5;begin begin 5: end;goto\n5\n end.", Faulty(59, 2)),
        Row("program t;label 5;begin repeat 5: until true;goto\n5\n end.", Faulty(59, 2)),
        Row("program t;label 5;begin if true then begin 5: end else goto\n5\n end.", Faulty(59, 2)),
        Row("program t;label 5;begin if true then begin 5: end else begin goto\n5\n end end.", Faulty(59, 2)),
        Row("program t;label 5;begin case 1 of 1:begin 5: end;2:begin goto\n5\n end end end.", Faulty(59, 2)),
        Row("program t;label 5;begin goto\n5\n end.", Faulty(59, 2)),
        // the last label of the program
        Row("program t;label 9;procedure p;begin goto 9 end;begin goto 9;9: end.", Lawful),
        Row("program t;label 9;procedure p;begin if true then begin goto 9 end end;begin begin goto 9 end;9: end.",
            Lawful),
        Row("program t;label 9;procedure p;begin goto\n9\n end;begin 9:; end.", Faulty(59, 2)),
        Row("program t;label 9;procedure p;begin goto\n9\n end;begin 9:p end.", Faulty(59, 2)),
        Row("program t;label 9;procedure p;begin goto\n9\n end;begin begin 9: end end.", Faulty(59, 2)),
        Row("program t;label 8,9;procedure p;begin goto\n8\n end;begin 8:;9: end.", Faulty(59, 2)),
        Row("program t;label 9;procedure p;begin goto\n9\n end;begin end.", Faulty(59, 2)),
        // which the label of a routine hides
        Row("program t;label 9;procedure p;label 9;begin 9:;goto 9 end;begin 9: end.", Lawful),
        Row("program t;label 9;procedure p;label 9;begin goto\n9\n;begin 9: end end;begin 9: end.", Faulty(59, 2)),
        Row("program t;label 9;procedure p;label 8;begin goto 9;8: end;begin 9: end.", Lawful),
    ];
    let others = failing(rt.alloc(), "", &rows, "")?;
    assert!(rt; others.is_empty(), "{others:?}");
    Ok(())
}

// What stands before the statements of the next rows.
const FRONT: &str =
    "program t(input,output,f,g,h);const three=3;letter='l';type pair=array[1..2] of char;few=1..5;\
    var i,j:integer;s:few;z:1..5;c:char;b:boolean;m,n:pair;v:array[1..2] of char;k:array[1..2,0..3] of integer;\
    o:record x:char;y:integer end;w:record x:char;y:integer end;f:text;g:file of 0..255;h:file of char;\
    procedure p(x:integer;var y:char);begin end;procedure none;begin end;procedure number(var x:integer);begin end;\
    procedure small(var x:few);begin end;procedure both(x:pair);begin end;procedure those(var x:pair);begin end;\
    procedure lines(var x:text);begin end;function d(x:integer):boolean;begin d:=true end;\
    function u:integer;begin u:=1 end;function a:char;begin a:='x' end;begin ";

#[test]
fn expressions_have_types(rt: HostRuntime) -> Result<(), Fail> {
    #[rattlefmt::skip]
    let rows = [
        // assignments
        Row("i:=j;i:=s;s:=i;s:=9;z:=s;c:='x';c:='''';b:=true;c:=letter;i:=maxint", Lawful),
        Row("m:=n;o:=o;k[1]:=k[2];m[1]:=v[2];o.x:=w.x", Lawful),
        Row("i:=\nb\n", Faulty(56, 2)),
        Row("c:=\n1\n", Faulty(56, 2)),
        Row("b:=\n'x'\n", Faulty(56, 2)),
        Row("i:=j=\ni\n", Faulty(56, 2)),
        Row("i:=(b\n)\n", Faulty(56, 2)),
        Row("c:=\n'ab'\n", LeftOut(10, 2)),
        Row("c:=(\n'ab'\n)", LeftOut(10, 2)),
        Row("m:=\nv\n", Faulty(56, 2)),
        Row("m:=\n'x'\n", Faulty(56, 2)),
        Row("c:=\nm\n", Faulty(56, 2)),
        Row("o:=\nw\n", Faulty(56, 2)),
        Row("k[1]:=\n3\n", Faulty(56, 2)),
        // indexes, fields and buffers
        Row("k[1,2]:=3;k[1][2]:=k[s,i+1];m[9]:='x';i:=o.y", Lawful),
        Row("m[\n'x'\n]:='y'", Faulty(56, 2)),
        Row("k[1,\nb\n]:=3", Faulty(56, 2)),
        Row("k[1,2,\n3\n]:=4", Faulty(56, 2)),
        Row("m[1,\ni\n+1]:='x'", Faulty(56, 2)),
        Row("k[1][2\n]\n[3]:=4", Faulty(56, 2)),
        Row("m[1\n]\n[1]:='x'", Faulty(56, 2)),
        Row("\nc\n[1]:='x'", Faulty(56, 2)),
        Row("\nc\n.x:='y'", Faulty(56, 2)),
        Row("m[1\n]\n.x:='y'", Faulty(56, 2)),
        Row("o.\nz\n:='y'", Faulty(54, 2)),
        Row("f^:='x';g^:=7;g^:=i;h^:=c;c:=f^;i:=g^;c:=h^;c:=input^", Lawful),
        Row("f^:=\n1\n", Faulty(56, 2)),
        Row("g^:=\n'x'\n", Faulty(56, 2)),
        Row("i:=h\n^\n", Faulty(56, 2)),
        Row("\nc\n^:='y'", Faulty(56, 2)),
        // targets that are no variables
        Row("\nthree\n:=1", Faulty(56, 2)),
        Row("\ntrue\n:=b", Faulty(56, 2)),
        Row("\npair\n:=m", Faulty(56, 2)),
        Row("\nchar\n:='x'", Faulty(56, 2)),
        Row("\nnone\n:=1", Faulty(56, 2)),
        Row("\nu\n:=1", Faulty(56, 2)),
        Row("\nabs\n:=1", Faulty(56, 2)),
        Row("\nwrite\n:=1", Faulty(56, 2)),
        Row("\nx\n:=1", Faulty(54, 2)),
        // operators
        Row("i:=-i+j-s*2 div three mod 4;i:=+1;b:=b and not b or true;b:=not(i=1)", Lawful),
        Row("i:=-\nb\n", Faulty(56, 2)),
        Row("i:=+\nc\n", Faulty(56, 2)),
        Row("i:=\nb\n+1", Faulty(56, 2)),
        Row("i:=1+\nb\n", Faulty(56, 2)),
        Row("i:=1+(b\n)\n", Faulty(56, 2)),
        Row("i:=1-\nc\n", Faulty(56, 2)),
        Row("i:=2*\nb\n", Faulty(56, 2)),
        Row("i:=\nc\n*2", Faulty(56, 2)),
        Row("i:=2 div\nb\n", Faulty(56, 2)),
        Row("i:=2 mod\nc\n", Faulty(56, 2)),
        Row("b:=not\ni\n", Faulty(56, 2)),
        Row("b:=b and\n1\n", Faulty(56, 2)),
        Row("b:=\n1\n and b", Faulty(56, 2)),
        Row("b:=b or\nc\n", Faulty(56, 2)),
        Row("b:=\nc\n or b", Faulty(56, 2)),
        Row("b:=1<2;b:='a'<='b';b:=b<>true;b:=s>=i;b:=false>b;b:=c=letter", Lawful),
        Row("b:=1=\n'a'\n", Faulty(56, 2)),
        Row("b:=b<\n1\n", Faulty(56, 2)),
        Row("b:='a'>=\ntrue\n", Faulty(56, 2)),
        Row("b:=\nm\n=n", Faulty(56, 2)),
        Row("b:=\no\n<>o", Faulty(56, 2)),
        Row("b:=1=\nm\n", Faulty(56, 2)),
        Row("b:=\n'ab'\n='cd'", LeftOut(10, 2)),
        // required functions
        Row("i:=ord(c)+ord(b)+ord(s);c:=chr(65);i:=abs(-3);b:=odd(i)", Lawful),
        Row("i:=ord(\nm\n)", Faulty(56, 2)),
        Row("c:=chr(\nb\n)", Faulty(56, 2)),
        Row("i:=abs(\nc\n)", Faulty(56, 2)),
        Row("b:=odd(\nb\n)", Faulty(56, 2)),
        Row("i:=chr(65\n)\n", Faulty(56, 2)),
        Row("i:=ord\n", Faulty(56, 2)),
        Row("i:=ord(1,\n2\n)", Faulty(56, 2)),
        Row("i:=abs(1,\n2\n+3)", Faulty(56, 2)),
        Row("i:=ord(1,\nx\n)", Faulty(54, 2)),
        Row("b:=eof;b:=eof(f);b:=eof(g);b:=eof(input);b:=eoln;b:=eoln(f)", Lawful),
        Row("b:=eoln(\ng\n)", Faulty(61, 2)),
        Row("b:=eoln(\nh\n)", Faulty(61, 2)),
        Row("b:=eof(\nc\n)", Faulty(56, 2)),
        Row("b:=eof(\n1\n)", Faulty(56, 2)),
        Row("b:=eoln(\nc\n)", Faulty(56, 2)),
        Row("b:=eof(f,\ng\n)", Faulty(56, 2)),
        Row("i:=\neof\n", Faulty(56, 2)),
        // declared ones
        Row("b:=d(1);i:=u+u;c:=a;b:=d(u)", Lawful),
        Row("b:=d(\nb\n)", Faulty(56, 2)),
        Row("b:=d(1,\n2\n)", Faulty(56, 2)),
        Row("b:=d\n", Faulty(56, 2)),
        Row("i:=d(1\n)\n", Faulty(56, 2)),
        Row("i:=u(\n1\n)", Faulty(56, 2)),
        Row("i:=\nu\n[1]", Faulty(56, 2)),
        Row("i:=\nu\n.x", Faulty(56, 2)),
        Row("i:=\nu\n^", Faulty(56, 2)),
        // what is no value
        Row("i:=\nnone\n", Faulty(56, 2)),
        Row("i:=\nchar\n", Faulty(56, 2)),
        Row("i:=\nwrite\n", Faulty(56, 2)),
        Row("i:=\nx\n", Faulty(54, 2)),
        Row("i:=\nc\n(1)", Faulty(56, 2)),
        Row("i:=\nthree\n(1)", Faulty(56, 2)),
        Row("i:=\np\n(1,c)", Faulty(56, 2)),
    ];
    let others = failing(rt.alloc(), FRONT, &rows, " end.")?;
    assert!(rt; others.is_empty(), "{others:?}");
    Ok(())
}

#[test]
fn statements_fit_their_values(rt: HostRuntime) -> Result<(), Fail> {
    #[rattlefmt::skip]
    let rows = [
        // calls
        Row("p(1,c);p(s,m[1]);p(i+1,o.x);none;number(i);number(k[1,2]);small(s);both(m);those(n);lines(f)", Lawful),
        Row("lines(output);lines(input)", Lawful),
        Row("p(\nc\n,c)", Faulty(56, 2)),
        Row("p(i=\n1\n,c)", Faulty(56, 2)),
        Row("p(\n'ab'\n,c)", LeftOut(10, 2)),
        Row("p(1,\n'x'\n)", Faulty(56, 2)),
        Row("p(1,\ni\n)", Faulty(56, 2)),
        Row("p(1,(c\n)\n)", Faulty(56, 2)),
        Row("p(1,\nletter\n)", Faulty(56, 2)),
        Row("p(1,\na\n)", Faulty(56, 2)),
        Row("p(1,f\n^\n)", Faulty(56, 2)),
        Row("p(1,h\n^\n)", Faulty(56, 2)),
        Row("number(\ns\n)", Faulty(56, 2)),
        Row("number(i+\n1\n)", Faulty(56, 2)),
        Row("small(\nz\n)", Faulty(56, 2)),
        Row("small(\ni\n)", Faulty(56, 2)),
        Row("both(\nv\n)", Faulty(56, 2)),
        Row("both(\nc\n)", Faulty(56, 2)),
        Row("those(\nv\n)", Faulty(56, 2)),
        Row("lines(\nh\n)", Faulty(56, 2)),
        Row("lines(\nc\n)", Faulty(56, 2)),
        Row("p\n", Faulty(56, 2)),
        Row("p(1\n)\n", Faulty(56, 2)),
        Row("p(1,c,\nc\n)", Faulty(56, 2)),
        Row("p(1,c,\nx\n)", Faulty(54, 2)),
        Row("none(\n1\n)", Faulty(56, 2)),
        Row("none(\n1\n+1,2)", Faulty(56, 2)),
        Row("p(1\n:\n2,c)", Faulty(56, 2)),
        Row("p(1,c\n:\n2)", Faulty(56, 2)),
        Row("\nu\n", Faulty(56, 2)),
        Row("\nd\n(1)", Faulty(56, 2)),
        Row("\nabs\n(1)", Faulty(56, 2)),
        Row("\neof\n", Faulty(56, 2)),
        Row("\ni\n", Faulty(56, 2)),
        Row("\nthree\n", Faulty(56, 2)),
        Row("\npair\n", Faulty(56, 2)),
        Row("\nx\n", Faulty(54, 2)),
        Row("\nx\n(1)", Faulty(54, 2)),
        // tests
        Row("if b then;while i=1 do;repeat until not b", Lawful),
        Row("if\n1\nthen", Faulty(56, 2)),
        Row("if 1+\n2\nthen", Faulty(56, 2)),
        Row("while\nc\ndo", Faulty(56, 2)),
        Row("repeat until\n1\n", Faulty(56, 2)),
        // cases
        Row("case i of 1:;-1,three:c:='x';others:end;case c of 'a':;letter:end;case b of true,false:end", Lawful),
        Row("case s of 9:case i of 9:end end;case 1 of 1:end", Lawful),
        Row("case\nm\nof 1:end", Faulty(56, 2)),
        Row("case i of\n'a'\n:end", Faulty(56, 2)),
        Row("case c of 'a',\n1\n:end", Faulty(56, 2)),
        Row("case b of\n1\n:end", Faulty(56, 2)),
        Row("case i of 1,\n1\n:end", Faulty(55, 2)),
        Row("case i of 1:;\n1\n:end", Faulty(55, 2)),
        Row("case i of 3:;\nthree\n:end", Faulty(55, 2)),
        Row("case i of -1:;-\n1\n:end", Faulty(55, 2)),
        Row("case c of 'l':;\nletter\n:end", Faulty(55, 2)),
        Row("case i of\nx\n:end", Faulty(54, 2)),
        Row("case i of\nj\n:end", Faulty(56, 2)),
        Row("case c of\n'ab'\n:end", LeftOut(10, 2)),
        // for
        Row("for i:=1 to 9 do;for c:='a' to letter do;for b:=true downto false do;for s:=1 to i do", Lawful),
        Row("for i:=\nc\nto 2 do", Faulty(56, 2)),
        Row("for i:=1 to\nc\ndo", Faulty(56, 2)),
        Row("for i:=\n'a'\nto 'b' do", Faulty(56, 2)),
        Row("for\nm\n:=1 to 2 do", Faulty(56, 2)),
        Row("for\nthree\n:=1 to 2 do", Faulty(56, 2)),
        Row("for\nu\n:=1 to 2 do", Faulty(56, 2)),
        Row("for\nf\n:=1 to 2 do", Faulty(56, 2)),
        Row("for\ninteger\n:=1 to 2 do", Faulty(56, 2)),
        Row("for\nx\n:=1 to 2 do", Faulty(54, 2)),
    ];
    let others = failing(rt.alloc(), FRONT, &rows, " end.")?;
    assert!(rt; others.is_empty(), "{others:?}");
    Ok(())
}

#[test]
fn files_are_read_and_written(rt: HostRuntime) -> Result<(), Fail> {
    #[rattlefmt::skip]
    let rows = [
        // reading
        Row("read(c);read(m[1],o.x);read(input,c);read(f,c,c);readln;readln(c);readln(f);readln(f,c)", Lawful),
        Row("read(f,h^);read(g,i,s,z);read(h,c);read(h,m[1]);read(g,g^)", Lawful),
        Row("read(\ni\n)", LeftOut(9, 2)),
        Row("read(c,\ns\n)", LeftOut(9, 2)),
        Row("read(f,k[1,2\n]\n)", LeftOut(9, 2)),
        Row("read(input,1+\n1\n)", LeftOut(9, 2)),
        Row("readln(\ni\n)", LeftOut(9, 2)),
        Row("read(\nb\n)", Faulty(56, 2)),
        Row("read(\nm\n)", Faulty(56, 2)),
        Row("read(\n'x'\n)", Faulty(56, 2)),
        Row("read(\nletter\n)", Faulty(56, 2)),
        Row("read(\na\n)", Faulty(56, 2)),
        Row("read(\nu\n)", Faulty(56, 2)),
        Row("read((c\n)\n)", Faulty(56, 2)),
        Row("read(\n'ab'\n)", LeftOut(10, 2)),
        Row("read(c,\nf\n)", Faulty(56, 2)),
        Row("read(\nx\n)", Faulty(54, 2)),
        Row("read\n", Faulty(56, 2)),
        Row("read(f\n)\n", Faulty(56, 2)),
        Row("read(c\n:\n1)", Faulty(56, 2)),
        Row("read(g,\nc\n)", Faulty(56, 2)),
        Row("read(h,\ni\n)", Faulty(56, 2)),
        Row("readln(\ng\n)", Faulty(61, 2)),
        Row("readln(\nh\n,c)", Faulty(61, 2)),
        // writing
        Row("write(1);write(c,1:2,'ab':3,'x',c:i);write(output,1);write(f,c);writeln;writeln(f);writeln('ab')",
            Lawful),
        Row("write(g,1,i,s);write(h,'x',c);writeln(output);writeln(f,1:2)", Lawful),
        Row("write(\nb\n)", Faulty(56, 2)),
        Row("write(1=\n1\n)", Faulty(56, 2)),
        Row("write(\nm\n)", Faulty(56, 2)),
        Row("write(1,\nf\n)", Faulty(56, 2)),
        Row("write(\nx\n)", Faulty(54, 2)),
        Row("write(\nx\n,1)", Faulty(54, 2)),
        Row("write(1:\nc\n)", Faulty(56, 2)),
        Row("write('ab':\nb\n)", Faulty(56, 2)),
        Row("write(1:\n'ab'\n)", LeftOut(10, 2)),
        Row("write((\n'ab'\n))", LeftOut(10, 2)),
        Row("write(\n'ab'\n='cd')", LeftOut(10, 2)),
        Row("write\n", Faulty(56, 2)),
        Row("write(output\n)\n", Faulty(56, 2)),
        Row("write(f\n)\n", Faulty(56, 2)),
        Row("write(f\n:\n1,c)", Faulty(56, 2)),
        Row("write(g,\nc\n)", Faulty(56, 2)),
        Row("write(h,\n1\n)", Faulty(56, 2)),
        Row("write(h,\n'ab'\n)", LeftOut(10, 2)),
        Row("write(g,1\n:\n2)", Faulty(56, 2)),
        Row("writeln(\ng\n)", Faulty(61, 2)),
        Row("writeln(\nh\n,'x')", Faulty(61, 2)),
        // the other procedures
        Row("reset(f);rewrite(g);get(h);put(f);reset(input);uexit(1);uexit(i+s)", Lawful),
        Row("reset(\nc\n)", Faulty(56, 2)),
        Row("rewrite(\n1\n)", Faulty(56, 2)),
        Row("put(f\n^\n)", Faulty(56, 2)),
        Row("get(f,\n1\n)", Faulty(56, 2)),
        Row("reset\n", Faulty(56, 2)),
        Row("reset(f\n:\n1)", Faulty(56, 2)),
        Row("uexit\n", Faulty(56, 2)),
        Row("uexit(\nc\n)", Faulty(56, 2)),
        Row("uexit(1,\n2\n)", Faulty(56, 2)),
        Row("uexit(1\n:\n2)", Faulty(56, 2)),
    ];
    let others = failing(rt.alloc(), FRONT, &rows, " end.")?;
    assert!(rt; others.is_empty(), "{others:?}");
    Ok(())
}

// A text of a front, so many parts, each with its number, words and the number before, and a back; and its answer.
#[derive(Clone, Copy)]
struct Numbered {
    front: &'static str,
    part: &'static str,
    middle: &'static str,
    end: &'static str,
    times: i64,
    back: &'static str,
    answer: Answer,
}

// The text of a row.
fn numbered_text(alloc: Global, row: Numbered) -> Result<Text, OutOfMemory> {
    let mut text = Text::new(alloc);
    text.push_all(row.front.as_bytes())?;
    for before in 0..row.times {
        text.push_all(row.part.as_bytes())?;
        text.push_number(before + 1)?;
        text.push_all(row.middle.as_bytes())?;
        text.push_number(before)?;
        text.push_all(row.end.as_bytes())?;
    }
    text.push_all(row.back.as_bytes())?;
    Ok(text)
}

#[test]
fn long_texts_stay_within_limits(rt: HostRuntime) -> Result<(), Fail> {
    #[rattlefmt::skip]
    let rows = [
        // routines
        Numbered { front: "program t;", part: "procedure\np", middle: "(a", end: ":char);begin end;", times: 4096,
            back: "begin end.", answer: Lawful },
        Numbered { front: "program t;", part: "procedure\np", middle: "(a", end: ":char);begin end;", times: 4097,
            back: "begin end.", answer: Faulty(60, 4098) },
        // types of types, each of one cell, and each of twice as many
        Numbered { front: "program t;type a0=char;", part: "a", middle: "=array[1..1] of a", end: ";", times: 1000,
            back: "begin end.", answer: Lawful },
        Numbered { front: "program t;type a0=char;", part: "a", middle: "=record x,y:a", end: " end;\n", times: 22,
            back: "begin end.", answer: Lawful },
        Numbered { front: "program t;type a0=char;", part: "a", middle: "=record x,y:a", end: " end;\n", times: 70,
            back: "begin end.", answer: Faulty(60, 23) },
        // globals, cells of a routine, and constants of a case
        Numbered { front: "program t;var c:char;", part: "a", middle: ",b", end: ":char;\n", times: 1000,
            back: "c:char;begin end.", answer: Faulty(55, 1001) },
        Numbered { front: "program t;procedure p;var ", part: "a", middle: ",b", end: ":char;", times: 2048,
            back: "begin end;begin end.", answer: Lawful },
        Numbered { front: "program t;procedure p;var ", part: "a", middle: ",b", end: ":\nchar;", times: 2049,
            back: "begin end;begin end.", answer: Faulty(60, 2050) },
        Numbered { front: "program t;begin case 1 of 3000:", part: ";", middle: ",-", end: ":", times: 300,
            back: ";\n1:end end.", answer: Faulty(55, 2) },
    ];
    for (index, row) in rows.iter().enumerate() {
        let text = numbered_text(rt.alloc(), *row)?;
        let fault = fault_of(rt.alloc(), text.bytes())?;
        assert_eq!(rt; (index, fault), (index, fault_in(row.answer)));
    }
    Ok(())
}

#[test]
fn deep_texts_stay_within_limits(rt: HostRuntime) -> Result<(), Fail> {
    #[rattlefmt::skip]
    let rows = [
        Nested { front: b"program t;", part: b"begin ", times: 100, middle: b"",
            other: b"end ", back: b".", code: 0, which: 0 },
        Nested { front: b"program t;", part: b"begin ", times: 250, middle: b"",
            other: b"end ", back: b".", code: 0, which: 0 },
        Nested { front: b"program t;", part: b"begin ", times: 400, middle: b"",
            other: b"end ", back: b".", code: 53, which: 12 },
        Nested { front: b"program t;type a=", part: b"array[1..1] of ", times: 249, middle: b"char",
            other: b"", back: b";begin end.", code: 0, which: 0 },
        Nested { front: b"program t;type a=", part: b"record b:", times: 250, middle: b"char",
            other: b" end", back: b";begin end.", code: 0, which: 0 },
        Nested { front: b"program t;begin ", part: b"if true then else ", times: 249, middle: b"",
            other: b"", back: b" end.", code: 0, which: 0 },
        Nested { front: b"program t;begin ", part: b"while true do ", times: 249, middle: b"",
            other: b"", back: b" end.", code: 0, which: 0 },
        Nested { front: b"program t;var i:integer;begin ", part: b"for i:=1 to 2 do ", times: 249, middle: b"",
            other: b"", back: b" end.", code: 0, which: 0 },
        Nested { front: b"program t;begin ", part: b"repeat ", times: 249, middle: b"",
            other: b" until true", back: b" end.", code: 0, which: 0 },
        Nested { front: b"program t;begin ", part: b"case 1 of 1:", times: 249, middle: b"",
            other: b" end", back: b" end.", code: 0, which: 0 },
        Nested { front: b"program t;var b:boolean;begin b:=", part: b"(", times: 249, middle: b"b",
            other: b")", back: b" end.", code: 0, which: 0 },
        Nested { front: b"program t;var b:boolean;begin b:=", part: b"not ", times: 250, middle: b"b",
            other: b"", back: b" end.", code: 0, which: 0 },
        Nested { front: b"program t;var i:integer;begin i:=", part: b"1+", times: 250, middle: b"1",
            other: b"", back: b" end.", code: 0, which: 0 },
        Nested { front: b"program t;var i:integer;begin i:=", part: b"-(", times: 249, middle: b"i",
            other: b")", back: b" end.", code: 0, which: 0 },
        Nested { front: b"program t;var a:array[1..2] of 1..2;i:integer;begin i:=", part: b"a[",
            times: 249, middle: b"1",
            other: b"]", back: b" end.", code: 0, which: 0 },
        Nested { front: b"program t;function f(a:char):char;begin f:=", part: b"f(", times: 249, middle: b"a",
            other: b")", back: b" end;begin end.", code: 0, which: 0 },
    ];
    for (index, row) in rows.iter().enumerate() {
        let text = text_of(rt.alloc(), *row)?;
        let fault = fault_of(rt.alloc(), text.bytes())?;
        let answer = match fault {
            Some(fault) => (fault.code, fault.which),
            None => (0, 0),
        };
        assert_eq!(rt; (index, answer), (index, (row.code, row.which)));
    }
    Ok(())
}

// A program that lists string pools.
pub(crate) const POOL_LISTING: &[u8] =
    b"program listpool(pool,output);label 9999;var pool:text;hex:array[0..15] of char;\
    k,n,s,total:integer;m:char;done:boolean;procedure put_code(c:integer);begin if (c>=32) and (c<=126) then \
    begin write(output,chr(c));total:=total+1;if c=34 then write(output,chr(c));end else if c<128 then \
    begin write(output,'^^');total:=total+3;if c<64 then write(output,chr(c+64)) else write(output,chr(c-64));end \
    else begin write(output,'^^',hex[c div 16],hex[c mod 16]);total:=total+4;end;end;\
    begin total:=0;for k:=0 to 9 do hex[k]:=chr(k+48);for k:=10 to 15 do hex[k]:=chr(k+87);for s:=0 to 255 do \
    begin write(output,s:3,': \"');put_code(s);writeln(output,'\"');end;s:=256;done:=false;reset(pool);\
    while not done do begin if eof(pool) then begin write(output,'! no last line');goto 9999;end;read(pool,m);\
    if ord(m)=42 then done:=true else begin n:=10*(ord(m)-48);read(pool,m);n:=n+ord(m)-48;write(output,s:3,': \"');\
    while n>0 do begin if eoln(pool) then begin write(output,'! short line');goto 9999;end;\
    read(pool,m);put_code(ord(m));n:=n-1;end;writeln(output,'\"');s:=s+1;end;readln(pool);end;\
    writeln(output,'(',total:1,' characters in all.)');9999:end.";

#[test]
fn typed_programs_have_their_files(rt: HostRuntime) -> Result<(), Fail> {
    let rows: [(&[u8], u32); 4] = [
        (b"program t;begin end.", 0),
        (b"program t(output);begin end.", 1),
        (
            b"program t(a,input,output);var b:char;a:file of char;begin end.",
            3,
        ),
        (POOL_LISTING, 2),
    ];
    for (index, row) in rows.iter().enumerate() {
        let typed = checked(rt.alloc(), row.0)?;
        assert_eq!(rt; (index, typed.file_count()), (index, row.1));
        assert_eq!(rt;
            (index, typed.program().files.len()),
            (index, row.1 as usize)
        );
    }
    Ok(())
}
