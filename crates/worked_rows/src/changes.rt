//! What no clause shows: that the calls find memory, and lines beside values worked out by hand.
use crate::webs::merged;
use change_merge::{Lines, lines};
use std::alloc::Global;
use std::test::Fail;
use wb_base::faults::LINE_TOO_LONG;
use wb_base::{Fault, FileTag, OutOfMemory, Place, Text, WorkErr};

// A text, and its lines as `shown_lines` shows them.
#[derive(Clone, Copy)]
struct Cut {
    text: &'static [u8],
    lines: &'static [u8],
}

#[test]
fn cuts_texts(rt: HostRuntime) -> Result<(), Fail> {
    #[rattlefmt::skip]
    let rows = [
        Cut { text: b"", lines: b"" },
        Cut { text: b"ab", lines: b"1:ab|" },
        Cut { text: b"ab\n", lines: b"1:ab|" },
        Cut { text: b"a \t\r\nb", lines: b"1:a|2:b|" },
        Cut { text: b"\n\n", lines: b"1:|2:|" },
        Cut { text: b" \t\n\r\r", lines: b"1:|2:|" },
        Cut { text: b" a b \n\n\tc", lines: b"1: a b|2:|3:\tc|" },
        Cut { text: b"a\x0c\nb\0\n", lines: b"1:a\x0c|2:b\0|" },
        Cut { text: b"a\r\n \n", lines: b"1:a|2:|" },
    ];
    for (index, row) in rows.iter().enumerate() {
        let list = lines(rt.alloc(), FileTag::Pool, row.text)?;
        let shown = shown_lines(rt.alloc(), &list)?;
        assert_eq!(rt; (index, shown.bytes()), (index, row.lines));
    }
    Ok(())
}

#[test]
fn tells_places(rt: HostRuntime) -> Result<(), Fail> {
    let list = lines(rt.alloc(), FileTag::Change, b"a\nb")?;
    let second = Place {
        file: FileTag::Change,
        line: 2,
    };
    assert_eq!(rt; list.count(), 2);
    assert_eq!(rt; list.place(1), second);
    Ok(())
}

// An empty line, then so many letters and this end, and the line that is too long, or 0.
#[derive(Clone, Copy)]
struct Long {
    letters: usize,
    end: &'static [u8],
    line: u32,
}

#[test]
fn limits_lines(rt: HostRuntime) -> Result<(), Fail> {
    #[rattlefmt::skip]
    let rows = [
        Long { letters: 3000, end: b"", line: 0 },
        Long { letters: 3001, end: b"", line: 2 },
        Long { letters: 3000, end: b"  \t\r\n", line: 0 },
        Long { letters: 2999, end: b" x", line: 2 },
        Long { letters: 3000, end: b"\nx\n", line: 0 },
    ];
    for (index, row) in rows.iter().enumerate() {
        let mut text = Text::new(rt.alloc());
        text.push(b'\n')?;
        for _ in 0..row.letters {
            text.push(b'x')?;
        }
        text.push_all(row.end)?;
        let line = line_of_fault(rt.alloc(), text.bytes())?;
        assert_eq!(rt; (index, line), (index, row.line));
    }
    Ok(())
}

// A web of three lines, and a change file that applies to its second.
const PROGRAM: &[u8] = b"@ @p program t;\nbegin\nend.\n";

const APPLIED: &[u8] = b"w1:@ @p program t;|c6:begin end.|";

// A web, a change file, and the merged lines or the fault, as `answer_of` shows them.
#[derive(Clone, Copy)]
struct Merge {
    web: &'static [u8],
    change: &'static [u8],
    answer: &'static [u8],
}

#[test]
fn merges_changes(rt: HostRuntime) -> Result<(), Fail> {
    #[rattlefmt::skip]
    let rows = [
        Merge { web: PROGRAM, change: b"@x\n\nbegin\nend;\n@y\nbegin end.\n@z\n", answer: b"F7 c4" },
        Merge { web: PROGRAM, change: b"@x\n\nbegin\nend.\n@y\nbegin end.\n@z\n", answer: APPLIED },
        Merge { web: PROGRAM, change: b"@x\n\nstart\nend.\n@y\nbegin end.\n@z\n", answer: b"F6 c1" },
        Merge { web: PROGRAM, change: b"@x\n\nbegin\nend.\n@z\nbegin end.\n@z\n", answer: b"F3 c1" },
        Merge { web: b"@ @p aa", change: b"@x\n@ @p aa\n@y\n@ @p\na+b\n@z", answer: b"c4:@ @p|c5:a+b|" },
        Merge { web: b"a", change: b"@X rest\na\n@Yrest\nb\n@Z\n", answer: b"c4:b|" },
        Merge { web: b"a", change: b"text\n@y", answer: b"F2 c2" },
        Merge { web: b"a", change: b"@x\na\n@y\n@z\n@Z\n@x", answer: b"F2 c5" },
        Merge { web: b"a", change: b"@x", answer: b"F3 c1" },
        Merge { web: b"a", change: b"@x\n@z", answer: b"F3 c1" },
        Merge { web: b"a", change: b"@x\na\n@x\na\n@y", answer: b"F3 c1" },
        Merge { web: b"a", change: b"text\n@x\n\n \n@y\n@z", answer: b"F5 c2" },
        Merge { web: b"a", change: b"@x\n@y", answer: b"F5 c1" },
        Merge { web: b"a", change: b"@x\na\n@y\nb\n@y", answer: b"F4 c1" },
        Merge { web: b"a", change: b"@x\na\n@y\nb", answer: b"F4 c1" },
        Merge { web: b"a\nb", change: b"text\n\n@ and more", answer: b"w1:a|w2:b|" },
        Merge { web: b"a\nb", change: b"", answer: b"w1:a|w2:b|" },
        Merge { web: b"a\nb", change: b"@x\nb\nc\n@y\n@z", answer: b"F7 c3" },
        Merge { web: b"a\nb", change: b"@x\nb\n@y\n@z\n@x\na\n@y\n@z", answer: b"F6 c5" },
        Merge { web: b"a\nb", change: b"@x\na\nc\n@y\n@z\n@x\nd\n@y\n@z", answer: b"F7 c3" },
        Merge { web: b"a \nb", change: b"@x\na\t\n@y\nc\n@z", answer: b"c4:c|w2:b|" },
        Merge { web: b"a\n\nb", change: b"@x\na\n\nb\n@y\n@z", answer: b"" },
        Merge { web: b"a\nb", change: b"@x\na\n\nb\n@y\n@z", answer: b"F7 c3" },
        Merge { web: b"a\nb", change: b"@x\na\n@y\nb\n@z\n@x\nb\n@y\nc\n@z", answer: b"c4:b|c9:c|" },
        Merge { web: b"a\na", change: b"@x\na\n@y\nb\n@z", answer: b"c4:b|w2:a|" },
    ];
    for (index, row) in rows.iter().enumerate() {
        let answer = answer_of(rt.alloc(), row.web, row.change)?;
        assert_eq!(rt; (index, answer.bytes()), (index, row.answer));
    }
    Ok(())
}

// The lines, each as its number, a colon, its bytes and a bar.
fn shown_lines(alloc: Global, list: &Lines) -> Result<Text, OutOfMemory> {
    let mut shown = Text::new(alloc);
    for index in 0..list.count() {
        shown.push_all(file_letter(list.place(index).file))?;
        shown.push_number(i64::from(list.place(index).line))?;
        shown.push_all(b":")?;
        shown.push_all(list.line(index))?;
        shown.push_all(b"|")?;
    }
    Ok(shown)
}

// The line of the web that is too long, and 0 where there is none.
fn line_of_fault(alloc: Global, text: &[u8]) -> Result<u32, WorkErr> {
    match lines(alloc, FileTag::Web, text) {
        Ok(_) => Ok(0),
        Err(
            WorkErr::Fault(
                Fault {
                    code: LINE_TOO_LONG,
                    file: FileTag::Web,
                    line,
                    which: 0,
                },
            ),
        ) => Ok(line),
        Err(error) => Err(error),
    }
}

// The letter of a file.
fn file_letter(file: FileTag) -> &'static [u8] {
    match file {
        FileTag::Web => b"w",
        FileTag::Change => b"c",
        _ => b"",
    }
}

// The lines of the web with the change file, or the number, file and line of the fault.
fn answer_of(alloc: Global, web: &[u8], change: &[u8]) -> Result<Text, WorkErr> {
    match merged(alloc, web, change) {
        Ok(list) => Ok(shown_lines(alloc, &list)?),
        Err(WorkErr::Fault(fault)) => Ok(shown_fault(alloc, fault)?),
        Err(error) => Err(error),
    }
}

fn shown_fault(alloc: Global, fault: Fault) -> Result<Text, OutOfMemory> {
    let mut shown = Text::new(alloc);
    shown.push_all(b"F")?;
    shown.push_number(i64::from(fault.code))?;
    shown.push_all(b" ")?;
    shown.push_all(file_letter(fault.file))?;
    shown.push_number(i64::from(fault.line))?;
    Ok(shown)
}
