//! What no clause shows: that the calls find memory, and the texts of faults beside values worked out by hand.
use std::test::Fail;
use wb_base::faults::{
    C_STRUCTURE, CHANGE_NOT_FOUND, LIMIT_FILE_BYTES, LIMIT_NAMES, LIMIT_PASSED, LIMIT_STRINGS,
    LINE_TOO_LONG, NESTING_PAST_LIMIT, PASCAL_LEFT_OUT, SETS, STRAY_END, TOO_LARGE,
};
use wb_base::{Fault, FileTag, Place, Text, Words};

// A fault of the web by its number and kind, and the line that reports it.
#[derive(Clone, Copy)]
struct Row {
    fault: (u16, u8),
    line: u32,
    text: &'static [u8],
}

#[test]
fn reports_faults(rt: HostRuntime) -> Result<(), Fail> {
    #[rattlefmt::skip]
    let rows = [
        Row { fault: (LINE_TOO_LONG, 0), line: 7, text: b"! t.web:7: line too long (F1)" },
        Row { fault: (CHANGE_NOT_FOUND, 0), line: 1, text: b"! t.web:1: change block not found (F6)" },
        Row { fault: (STRAY_END, 0), line: 3, text: b"! t.web:3: stray @> or } (F13)" },
        Row { fault: (LIMIT_PASSED, LIMIT_FILE_BYTES), line: 0, text: b"! t.web:0: limit passed: file bytes (F28)" },
        Row { fault: (LIMIT_PASSED, LIMIT_STRINGS), line: 65536, text: b"! t.web:65536: limit passed: strings (F28)" },
        Row { fault: (LIMIT_PASSED, 7), line: 0, text: b"! t.web:0: limit passed:  (F28)" },
        Row { fault: (PASCAL_LEFT_OUT, SETS), line: 2, text: b"! t.web:2: left out: set (F53)" },
        Row { fault: (PASCAL_LEFT_OUT, NESTING_PAST_LIMIT), line: 2, text: b"! t.web:2: left out: nesting (F53)" },
        Row { fault: (C_STRUCTURE, 0), line: 1, text: b"! t.web:1: structure (F72)" },
        // no such fault
        Row { fault: (44, 1), line: 1, text: b"! t.web:1:  (F44)" },
    ];
    for (index, row) in rows.iter().enumerate() {
        let (code, which) = row.fault;
        let fault = Fault {
            code,
            file: FileTag::Web,
            line: row.line,
            which,
        };
        let text = fault.text(rt.alloc(), b"t.web")?;
        assert_eq!(rt; (index, text.bytes()), (index, row.text));
    }
    Ok(())
}

#[test]
fn makes_faults(rt: HostRuntime) -> Result<(), Fail> {
    let place = Place {
        file: FileTag::Code(3),
        line: 5,
    };
    let fault = Fault {
        code: TOO_LARGE,
        file: FileTag::Code(3),
        line: 5,
        which: 0,
    };
    assert_eq!(rt; Fault::at(TOO_LARGE, place), fault);
    let passed = Fault {
        code: LIMIT_PASSED,
        which: LIMIT_NAMES,
        ..fault
    };
    assert_eq!(rt; Fault::limit(LIMIT_NAMES, place), passed);
    Ok(())
}

#[test]
fn grows_texts(rt: HostRuntime) -> Result<(), Fail> {
    let mut text = Text::new(rt.alloc());
    text.push(b'a')?;
    text.push_all(b"bc")?;
    text.push_number(-7)?;
    assert_eq!(rt; text.bytes(), b"abc-7".as_slice());

    let mut words = Words::new(rt.alloc());
    words.add(b"tangle")?;
    words.add(b"")?;
    assert_eq!(rt; words.count(), 2);
    assert_eq!(rt; words.word(0), b"tangle".as_slice());
    Ok(())
}
