//! What no clause says: that calls succeed with ample memory, and that the definitions give the known rows.
ghost use Rattle.std.specs.Prelude.{◌≡◌};

use std::test::Fail;
use wb_base::faults::{BAD_LAST_LINE, BAD_POOL_LENGTH, LIMIT_STRINGS, POOL_LINE_TOO_SHORT};
use wb_base::{Fault, FileTag, Place, Text};
use wb_ports::{MemSink, QuietSink};
use web_pool::{Pool, PoolErr, PoolTypeErr, pooltype, write_pool};

const PLENTY: usize = 100_000;

// The pool of one string, which the rows of cuts cut.
const POOL: &[u8] = b"02ab\n*000000000\n";

fn fault(code: u16, line: u32) -> PoolTypeErr {
    PoolTypeErr::Fault(Fault::at(
        code,
        Place {
            file: FileTag::Pool,
            line,
        },
    ))
}

// A pool, how many lines are written of it, and how its listing ends.
#[derive(Drop)]
struct Row {
    pool: &'static [u8],
    lines: usize,
    ends: Result<(), PoolTypeErr>,
}

#[test]
fn a_pool_is_listed(rt: HostRuntime) -> Result<(), Fail> {
    #[rattlefmt::skip]
    let rows = [
        Row { pool: POOL, lines: 258, ends: Ok(()) },
        Row { pool: b"02ab\n*123456789", lines: 258, ends: Ok(()) },
        Row { pool: b"02ab\n*12345678\n", lines: 257, ends: Err(fault(BAD_LAST_LINE, 2)) },
        Row { pool: &POOL[..0], lines: 256, ends: Err(fault(BAD_LAST_LINE, 1)) },
        Row { pool: &POOL[..1], lines: 256, ends: Err(fault(BAD_POOL_LENGTH, 1)) },
        Row { pool: &POOL[..2], lines: 256, ends: Err(fault(POOL_LINE_TOO_SHORT, 1)) },
        Row { pool: &POOL[..3], lines: 256, ends: Err(fault(POOL_LINE_TOO_SHORT, 1)) },
        Row { pool: &POOL[..4], lines: 257, ends: Err(fault(BAD_LAST_LINE, 2)) },
        Row { pool: &POOL[..5], lines: 257, ends: Err(fault(BAD_LAST_LINE, 2)) },
        Row { pool: &POOL[..6], lines: 257, ends: Err(fault(BAD_LAST_LINE, 2)) },
        Row { pool: &POOL[..7], lines: 257, ends: Err(fault(BAD_LAST_LINE, 2)) },
        Row { pool: &POOL[..13], lines: 257, ends: Err(fault(BAD_LAST_LINE, 2)) },
        Row { pool: &POOL[..14], lines: 257, ends: Err(fault(BAD_LAST_LINE, 2)) },
        Row { pool: &POOL[..15], lines: 258, ends: Ok(()) },
    ];
    for row in rows {
        let mut sink = QuietSink::new(rt.alloc(), PLENTY)?;
        assert_eq!(rt;
            pooltype(row.pool, &mut sink),
            row.ends,
            "at {:?}",
            row.pool
        );
        let text = sink.bytes().unwrap_or(b"");
        let lines = text.iter().filter(|byte| **byte == b'\n').count();
        assert_eq!(rt; lines, row.lines, "at {:?}", row.pool);
    }
    Ok(())
}

#[test]
fn a_listing_has_these_lines(rt: HostRuntime) -> Result<(), Fail> {
    let mut sink = MemSink::new(rt.alloc(), PLENTY, &[])?;
    assert_eq!(rt; pooltype(POOL, &mut sink), Ok(()));
    #[rattlefmt::skip]
    let rows = [
        (0, b"  0: \"^^@\"".as_slice()),
        (34, b" 34: \"\"\"\"".as_slice()),
        (127, b"127: \"^^?\"".as_slice()),
        (255, b"255: \"^^ff\"".as_slice()),
        (256, b"256: \"ab\"".as_slice()),
        (257, b"(708 characters in all.)".as_slice()),
    ];
    for (place, line) in rows {
        let found = sink.bytes().split(|byte| *byte == b'\n').nth(place);
        assert_eq!(rt; found, Some(line), "at {place}");
    }
    Ok(())
}

#[test]
fn strings_are_numbered_and_written(rt: HostRuntime) -> Result<(), Fail> {
    let mut pool = Pool::new(rt.alloc());
    #[rattlefmt::skip]
    let rows = [
        (b"".as_slice(), Ok(256)),
        (b"A".as_slice(), Ok(65)),
        (b"ab".as_slice(), Ok(257)),
        (b"".as_slice(), Ok(256)),
        ([b'x'; 99].as_slice(), Ok(258)),
        ([b'x'; 100].as_slice(), Err(PoolErr::TooLong)),
    ];
    for (string, number) in rows {
        assert_eq!(rt; pool.add(string), number, "at {string:?}");
    }
    assert_eq!(rt; pool.count(), 3);
    let mut sink = QuietSink::new(rt.alloc(), PLENTY)?;
    assert_eq!(rt; write_pool(&pool, &mut sink), Ok(()));
    let text = sink.bytes().unwrap_or(b"");
    assert!(rt; text.starts_with(b"00\n02ab\n99xxx"));
    assert!(rt; text.ends_with(b"xxx\n*000000000\n"));
    Ok(())
}

#[test]
fn a_pool_has_room_for_so_many_strings(rt: HostRuntime) -> Result<(), Fail> {
    let mut pool = Pool::new(rt.alloc());
    for number in 256..32_768_u32 {
        let string = number.to_be_bytes();
        assert_eq!(rt; pool.add(&string), Ok(number));
    }
    assert_eq!(rt; pool.add(b"new"), Err(PoolErr::Full));
    assert_eq!(rt; pool.add(&256_u32.to_be_bytes()), Ok(256));
    Ok(())
}

#[test]
fn a_pool_has_no_more_numbers(rt: HostRuntime) -> Result<(), Fail> {
    let mut pool = Text::new(rt.alloc());
    for _ in 0..32_513 {
        pool.push_all(b"00\n")?;
    }
    let mut sink = QuietSink::new(rt.alloc(), 0)?;
    let place = Place {
        file: FileTag::Pool,
        line: 32_513,
    };
    let full = PoolTypeErr::Fault(Fault::limit(LIMIT_STRINGS, place));
    assert_eq!(rt; pooltype(pool.bytes(), &mut sink), Err(full));
    Ok(())
}

#[test]
fn a_short_listing_is_one_call(rt: HostRuntime) -> Result<(), Fail> {
    for (failing, ends) in [(1, Err(PoolTypeErr::Failed)), (2, Ok(()))] {
        let mut sink = MemSink::new(rt.alloc(), PLENTY, &[failing])?;
        assert_eq!(rt; pooltype(POOL, &mut sink), ends, "at {failing}");
    }
    Ok(())
}
