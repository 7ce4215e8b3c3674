//! Files of a run over ports in memory, worked out by hand.
use pas_meaning::{AT_END_OF_FILE, UNDEFINED_BUFFER, WRONG_MODE};
use pas_run::{Refused, RunFile};
use std::test::Fail;
use wb_ports::MemPort;

#[test]
fn a_text_is_read(rt: HostRuntime) -> Result<(), Fail> {
    let mut file = RunFile::new(MemPort::new(rt.alloc(), b"ab", 1, &[])?, true);
    assert_eq!(rt; file.eof(), Err(Refused::Wrong(WRONG_MODE)));
    assert_eq!(rt; file.reset(), Ok(()));
    assert_eq!(rt; file.buffer_read(), Ok(b'a'));
    assert_eq!(rt; file.get(), Ok(()));
    assert_eq!(rt; file.eoln(), Ok(false));
    assert_eq!(rt; file.get(), Ok(()));
    // the end of the last line, which the bytes lack
    assert_eq!(rt; file.eoln(), Ok(true));
    assert_eq!(rt; file.buffer_read(), Ok(b' '));
    assert_eq!(rt; file.eof(), Ok(false));
    assert_eq!(rt; file.get(), Ok(()));
    assert_eq!(rt; file.eof(), Ok(true));
    assert_eq!(rt; file.get(), Err(Refused::Wrong(AT_END_OF_FILE)));
    Ok(())
}

#[test]
fn a_text_is_written(rt: HostRuntime) -> Result<(), Fail> {
    let mut file = RunFile::new(MemPort::new(rt.alloc(), b"old", 40, &[])?, true);
    assert_eq!(rt; file.rewrite(), Ok(()));
    assert_eq!(rt; file.eof(), Ok(true));
    assert_eq!(rt; file.write_number(-7, 4), Ok(()));
    assert_eq!(rt; file.write_char(b'x', 2), Ok(()));
    assert_eq!(rt; file.write_text(b"abc", 2), Ok(()));
    assert_eq!(rt; file.write_text(b"d", 2), Ok(()));
    assert_eq!(rt; file.writeln(), Ok(()));
    assert_eq!(rt; file.reset(), Ok(()));
    for byte in b"  -7 xab d" {
        assert_eq!(rt; file.buffer_read(), Ok(*byte));
        assert_eq!(rt; file.get(), Ok(()));
    }
    assert_eq!(rt; file.eoln(), Ok(true));
    assert_eq!(rt; file.writeln(), Err(Refused::Wrong(WRONG_MODE)));
    Ok(())
}

#[test]
fn a_byte_file_is_written(rt: HostRuntime) -> Result<(), Fail> {
    let mut file = RunFile::new(MemPort::new(rt.alloc(), b"", 2, &[])?, false);
    assert_eq!(rt; file.rewrite(), Ok(()));
    assert_eq!(rt; file.put(), Err(Refused::Wrong(UNDEFINED_BUFFER)));
    assert_eq!(rt; file.buffer_set(10), Ok(()));
    assert_eq!(rt; file.put(), Ok(()));
    assert_eq!(rt; file.put(), Err(Refused::Wrong(UNDEFINED_BUFFER)));
    assert_eq!(rt; file.reset(), Ok(()));
    assert_eq!(rt; file.buffer_read(), Ok(10));
    assert_eq!(rt; file.eoln(), Err(Refused::Wrong(WRONG_MODE)));
    Ok(())
}
