//! What no clause says: that each call succeeds with ample memory, and what real files and streams do.
ghost use Rattle.std.specs.Prelude.{◌≡◌, false};
ghost use Rattle.wb_ports.specs.declared.port.Mode.{Mode};

use std::test::Fail;
use std::{fs, io};
use wb_ports::{
    DirShelf, Failed, FilePort, MemPort, MemShelf, MemSink, Port, PortErr, QuietSink, SharedWriter,
    Shelf, Sink, StdPort, StdSink,
};

#[test]
fn a_sink_in_memory_fails_where_it_is_told_to(rt: HostRuntime) -> Result<(), Fail> {
    let mut sink = MemSink::new(rt.alloc(), 5, &[2])?;
    assert_eq!(rt; sink.write(b"abc"), Ok(()));
    assert_eq!(rt; sink.write(b"d"), Err(Failed));
    assert_eq!(rt; sink.bytes(), b"abc".as_slice());
    assert_eq!(rt; sink.write(b"defg"), Err(Failed));
    assert_eq!(rt; sink.bytes(), b"abcde".as_slice());
    Ok(())
}

#[test]
fn a_quiet_sink_tells_until_it_drops_a_piece(rt: HostRuntime) -> Result<(), Fail> {
    let mut sink = QuietSink::new(rt.alloc(), 4)?;
    assert_eq!(rt; sink.write(b"abc"), Ok(()));
    assert_eq!(rt; sink.bytes(), Some(b"abc".as_slice()));
    assert_eq!(rt; sink.write(b"de"), Ok(()));
    assert_eq!(rt; sink.bytes(), None);
    Ok(())
}

#[test]
fn a_shelf_in_memory_keeps_its_files(rt: HostRuntime) -> Result<(), Fail> {
    let alloc = rt.alloc();
    let mut shelf = MemShelf::new(alloc, 4, &[2, 6])?;
    shelf.put_file(b"a", b"old")?;
    assert_eq!(rt; shelf.load(alloc, b"a")?.bytes(), b"old".as_slice());
    assert_eq!(rt; shelf.create(b"a"), Err(PortErr::Failed));
    assert_eq!(rt; shelf.file(b"a"), Some(b"old".as_slice()));
    shelf.create(b"a")?;
    assert_eq!(rt; shelf.file(b"a"), Some(b"".as_slice()));
    assert_eq!(rt; shelf.write(b"new"), Ok(()));
    assert_eq!(rt; shelf.write(b"er"), Err(Failed));
    assert_eq!(rt; shelf.file(b"a"), Some(b"newe".as_slice()));
    assert_eq!(rt; shelf.close(), Err(Failed));
    Ok(())
}

#[test]
fn a_missing_file_fails(rt: HostRuntime) -> Result<(), Fail> {
    let alloc = rt.alloc();
    let mut shelf = MemShelf::new(alloc, 4, &[])?;
    assert!(rt; matches!(shelf.load(alloc, b"b"), Err(PortErr::Failed)));
    assert_eq!(rt; shelf.file(b"b"), None);
    Ok(())
}

// Writes a file, and loads it back.
fn written_back<S: Shelf>(shelf: &mut S, alloc: std::alloc::Global) -> Result<bool, PortErr>
    requires { S.is_open shelf.old ≡ false }
{
    shelf.create(b"t.p")?;
    shelf.write(b"{1:}program t;")?;
    shelf.write(b"")?;
    shelf.write(b"begin end.{:1}\n")?;
    shelf.close()?;
    Ok(shelf.load(alloc, b"t.p")?.bytes() == b"{1:}program t;begin end.{:1}\n".as_slice())
}

#[test]
fn a_shelf_over_files_loads_what_it_wrote(rt: HostRuntime) -> Result<(), Fail> {
    let alloc = rt.alloc();
    let mut shelf = DirShelf::new(rt.alloc(), &rt);
    assert_eq!(rt; written_back(&mut shelf, alloc), Ok(true));
    fs::remove_file(&rt, "t.p")?;
    assert!(rt; matches!(shelf.load(alloc, b"t.p"), Err(PortErr::Failed)));
    assert_eq!(rt;
        written_back(&mut MemShelf::new(alloc, 100, &[])?, alloc),
        Ok(true)
    );
    Ok(())
}

#[test]
fn a_file_that_cannot_be_made_fails(rt: HostRuntime) -> Result<(), Fail> {
    let mut shelf = DirShelf::new(rt.alloc(), &rt);
    assert_eq!(rt; shelf.create(b"none/t.p"), Err(PortErr::Failed));
    let mut other = DirShelf::new(rt.alloc(), &rt);
    assert_eq!(rt; other.create(b"\xff"), Err(PortErr::Failed));
    Ok(())
}

#[test]
fn a_file_in_a_locked_folder_fails(rt: HostRuntime) -> Result<(), Fail> {
    fs::create_dir(&rt, "locked")?;
    let mut permissions = fs::metadata(&rt, "locked")?.permissions();
    permissions.set_readonly(true);
    fs::set_permissions(&rt, "locked", permissions)?;
    // Where the test may write there all the same, as an administrator may, so may the shelf.
    let refused = fs::create(&rt, "locked/t.p").is_err();
    let created = DirShelf::new(rt.alloc(), &rt).create(b"locked/t.p");
    assert_eq!(rt;
        created,
        if refused {
            Err(PortErr::Failed)
        } else {
            Ok(())
        }
    );
    fs::remove_dir_all(&rt, "locked")?;
    Ok(())
}

#[test]
fn a_stream_is_a_sink(rt: HostRuntime) -> Result<(), Fail> {
    let mut file = StdSink::new(fs::create(&rt, "t.out")?);
    assert_eq!(rt; file.write(b"a line\n"), Ok(()));
    assert_eq!(rt; fs::read(&rt, "t.out")?.as_slice(), b"a line\n".as_slice());
    fs::remove_file(&rt, "t.out")?;
    assert_eq!(rt; StdSink::new(io::writer(&rt)).write(b"a line\n"), Ok(()));
    let mut closed = StdSink::new(fs::open(&rt, ".")?);
    assert_eq!(rt; closed.write(b"a line\n"), Err(Failed));
    Ok(())
}

#[test]
fn a_port_in_memory_fails_where_it_is_told_to(rt: HostRuntime) -> Result<(), Fail> {
    let mut port = MemPort::new(rt.alloc(), b"ab", 1, &[3, 10])?;
    if let Ok(()) = port.rewind() {
        assert_eq!(rt; port.take(), Ok(Some(b'a')));
        assert_eq!(rt; port.take(), Err(Failed));
        assert_eq!(rt; port.take(), Ok(Some(b'b')));
        assert_eq!(rt; port.take(), Ok(None));
    }
    if let Ok(()) = port.begin() {
        assert_eq!(rt; port.put(b'c'), Ok(()));
        assert_eq!(rt; port.put(b'd'), Err(Failed));
    }
    assert_eq!(rt; port.bind(b"f"), Ok(()));
    assert_eq!(rt; port.finish(), Err(Failed));
    if let Ok(()) = port.rewind() {
        assert_eq!(rt; port.take(), Ok(Some(b'c')));
        assert_eq!(rt; port.take(), Ok(None));
    }
    Ok(())
}

// Puts so many of each of two bytes, one after the other.
fn put_pairs<P: Port>(port: &mut P, count: usize) -> Result<(), Failed>
    requires { P.mode port.old ≡ Mode.Writing }
{
    for _ in 0..count {
        port.put(b'a')?;
        port.put(b'\n')?;
    }
    Ok(())
}

// Whether the port gives so many pairs of these, and then is at its end.
fn gives_pairs<P: Port>(port: &mut P, count: usize) -> Result<bool, Failed>
    requires { P.mode port.old ≡ Mode.Reading }
{
    for _ in 0..count {
        if port.take()? != Some(b'a') || port.take()? != Some(b'\n') {
            return Ok(false);
        }
    }
    Ok(port.take()?.is_none())
}

// Whether the port gives the bytes back that were put.
fn gives_back<P: Port>(port: &mut P) -> Result<bool, Failed> {
    port.bind(b"f")?;
    port.begin()?;
    put_pairs(port, 10_000)?;
    port.finish()?;
    port.rewind()?;
    gives_pairs(port, 10_000)
}

#[test]
fn a_port_gives_back_what_was_put(rt: HostRuntime) -> Result<(), Fail> {
    let alloc = rt.alloc();
    assert_eq!(rt;
        gives_back(&mut MemPort::new(alloc, b"", 20_000, &[])?),
        Ok(true)
    );
    assert_eq!(rt;
        gives_back(&mut FilePort::new(alloc, rt, b"t.out")?),
        Ok(true)
    );
    fs::remove_file(&rt, "t.out")?;
    Ok(())
}

#[test]
fn a_port_over_a_file_that_is_not_there_fails(rt: HostRuntime) -> Result<(), Fail> {
    let mut port = FilePort::new(rt.alloc(), rt, b"none/t.in")?;
    assert_eq!(rt; port.rewind(), Err(Failed));
    assert_eq!(rt; port.begin(), Err(Failed));
    assert_eq!(rt; port.finish(), Ok(()));
    Ok(())
}

#[test]
fn a_question_is_written_before_its_answer_is_read(rt: HostRuntime) -> Result<(), Fail> {
    let alloc = rt.alloc();
    fs::write(&rt, "t.in", "y")?;
    let shared = SharedWriter::new(alloc, fs::create(&rt, "t.out")?)?;
    let mut output = StdPort::new(alloc, fs::open(&rt, "t.in")?, shared.share()?)?;
    let mut input = StdPort::new(alloc, fs::open(&rt, "t.in")?, shared)?;
    if let Ok(()) = output.begin() {
        assert_eq!(rt; output.put(b'?'), Ok(()));
    }
    assert_eq!(rt; fs::read(&rt, "t.out")?.as_slice(), b"".as_slice());
    if let Ok(()) = input.rewind() {
        assert_eq!(rt; input.take(), Ok(Some(b'y')));
        assert_eq!(rt; fs::read(&rt, "t.out")?.as_slice(), b"?".as_slice());
        assert_eq!(rt; input.take(), Ok(None));
    }
    assert_eq!(rt; input.rewind(), Err(Failed));
    fs::remove_file(&rt, "t.in")?;
    fs::remove_file(&rt, "t.out")?;
    Ok(())
}

#[test]
fn a_port_over_the_standard_streams_writes(rt: HostRuntime) -> Result<(), Fail> {
    let output = SharedWriter::new(rt.alloc(), rt.stdout())?;
    let mut port = StdPort::new(rt.alloc(), rt.stdin(), output)?;
    if let Ok(()) = port.begin() {
        assert_eq!(rt; port.put(b'\n'), Ok(()));
    }
    assert_eq!(rt; port.finish(), Ok(()));
    Ok(())
}

#[test]
fn ports_of_each_kind_stand_in_one_list(rt: HostRuntime) -> Result<(), Fail> {
    let alloc = rt.alloc();
    let mut ports: Vec<Box<dyn Port>> = Vec::new(alloc);
    ports.push(Box::new(alloc, MemPort::new(alloc, b"", 1, &[])?)?)?;
    ports.push(Box::new(alloc, FilePort::new(alloc, rt, b"t.list")?)?)?;
    ports.push(Box::new(alloc, StdPort::new(alloc, rt.stdin(), rt.stdout())?)?)?;
    for port in &mut ports {
        assert_eq!(rt; port.begin(), Ok(()));
        assert_eq!(rt; port.finish(), Ok(()));
    }
    fs::remove_file(&rt, "t.list")?;
    Ok(())
}
