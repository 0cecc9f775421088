//! Shelves and sinks, over memory and over the operating system.
use crate::expecting::{equal, holds};
use sb_io::{Fetched, FsShelf, MemShelf, MemSink, Shelf, ShelfError, Sink, SinkError, StdSink};
use std::alloc::Global;
use std::fs;
use std::io::{self, Write};
use std::test::Fail;

// Whether a fetch gives these bytes.
fn gives(alloc: Global, shelf: &mut impl Shelf, name: &str, limit: u64, bytes: &[u8]) -> bool {
    match shelf.fetch(alloc, name, limit) {
        Ok(Fetched::All(all)) => all.as_slice() == bytes,
        _ => false,
    }
}

// Whether a fetch fails by a fault.
fn fails(alloc: Global, shelf: &mut impl Shelf, name: &str) -> bool {
    matches!(shelf.fetch(alloc, name, 9), Err(ShelfError::Failed))
}

// Whether a file has more bytes than this.
fn is_longer(alloc: Global, shelf: &mut impl Shelf, name: &str, limit: u64) -> bool {
    matches!(shelf.fetch(alloc, name, limit), Ok(Fetched::Longer))
}

#[test]
fn a_shelf_in_memory(rt: HostRuntime) -> Result<(), Fail> {
    let alloc = rt.alloc();
    let mut shelf = MemShelf::new(alloc);
    shelf.add("a", b"one")?;
    shelf.add("b", b"two")?;
    shelf.add("a", b"three")?;
    holds(&rt, gives(alloc, &mut shelf, "a", 5, b"three"));
    holds(&rt, gives(alloc, &mut shelf, "b", 5, b"two"));
    holds(&rt, is_longer(alloc, &mut shelf, "a", 4));
    holds(&rt, fails(alloc, &mut shelf, "c"));
    shelf.fail_at(6)?;
    holds(&rt, gives(alloc, &mut shelf, "b", 9, b"two"));
    holds(&rt, fails(alloc, &mut shelf, "b"));
    holds(&rt, gives(alloc, &mut shelf, "b", 9, b"two"));
    Ok(())
}

#[test]
fn a_sink_in_memory_fails_where_it_is_told(rt: HostRuntime) -> Result<(), Fail> {
    let mut sink = MemSink::new(rt.alloc());
    sink.fail_at(2)?;
    equal(&rt, sink.put(b"one"), Ok(()));
    equal(&rt, sink.put(b"two"), Err(SinkError::Failed));
    equal(&rt, sink.put(b"three"), Ok(()));
    equal(&rt, sink.bytes(), b"onethree".as_slice());
    Ok(())
}

#[test]
fn the_file_system_is_a_shelf(rt: HostRuntime) -> Result<(), Fail> {
    let alloc = rt.alloc();
    fs::write(&rt, "sb_io_test_file", "some bytes")?;
    let mut shelf = FsShelf::new(&rt);
    holds(
        &rt,
        gives(alloc, &mut shelf, "sb_io_test_file", 10, b"some bytes"),
    );
    holds(&rt, is_longer(alloc, &mut shelf, "sb_io_test_file", 9));
    holds(&rt, fails(alloc, &mut shelf, "sb_io_test_no_file"));
    fs::remove_file(&rt, "sb_io_test_file")?;
    Ok(())
}

// A writer that always fails.
#[derive(Drop)]
struct Broken;

impl Write for Broken {
    fn write(&mut self, _bytes: &[u8]) -> io::Result<usize> {
        Err(io::ErrorKind::BrokenPipe.into())
    }

    fn flush(&mut self) -> io::Result<()> {
        Ok(())
    }
}

#[test]
fn a_writer_is_a_sink(rt: HostRuntime) -> Result<(), Fail> {
    let mut sink = StdSink::new(Vec::new(rt.alloc()));
    equal(&rt, sink.put(b"one"), Ok(()));
    let mut broken = StdSink::new(Broken);
    equal(&rt, broken.put(b"one"), Err(SinkError::Failed));
    Ok(())
}
