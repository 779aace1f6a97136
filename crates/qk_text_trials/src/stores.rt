//! Stores and sinks of each kind, through the bounds of their traits; and output that fails.

use qk_store::{
    DirStore, Found, MemSink, MemStore, NoFailSink, NoFailStore, OutSink, Seen, Sink, SinkFault,
    Store, StoreFault,
};
use std::alloc::{AllocError, Global};
use std::cell::Cell;
use std::fmt::Display;
use std::io::ErrorKind;
use std::process::Abort;
use std::test::Fail;
use std::{fs, io};

fn entry(alloc: Global, name: &str, bytes: &str) -> Result<(String, Vec<u8>), AllocError> {
    Ok((
        String::from_str(alloc, name)?,
        Vec::from_slice(alloc, bytes.as_bytes())?,
    ))
}

fn found(alloc: Global, bytes: &str) -> Result<Found, AllocError> {
    Ok(Found::Bytes(Vec::from_slice(alloc, bytes.as_bytes())?))
}

/// Two files, of which one has a second entry that doesn't count, and an empty one.
fn files(alloc: Global) -> Result<Vec<(String, Vec<u8>)>, AllocError> {
    let mut files = Vec::new(alloc);
    files.push(entry(alloc, "root.jsx", "first")?)?;
    files.push(entry(alloc, "empty", "")?)?;
    files.push(entry(alloc, "root.jsx", "second entry")?)?;
    Ok(files)
}

/// What every store over `files` answers.
fn read_all<S: Store>(rt: &impl Abort, alloc: Global, store: &mut S) -> Result<(), Fail> {
    assert_eq!(rt; store.read("root.jsx", 5)?, found(alloc, "first")?);
    assert_eq!(rt; store.read("root.jsx", 4)?, Found::TooLong);
    assert_eq!(rt; store.read("empty", 0)?, found(alloc, "")?);
    assert_eq!(rt; store.read("root", 100)?, Found::Gone);
    store.write("root.jsx", b"new bytes")?;
    store.write("build/root_s1.js", b"export")?;
    assert_eq!(rt; store.read("root.jsx", 100)?, found(alloc, "new bytes")?);
    assert_eq!(rt; store.read("build/root_s1.js", 6)?, found(alloc, "export")?);
    assert_eq!(rt; store.read("empty", 7)?, found(alloc, "")?);
    Ok(())
}

#[test]
fn stores_in_memory(rt: HostRuntime) -> Result<(), Fail> {
    let alloc = rt.alloc();
    read_all(&rt, alloc, &mut NoFailStore::new(alloc, files(alloc)?))?;
    let mut store = MemStore::new(alloc, files(alloc)?, Vec::new(alloc));
    read_all(&rt, alloc, &mut store)?;
    assert_eq!(rt; store.file("root.jsx"), Some(b"new bytes".as_slice()));
    assert_eq!(rt; store.file("empty"), Some(b"".as_slice()));
    assert_eq!(rt; store.file("jsx"), None);
    assert_eq!(rt; store.reads().len(), 7);
    let second = Seen {
        name: String::from_str(alloc, "root.jsx")?,
        most: 4,
        found: Found::TooLong,
    };
    assert!(rt; store.reads()[1] == second);
    Ok(())
}

#[test]
fn listed_calls_fail(rt: HostRuntime) -> Result<(), Fail> {
    let alloc = rt.alloc();
    let mut store = MemStore::new(alloc, files(alloc)?, vec![in alloc; 2, 3]?);
    assert_eq!(rt; store.read("root.jsx", 9)?, found(alloc, "first")?);
    assert_eq!(rt; store.write("root.jsx", b"new"), Err(StoreFault::Failed));
    assert_eq!(rt; store.read("root.jsx", 9), Err(StoreFault::Failed));
    assert_eq!(rt; store.read("root.jsx", 9)?, found(alloc, "first")?);
    store.write("root.jsx", b"new")?;
    assert_eq!(rt; store.file("root.jsx"), Some(b"new".as_slice()));
    assert_eq!(rt; store.reads().len(), 2);
    let mut sink = MemSink::new(alloc, vec![in alloc; 2, 4]?);
    sink.put(b"ab")?;
    assert_eq!(rt; sink.put(b"12345"), Err(SinkFault::Failed));
    sink.put(b"cd")?;
    assert_eq!(rt; sink.put(b"6"), Err(SinkFault::Failed));
    assert_eq!(rt; sink.bytes(), b"ab12cd".as_slice());
    Ok(())
}

fn put_twice<S: Sink>(sink: &mut S) -> Result<(), SinkFault> {
    sink.put(b"<p>")?;
    sink.put(b"one</p>\n")
}

#[test]
fn sinks_take_every_piece(rt: HostRuntime) -> Result<(), Fail> {
    let alloc = rt.alloc();
    let mut sure = NoFailSink::new(alloc);
    put_twice(&mut sure)?;
    assert_eq!(rt; sure.bytes(), b"<p>one</p>\n".as_slice());
    let mut sink = MemSink::new(alloc, Vec::new(alloc));
    put_twice(&mut sink)?;
    assert_eq!(rt; sink.bytes(), b"<p>one</p>\n".as_slice());
    put_twice(&mut OutSink::new(&rt))?;
    Ok(())
}

#[test]
fn a_folder_is_a_store(rt: HostRuntime) -> Result<(), Fail> {
    let alloc = rt.alloc();
    fs::create_dir(&rt, "site")?;
    fs::create_dir(&rt, "site/taken")?;
    fs::write(&rt, "site/root.jsx", b"first".as_slice())?;
    fs::write(&rt, "site/empty", b"".as_slice())?;
    let mut store = DirStore::new(&rt, alloc, String::from_str(alloc, "site")?);
    read_all(&rt, alloc, &mut store)?;
    let built = fs::read(&rt, "site/build/root_s1.js")?;
    assert_eq!(rt; built.as_slice(), b"export".as_slice());
    store.write("pages/a.html", b"<p>")?;
    store.write("pages/a.html", b"")?;
    assert_eq!(rt; store.read("pages/a.html", 0)?, found(alloc, "")?);
    assert_eq!(rt; store.read("taken", 9), Err(StoreFault::Failed));
    assert_eq!(rt; store.write("taken", b"x"), Err(StoreFault::Failed));
    assert_eq!(rt; store.write("elsewhere/a", b"x"), Err(StoreFault::Failed));
    assert_eq!(rt; store.read("elsewhere/a", 9)?, Found::Gone);
    let mut here = DirStore::new(&rt, alloc, String::new(alloc));
    assert_eq!(rt; here.read("site/root.jsx", 9)?, found(alloc, "new bytes")?);
    Ok(())
}

#[test]
fn a_long_file_is_read_in_many_pieces(rt: HostRuntime) -> Result<(), Fail> {
    let alloc = rt.alloc();
    let long: Vec<u8> = vec![in alloc; 7; 20_000]?;
    let mut store = DirStore::new(&rt, alloc, String::from_str(alloc, ".")?);
    store.write("long", long.as_slice())?;
    assert_eq!(rt; store.read("long", 19_999)?, Found::TooLong);
    assert!(rt; store.read("long", 20_000)? == Found::Bytes(long));
    Ok(())
}

/// A standard output that takes one byte a call, so many of them, and then fails or takes no more.
#[derive(Drop)]
struct Pipe {
    room: Cell<usize>,
    broken: bool,
}

impl io::Print for Pipe {
    fn print<D: Display + Drop>(&self, _: D) -> io::Result<()> {
        Err(io::Error::from(ErrorKind::BrokenPipe))
    }

    fn println<D: Display + Drop>(&self, _: D) -> io::Result<()> {
        Err(io::Error::from(ErrorKind::BrokenPipe))
    }

    fn write_all(&self, _: &[u8]) -> io::Result<()> {
        Err(io::Error::from(ErrorKind::BrokenPipe))
    }

    fn write_some(&self, bytes: &[u8]) -> io::Result<usize> {
        let room = self.room.get();
        if room == 0 && self.broken {
            return Err(io::Error::from(ErrorKind::BrokenPipe));
        }
        self.room.set(room.saturating_sub(1));
        Ok(room.min(bytes.len()).min(1))
    }
}

#[test]
fn an_output_that_fails_is_told(rt: HostRuntime) -> Result<(), Fail> {
    for broken in [false, true] {
        let pipe = Pipe {
            room: Cell::new(12),
            broken,
        };
        let mut out = OutSink::new(&pipe);
        put_twice(&mut out)?;
        assert_eq!(rt; put_twice(&mut out), Err(SinkFault::Failed));
        assert_eq!(rt; out.put(b"x"), Err(SinkFault::Failed));
        out.put(b"")?;
    }
    Ok(())
}
