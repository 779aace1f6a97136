//! An outside that fails, and memory that runs out.

use crate::playing::{COUNTER, files, replay};
use qk_store::{Found, MemSink, MemStore, OutSink, Sink, SinkFault, Store, StoreFault};
use std::fmt::Display;
use std::io;
use std::io::ErrorKind;
use std::test::Fail;

#[test]
fn a_put_that_fails_leaves_half_a_block(rt: HostRuntime) -> Result<(), Fail> {
    let alloc = rt.alloc();
    let clicks = files(alloc, COUNTER, b"click b\nclick b\nclick b")?;
    let mut store = MemStore::new(alloc, clicks, Vec::new(alloc));
    let mut out = MemSink::new(alloc, vec![in alloc; 2]?);
    assert_eq!(rt; replay(alloc, &mut store, &mut out)?, 7);
    let printed = "item 0\nhtml <button id=\"b\">0</button>\nitem 1\nhtml <button";
    assert_eq!(rt; out.bytes(), printed.as_bytes());
    Ok(())
}

#[test]
fn a_read_that_fails_is_told(rt: HostRuntime) -> Result<(), Fail> {
    let alloc = rt.alloc();
    for call in [1, 2] {
        let files = files(alloc, COUNTER, b"click b")?;
        let mut store = MemStore::new(alloc, files, vec![in alloc; call]?);
        let mut out = MemSink::new(alloc, Vec::new(alloc));
        assert_eq!(rt; replay(alloc, &mut store, &mut out)?, 6);
        assert_eq!(rt; out.bytes(), b"store failed\n".as_slice());
    }
    Ok(())
}

/// A standard output whose reader has gone.
#[derive(Drop)]
struct Broken;

impl io::Print for Broken {
    fn print<D: Display + Drop>(&self, _: D) -> io::Result<()> {
        Err(io::Error::from(ErrorKind::BrokenPipe))
    }

    fn println<D: Display + Drop>(&self, _: D) -> io::Result<()> {
        Err(io::Error::from(ErrorKind::BrokenPipe))
    }

    fn write_all(&self, _: &[u8]) -> io::Result<()> {
        Err(io::Error::from(ErrorKind::BrokenPipe))
    }
}

#[test]
fn a_standard_output_that_fails_is_told(rt: HostRuntime) -> Result<(), Fail> {
    let alloc = rt.alloc();
    for script in [b"".as_slice(), b"pause".as_slice()] {
        let mut store = MemStore::new(alloc, files(alloc, COUNTER, script)?, Vec::new(alloc));
        let mut out = OutSink::new(&Broken);
        assert_eq!(rt; replay(alloc, &mut store, &mut out)?, 7);
    }
    Ok(())
}

/// A store and a sink for which memory runs out at each call.
#[derive(Drop)]
struct Starved;

impl Store for Starved {
    ghost use Rattle.std.specs.Prelude.{None};

    ghost files = { λ _. None };

    ghost answers = { λ _. None };

    ghost faults = { λ _. 0 };

    fn read(&mut self, _: &str, _: usize) -> Result<Found, StoreFault> {
        Err(StoreFault::Memory)
    }

    #[tactic(auto, using(qk_store::proofs::FileLemmas::others_kept))]
    fn write(&mut self, _: &str, _: &[u8]) -> Result<(), StoreFault> {
        Err(StoreFault::Memory)
    }
}

impl Sink for Starved {
    ghost use Rattle.std.specs.Prelude.{None};

    ghost bytes = { λ _. None };

    ghost faults = { λ _. 0 };

    fn put(&mut self, _: &[u8]) -> Result<(), SinkFault> {
        Err(SinkFault::Memory)
    }
}

#[test]
fn want_of_memory_is_told(rt: HostRuntime) -> Result<(), Fail> {
    let alloc = rt.alloc();
    let mut out = MemSink::new(alloc, Vec::new(alloc));
    assert_eq!(rt; replay(alloc, &mut Starved, &mut out)?, 8);
    assert_eq!(rt; out.bytes(), b"memory\n".as_slice());
    let mut store = MemStore::new(alloc, files(alloc, COUNTER, b"")?, Vec::new(alloc));
    assert_eq!(rt; replay(alloc, &mut store, &mut Starved)?, 8);
    Ok(())
}
