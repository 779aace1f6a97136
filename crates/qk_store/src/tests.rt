//! What no public call shows and no clause says: that an error in the middle of a file or of what is printed is told.

use crate::Found;
use crate::stream::{read_within, write_whole};
use std::io;
use std::io::{ErrorKind, Read, Write};
use std::test::Fail;

// Gives one byte a call, and fails at the third. It takes one byte a call, and nothing at the third.
#[derive(Drop)]
struct Faulty {
    calls: u8,
}

impl Read for Faulty {
    fn read(&mut self, buf: &mut [u8]) -> io::Result<usize> {
        self.calls = self.calls.saturating_add(1);
        if self.calls == 3 {
            return Err(io::Error::from(ErrorKind::ConnectionReset));
        }
        match buf.first_mut() {
            Some(byte) => {
                *byte = self.calls;
                Ok(1)
            }
            None => Ok(0),
        }
    }
}

impl Write for Faulty {
    fn write(&mut self, buf: &[u8]) -> io::Result<usize> {
        self.calls = self.calls.saturating_add(1);
        Ok(if self.calls == 3 { 0 } else { buf.len().min(1) })
    }

    fn flush(&mut self) -> io::Result<()> {
        Ok(())
    }
}

#[test]
fn an_error_in_the_middle_is_told(rt: HostRuntime) -> Result<(), Fail> {
    let alloc = rt.alloc();
    let read = read_within(alloc, &mut Faulty { calls: 0 }, 9);
    assert!(rt; matches!(read, Err(e) if e.kind() == ErrorKind::ConnectionReset));
    let stopped = read_within(alloc, &mut Faulty { calls: 0 }, 1)?;
    assert_eq!(rt; stopped, Found::TooLong);
    let written = write_whole(&mut Faulty { calls: 0 }, b"abc");
    assert!(rt; matches!(written, Err(e) if e.kind() == ErrorKind::WriteZero));
    write_whole(&mut Faulty { calls: 0 }, b"ab")?;
    Ok(())
}
