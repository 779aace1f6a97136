// The loops over the reads and writes of a real file: each goes on until all is done, or until the first error.
ghost use Rattle.std.specs.Prelude.{◌≡◌, Some, IfOk, IfSome, OnOk};
ghost use Rattle.std.specs.Io.KnownBytes.{Appends};
ghost use Rattle.qk_store.specs.Answers.{content, reading, IsWithin};

use crate::Found;
use std::alloc::Global;
use std::io;
use std::io::{ErrorKind, Read, Write};

const CHUNK: usize = 8192;

/// Reads to the end, which is where a read gives nothing, or until more than `most` bytes were given.
pub fn read_within<R: Read>(alloc: Global, reader: &mut R, most: usize) -> io::Result<Found>
    ensures within { IfOk result (λ found. IsWithin most (content found)) }
    // Of a reader that tells its bytes, these are what it answers.
    ensures found { IfOk result (λ found. IfSome (R.remaining reader.old) (λ bytes. content found ≡ reading (Some bytes) most)) }
{
    let mut bytes = Vec::new(alloc);
    let mut chunk = [0u8; CHUNK];
    while bytes.len() <= most {
        let room = (most - bytes.len()).saturating_add(1).min(CHUNK);
        let count = reader.read(&mut chunk[..room])?;
        if count == 0 {
            return Ok(Found::Bytes(bytes));
        }
        bytes.extend_from_slice(&chunk[..count])?;
    }
    Ok(Found::TooLong)
}

/// Writes all of the bytes. That nothing is taken is an error too.
pub fn write_whole<W: Write>(writer: &mut W, bytes: &[u8]) -> io::Result<()>
    ensures { OnOk result (Appends (W.contents writer.old) (W.contents writer.new) bytes.now) }
{
    let mut rest = bytes;
    while !rest.is_empty() {
        let count = writer.write(rest)?;
        if count == 0 {
            return Err(io::Error::from(ErrorKind::WriteZero));
        }
        rest = &rest[count..];
    }
    Ok(())
}
