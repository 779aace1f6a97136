// Files that are kept in memory, one entry after another, and the list of what reads of them were answered.
ghost use Rattle.std.specs.Prelude.{◌≡◌, Some, map, bytes_eq, string_bytes, IfOk, OnOk, OnErr, position};
ghost use Rattle.std.specs.Option.{option_copied};
ghost use Rattle.qk_store.specs.Files.{with_file};
ghost use Rattle.qk_store.specs.Held.{held};
ghost use Rattle.qk_store.specs.Answers.{answer, content, reading, with_answer};

use crate::{Found, Seen};
use std::alloc::{AllocError, Global};

pub type Entry = (String, Vec<u8>);

/// The bytes of the file of this name.
pub fn file_of<'a>(entries: &'a [Entry], name: &str) -> Option<&'a [u8]>
    ensures { option_copied result ≡ held entries.now name.now }
{
    entries
        .iter()
        .find(|entry| entry.0.as_str() == name)
        .map(|entry| entry.1.as_slice())
}

/// What a read of at most so many bytes answers.
pub fn find_file(
    alloc: Global,
    entries: &[Entry],
    name: &str,
    most: usize,
) -> Result<Found, AllocError>
    ensures { IfOk result (λ found. content found ≡ reading (held entries.now name.now) most) }
{
    match file_of(entries, name) {
        None => Ok(Found::Gone),
        Some(bytes) if bytes.len() > most => Ok(Found::TooLong),
        Some(bytes) => Ok(Found::Bytes(Vec::from_slice(alloc, bytes)?)),
    }
}

fn copy(alloc: Global, found: &Found) -> Result<Found, AllocError>
    ensures { IfOk result (λ copied. content copied ≡ content found.now) }
{
    Ok(match found {
        Found::Gone => Found::Gone,
        Found::TooLong => Found::TooLong,
        Found::Bytes(bytes) => Found::Bytes(Vec::from_slice(alloc, bytes)?),
    })
}

/// Appends what a read was answered.
pub fn note(
    alloc: Global,
    seen: &mut Vec<Seen>,
    name: &str,
    most: usize,
    found: &Found,
) -> Result<(), AllocError>
    ensures ok { OnOk result (map answer seen.new.items
        ≡ with_answer name.now most (content found.now) (map answer seen.old.items)) }
    ensures err { OnErr result (seen.new.items ≡ seen.old.items) }
{
    let name = String::from_str(alloc, name)?;
    let found = copy(alloc, found)?;
    seen.push(Seen { name, most, found })?;
    Ok(())
}

fn place_of(entries: &[Entry], name: &str) -> Option<usize>
    ensures { result ≡ position (λ entry. bytes_eq (string_bytes entry.0) name.now) entries.now }
{
    entries.iter().position(|entry| entry.0.as_str() == name)
}

/// Makes the file of this name hold these bytes.
pub fn put_file(
    alloc: Global,
    entries: &mut Vec<Entry>,
    name: &str,
    bytes: &[u8],
) -> Result<(), AllocError>
    ensures ok { OnOk result (held entries.new.items ≡ with_file name.now (Some bytes.now) (held entries.old.items)) }
    ensures err { OnErr result (entries.new.items ≡ entries.old.items) }
{
    let bytes = Vec::from_slice(alloc, bytes)?;
    match place_of(entries, name) {
        Some(at) => entries[at].1 = bytes,
        None => entries.push((String::from_str(alloc, name)?, bytes))?,
    }
    Ok(())
}
