// The files of a real folder. No contract can say what a real file holds, so this store tells nothing of content; that a folder behaves as a
// store should is trusted, and only the loops over its bytes are proved.
ghost use Rattle.std.specs.Prelude.{◌≡◌, None, IfOk};
ghost use Rattle.qk_store.specs.Answers.{content, IsWithin};
ghost use Rattle.qk_store.specs.Causes.{HasCause};

use crate::calls::one_more;
use crate::stream::{read_within, write_whole};
use crate::{Found, Store, StoreFault};
use std::alloc::{AllocError, Global};
use std::io::ErrorKind;
use std::rt::Files;
use std::{fs, io};

/// A folder of the file system. A name is a path in it. A missing file is `Gone`; whatever else goes wrong, as a folder that stands under the
/// name or a lack of permission, is `Failed`.
#[derive(Drop)]
pub struct DirStore<'a, R> {
    rt: &'a R,
    alloc: Global,
    folder: String,
    faults: u64,
}

impl<'a, R: Files> DirStore<'a, R> {
    /// The store of this folder, which an empty text says is the current one.
    pub fn new(rt: &'a R, alloc: Global, folder: String) -> DirStore<'a, R>
        ensures files { ⟦<DirStore<'a, R> as Store>⟧.files result ≡ None }
        ensures answers { ⟦<DirStore<'a, R> as Store>⟧.answers result ≡ None }
        ensures faults { ⟦<DirStore<'a, R> as Store>⟧.faults result ≡ 0 }
    {
        DirStore {
            rt,
            alloc,
            folder,
            faults: 0,
        }
    }
}

impl<'a, R: Files> Store for DirStore<'a, R> {
    ghost files = { λ _. None };

    ghost answers = { λ _. None };

    ghost faults = { λ s. s.faults };

    fn read(&mut self, name: &str, most: usize) -> Result<Found, StoreFault> {
        let path = path_in(self.alloc, self.folder.as_str(), name)?;
        let answer = read_file(self.rt, self.alloc, path.as_str(), most);
        counted(&mut self.faults, answer)
    }

    #[tactic(auto, using(crate::proofs::FileLemmas::others_kept))]
    fn write(&mut self, name: &str, bytes: &[u8]) -> Result<(), StoreFault> {
        let path = path_in(self.alloc, self.folder.as_str(), name)?;
        if let Some(inner) = made_folder(name) {
            let inner = path_in(self.alloc, self.folder.as_str(), inner)?;
            make_folder(self.rt, inner.as_str());
        }
        let answer = write_file(self.rt, path.as_str(), bytes);
        counted(&mut self.faults, answer)
    }
}

// The answer, which is counted where it is a failure.
#[tactic(auto, using(crate::proofs::Faults::store_failed))]
fn counted<T>(faults: &mut u64, answer: Result<T, StoreFault>) -> Result<T, StoreFault>
    ensures answer { result ≡ answer }
    ensures cause { HasCause StoreFault.Failed StoreFault.Memory faults.old faults.new result }
{
    if let Err(StoreFault::Failed) = &answer {
        *faults = one_more(*faults);
    }
    answer
}

// The path of this name in a folder.
fn path_in(alloc: Global, folder: &str, name: &str) -> Result<String, AllocError> {
    let mut path = String::from_str(alloc, if folder.is_empty() { "." } else { folder })?;
    path.push_str("/")?;
    path.push_str(name)?;
    Ok(path)
}

// The folder that a name lies in, where it is one that the store makes.
fn made_folder(name: &str) -> Option<&'static str> {
    if name.starts_with("build/") {
        Some("build")
    } else if name.starts_with("pages/") {
        Some("pages")
    } else {
        None
    }
}

fn read_file<R: Files>(rt: &R, alloc: Global, path: &str, most: usize) -> Result<Found, StoreFault>
    ensures { IfOk result (λ found. IsWithin most (content found)) }
{
    match fs::open(rt, path) {
        Ok(mut file) => read_within(alloc, &mut file, most).map_err(fault_of),
        Err(error) if error.kind() == ErrorKind::NotFound => Ok(Found::Gone),
        Err(error) => Err(fault_of(error)),
    }
}

// Where a file is opened or read nothing has changed, so want of memory is told as such.
fn fault_of(error: io::Error) -> StoreFault {
    match error.kind() {
        ErrorKind::OutOfMemory => StoreFault::Memory,
        _ => StoreFault::Failed,
    }
}

// That it stands there is no error, and any other one is met again by the write.
fn make_folder<R: Files>(rt: &R, path: &str) {
    let _ = fs::create_dir(rt, path);
}

fn write_file<R: Files>(rt: &R, path: &str, bytes: &[u8]) -> Result<(), StoreFault> {
    let mut file = fs::create(rt, path).map_err(fault_of)?;
    write_whole(&mut file, bytes).map_err(|_| StoreFault::Failed)
}
