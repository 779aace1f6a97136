ghost use Rattle.std.specs.Prelude.{◌≡◌, Some, [], map, IfOk, OnOk, OnErr, IsErrOf};
ghost use Rattle.std.specs.Option.{option_copied};
ghost use Rattle.qk_store.specs.Answers.{answer, content, reading, with_answer};
ghost use Rattle.qk_store.specs.Calls.{IsNumbered};
ghost use Rattle.qk_store.specs.Causes.{HasCause};
ghost use Rattle.qk_store.specs.Files.{with_file, OthersStay};
ghost use Rattle.qk_store.specs.Held.{held};
ghost use Rattle.qk_store.specs.Memory.{store_files, store_answers, store_calls};

use crate::calls::Calls;
use crate::held::{file_of, find_file, note, put_file};
use crate::{Found, Seen, Store, StoreFault};
use std::alloc::Global;

/// Files in memory, whose calls fail where a test wants it. It tells its files and its answers. Its calls are numbered from 1, reads and
/// writes together; a call whose number is listed answers `Failed`, and leaves the files as they were. A call refused for want of memory takes
/// no number.
#[derive(Drop)]
pub struct MemStore {
    alloc: Global,
    files: Vec<(String, Vec<u8>)>,
    seen: Vec<Seen>,
    calls: Calls,
}

impl MemStore {
    /// A store of these files. Where a name stands twice, its first entry is the file.
    pub fn new(alloc: Global, files: Vec<(String, Vec<u8>)>, failing: Vec<u64>) -> MemStore
        ensures files { store_files result ≡ held files.items }
        ensures answers { store_answers result ≡ [] }
        ensures calls { store_calls result ≡ record { failing = failing; made = 0; faults = 0 } }
    {
        MemStore {
            alloc,
            files,
            seen: Vec::new(alloc),
            calls: Calls::new(failing),
        }
    }

    /// The bytes of the file of this name.
    pub fn file(&self, name: &str) -> Option<&[u8]>
        ensures { option_copied result ≡ store_files self.now name.now }
    {
        file_of(&self.files, name)
    }

    /// What each read so far was answered, the latest last.
    pub fn reads(&self) -> &[Seen]
        ensures { map answer result.now ≡ store_answers self.now }
    {
        self.seen.as_slice()
    }
}

impl Store for MemStore {
    ghost files = { λ s. Some (store_files s) };

    ghost answers = { λ s. Some (store_answers s) };

    ghost faults = { λ s. (store_calls s).faults };

    #[tactic(auto, using(crate::proofs::Faults::store_failed))]
    fn read(&mut self, name: &str, most: usize) -> Result<Found, StoreFault>
        ensures found { IfOk result (λ found. content found ≡ reading (store_files self.old name.now) most) }
        ensures files { store_files self.new ≡ store_files self.old }
        ensures answered { IfOk result (λ found.
            store_answers self.new ≡ with_answer name.now most (content found) (store_answers self.old)) }
        ensures refused { OnErr result (store_answers self.new ≡ store_answers self.old) }
        ensures numbered { IsNumbered StoreFault.Failed StoreFault.Memory (store_calls self.old) (store_calls self.new) result }
        ensures cause { HasCause StoreFault.Failed StoreFault.Memory
            (store_calls self.old).faults (store_calls self.new).faults result }
    {
        if self.calls.next_fails() {
            self.calls.failed();
            return Err(StoreFault::Failed);
        }
        let found = find_file(self.alloc, &self.files, name, most)?;
        note(self.alloc, &mut self.seen, name, most, &found)?;
        self.calls.answered();
        Ok(found)
    }

    #[tactic(auto, using(crate::proofs::Faults::store_failed, crate::proofs::FileLemmas::others_kept))]
    fn write(&mut self, name: &str, bytes: &[u8]) -> Result<(), StoreFault>
        ensures written { OnOk result (store_files self.new ≡ with_file name.now (Some bytes.now) (store_files self.old)) }
        ensures kept { OnErr result (store_files self.new ≡ store_files self.old) }
        ensures others { OthersStay name.now (Some (store_files self.old)) (Some (store_files self.new)) }
        ensures answers { store_answers self.new ≡ store_answers self.old }
        ensures numbered { IsNumbered StoreFault.Failed StoreFault.Memory (store_calls self.old) (store_calls self.new) result }
        ensures cause { HasCause StoreFault.Failed StoreFault.Memory
            (store_calls self.old).faults (store_calls self.new).faults result }
    {
        if self.calls.next_fails() {
            self.calls.failed();
            return Err(StoreFault::Failed);
        }
        put_file(self.alloc, &mut self.files, name, bytes)?;
        self.calls.answered();
        Ok(())
    }
}
