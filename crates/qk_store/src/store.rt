ghost use Rattle.std.specs.Prelude.{◌≡◌, ℕ, Option, Some, List, IfOk, IfSome, OnOk, OnErr, IsErrOf};
ghost use Rattle.std.specs.Option.{option_map};
ghost use Rattle.qk_store.specs.Causes.{HasCause};
ghost use Rattle.qk_store.specs.Files.{Files, with_file, OthersStay};
ghost use Rattle.qk_store.specs.Answers.{Answer, content, reading, IsWithin, with_answer};

use crate::{Found, StoreFault};

/// Files by name.
pub trait Store {
    /// The files, where the store tells them. No call changes whether it does.
    ghost files: { Self → Option Files };

    /// What each read so far was answered, the latest last, where the store tells that. No call changes whether it does.
    ghost answers: { Self → Option (List Answer) };

    /// How often the outside has failed. It never falls.
    ghost faults: { Self → ℕ };

    /// The bytes of the file of this name, where there is one and it has at most `most` bytes.
    fn read(&mut self, name: &str, most: usize) -> Result<Found, StoreFault>
        // It answers by the file that stands under the name.
        ensures found { IfOk result (λ found. IfSome (files self.old)
            (λ files. content found ≡ reading (files name.now) most)) }
        // Whatever the file, never more than was asked for.
        ensures within { IfOk result (λ found. IsWithin most (content found)) }
        ensures files { files self.new ≡ files self.old }
        ensures answered { IfOk result (λ found.
            answers self.new ≡ option_map (with_answer name.now most (content found)) (answers self.old)) }
        ensures refused { OnErr result (answers self.new ≡ answers self.old) }
        ensures cause { HasCause StoreFault.Failed StoreFault.Memory (faults self.old) (faults self.new) result };

    /// Makes the file of this name hold these bytes. After `Failed` that file may hold anything.
    fn write(&mut self, name: &str, bytes: &[u8]) -> Result<(), StoreFault>
        ensures written { OnOk result (files self.new ≡ option_map (with_file name.now (Some bytes.now)) (files self.old)) }
        // Whatever it answers.
        ensures others { OthersStay name.now (files self.old) (files self.new) }
        ensures memory { IsErrOf result StoreFault.Memory → files self.new ≡ files self.old }
        ensures answers { answers self.new ≡ answers self.old }
        ensures cause { HasCause StoreFault.Failed StoreFault.Memory (faults self.old) (faults self.new) result };
}
