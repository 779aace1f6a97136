// Standard output. What a terminal or a pipe shows is trusted, as the files of a folder are.
ghost use Rattle.std.specs.Prelude.{◌≡◌, None};

use crate::calls::one_more;
use crate::stream::write_whole;
use crate::{Sink, SinkFault};
use std::io;

/// Standard output of the program that was given this runtime. It tells nothing of what was put.
#[derive(Drop)]
pub struct OutSink<'a, R> {
    rt: &'a R,
    faults: u64,
}

impl<'a, R: Print> OutSink<'a, R> {
    pub fn new(rt: &'a R) -> OutSink<'a, R>
        ensures bytes { ⟦<OutSink<'a, R> as Sink>⟧.bytes result ≡ None }
        ensures faults { ⟦<OutSink<'a, R> as Sink>⟧.faults result ≡ 0 }
    {
        OutSink { rt, faults: 0 }
    }
}

impl<'a, R: Print> Sink for OutSink<'a, R> {
    ghost bytes = { λ _. None };

    ghost faults = { λ s. s.faults };

    #[tactic(auto, using(crate::proofs::Faults::sink_failed))]
    fn put(&mut self, piece: &[u8]) -> Result<(), SinkFault> {
        match write_whole(&mut io::writer(self.rt), piece) {
            Ok(()) => Ok(()),
            Err(_) => {
                self.faults = one_more(self.faults);
                Err(SinkFault::Failed)
            }
        }
    }
}
