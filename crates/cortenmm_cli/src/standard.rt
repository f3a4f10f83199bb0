//! Standard input and output as a source and a sink: the trusted edge. They tell nothing of what they give and take.
ghost use Rattle.std.specs.Prelude.{None};

use corten_base::{ReadAnswer, Sink, Source, WriteAnswer};
use std::io::{Read, Stdin, Stdout, Write};

/// Standard input.
#[derive(Drop)]
pub struct StdSource {
    pub input: Stdin,
    pub faults: u64,
}

impl Source for StdSource {
    ghost left = { λ _. None };

    ghost faults = { λ s. s.faults };

    fn read(&mut self, buf: &mut [u8]) -> ReadAnswer {
        match self.input.read(buf) {
            Ok(0) => ReadAnswer::End,
            Ok(count) => ReadAnswer::Got(count),
            Err(_) => {
                self.faults = self.faults.saturating_add(1);
                ReadAnswer::Failed
            }
        }
    }
}

/// Standard output.
#[derive(Drop)]
pub struct StdSink {
    pub output: Stdout,
    pub faults: u64,
}

impl Sink for StdSink {
    ghost held = { λ _. None };

    ghost faults = { λ s. s.faults };

    fn write(&mut self, bytes: &[u8]) -> WriteAnswer {
        match self.output.write(bytes) {
            Ok(0) | Err(_) => {
                self.faults = self.faults.saturating_add(1);
                WriteAnswer::Failed
            }
            Ok(count) => WriteAnswer::Took(count),
        }
    }
}
