//! A writer as a sink that flushes after each write, for standard output.

ghost use Rattle.std.specs.Io.KnownBytes.{Appends, append_known};
ghost use Rattle.std.specs.Io.{WritesAtMost};
ghost use Rattle.std.specs.Prelude.{◌≡◌, ◌<◌, ◌≤◌, length, take, IfOk, OnErr, Some, option_map};
ghost use Rattle.outside_io.specs.Causes.{HasCause};
ghost use Rattle.outside_io.specs.Writings.{after};
ghost use Rattle.outside_io.specs.declared.writing.Writing.TheVariants.{Going};

use crate::retry::{flush, write_some};
use outside_io::{Failed, Sink, Writing};
use std::io::{self, Write};

/// A writer as standard output. It keeps nothing back between calls, so a failed print is told.
#[derive(Drop)]
pub struct HostSink<W> {
    writer: W,
    faults: u64,
    printing: Writing,
}

impl<W> HostSink<W> {
    ghost use Rattle.outside_host.specs.Adapters.{sink_writer, prints_of, HasNoFault};

    /// A sink over a writer, to which nothing was written yet.
    pub fn new(writer: W) -> HostSink<W>
        ensures writer { sink_writer result ≡ writer }
        ensures faults { HasNoFault result }
        ensures printing { prints_of result ≡ Going }
    {
        HostSink {
            writer,
            faults: 0,
            printing: Writing::Going,
        }
    }
}

impl<W: Write> HostSink<W> {
    ghost use Rattle.outside_host.specs.Adapters.{sink_writer};

    fn print(&mut self, piece: &[u8]) -> io::Result<usize>
        ensures some { IfOk result (λ count. 0 < count) }
        ensures bound { IfOk result (λ count. count ≤ length piece.now) }
        ensures faults { self.new.faults ≡ self.old.faults }
        ensures printing { self.new.printing ≡ self.old.printing }
        ensures printed { IfOk result (λ count. Appends (W.contents (sink_writer self.old)) (W.contents (sink_writer self.new)) (take count piece.now)) }
    {
        let count = write_some(&mut self.writer, piece)?;
        flush(&mut self.writer)?;
        Ok(count)
    }
}

impl<W: Write> Sink for HostSink<W> {
    ghost use Rattle.outside_host.specs.Adapters.{sink_writer, prints_of, unnamed, untold};

    ghost told = { λ s. untold };

    ghost name = { λ s. unnamed };

    ghost faults = { λ s. s.faults };

    ghost writing = { λ s. Some (prints_of s) };

    fn faults(&self) -> u64 {
        self.faults
    }

    fn write(&mut self, piece: &[u8]) -> Result<usize, Failed>
        requires { 0 < length piece.now }
        ensures bound { WritesAtMost result piece.now }
        ensures some { IfOk result (λ count. 0 < count) }
        ensures taken { IfOk result (λ count. untold ≡ append_known untold (take count piece.now)) }
        ensures kept { OnErr result (untold ≡ untold) }
        ensures name { unnamed ≡ unnamed }
        ensures cause { HasCause self.old.faults self.new.faults result }
        ensures writing { Some (prints_of self.new) ≡ option_map (after result) (Some (prints_of self.old)) }
        ensures printed { IfOk result (λ count. Appends (W.contents (sink_writer self.old)) (W.contents (sink_writer self.new)) (take count piece.now)) }
    {
        match self.print(piece) {
            Ok(count) => {
                self.printing = self.printing.after_done();
                Ok(count)
            }
            Err(_error) => {
                self.faults = self.faults.saturating_add(1);
                self.printing = self.printing.after_failed();
                Err(Failed)
            }
        }
    }
}
