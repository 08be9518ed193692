//! Files come to sources and sinks.

ghost use Rattle.std.specs.Prelude.{◌≡◌, ◌-◌, ◌≤◌, None, Some, OnOk, OnErr, IfErr};
ghost use Rattle.il_machine.specs.Files.{Attach};
ghost use Rattle.il_machine.specs.Whole.{Steps};
ghost use Rattle.audio_parts.specs.AnyParts.{attached_of, MayAttach, OnFrom};
ghost use Rattle.audio_parts.specs.Shown.{shown_by, terms_by};
ghost use Rattle.il_graph.specs.Filed.{IsFiled};
ghost use Rattle.graph_core.specs.Entries.{look_of};
ghost use Rattle.graph_core.specs.Clients.{KeepsAllClients};
ghost use Rattle.il_graph.specs.HandedIn.{KeepsHandedIn};
ghost use Rattle.il_graph.specs.Shown.{kept, offered, file_of, KeepsFiles};
ghost use Rattle.il_graph.specs.Stood.{plainly};

use crate::graph::Graph;
use audio_parts::{AnyPart, PartFile, law_of_shown};
use note_queues::Client;
use omx_types::{Handle, OmxError};
use outside_io::{Sink, Source};
use part_api::Attached;

/// For which frames the file comes.
fn attached<S, K>(file: &PartFile<S, K>) -> Attached
    ensures { result ≡ attached_of file.now }
{
    match file {
        PartFile::From {
            src: _,
            format,
            frames,
        } => Attached::From {
            format: *format,
            frames: *frames,
        },
        PartFile::To { snk: _, frames } => Attached::To { frames: *frames },
    }
}

/// How many bytes a file that is read has from its place to its size.
fn there<S: Source, K: Sink>(file: &PartFile<S, K>) -> u64
    ensures bytes { OnFrom file.now (λ src format frames. result ≡ S.size src - S.offset src) }
    ensures within { OnFrom file.now (λ src format frames. S.offset src ≤ S.size src) }
{
    match file {
        PartFile::From {
            src,
            format: _,
            frames: _,
        } => src.size() - src.offset(),
        PartFile::To { snk: _, frames: _ } => 0,
    }
}

/// Gives the part the file.
fn give_file<S: Source, K: Sink>(part: &mut AnyPart<S, K>, file: PartFile<S, K>)
    requires free { (terms_by part.old).file ≡ None }
    requires may { MayAttach S.offset S.size (terms_by part.old).kind file }
    ensures { IsFiled file (offered S.offset S.size S.told K.told file) (shown_by S.told K.told K.name part.old) (shown_by S.told K.told K.name part.new) }
{
    law_of_shown(part);
    part.attach(file);
    law_of_shown(part);
}

impl<S: Source, K: Sink, C: Client> Graph<S, K, C> {
    /// A file comes to a source, which reads it from where it stands, or to a sink, which writes it. A late source takes one of any format
    /// that is known, every other source one of its port's format.
    pub fn attach(
        &mut self,
        h: Handle,
        file: PartFile<S, K>,
    ) -> Result<(), (OmxError, PartFile<S, K>)>
        ensures step { Steps (kept C.progress self.old) (kept C.progress self.new) (λ w v. Attach w h (offered S.offset S.size S.told K.told file) (plainly result) v) }
        ensures file { OnOk result (file_of h.generation self.new ≡ Some file) }
        ensures files { KeepsFiles h.generation self.old self.new }
        ensures held { KeepsHandedIn (look_of self.old.core) (look_of self.new.core) }
        ensures clients { KeepsAllClients self.old.core self.new.core }
        ensures handed_back { IfErr result (λ e. e.1 ≡ file) }
        ensures unchanged { OnErr result (self.new ≡ self.old) }
    {
        self.core.law_of_worlds();
        let Some(place) = self.core.place_of(h) else {
            return Err((OmxError::InvalidComponent, file));
        };
        let attached = attached(&file);
        if let Some(error) = self.core.attach_refusal(place, attached, there(&file)) {
            return Err((error, file));
        }
        self.core.attach(place, attached);
        match &mut self.parts[place] {
            Some(seat) => give_file(&mut seat.desk.part, file),
            None => unreachable!(),
        }
        self.core.close_out();
        Ok(())
    }
}
