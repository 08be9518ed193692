//! Sources and sinks get their files.

ghost use Rattle.std.specs.Prelude.{◌≡◌, ◌+◌, ◌<◌, ◌≤◌, length, IfSome, Some};
ghost use Rattle.il_graph.specs.Shown.{file_of, offered, KeepsFiles};
ghost use Rattle.play_build_laws.specs.Stages.{Filing};
ghost use Rattle.play_plan_laws.specs.Assemblies.{PlayFiles};
ghost use Rattle.play_graph.specs.Making.{AreGone, AreOffered, HaveCome, IsAt, IsOfferedAt};

use crate::handles::{count, handle};
use audio_parts::PartFile;
use conductor::PlayClient;
use il_graph::Graph;
use outside_io::{Sink, Source};
use stream_plan::Plan;

/// The component at the place gets its file.
fn attach<S: Source, K: Sink>(
    graph: &mut Graph<S, K, PlayClient>,
    plan: &Plan,
    place: u32,
    file: PartFile<S, K>,
)
    requires there { place < length plan.now.parts }
    requires stands { (files : PlayFiles) × IsAt plan.now files (Filing place) graph.old × IsOfferedAt plan.now files (offered S.offset S.size S.told K.told) place (Some file) }
    ensures goes { (files : PlayFiles) → IsAt plan.now files (Filing place) graph.old → IsOfferedAt plan.now files (offered S.offset S.size S.told K.told) place (Some file) → IsAt plan.now files (Filing (place + 1)) graph.new }
    ensures file { file_of place graph.new ≡ Some file }
    ensures files { KeepsFiles place graph.old graph.new }
{
    let h = handle(graph, place);
    match graph.attach(h, file) {
        Ok(()) => {}
        Err(_) => unreachable!(),
    }
}

/// The component at the place gets its file, if it reads or writes one.
fn give_file<S: Source, K: Sink>(
    graph: &mut Graph<S, K, PlayClient>,
    plan: &Plan,
    place: u32,
    file: Option<PartFile<S, K>>,
)
    requires there { place < length plan.now.parts }
    requires stands { (files : PlayFiles) × IsAt plan.now files (Filing place) graph.old × IsOfferedAt plan.now files (offered S.offset S.size S.told K.told) place file }
    ensures goes { (files : PlayFiles) → IsAt plan.now files (Filing place) graph.old → IsOfferedAt plan.now files (offered S.offset S.size S.told K.told) place file → IsAt plan.now files (Filing (place + 1)) graph.new }
    ensures file { IfSome file (λ its. file_of place graph.new ≡ Some its) }
    ensures files { KeepsFiles place graph.old graph.new }
{
    match file {
        None => {}
        Some(file) => attach(graph, plan, place, file),
    }
}

/// All get theirs, from their places.
pub(crate) fn give_files<S: Source, K: Sink>(
    graph: &mut Graph<S, K, PlayClient>,
    plan: &Plan,
    files: &mut [Option<PartFile<S, K>>],
)
    requires few { length plan.now.parts ≤ 32 }
    requires many { length files.old ≡ length plan.now.parts }
    requires stands { (given : PlayFiles) × IsAt plan.now given (Filing 0) graph.old × AreOffered plan.now given (offered S.offset S.size S.told K.told) files.old }
    ensures goes { (given : PlayFiles) → IsAt plan.now given (Filing 0) graph.old → AreOffered plan.now given (offered S.offset S.size S.told K.told) files.old → IsAt plan.now given (Filing (length plan.now.parts)) graph.new }
    ensures many { length files.new ≡ length files.old }
    ensures gone { AreGone (length plan.now.parts) files.new }
    ensures came { HaveCome (length plan.now.parts) files.old graph.new }
{
    for place in 0..count(plan) {
        let file = files[place as usize].take();
        give_file(graph, plan, place, file);
    }
}
