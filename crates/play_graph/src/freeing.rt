//! The components are freed, and their files come back (OpenMAX IL 1.1.2, `OMX_FreeHandle`).

ghost use Rattle.std.specs.Prelude.{◌≡◌, ◌+◌, ◌<◌, ◌≤◌, length, slice_get, slice_set, Some, None};
ghost use Rattle.il_machine.specs.Whole.{StepsWhere};
ghost use Rattle.il_graph.specs.Shown.{file_of, KeepsFiles};
ghost use Rattle.play_build_laws.specs.Dismantling.{AreFirst, IsUnjoined};
ghost use Rattle.play_graph.specs.Graphs.{kept_of};
ghost use Rattle.play_graph.specs.Ending.{AreBack, AreFilesOf, IsBackAt, StandsFor};
ghost use Rattle.play_graph.specs.Making.{AreGone};

use crate::handles::{count, handle};
use audio_parts::PartFile;
use conductor::PlayClient;
use il_graph::Graph;
use outside_io::{Sink, Source};
use std::mem::replace;
use stream_plan::Plan;

/// Frees the last component, which is at the place, and answers its file.
fn free<S: Source, K: Sink>(
    graph: &mut Graph<S, K, PlayClient>,
    place: u32,
) -> Option<PartFile<S, K>>
    requires { StandsFor (IsUnjoined (place + 1)) graph.old }
    ensures steps { StepsWhere (kept_of graph.old) (kept_of graph.new) (IsUnjoined (place + 1)) (λ w v. IsUnjoined place v × AreFirst place w v × IsBackAt w place result) }
    ensures file { result ≡ file_of place graph.old }
    ensures files { KeepsFiles place graph.old graph.new }
{
    let h = handle(graph, place);
    match graph.free_handle(h) {
        Ok(freed) => freed.file,
        Err(_) => unreachable!(),
    }
}

/// Puts the file at its place, where none is.
fn put<F>(files: &mut [Option<F>], place: u32, file: Option<F>)
    requires there { place < length files.old }
    requires free { slice_get files.old place ≡ Some None }
    ensures { files.new ≡ slice_set files.old place file }
{
    match replace(&mut files[place as usize], file) {
        None => {}
        Some(_) => unreachable!(),
    }
}

/// Frees all components, from the last to the first. Each file comes to the place of its component.
pub(crate) fn free_all<S: Source, K: Sink>(
    graph: &mut Graph<S, K, PlayClient>,
    plan: &Plan,
    files: &mut [Option<PartFile<S, K>>],
)
    requires few { length plan.now.parts ≤ 32 }
    requires many { length files.old ≡ length plan.now.parts }
    requires gone { AreGone (length plan.now.parts) files.old }
    requires stands { StandsFor (IsUnjoined (length plan.now.parts)) graph.old }
    ensures many { length files.new ≡ length files.old }
    ensures steps { StepsWhere (kept_of graph.old) (kept_of graph.new) (IsUnjoined (length plan.now.parts)) (λ w v. IsUnjoined 0 v × AreBack w files.new) }
    ensures files { AreFilesOf graph.old (length plan.now.parts) files.new }
{
    let mut left = count(plan);
    while left > 0 {
        left -= 1;
        let file = free(graph, left);
        put(files, left, file);
    }
}
