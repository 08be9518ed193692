//! The end of a play by workers.

ghost use Rattle.std.specs.Prelude.{◌≡◌, ◌↔◌, ℕ, true, false, All, List, Option, IfErr, IfOk, length};
ghost use Rattle.audio_parts.specs.declared.part_file.PartFile.{PartFile};
ghost use Rattle.play_course.specs.Running.{AreSameFiles};
ghost use Rattle.play_graph.specs.Making.{AreGone};
ghost use Rattle.worker_course.specs.Answers.{IsBrokenOff, IsDone};
ghost use Rattle.worker_course.specs.Runs.{HasRun};
ghost use Rattle.worker_course.specs.Sights.{all_seen};

use crate::faults::fault_of;
use crate::laws::law_of_worker_runs;
use audio_parts::PartFile;
use conductor::PlayClient;
use outside_io::{Sink, Source};
use play_course::RunFault;
use play_graph::{end_graph, stop_graph};
use play_log::{LogText, PassLog};
use play_worker::Gate;
use play_workers::Ran;
use stream_plan::Plan;

/// Whether no page wants a line.
fn are_whole(pages: &[PassLog]) -> bool
    ensures { result ≡ true ↔ All (λ page. page.broken ≡ false) pages.now }
{
    for page in pages {
        if !page.is_whole() {
            return false;
        }
    }
    true
}

/// Ends a play by workers: the log's text, with the gates, of one that was done whole. Each file comes to the place of its component.
pub(crate) fn end_play<S: Source, K: Sink, G: Gate + Drop>(
    ran: Ran<S, K, PlayClient, G>,
    plan: &Plan,
    files: &mut [Option<PartFile<S, K>>],
) -> Result<(LogText, Vec<G>), RunFault>
    requires ran { (workers : ℕ) × (before : List (Option (PartFile S K))) × HasRun S.Source K.Sink G.counts plan.now workers before ran }
    requires many { length files.old ≡ length plan.now.parts }
    requires gone { AreGone (length plan.now.parts) files.old }
    ensures same { (workers : ℕ) (before : List (Option (PartFile S K))) → HasRun S.Source K.Sink G.counts plan.now workers before ran
        → AreSameFiles (all_seen S.Source K.Sink before) (all_seen S.Source K.Sink files.new) }
    ensures done { IfOk result (λ done. (workers : ℕ) (before : List (Option (PartFile S K))) → HasRun S.Source K.Sink G.counts plan.now workers before ran
        → IsDone G.counts workers plan.now (all_seen S.Source K.Sink before) (all_seen S.Source K.Sink files.new) done.0 done.1.items) }
    ensures broken_off { IfErr result (λ fault. (workers : ℕ) (before : List (Option (PartFile S K))) → HasRun S.Source K.Sink G.counts plan.now workers before ran
        → IsBrokenOff plan.now (all_seen S.Source K.Sink before) (all_seen S.Source K.Sink files.new) fault) }
{
    let Ran {
        graph,
        pages,
        gates,
        conductor: _,
        ended,
        refused: _,
        worst,
        stopped: _,
    } = ran;
    law_of_worker_runs::<S, K, G>();
    graph.law_of_worlds();
    if !ended || !are_whole(pages.as_slice()) {
        stop_graph(graph, plan, files);
        return Err(fault_of(worst));
    }
    end_graph(graph, plan, files);
    match LogText::merged(pages) {
        Ok(text) => Ok((text, gates)),
        Err(_) => Err(RunFault::OutOfMemory),
    }
}
