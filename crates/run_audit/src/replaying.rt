//! A log's text is replayed from its first line to its end.

ghost use Rattle.std.specs.Prelude.{◌≡◌, ◌⊎◌, ◌+◌, ◌-◌, ◌<◌, ◌^◌, ℕ, Bool, List, Option, length, IsTrue};
ghost use Rattle.il_graph.specs.Shown.{offered};
ghost use Rattle.play_graph.specs.Making.{CanMake};
ghost use Rattle.play_plan_laws.specs.Assemblies.{PlayFiles};
ghost use Rattle.run_audit.specs.Opening.{play_sight};
ghost use Rattle.run_audit.specs.Seeing.{compared};
ghost use Rattle.run_audit.specs.Ending.{AreWhole, GiveAll, HasUnlike};
ghost use Rattle.run_audit.specs.Replayed.{AreGiven, FilesComeBack, IsVerdictBy, OnFailure, OnVerdict};

use crate::ending::are_whole;
use crate::replay::Replay;
use crate::walking::Walked;
use audio_parts::PartFile;
use compared_files::Comparing;
use conductor::PlayClient;
use omx_types::{AuditWhy, PartFault};
use outside_io::Source;
use std::alloc::Global;
use stream_plan::Plan;

/// What a replay came to.
#[derive(Clone, Copy)]
pub enum Replayed {
    /// So many lines passed, and `end`.
    Yes(u64),
    No { line: u64, why: AuditWhy },
    /// A step failed of the component at that place.
    Failed { component: usize, fault: PartFault },
    OutOfMemory,
}

/// At an `end` of that number: the sinks' files decide.
fn at_end<S: Source>(line: u64, files: &[Option<PartFile<S, Comparing<S>>>]) -> Replayed
    ensures decided { ((result ≡ Replayed.Yes (line - 1)) × AreWhole S.told files.now) ⊎ ((result ≡ Replayed.No line AuditWhy.NotEnded) × HasUnlike S.told files.now) }
    ensures gives { (acts : ℕ) → result ≡ Replayed.Yes acts → GiveAll S.told S.ends files.now }
{
    if are_whole(files) {
        Replayed::Yes(line.saturating_sub(1))
    } else {
        not_ended(line)
    }
}

fn not_ended(line: u64) -> Replayed
    ensures { result ≡ Replayed.No line AuditWhy.NotEnded }
{
    Replayed::No {
        line,
        why: AuditWhy::NotEnded,
    }
}

/// Replays the text of a log on the graph of a plan. Each file comes back to the place of its component.
pub(crate) fn replay<S: Source>(
    alloc: Global,
    plan: Plan,
    text: &[u8],
    files: &mut [Option<PartFile<S, Comparing<S>>>],
) -> Replayed
    requires files { (tells : Bool) × (given : PlayFiles) × (sinks : ℕ → Option (List ℕ))
        × AreGiven tells S.told (offered S.offset S.size S.told (compared S.Source).told) plan given sinks files.old }
    requires room { 1 + length text.now < 2 ^ 64 }
    ensures verdict { (given : PlayFiles) (sinks : ℕ → Option (List ℕ)) → (tells : Bool) → IsTrue tells
        → AreGiven tells S.told (offered S.offset S.size S.told (compared S.Source).told) plan given sinks files.old
        → OnVerdict result (IsVerdictBy plan given sinks text.now) }
    ensures many { length files.new ≡ length files.old }
    ensures files { FilesComeBack (play_sight S.Source) plan files.old files.new }
    ensures gives { (acts : ℕ) → result ≡ Replayed.Yes acts → GiveAll S.told S.ends files.new }
    ensures failed { OnFailure (play_sight S.Source) plan files.old files.new result }
{
    let mut replay = match Replay::new(alloc, plan, files) {
        Ok(replay) => replay,
        Err(_) => return Replayed::OutOfMemory,
    };
    replay.served.graph.law_of_worlds();
    match replay.walk(1, text) {
        Walked::Ended(line) => {
            if replay.is_at_rest() {
                replay.take_apart(files);
                at_end(line, files)
            } else {
                replay.leave(files);
                not_ended(line)
            }
        }
        Walked::Stopped { line, why } => {
            replay.leave(files);
            Replayed::No { line, why }
        }
        Walked::Failed {
            line: _,
            component,
            fault,
        } => {
            replay.leave(files);
            Replayed::Failed { component, fault }
        }
    }
}
