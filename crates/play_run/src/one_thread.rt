//! The player of one thread.

ghost use Rattle.std.specs.Prelude.{◌≡◌, List, IfErr, IfOk};
ghost use Rattle.play_log.specs.Entries.{Entry};
ghost use Rattle.play_log.specs.Logged.{IsLogged, Keeps};
ghost use Rattle.play_log.specs.Scenes.{Scene};

use crate::{Playing, law_of_play_logs};
use audio_parts::PartFile;
use outside_io::{Sink, Source};
use play_course::{Player, RunFault};
use play_log::{Log, LogText};
use std::alloc::Global;
use stream_plan::Plan;

/// Plays on the thread that calls it.
#[derive(Clone, Copy)]
pub struct OneThread;

/// The text of the log of a whole play.
fn text_of(log: Log) -> Result<LogText, RunFault>
    ensures logged { (s : Scene) (history : List Entry) → Keeps s history log → IfOk result (IsLogged s history) }
    ensures memory { IfErr result (λ fault. fault ≡ RunFault.OutOfMemory) }
{
    Ok(log.finish()?)
}

impl<S: Source, K: Sink> Player<S, K> for OneThread {
    fn run(
        &mut self,
        alloc: Global,
        plan: Plan,
        files: &mut [Option<PartFile<S, K>>],
    ) -> Result<LogText, RunFault> {
        let mut playing = Playing::new(alloc, plan, files)?;
        law_of_play_logs();
        match playing.play() {
            Ok(()) => text_of(playing.end(files)),
            Err(stop) => {
                playing.stop(files);
                Err(RunFault::from(stop))
            }
        }
    }
}
