//! All files of a play are opened.

ghost use Rattle.std.specs.Prelude.{◌≡◌, ◌≤◌, ℕ, List, [], length, vec_capacity, vec_len, IfErr, IfOk, OnOk};
ghost use Rattle.play_forms.specs.Plans.{IsValid};
ghost use Rattle.play_files.specs.Stopping.{HasStopped, HasOpenedAll};
ghost use Rattle.script_lang.specs.PlayScripts.{IsPlayScript};
ghost use Rattle.play_files.specs.Left.{IsUnopened};
ghost use Rattle.play_files.specs.Whole.{AreAllOpen};
ghost use Rattle.play_files.specs.Seen.{file_seen};

use crate::closing::close_files;
use crate::fitting::fit_to_sources;
use crate::sinks::open_sinks;
use audio_parts::PartFile;
use omx_types::Fault;
use outside_io::{Media, Sink, Source};
use script_lang::Script;
use std::alloc::Global;
use stream_plan::Plan;
use wav_form::WavHead;

/// A plan that is fitted to its files, and these by the places of its components.
pub struct Opened<S: Source, K: Sink> {
    pub plan: Plan,
    pub files: Vec<Option<PartFile<S, K>>>,
}

/// Opens the sources of a plan, fits it to their heads, and opens its sinks.
fn open_planned<M: Media>(
    alloc: Global,
    media: &mut M,
    plan: &mut Plan,
    heads: &mut Vec<WavHead>,
    files: &mut Vec<Option<PartFile<M::Src, M::Snk>>>,
) -> Result<(), Fault>
    requires valid { IsValid plan.old }
    requires no_heads { heads.old.items ≡ [] }
    requires no_files { files.old.items ≡ [] }
    requires heads_len { vec_len heads.old ≡ 0 }
    requires files_len { vec_len files.old ≡ 0 }
    requires heads_room { length plan.old.parts ≤ vec_capacity heads.old }
    requires files_room { length plan.old.parts ≤ vec_capacity files.old }
    ensures whole { OnOk result (HasOpenedAll (file_seen M.Src.Source M.Snk.Sink) (M.outside media.old) (M.outside media.new) plan.old plan.new heads.new.items files.new.items) }
    ensures stopped { IfErr result (HasStopped (file_seen M.Src.Source M.Snk.Sink) (M.outside media.old) (M.outside media.new) plan.old plan.new heads.new.items files.new.items) }
{
    fit_to_sources(alloc, media, plan, heads, files)?;
    open_sinks(
        alloc,
        media,
        plan.parts(),
        plan.frames(),
        files.as_mut_slice(),
    )
}

/// Plans the play of a script and opens its files: each source in the script's order with its head, and where the plan fits these, each
/// sink in the script's order. Where that isn't done whole, those that were opened are closed again.
pub fn open_files<M: Media>(
    alloc: Global,
    media: &mut M,
    script: &Script,
) -> Result<Opened<M::Src, M::Snk>, Fault>
    requires { (name : List ℕ) × (log : List ℕ) × (text : List ℕ) × IsPlayScript name log text script.now }
    ensures opened { IfOk result (λ opened. AreAllOpen (file_seen M.Src.Source M.Snk.Sink) script.now (M.outside media.old) (M.outside media.new) opened.plan opened.files.items) }
    ensures unopened { IfErr result (IsUnopened script.now (M.outside media.old) (M.outside media.new)) }
{
    let mut plan = Plan::build(alloc, script)?;
    let Ok(mut heads) = Vec::with_capacity(alloc, plan.parts().len()) else {
        return Err(Fault::OutOfMemory);
    };
    let Ok(mut files) = Vec::with_capacity(alloc, plan.parts().len()) else {
        return Err(Fault::OutOfMemory);
    };
    match open_planned(alloc, media, &mut plan, &mut heads, &mut files) {
        Ok(()) => Ok(Opened { plan, files }),
        Err(fault) => {
            // The first fault is told, not one of a closing.
            let _ = close_files(media, files);
            Err(fault)
        }
    }
}
