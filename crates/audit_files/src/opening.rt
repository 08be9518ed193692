//! All files of a play that was done are opened.

ghost use Rattle.std.specs.Prelude.{◌≡◌, ◌≤◌, ℕ, List, [], length, vec_capacity, vec_len, IfErr, IfOk, OnOk};
ghost use Rattle.play_forms.specs.Plans.{IsValid};
ghost use Rattle.script_lang.specs.PlayScripts.{IsPlayScript};
ghost use Rattle.audit_files.specs.Compared.{AreCompared};
ghost use Rattle.audit_files.specs.Left.{HasComparedAll, HasStopped, IsUncompared};

use crate::closing::close_compared;
use crate::comparing::compare_all;
use audio_parts::PartFile;
use compared_files::Comparing;
use omx_types::Fault;
use outside_io::Media;
use play_files::{Opened, fit_to_sources};
use script_lang::Script;
use std::alloc::Global;
use stream_plan::Plan;
use wav_form::WavHead;

/// Opens the sources of a plan, fits it to their heads, and opens the files of its sinks.
fn compare_planned<M: Media>(
    alloc: Global,
    media: &mut M,
    plan: &mut Plan,
    heads: &mut Vec<WavHead>,
    files: &mut Vec<Option<PartFile<M::Src, Comparing<M::Src>>>>,
) -> Result<(), Fault>
    requires valid { IsValid plan.old }
    requires no_heads { heads.old.items ≡ [] }
    requires no_files { files.old.items ≡ [] }
    requires heads_len { vec_len heads.old ≡ 0 }
    requires files_len { vec_len files.old ≡ 0 }
    requires heads_room { length plan.old.parts ≤ vec_capacity heads.old }
    requires files_room { length plan.old.parts ≤ vec_capacity files.old }
    ensures whole { OnOk result (HasComparedAll M.Src.Source (M.outside media.old) (M.outside media.new) plan.old plan.new heads.new.items files.new.items) }
    ensures stopped { IfErr result (HasStopped M.Src.Source (M.outside media.old) (M.outside media.new) plan.old plan.new heads.new.items files.new.items) }
{
    fit_to_sources(alloc, media, plan, heads, files)?;
    compare_all(
        alloc,
        media,
        plan.parts(),
        plan.frames(),
        files.as_mut_slice(),
    )
}

/// Plans the play of a script and opens its files: each source in the script's order with its head, and where the plan fits these, the file
/// of each sink in the script's order, to be compared. Where that isn't done whole, those that were opened are closed again.
pub fn open_compared<M: Media>(
    alloc: Global,
    media: &mut M,
    script: &Script,
) -> Result<Opened<M::Src, Comparing<M::Src>>, Fault>
    requires { (name : List ℕ) × (log : List ℕ) × (text : List ℕ) × IsPlayScript name log text script.now }
    ensures opened { IfOk result (λ opened. AreCompared M.Src.Source script.now (M.outside media.old) (M.outside media.new) opened.plan opened.files.items) }
    ensures unopened { IfErr result (IsUncompared script.now (M.outside media.old) (M.outside media.new)) }
{
    let mut plan = Plan::build(alloc, script)?;
    let Ok(mut heads) = Vec::with_capacity(alloc, plan.parts().len()) else {
        return Err(Fault::OutOfMemory);
    };
    let Ok(mut files) = Vec::with_capacity(alloc, plan.parts().len()) else {
        return Err(Fault::OutOfMemory);
    };
    match compare_planned(alloc, media, &mut plan, &mut heads, &mut files) {
        Ok(()) => Ok(Opened { plan, files }),
        Err(fault) => {
            close_compared(media, files);
            Err(fault)
        }
    }
}
