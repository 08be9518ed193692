//! A plan is fitted to the sources of a play.

ghost use Rattle.std.specs.Prelude.{◌≡◌, ◌≤◌, [], length, vec_capacity, vec_len, IfErr, OnOk};
ghost use Rattle.play_forms.specs.Plans.{IsValid};
ghost use Rattle.play_files.specs.Seen.{file_seen};
ghost use Rattle.play_files.specs.Stopping.{HasFit, HasNotFit};

use crate::sources::open_sources;
use audio_parts::PartFile;
use omx_types::Fault;
use outside_io::{Media, Sink, Source};
use std::alloc::Global;
use stream_plan::Plan;
use wav_form::WavHead;

/// Opens the sources of a plan, whatever takes what its sinks write, and fits it to their heads. Where one isn't opened, those before it are.
pub fn fit_to_sources<M: Media, K: Sink>(
    alloc: Global,
    media: &mut M,
    plan: &mut Plan,
    heads: &mut Vec<WavHead>,
    files: &mut Vec<Option<PartFile<M::Src, K>>>,
) -> Result<(), Fault>
    requires valid { IsValid plan.old }
    requires no_heads { heads.old.items ≡ [] }
    requires no_files { files.old.items ≡ [] }
    requires heads_len { vec_len heads.old ≡ 0 }
    requires files_len { vec_len files.old ≡ 0 }
    requires heads_room { length plan.old.parts ≤ vec_capacity heads.old }
    requires files_room { length plan.old.parts ≤ vec_capacity files.old }
    ensures fit { OnOk result (HasFit (file_seen M.Src.Source K.Sink) (M.outside media.old) (M.outside media.new) plan.old plan.new heads.new.items files.new.items) }
    ensures stopped { IfErr result (HasNotFit (file_seen M.Src.Source K.Sink) (M.outside media.old) (M.outside media.new) plan.old plan.new heads.new.items files.new.items) }
{
    open_sources(alloc, media, plan.parts(), heads, files)?;
    plan.fit(heads.as_slice())?;
    Ok(())
}
