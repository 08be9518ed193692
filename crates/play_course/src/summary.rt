//! What a play tells at its end.

ghost use Rattle.std.specs.Prelude.{◌≡◌, ◌<◌, ◌≤◌, ◌*◌, ℕ, List, IfOk, is_some, length};
ghost use Rattle.omx_types.specs.Formats.{IsWithinLimits, frame_bytes_of};
ghost use Rattle.play_forms.specs.Flows.{no_flow};
ghost use Rattle.play_forms.specs.Settling.{into};
ghost use Rattle.play_plan_laws.specs.Assemblies.{IsReady, PlayFiles};
ghost use Rattle.play_result_laws.specs.Files.{IsWriter, written_by};
ghost use Rattle.play_result_laws.specs.Texts.{size_of};
ghost use Rattle.play_course.specs.Sums.{line_value, planned_line, planned_summary};

use omx_types::Format;
use play_forms::Flow;
use script_lang::PartForm;
use std::alloc::{AllocError, Global};
use std::marker::Model;
use stream_plan::Plan;
use wav_form::head_bytes;

/// A sink, by the place of its component in the script: its frames, and the bytes of its file.
#[derive(Clone, Copy)]
pub struct SinkLine {
    pub component: u32,
    pub frames: u64,
    pub bytes: u64,
}

/// Each sink once, in script order.
#[derive(Drop)]
pub struct Summary {
    sinks: Vec<SinkLine>,
}

impl Model for Summary {
    ghost use Rattle.std.specs.Prelude.{List, map};
    ghost use Rattle.play_result_laws.specs.Summaries.{SinkLine as Line};
    ghost use Rattle.play_course.specs.Sums.{line_value};

    ghost Value = { List Line };

    ghost view = { λ summary. map line_value summary.sinks.items };
}

impl Summary {
    ghost use Rattle.std.specs.Prelude.{◌≡◌, map};
    ghost use Rattle.play_course.specs.Sums.{line_value};

    /// A line for each sink, in the order of the script.
    pub fn sinks(&self) -> &[SinkLine]
        ensures { map line_value result.now ≡ self.now }
    {
        self.sinks.as_slice()
    }
}

/// The size of the file of so many frames.
fn file_size(format: Format, frames: u64) -> u64
    requires lawful { IsWithinLimits format }
    requires fits { frames * frame_bytes_of format ≤ 134217728 }
    ensures { result ≡ size_of format frames }
{
    let mut head = [0u8; 58];
    let start = head_bytes(format, frames, &mut head) as u64;
    let size = frames * u64::from(format.frame_bytes());
    start + size + size % 2
}

/// What comes in at the first input of the component.
fn flow_into(plan: &Plan, place: u32) -> Flow
    requires { length plan.now.flows ≡ length plan.now.joints }
    ensures { result ≡ into no_flow plan.now.joints plan.now.flows place 0 }
{
    let joints = plan.joints();
    let flows = plan.flows();
    for number in 0..joints.len() {
        if joints[number].taker == place && joints[number].input == 0 {
            return flows[number];
        }
    }
    Flow {
        format: Format::Auto,
        frames: 0,
    }
}

fn is_sink(form: &PartForm) -> bool
    ensures { result ≡ is_some (written_by form.now) }
{
    matches!(form, PartForm::Sink(_))
}

/// The line of the sink at the place.
fn line_of(plan: &Plan, place: u32) -> SinkLine
    requires ready { (files : PlayFiles) × IsReady plan.now files }
    requires sink { (name : List ℕ) × IsWriter plan.now.parts place name }
    ensures { line_value result ≡ planned_line plan.now place }
{
    let flow = flow_into(plan, place);
    let frames = plan.frames()[place as usize];
    SinkLine {
        component: place,
        frames,
        bytes: file_size(flow.format, frames),
    }
}

/// What a whole play of the plan tells.
pub fn summary_of(alloc: Global, plan: &Plan) -> Result<Summary, AllocError>
    requires { (files : PlayFiles) × IsReady plan.now files }
    ensures { IfOk result (λ summary. summary ≡ planned_summary plan.now) }
{
    let mut sinks = Vec::new(alloc);
    for place in 0..plan.parts().len() {
        if is_sink(&plan.parts()[place].form) {
            sinks.push(line_of(plan, place as u32))?;
        }
    }
    Ok(Summary { sinks })
}
