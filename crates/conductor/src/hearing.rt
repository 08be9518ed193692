//! What a conductor learns from the views of the components.

ghost use Rattle.std.specs.Prelude.{◌≡◌, ◌||◌, length};
ghost use Rattle.std.specs.Option.{option_copied};
ghost use Rattle.conductor.specs.Hearing.{heard_late, heard_lates, heard_view, heard_views, is_disable, is_enable, tells_disable, tells_enable};

use crate::LateLink;
use il_machine::Progress;
use omx_types::Completion;

fn is_disable(port: u32, done: Option<Completion>) -> bool
    ensures { result ≡ is_disable port done }
{
    match done {
        Some(Completion::Disable(other)) => other == port,
        _ => false,
    }
}

fn is_enable(port: u32, done: Option<Completion>) -> bool
    ensures { result ≡ is_enable port done }
{
    match done {
        Some(Completion::Enable(other)) => other == port,
        _ => false,
    }
}

/// Has the component told that the port is disabled?
pub fn tells_disable(port: u32, progress: Option<&Progress>) -> bool
    ensures { result ≡ tells_disable port (option_copied progress.entry) }
{
    match progress {
        Some(progress) => is_disable(port, progress.port),
        None => false,
    }
}

/// Has the component told that the port is enabled?
pub fn tells_enable(port: u32, progress: Option<&Progress>) -> bool
    ensures { result ≡ tells_enable port (option_copied progress.entry) }
{
    match progress {
        Some(progress) => is_enable(port, progress.port),
        None => false,
    }
}

fn heard_late(told: &[Progress], late: LateLink) -> LateLink
    ensures { result ≡ heard_late told.now late }
{
    let output = told.get(late.source as usize);
    let input = told.get(late.taker as usize);
    LateLink {
        source: late.source,
        taker: late.taker,
        input: late.input,
        steps: late.steps,
        output_disabled: late.output_disabled | tells_disable(0, output),
        input_disabled: late.input_disabled | tells_disable(late.input, input),
        output_enabled: late.output_enabled | tells_enable(0, output),
        input_enabled: late.input_enabled | tells_enable(late.input, input),
    }
}

/// Takes in the views. One that is None tells nothing new.
pub fn hear_views(told: &mut [Progress], views: &[Option<Progress>])
    requires { length views.now ≡ length told.old }
    ensures { told.new ≡ heard_views told.old views.now }
{
    for place in 0..views.len() {
        if let Some(view) = views[place] {
            told[place] = view;
        }
    }
}

/// Takes in what the ends of the late sources' links have told.
pub fn hear_lates(told: &[Progress], lates: &mut [LateLink])
    ensures { lates.new ≡ heard_lates told.now lates.old }
{
    for late in lates.iter_mut() {
        *late = heard_late(told, *late);
    }
}
