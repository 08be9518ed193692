//! What the components have told, by one line more.

ghost use Rattle.std.specs.Prelude.{◌≡◌, length};
ghost use Rattle.act_text.specs.declared.act.TextAct.TheVariants as lines;
ghost use Rattle.act_text.specs.declared.reply.TextReply.TheVariants as texts;
ghost use Rattle.audit_forms.specs.Told.{heard_by, told_more};

use act_text::{ActText, Name, TextAct, TextReply};
use il_machine::Progress;
use note_queues::progress_after;
use omx_types::Event;
use script_lang::PartLine;

/// What a component's progress comes to by an event that was taken of the component of the name.
fn heard(name: &Name, event: Event, part: &PartLine, progress: Progress) -> Progress
    ensures { result ≡ heard_by (part.now).name (lines.Take name.now) (texts.Event event) progress }
{
    if name.as_bytes() == part.name.as_bytes() {
        progress_after(progress, event)
    } else {
        progress
    }
}

/// Tells the components of a line.
pub(crate) fn tell(parts: &[PartLine], said: &ActText, told: &mut [Progress])
    requires { length told.old ≡ length parts.now }
    ensures { told.new ≡ told_more said.now parts.now told.old }
{
    let TextAct::Take(name) = &said.act else {
        return;
    };
    let TextReply::Event(event) = said.reply else {
        return;
    };
    for (place, part) in parts.iter().enumerate() {
        told[place] = heard(name, event, part, told[place]);
    }
}
