//! The act of a line is asked of the graph.

ghost use Rattle.std.specs.Prelude.{◌≡◌, length};
ghost use Rattle.graph_acts.specs.Plain.{sight_of};
ghost use Rattle.il_machine.specs.Acts.{Act as Plain};
ghost use Rattle.play_log.specs.Saying.{SaysAct};
ghost use Rattle.audit_acts.specs.Asking.{IsSaid, scene_in};
ghost use Rattle.run_audit.specs.Answering.{IsAnswered, IsReplyOf, IsUnanswered, OnReply, OnSame, OnUnknown, UnlessSame};

use act_text::ActText;
use audit_acts::{act_of, is_same_reply, text_of};
use graph_acts::{Reply, Served};
use note_queues::Client;
use omx_types::Handle;
use outside_io::{Sink, Source};
use script_lang::PartLine;

/// What a graph answered to the act of a line.
pub enum Answered<S: Source, K: Sink, C> {
    /// What the line says.
    Same(Reply<S, K, C>),
    Other(Reply<S, K, C>),
    /// The line names a component that the script hasn't; nothing was asked.
    Unknown,
}

/// Asks the graph for the act that a line says, by the components' lines in script order and their handles, and compares its reply with the
/// line's.
pub fn answer<S: Source, K: Sink, C: Client>(
    served: &mut Served<S, K, C>,
    parts: &[PartLine],
    handles: &[Handle],
    said: &ActText,
) -> Answered<S, K, C>
    requires said { IsSaid (said.now).act }
    requires many { length handles.now ≡ length parts.now }
    ensures same { OnSame result (IsAnswered (sight_of C.Client S.Source K.Sink) served.old.graph served.new.graph parts.now handles.now said.now) }
    ensures other { UnlessSame result (IsUnanswered (sight_of C.Client S.Source K.Sink) served.old.graph parts.now handles.now said.now) }
    ensures reply { OnReply result (IsReplyOf (sight_of C.Client S.Source K.Sink) served.old.graph served.new.graph parts.now handles.now said.now) }
    ensures unasked { OnUnknown result (served.new ≡ served.old) }
    ensures unknown { OnUnknown result ((act : Plain) → SaysAct (scene_in parts.now handles.now) (said.now).act act → ⊥) }
{
    let Some(act) = act_of(parts, handles, &said.act) else {
        return Answered::Unknown;
    };
    let reply = served.answer(act);
    let Some(text) = text_of(&reply) else {
        return Answered::Other(reply);
    };
    if is_same_reply(text, &said.reply) {
        Answered::Same(reply)
    } else {
        Answered::Other(reply)
    }
}
