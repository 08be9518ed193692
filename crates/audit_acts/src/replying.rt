//! The text of what a graph replies to an act of a play.

ghost use Rattle.std.specs.Prelude.{◌≡◌, IfSome, Some};
ghost use Rattle.il_machine.specs.Acts as acts;
ghost use Rattle.il_graph.specs.Stood.{tookly};
ghost use Rattle.play_log.specs.Saying.{is_input_end, reply_said};
ghost use Rattle.graph_acts.specs.Plain.{Unsaid, plain_reply};
ghost use Rattle.graph_acts.specs.Lending.{claimed_as};
ghost use Rattle.part_api.specs.Terms.{Terms};
ghost use Rattle.audit_acts.specs.Asking.{IsPlainReply, IsPlayText};

use act_text::TextReply;
use graph_acts::{LentClaim, Reply};
use il_machine::Acted;
use note_queues::{Client, Taken, Took};
use omx_types::{CallError, OmxError, Supplier};
use outside_io::{Sink, Source};

fn plain_text(answer: Result<(), OmxError>) -> TextReply
    ensures said { reply_said (acts.Plain answer) ≡ Some result }
    ensures play { IsPlayText result }
{
    match answer {
        Ok(()) => TextReply::Done,
        Err(error) => TextReply::Error(error),
    }
}

/// Which end of a tunnel makes its headers.
fn is_input_end(supplier: Supplier) -> bool
    ensures { result ≡ is_input_end supplier }
{
    matches!(supplier, Supplier::Input)
}

fn joined_text(answer: Result<Supplier, OmxError>) -> TextReply
    ensures said { reply_said (acts.Joined answer) ≡ Some result }
    ensures play { IsPlayText result }
{
    match answer {
        Ok(supplier) => TextReply::Supplier {
            input: is_input_end(supplier),
        },
        Err(error) => TextReply::Error(error),
    }
}

/// None where nothing was done.
fn acted_text(answer: Result<Acted, OmxError>) -> Option<TextReply>
    ensures said { reply_said (acts.Acted answer) ≡ result }
    ensures play { IfSome result IsPlayText }
{
    match answer {
        Ok(Acted::Did) => Some(TextReply::Did),
        Ok(Acted::Idle(_)) => None,
        Err(error) => Some(TextReply::Error(error)),
    }
}

/// None where nothing was done, or memory was wanted.
fn supplied_text(answer: Result<Acted, CallError>) -> Option<TextReply>
    ensures said { reply_said (acts.Supplied answer) ≡ result }
    ensures play { IfSome result IsPlayText }
{
    match answer {
        Ok(Acted::Did) => Some(TextReply::Did),
        Ok(Acted::Idle(_)) => None,
        Err(CallError::Omx(error)) => Some(TextReply::Error(error)),
        Err(CallError::OutOfMemory) => None,
    }
}

/// None where no note came, or one of a header.
fn took_text<C>(answer: &Result<Took<C>, OmxError>) -> Option<TextReply>
    ensures said { reply_said (acts.Took (tookly answer.now)) ≡ result }
    ensures play { IfSome result IsPlayText }
{
    match answer {
        Ok(Took::Call(call)) => match &call.taken {
            Taken::Told(event) => Some(TextReply::Event(*event)),
            Taken::EmptyDone(_) => None,
            Taken::FillDone(_) => None,
        },
        Ok(Took::None) => None,
        Ok(Took::Busy) => None,
        Err(error) => Some(TextReply::Error(*error)),
    }
}

/// None where no work came.
fn claimed_text<S: Source, K: Sink>(answer: &Result<LentClaim<S, K>, OmxError>) -> Option<TextReply>
    ensures said { (t : Terms) → reply_said (acts.Claimed (claimed_as t answer.now)) ≡ result }
    ensures play { IfSome result IsPlayText }
{
    match answer {
        Ok(LentClaim::Work(_)) => Some(TextReply::Work),
        Ok(_) => None,
        Err(error) => Some(TextReply::Error(*error)),
    }
}

/// The text of a reply, where a play's log has one.
pub fn text_of<S: Source, K: Sink, C: Client>(reply: &Reply<S, K, C>) -> Option<TextReply>
    requires { IsPlainReply reply.now }
    ensures said { (u : Unsaid) → reply_said (plain_reply u reply.now) ≡ result }
    ensures play { IfSome result IsPlayText }
{
    match reply {
        Reply::SetParameter(answer) | Reply::DropTunnel(answer) | Reply::SendCommand(answer) => {
            Some(plain_text(*answer))
        }
        Reply::SetupTunnel(answer) => Some(joined_text(*answer)),
        Reply::RunCommand(answer)
        | Reply::Release(answer)
        | Reply::HandOver(answer)
        | Reply::HandBack(answer) => acted_text(*answer),
        Reply::Supply(answer) => supplied_text(*answer),
        Reply::TakeNote(answer) => took_text(answer),
        Reply::Claim(answer) => claimed_text(answer),
        _ => unreachable!(),
    }
}
