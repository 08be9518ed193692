//! Acts by which nothing goes out of a graph and nothing in, and what they answer.

ghost use Rattle.std.specs.Prelude.{◌≡◌};
ghost use Rattle.pass_book.specs.Quiet.{act_of, reply_of, IsQuietReply};
ghost use Rattle.graph_acts.specs.Replying.{IsReplyTo};

use board::{Act, Reply};
use il_machine::{Acted, Progress};
use omx_types::{CallError, Command, Handle, OmxError, Param, ParamKey, PortId, Supplier};
use outside_io::{Sink, Source};

/// One such call of a graph with its arguments, in their order.
#[derive(Clone, Copy)]
pub enum QuietAct {
    Progress(Handle),
    SetParameter(Handle, ParamKey, Param),
    SetupTunnel(PortId, PortId),
    DropTunnel(PortId, PortId),
    SendCommand(Handle, Command),
    RunCommand(Handle),
    Supply(Handle, u32),
    Release(Handle, u32),
    HandOver(Handle, u32),
    HandBack(Handle, u32),
}

/// What the call answers.
#[derive(Clone, Copy)]
pub enum QuietReply {
    Progress(Result<Option<Progress>, OmxError>),
    SetParameter(Result<(), OmxError>),
    SetupTunnel(Result<Supplier, OmxError>),
    DropTunnel(Result<(), OmxError>),
    SendCommand(Result<(), OmxError>),
    RunCommand(Result<Acted, OmxError>),
    Supply(Result<Acted, CallError>),
    Release(Result<Acted, OmxError>),
    HandOver(Result<Acted, OmxError>),
    HandBack(Result<Acted, OmxError>),
}

impl QuietAct {
    /// The act.
    pub(crate) fn into_act<S: Source, K: Sink, C>(self) -> Act<S, K, C>
        ensures { result ≡ act_of self }
    {
        match self {
            QuietAct::Progress(h) => Act::Progress(h),
            QuietAct::SetParameter(h, key, value) => Act::SetParameter(h, key, value),
            QuietAct::SetupTunnel(output, input) => Act::SetupTunnel(output, input),
            QuietAct::DropTunnel(output, input) => Act::DropTunnel(output, input),
            QuietAct::SendCommand(h, command) => Act::SendCommand(h, command),
            QuietAct::RunCommand(h) => Act::RunCommand(h),
            QuietAct::Supply(h, port) => Act::Supply(h, port),
            QuietAct::Release(h, port) => Act::Release(h, port),
            QuietAct::HandOver(h, port) => Act::HandOver(h, port),
            QuietAct::HandBack(h, port) => Act::HandBack(h, port),
        }
    }

    /// Of its reply, what that answers.
    pub(crate) fn reply_in<S: Source, K: Sink, C>(self, reply: Reply<S, K, C>) -> QuietReply
        requires { IsReplyTo (act_of self) reply }
        ensures reply { reply ≡ reply_of result }
        ensures kind { IsQuietReply self result }
    {
        match (self, reply) {
            (QuietAct::Progress(_), Reply::Progress(answer)) => QuietReply::Progress(answer),
            (QuietAct::SetParameter(_, _, _), Reply::SetParameter(answer)) => {
                QuietReply::SetParameter(answer)
            }
            (QuietAct::SetupTunnel(_, _), Reply::SetupTunnel(answer)) => {
                QuietReply::SetupTunnel(answer)
            }
            (QuietAct::DropTunnel(_, _), Reply::DropTunnel(answer)) => {
                QuietReply::DropTunnel(answer)
            }
            (QuietAct::SendCommand(_, _), Reply::SendCommand(answer)) => {
                QuietReply::SendCommand(answer)
            }
            (QuietAct::RunCommand(_), Reply::RunCommand(answer)) => QuietReply::RunCommand(answer),
            (QuietAct::Supply(_, _), Reply::Supply(answer)) => QuietReply::Supply(answer),
            (QuietAct::Release(_, _), Reply::Release(answer)) => QuietReply::Release(answer),
            (QuietAct::HandOver(_, _), Reply::HandOver(answer)) => QuietReply::HandOver(answer),
            (QuietAct::HandBack(_, _), Reply::HandBack(answer)) => QuietReply::HandBack(answer),
            _ => unreachable!(),
        }
    }
}
