//! What is asked of a graph in a turn, and what it answers.

use crate::claimed::LentClaim;
use crate::lent::DoneWork;
use header_core::Header;
use il_graph::{Freed, PartFile};
use il_machine::{Acted, Granted, PortView, Preempted, Progress};
use note_queues::Took;
use omx_types::{CallError, Command, Handle, OmxError, Param, ParamKey, PortId, State, Supplier};
use outside_io::{Sink, Source};

/// One call of a graph with its arguments, in their order.
pub enum Act<S: Source, K: Sink, C> {
    GetHandle(String, C),
    FreeHandle(Handle),
    Attach(Handle, PartFile<S, K>),
    GetState(Handle),
    PortView(Handle, u32),
    Progress(Handle),
    GetParameter(Handle, ParamKey),
    GetConfig(Handle, ParamKey),
    SetParameter(Handle, ParamKey, Param),
    SetConfig(Handle, ParamKey, Param),
    SetupTunnel(PortId, PortId),
    DropTunnel(PortId, PortId),
    SendCommand(Handle, Command),
    RunCommand(Handle),
    AllocateBuffer(Handle, u32),
    UseBuffer(Handle, u32, Vec<u8>),
    FreeBuffer(Handle, u32, Header),
    EmptyThisBuffer(Handle, u32, Header),
    FillThisBuffer(Handle, u32, Header),
    TakeNote(Handle),
    EndNote(Handle, C),
    Supply(Handle, u32),
    Release(Handle, u32),
    HandOver(Handle, u32),
    HandBack(Handle, u32),
    Claim(Handle),
    Finish(DoneWork<S, K>),
    Grant,
    Preempt,
}

/// What the call answers.
pub enum Reply<S: Source, K: Sink, C> {
    GetHandle(Result<Handle, (CallError, C)>),
    FreeHandle(Result<Freed<S, K, C>, OmxError>),
    Attach(Result<(), (OmxError, PartFile<S, K>)>),
    GetState(Result<State, OmxError>),
    PortView(Result<PortView, OmxError>),
    Progress(Result<Option<Progress>, OmxError>),
    GetParameter(Result<Param, OmxError>),
    GetConfig(Result<Param, OmxError>),
    SetParameter(Result<(), OmxError>),
    SetConfig(Result<(), OmxError>),
    SetupTunnel(Result<Supplier, OmxError>),
    DropTunnel(Result<(), OmxError>),
    SendCommand(Result<(), OmxError>),
    RunCommand(Result<Acted, OmxError>),
    AllocateBuffer(Result<Header, CallError>),
    UseBuffer(Result<Header, (OmxError, Vec<u8>)>),
    FreeBuffer(Result<Option<Vec<u8>>, (OmxError, Header)>),
    EmptyThisBuffer(Result<(), (OmxError, Header)>),
    FillThisBuffer(Result<(), (OmxError, Header)>),
    TakeNote(Result<Took<C>, OmxError>),
    EndNote,
    Supply(Result<Acted, CallError>),
    Release(Result<Acted, OmxError>),
    HandOver(Result<Acted, OmxError>),
    HandBack(Result<Acted, OmxError>),
    Claim(Result<LentClaim<S, K>, OmxError>),
    Finish,
    Grant(Granted),
    Preempt(Preempted),
}
