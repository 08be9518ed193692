//! The names in a line of a trace script: those it uses were introduced before it, and the one it introduces wasn't.

ghost use Rattle.std.specs.Prelude.{◌≡◌};
ghost use Rattle.script_lang.specs.Known.{has_component, has_header, has_components, act_components, is_known, is_new};

use crate::TraceForm;
use crate::names::Names;
use act_text::{Name, TextAct};

fn has_component(before: &Names, name: &Name) -> bool
    ensures { result ≡ has_component before.now name.now }
{
    before.has_component(name)
}

fn has_header(before: &Names, name: &Name) -> bool
    ensures { result ≡ has_header before.now name.now }
{
    before.has_header(name)
}

/// Whether each component that an act names is there.
fn is_known_act(before: &Names, act: &TextAct) -> bool
    ensures { result ≡ has_components before.now (act_components act.now) }
{
    match act {
        TextAct::Free(component)
        | TextAct::State(component)
        | TextAct::SetPriority { component, .. }
        | TextAct::Gain { component, .. }
        | TextAct::SendState { component, .. }
        | TextAct::SendFlush { component, .. }
        | TextAct::SendDisable { component, .. }
        | TextAct::SendEnable { component, .. }
        | TextAct::Run(component)
        | TextAct::Claim(component)
        | TextAct::Finish(component)
        | TextAct::Take(component)
        | TextAct::End(component) => has_component(before, component),
        TextAct::Port(port)
        | TextAct::SetPort { port, .. }
        | TextAct::SetSupplier { port, .. }
        | TextAct::Weight { port, .. }
        | TextAct::Supply(port)
        | TextAct::Release(port)
        | TextAct::Over(port)
        | TextAct::Back(port) => has_component(before, &port.component),
        TextAct::Tunnel { first, second } | TextAct::DropTunnel { first, second } => {
            has_component(before, &first.component) && has_component(before, &second.component)
        }
        TextAct::SendMark {
            component,
            target,
            ..
        } => has_component(before, component) && has_component(before, target),
        TextAct::Grant | TextAct::Preempt => true,
    }
}

/// Whether each name that a line uses is introduced by an earlier one.
pub fn is_known(before: &Names, form: &TraceForm) -> bool
    ensures { result ≡ is_known before.now form.now }
{
    match form {
        TraceForm::Act(act) => is_known_act(before, act),
        TraceForm::Get {
            component: _,
            kind: _,
        } => true,
        TraceForm::Alloc { header: _, port } => has_component(before, &port.component),
        TraceForm::UseBuf {
            header: _,
            port,
            length: _,
        } => has_component(before, &port.component),
        TraceForm::FreeBuf { header, port } => has_header(before, header)
            && has_component(before, &port.component),
        TraceForm::Etb {
            header,
            port,
            bytes: _,
            eos: _,
        } => has_header(before, header) && has_component(before, &port.component),
        TraceForm::Ftb { header, port } => has_header(before, header)
            && has_component(before, &port.component),
    }
}

/// Whether the name that a line introduces is introduced by no earlier one.
pub fn is_new(before: &Names, form: &TraceForm) -> bool
    ensures { result ≡ is_new before.now form.now }
{
    match form {
        TraceForm::Get { component, kind: _ } => !has_component(before, component),
        TraceForm::Alloc { header, port: _ } => !has_header(before, header),
        TraceForm::UseBuf {
            header,
            port: _,
            length: _,
        } => !has_header(before, header),
        _ => true,
    }
}
