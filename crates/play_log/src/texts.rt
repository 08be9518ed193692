//! The text of each act that a play makes, as its log has it.

ghost use Rattle.std.specs.Prelude.{Ok};
ghost use Rattle.omx_types.specs.declared.command.Command.TheVariants.{PortDisable, PortEnable, StateSet};
ghost use Rattle.omx_types.specs.declared.command.PortSel.TheVariants.{One};
ghost use Rattle.il_machine.specs.declared.answer.Acted.TheVariants.{Did};
ghost use Rattle.il_machine.specs.declared.answer.Progress.{Progress};
ghost use Rattle.il_machine.specs.Acts as acts;
ghost use Rattle.il_machine.specs.Claims.{ClaimedWork, WorkSeen};
ghost use Rattle.il_machine.specs.Notes.{TakenEvent, TookNote};
ghost use Rattle.play_log.specs.Saying.{port_at};
ghost use Rattle.play_log.specs.Said.{SaysFinish, SaysOf, SaysOfBoth, SaysPort};

use act_text::{ActText, Name, PortName, TextAct, TextReply};
use omx_types::{Event, Format, PortSel, State, Supplier};

/// A state was sent.
pub fn sent(component: Name, state: State) -> ActText
    ensures { SaysOf component result (λ h. acts.SendCommand h (StateSet state)) (acts.Plain (Ok tt)) }
{
    ActText {
        act: TextAct::SendState { component, state },
        reply: TextReply::Done,
    }
}

/// A command was run.
pub fn ran(component: Name) -> ActText
    ensures { SaysOf component result (λ h. acts.RunCommand h) (acts.Acted (Ok Did)) }
{
    ActText {
        act: TextAct::Run(component),
        reply: TextReply::Did,
    }
}

/// A note was taken, which tells an event.
pub fn took(component: Name, event: Event) -> ActText
    ensures { SaysOf component result (λ h. acts.TakeNote h) (acts.Took (Ok (TookNote (TakenEvent event)))) }
{
    ActText {
        act: TextAct::Take(component),
        reply: TextReply::Event(event),
    }
}

/// The client object came back.
pub fn ended(component: Name) -> ActText
    ensures { (progress : Progress) → SaysOf component result (λ h. acts.EndNote h progress) acts.Ended }
{
    ActText {
        act: TextAct::End(component),
        reply: TextReply::Done,
    }
}

/// The port made a header.
pub fn supplied(port: PortName) -> ActText
    ensures { SaysOf port.component result (λ h. acts.Supply h port.index) (acts.Supplied (Ok Did)) }
{
    ActText {
        act: TextAct::Supply(port),
        reply: TextReply::Did,
    }
}

/// The port unmade a header.
pub fn released(port: PortName) -> ActText
    ensures { SaysOf port.component result (λ h. acts.Release h port.index) (acts.Acted (Ok Did)) }
{
    ActText {
        act: TextAct::Release(port),
        reply: TextReply::Did,
    }
}

/// The port handed a header over.
pub fn handed_over(port: PortName) -> ActText
    ensures { SaysOf port.component result (λ h. acts.HandOver h port.index) (acts.Acted (Ok Did)) }
{
    ActText {
        act: TextAct::Over(port),
        reply: TextReply::Did,
    }
}

/// The port handed a header back.
pub fn handed_back(port: PortName) -> ActText
    ensures { SaysOf port.component result (λ h. acts.HandBack h port.index) (acts.Acted (Ok Did)) }
{
    ActText {
        act: TextAct::Back(port),
        reply: TextReply::Did,
    }
}

/// The work of the component went out.
pub fn claimed(component: Name) -> ActText
    ensures { (work : WorkSeen) → SaysOf component result (λ h. acts.Claim h) (acts.Claimed (Ok (ClaimedWork work))) }
{
    ActText {
        act: TextAct::Claim(component),
        reply: TextReply::Work,
    }
}

/// It came back, with the frames that its step did.
pub fn finished(component: Name, frames: u32) -> ActText
    ensures { SaysFinish component frames result }
{
    ActText {
        act: TextAct::Finish(component),
        reply: TextReply::Finished { frames },
    }
}

/// The port's disable was sent.
pub fn disabled(port: PortName) -> ActText
    ensures { SaysOf port.component result (λ h. acts.SendCommand h (PortDisable (One port.index))) (acts.Plain (Ok tt)) }
{
    ActText {
        act: TextAct::SendDisable {
            component: port.component,
            ports: PortSel::One(port.index),
        },
        reply: TextReply::Done,
    }
}

/// The port's enable was sent.
pub fn enabled(port: PortName) -> ActText
    ensures { SaysOf port.component result (λ h. acts.SendCommand h (PortEnable (One port.index))) (acts.Plain (Ok tt)) }
{
    ActText {
        act: TextAct::SendEnable {
            component: port.component,
            ports: PortSel::One(port.index),
        },
        reply: TextReply::Done,
    }
}

/// The tunnel of two ports was dropped.
pub fn dropped(first: PortName, second: PortName) -> ActText
    ensures { SaysOfBoth first.component second.component result
        (λ h k. acts.DropTunnel (port_at h first.index) (port_at k second.index)) (acts.Plain (Ok tt)) }
{
    ActText {
        act: TextAct::DropTunnel { first, second },
        reply: TextReply::Done,
    }
}

/// The port's definition was set.
pub fn set_port(port: PortName, format: Format, count: u32, size: u32) -> ActText
    ensures { SaysPort port.component port.index format count size result }
{
    ActText {
        act: TextAct::SetPort {
            port,
            format,
            count,
            size,
        },
        reply: TextReply::Done,
    }
}

/// A tunnel of two ports was set up, whose headers that end makes.
pub fn joined(first: PortName, second: PortName, supplier: Supplier) -> ActText
    ensures { SaysOfBoth first.component second.component result
        (λ h k. acts.SetupTunnel (port_at h first.index) (port_at k second.index)) (acts.Joined (Ok supplier)) }
{
    ActText {
        act: TextAct::Tunnel { first, second },
        reply: TextReply::Supplier {
            input: matches!(supplier, Supplier::Input),
        },
    }
}
