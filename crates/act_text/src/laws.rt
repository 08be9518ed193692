//! Each act, reply, why and event is one that texts say, stated on functions that change nothing.

ghost use Rattle.std.specs.Prelude.{◌≡◌, ◌<◌, ◌^◌};
ghost use Rattle.act_text.specs.Acts.{IsAct, IsFormat, ArePorts, FitsWord};
ghost use Rattle.act_text.specs.Names.{IsName};
ghost use Rattle.act_text.specs.Ports.{IsPortName};
ghost use Rattle.act_text.specs.Replies.{IsReply, IsWhy, IsEvent};
ghost use Rattle.act_text.specs.Texts.{IsActText};

use crate::{ActText, Name, PortName, TextAct, TextReply, TextWhy};
use omx_types::{Completion, Event, Format, PortSel};

/// Each act and reply that a program holds is one of those that texts say. So what `put_act` wrote is read back.
pub fn law_of_texts(text: &ActText)
    ensures { IsActText text.now }
{
    law_of_acts(&text.act);
    law_of_replies(&text.reply);
}

fn is_name(name: &Name)
    ensures { IsName name.now }
{
    // The proof learns from it that the bytes are a name.
    let _ = name.as_bytes();
}

fn fits(number: u32)
    ensures { FitsWord number }
{
    // The proof learns from it the number's range.
    let _any = number;
}

fn is_port(port: &PortName)
    ensures { IsPortName port.now }
{
    is_name(&port.component);
    fits(port.index);
}

fn is_format(format: &Format)
    ensures { IsFormat format.now }
{
    // The proof learns from both calls the ranges of their numbers.
    let _ = format.rate();
    let _ = format.channels();
}

fn are_ports(ports: PortSel)
    ensures { ArePorts ports }
{
    match ports {
        PortSel::One(_) => {}
        PortSel::All => {}
    }
}

fn is_definition(port: &PortName, format: &Format, count: u32, size: u32)
    ensures port { IsPortName port.now }
    ensures format { IsFormat format.now }
    ensures count { FitsWord count }
    ensures size { FitsWord size }
{
    is_port(port);
    is_format(format);
    fits(count);
    fits(size);
}

fn is_number_of(component: &Name, number: u32)
    ensures component { IsName component.now }
    ensures number { FitsWord number }
{
    is_name(component);
    fits(number);
}

fn is_number_at(port: &PortName, number: u32)
    ensures port { IsPortName port.now }
    ensures number { FitsWord number }
{
    is_port(port);
    fits(number);
}

fn are_ends(first: &PortName, second: &PortName)
    ensures first { IsPortName first.now }
    ensures second { IsPortName second.now }
{
    is_port(first);
    is_port(second);
}

fn is_command(component: &Name, ports: PortSel)
    ensures component { IsName component.now }
    ensures ports { ArePorts ports }
{
    is_name(component);
    are_ports(ports);
}

fn is_mark(component: &Name, port: u32, target: &Name, value: u64)
    ensures component { IsName component.now }
    ensures port { FitsWord port }
    ensures target { IsName target.now }
    ensures value { value < 2 ^ 64 }
{
    is_name(component);
    fits(port);
    is_name(target);
    // The proof learns from it the value's range.
    let _any = value;
}

fn law_of_acts(act: &TextAct)
    ensures { IsAct act.now }
{
    match act {
        TextAct::Free(component)
        | TextAct::State(component)
        | TextAct::Run(component)
        | TextAct::Claim(component)
        | TextAct::Finish(component)
        | TextAct::Take(component)
        | TextAct::End(component)
        | TextAct::SendState { component, .. } => is_name(component),
        TextAct::Port(port)
        | TextAct::SetSupplier { port, .. }
        | TextAct::Supply(port)
        | TextAct::Release(port)
        | TextAct::Over(port)
        | TextAct::Back(port) => is_port(port),
        TextAct::SetPort {
            port,
            format,
            count,
            size,
        } => is_definition(port, format, *count, *size),
        TextAct::SetPriority {
            component,
            priority,
        } => is_number_of(component, *priority),
        TextAct::Gain { component, gain } => is_number_of(component, *gain),
        TextAct::Weight { port, weight } => is_number_at(port, *weight),
        TextAct::Tunnel { first, second } | TextAct::DropTunnel { first, second } => {
            are_ends(first, second)
        }
        TextAct::SendFlush { component, ports }
        | TextAct::SendDisable { component, ports }
        | TextAct::SendEnable { component, ports } => is_command(component, *ports),
        TextAct::SendMark {
            component,
            port,
            target,
            value,
        } => is_mark(component, *port, target, *value),
        TextAct::Grant => {}
        TextAct::Preempt => {}
    }
}

fn law_of_replies(reply: &TextReply)
    ensures { IsReply reply.now }
{
    match reply {
        TextReply::Port(view) => {
            fits(view.made);
            fits(view.count);
        }
        TextReply::Idle(why) => law_of_whys(why),
        TextReply::Event(event) => law_of_events(*event),
        TextReply::Granted(component) => is_name(component),
        TextReply::Victim(component) => is_name(component),
        TextReply::Done => {}
        TextReply::Error(_) => {}
        TextReply::State(_) => {}
        TextReply::Supplier { input: _ } => {}
        TextReply::Did => {}
        TextReply::Work => {}
        TextReply::Finished { frames } => fits(*frames),
        TextReply::NoNote => {}
        TextReply::Busy => {}
        TextReply::NotHeld => {}
        TextReply::TooLong => {}
        TextReply::NotOut => {}
    }
}

fn law_of_whys(why: &TextWhy)
    ensures { IsWhy why.now }
{
    match why {
        TextWhy::NotAccepting(port) => is_port(port),
        TextWhy::NotRunning(port) => is_port(port),
        TextWhy::PortBusy(port)
        | TextWhy::PortHeld(port)
        | TextWhy::NoData(port)
        | TextWhy::NoRoom(port) => fits(*port),
        TextWhy::Short { have, need } => {
            fits(*have);
            fits(*need);
        }
        TextWhy::Enough { have, need } => {
            fits(*have);
            fits(*need);
        }
        TextWhy::Events { room, need } => {
            fits(*room);
            fits(*need);
        }
        TextWhy::NoCommand => {}
        TextWhy::Pending(_) => {}
        TextWhy::NotSupplier => {}
        TextWhy::IsSupplier => {}
        TextWhy::NoBlock => {}
        TextWhy::NoNumber => {}
        TextWhy::NotLeaving => {}
        TextWhy::NoHeader => {}
        TextWhy::NoWaiter => {}
        TextWhy::NoVictim => {}
        TextWhy::WorkOut => {}
        TextWhy::ComponentNotRunning => {}
        TextWhy::PartEnded => {}
    }
}

fn law_of_events(event: Event)
    ensures { IsEvent event }
{
    match event {
        Event::CmdComplete(Completion::State(_)) => {}
        Event::CmdComplete(Completion::Flush(_)) => {}
        Event::CmdComplete(Completion::Disable(_)) => {}
        Event::CmdComplete(Completion::Enable(_)) => {}
        Event::CmdComplete(Completion::Mark(_)) => {}
        Event::Error(_) => {}
        Event::Mark(_) => {}
        Event::PortSettingsChanged(_) => {}
        Event::BufferFlag { port: _, flags: _ } => {}
        Event::ResourcesAcquired => {}
    }
}
