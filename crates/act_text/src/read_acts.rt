//! Acts are read from words, with the states, suppliers, formats and selected ports in them.

ghost use Rattle.std.specs.Prelude.{◌≡◌, ◌^◌, ◌<◌, ◌∷◌, [], ℕ, List, IfSome, Some, length, map, codes};
ghost use Rattle.omx_types.specs.Names.{state_name};
ghost use Rattle.act_text.specs.Acts.{act_words, supplier_word, ports_word, format_words, definition_words, IsAct, IsFormat, ArePorts};
ghost use Rattle.act_text.specs.Names.{IsName};
ghost use Rattle.line_text.specs.Lists.{texts};
ghost use Rattle.act_text.specs.Ports.{IsPortName, port_word};
ghost use Rattle.act_text.specs.Reading.{name_of, port_of};
ghost use Rattle.line_text.specs.ReadNumbers.{number_below, small_number};
ghost use Rattle.act_text.specs.ReadActs.{state_of, supplier_of, ports_of, format_with, of_component, of_port, of_ports, of_setting, of_config, of_sending, of_ports_sending, of_mark, of_four, of_definition, of_two, of_three, of_auto, of_six, of_eight, format_of, of_one, act_of};

use crate::parts::{name_in, port_in};
use crate::{Name, PortName, TextAct};
use line_text::{number_in, small_number_in};
use omx_types::{Format, PortSel, State, Supplier};

/// The state that a word names.
pub fn state_in(word: &[u8]) -> Option<State>
    ensures some { IfSome result (λ state. word.now ≡ state_name state) }
    ensures is { result ≡ state_of word.now }
{
    if word == b"Invalid".as_slice() {
        Some(State::Invalid)
    } else if word == b"Loaded".as_slice() {
        Some(State::Loaded)
    } else if word == b"Idle".as_slice() {
        Some(State::Idle)
    } else if word == b"Executing".as_slice() {
        Some(State::Executing)
    } else if word == b"Pause".as_slice() {
        Some(State::Pause)
    } else if word == b"WaitForResources".as_slice() {
        Some(State::WaitForResources)
    } else {
        None
    }
}

fn supplier_in(word: &[u8]) -> Option<Supplier>
    ensures some { IfSome result (λ supplier. word.now ≡ supplier_word supplier) }
    ensures is { result ≡ supplier_of word.now }
{
    if word == b"none".as_slice() {
        Some(Supplier::Unspecified)
    } else if word == b"input".as_slice() {
        Some(Supplier::Input)
    } else if word == b"output".as_slice() {
        Some(Supplier::Output)
    } else {
        None
    }
}

fn ports_in(word: &[u8]) -> Option<PortSel>
    ensures some { IfSome result (λ ports. word.now ≡ ports_word ports) }
    ensures fit { IfSome result ArePorts }
    ensures is { result ≡ ports_of word.now }
{
    if word == b"all".as_slice() {
        return Some(PortSel::All);
    }
    let Some(port) = small_number_in(word) else {
        return None;
    };
    Some(PortSel::One(port))
}

fn of_component(verb: &[u8], component: Name) -> Option<TextAct>
    ensures some { IfSome result (λ act. verb.now ∷ component ∷ [] ≡ act_words act) }
    ensures act { IsName component → IfSome result IsAct }
    ensures is { result ≡ of_component verb.now component }
{
    if verb == b"free".as_slice() {
        Some(TextAct::Free(component))
    } else if verb == b"state".as_slice() {
        Some(TextAct::State(component))
    } else if verb == b"run".as_slice() {
        Some(TextAct::Run(component))
    } else if verb == b"claim".as_slice() {
        Some(TextAct::Claim(component))
    } else if verb == b"finish".as_slice() {
        Some(TextAct::Finish(component))
    } else if verb == b"take".as_slice() {
        Some(TextAct::Take(component))
    } else if verb == b"end".as_slice() {
        Some(TextAct::End(component))
    } else {
        None
    }
}

fn of_port(verb: &[u8], port: PortName) -> Option<TextAct>
    ensures some { IfSome result (λ act. verb.now ∷ port_word port ∷ [] ≡ act_words act) }
    ensures act { IsPortName port → IfSome result IsAct }
    ensures is { result ≡ of_port verb.now port }
{
    if verb == b"port".as_slice() {
        Some(TextAct::Port(port))
    } else if verb == b"supply".as_slice() {
        Some(TextAct::Supply(port))
    } else if verb == b"release".as_slice() {
        Some(TextAct::Release(port))
    } else if verb == b"over".as_slice() {
        Some(TextAct::Over(port))
    } else if verb == b"back".as_slice() {
        Some(TextAct::Back(port))
    } else {
        None
    }
}

fn of_ports(verb: &[u8], first: PortName, second: PortName) -> Option<TextAct>
    ensures some { IfSome result (λ act. verb.now ∷ port_word first ∷ port_word second ∷ [] ≡ act_words act) }
    ensures act { IsPortName first → IsPortName second → IfSome result IsAct }
    ensures is { result ≡ of_ports verb.now first second }
{
    if verb == b"tunnel".as_slice() {
        Some(TextAct::Tunnel { first, second })
    } else if verb == b"drop".as_slice() {
        Some(TextAct::DropTunnel { first, second })
    } else {
        None
    }
}

/// A line of `set` with one value.
fn of_setting(subject: &[u8], what: &[u8], value: &[u8]) -> Option<TextAct>
    ensures some { IfSome result (λ act. codes "set" ∷ subject.now ∷ what.now ∷ value.now ∷ [] ≡ act_words act) }
    ensures act { IfSome result IsAct }
    ensures is { result ≡ of_setting subject.now what.now value.now }
{
    if what == b"supplier".as_slice() {
        let Some(port) = port_in(subject) else {
            return None;
        };
        let Some(supplier) = supplier_in(value) else {
            return None;
        };
        Some(TextAct::SetSupplier { port, supplier })
    } else if what == b"priority".as_slice() {
        let Some(component) = name_in(subject) else {
            return None;
        };
        let Some(priority) = small_number_in(value) else {
            return None;
        };
        Some(TextAct::SetPriority {
            component,
            priority,
        })
    } else {
        None
    }
}

fn of_config(subject: &[u8], what: &[u8], value: &[u8]) -> Option<TextAct>
    ensures some { IfSome result (λ act. codes "config" ∷ subject.now ∷ what.now ∷ value.now ∷ [] ≡ act_words act) }
    ensures act { IfSome result IsAct }
    ensures is { result ≡ of_config subject.now what.now value.now }
{
    if what == b"gain".as_slice() {
        let Some(component) = name_in(subject) else {
            return None;
        };
        let Some(gain) = small_number_in(value) else {
            return None;
        };
        Some(TextAct::Gain { component, gain })
    } else if what == b"weight".as_slice() {
        let Some(port) = port_in(subject) else {
            return None;
        };
        let Some(weight) = small_number_in(value) else {
            return None;
        };
        Some(TextAct::Weight { port, weight })
    } else {
        None
    }
}

fn of_sending(subject: &[u8], what: &[u8], value: &[u8]) -> Option<TextAct>
    ensures some { IfSome result (λ act. codes "send" ∷ subject.now ∷ what.now ∷ value.now ∷ [] ≡ act_words act) }
    ensures act { IfSome result IsAct }
    ensures is { result ≡ of_sending subject.now what.now value.now }
{
    if what == b"state".as_slice() {
        let Some(component) = name_in(subject) else {
            return None;
        };
        let Some(state) = state_in(value) else {
            return None;
        };
        return Some(TextAct::SendState { component, state });
    }
    of_ports_sending(subject, what, value)
}

/// A command to one port of a component or to all of them.
fn of_ports_sending(subject: &[u8], what: &[u8], value: &[u8]) -> Option<TextAct>
    ensures some { IfSome result (λ act. codes "send" ∷ subject.now ∷ what.now ∷ value.now ∷ [] ≡ act_words act) }
    ensures act { IfSome result IsAct }
    ensures is { result ≡ of_ports_sending subject.now what.now value.now }
{
    let Some(component) = name_in(subject) else {
        return None;
    };
    let Some(ports) = ports_in(value) else {
        return None;
    };
    if what == b"flush".as_slice() {
        Some(TextAct::SendFlush { component, ports })
    } else if what == b"disable".as_slice() {
        Some(TextAct::SendDisable { component, ports })
    } else if what == b"enable".as_slice() {
        Some(TextAct::SendEnable { component, ports })
    } else {
        None
    }
}

fn of_four(verb: &[u8], subject: &[u8], what: &[u8], value: &[u8]) -> Option<TextAct>
    ensures some { IfSome result (λ act. verb.now ∷ subject.now ∷ what.now ∷ value.now ∷ [] ≡ act_words act) }
    ensures act { IfSome result IsAct }
    ensures is { result ≡ of_four verb.now subject.now what.now value.now }
{
    if verb == b"set".as_slice() {
        of_setting(subject, what, value)
    } else if verb == b"config".as_slice() {
        of_config(subject, what, value)
    } else if verb == b"send".as_slice() {
        of_sending(subject, what, value)
    } else {
        None
    }
}

/// A mark for a port, by the words after `send NAME mark`.
fn of_mark(subject: &[u8], port: &[u8], target: &[u8], value: &[u8]) -> Option<TextAct>
    ensures some { IfSome result (λ act. codes "send" ∷ subject.now ∷ codes "mark" ∷ port.now ∷ target.now ∷ value.now ∷ [] ≡ act_words act) }
    ensures act { IfSome result IsAct }
    ensures is { result ≡ of_mark (name_of subject.now) (small_number port.now) (name_of target.now) (number_below (2 ^ 64) value.now) }
{
    let Some(component) = name_in(subject) else {
        return None;
    };
    let Some(port) = small_number_in(port) else {
        return None;
    };
    let Some(target) = name_in(target) else {
        return None;
    };
    let Some(value) = number_in(value) else {
        return None;
    };
    Some(TextAct::SendMark {
        component,
        port,
        target,
        value,
    })
}

fn format_in(kind: &[u8], rate: &[u8], channels: &[u8]) -> Option<Format>
    ensures some { IfSome result (λ format. kind.now ∷ rate.now ∷ channels.now ∷ [] ≡ format_words format) }
    ensures fit { IfSome result IsFormat }
    ensures is { result ≡ format_of kind.now (small_number rate.now) (small_number channels.now) }
{
    let Some(rate) = small_number_in(rate) else {
        return None;
    };
    let Some(channels) = small_number_in(channels) else {
        return None;
    };
    if kind == b"pcm".as_slice() {
        Some(Format::Pcm { rate, channels })
    } else if kind == b"alaw".as_slice() {
        Some(Format::Alaw { rate, channels })
    } else if kind == b"mulaw".as_slice() {
        Some(Format::Mulaw { rate, channels })
    } else {
        None
    }
}

/// The definition of a port, by the words of `set PORT port ..` but these two.
fn of_definition(port: &[u8], format: Option<Format>, count: &[u8], size: &[u8]) -> Option<TextAct>
    ensures some { IfSome result (λ act. IfSome format (λ format. definition_words port.now format count.now size.now ≡ act_words act)) }
    ensures act { IfSome format IsFormat → IfSome result IsAct }
    ensures is { result ≡ of_definition (port_of port.now) format (small_number count.now) (small_number size.now) }
{
    let Some(port) = port_in(port) else {
        return None;
    };
    let Some(format) = format else {
        return None;
    };
    let Some(count) = small_number_in(count) else {
        return None;
    };
    let Some(size) = small_number_in(size) else {
        return None;
    };
    Some(TextAct::SetPort {
        port,
        format,
        count,
        size,
    })
}

/// An act that names nothing.
fn of_one(verb: &[u8]) -> Option<TextAct>
    ensures some { IfSome result (λ act. verb.now ∷ [] ≡ act_words act) }
    ensures act { IfSome result IsAct }
    ensures is { result ≡ of_one verb.now }
{
    if verb == b"grant".as_slice() {
        Some(TextAct::Grant)
    } else if verb == b"preempt".as_slice() {
        Some(TextAct::Preempt)
    } else {
        None
    }
}

/// An act of one component, or of one port.
fn of_two(verb: &[u8], one: &[u8]) -> Option<TextAct>
    ensures some { IfSome result (λ act. verb.now ∷ one.now ∷ [] ≡ act_words act) }
    ensures act { IfSome result IsAct }
    ensures is { result ≡ of_two verb.now (name_of one.now) (port_of one.now) }
{
    if let Some(component) = name_in(one) {
        return of_component(verb, component);
    }
    let Some(port) = port_in(one) else {
        return None;
    };
    of_port(verb, port)
}

/// An act of two ports.
fn of_three(verb: &[u8], first: &[u8], second: &[u8]) -> Option<TextAct>
    ensures some { IfSome result (λ act. verb.now ∷ first.now ∷ second.now ∷ [] ≡ act_words act) }
    ensures act { IfSome result IsAct }
    ensures is { result ≡ of_three verb.now (port_of first.now) (port_of second.now) }
{
    let Some(first) = port_in(first) else {
        return None;
    };
    let Some(second) = port_in(second) else {
        return None;
    };
    of_ports(verb, first, second)
}

/// The definition of a port whose format isn't known, by the words of `set PORT port ..` but these two.
fn of_auto(port: &[u8], kind: &[u8], count: &[u8], size: &[u8]) -> Option<TextAct>
    ensures some { IfSome result (λ act. codes "set" ∷ port.now ∷ codes "port" ∷ kind.now ∷ count.now ∷ size.now ∷ [] ≡ act_words act) }
    ensures act { IfSome result IsAct }
    ensures is { result ≡ of_auto port.now kind.now count.now size.now }
{
    if kind != b"auto".as_slice() {
        return None;
    }
    of_definition(port, Some(Format::Auto), count, size)
}

/// A mark for a port, or the definition of a port whose format isn't known.
fn of_six(
    verb: &[u8],
    subject: &[u8],
    what: &[u8],
    first: &[u8],
    second: &[u8],
    third: &[u8],
) -> Option<TextAct>
    ensures some { IfSome result (λ act. verb.now ∷ subject.now ∷ what.now ∷ first.now ∷ second.now ∷ third.now ∷ [] ≡ act_words act) }
    ensures act { IfSome result IsAct }
    ensures is { result ≡ of_six verb.now subject.now what.now first.now second.now third.now }
{
    if verb == b"send".as_slice() {
        if what != b"mark".as_slice() {
            return None;
        }
        return of_mark(subject, first, second, third);
    }
    if verb != b"set".as_slice() {
        return None;
    }
    if what != b"port".as_slice() {
        return None;
    }
    of_auto(subject, first, second, third)
}

fn of_eight(
    verb: &[u8],
    port: &[u8],
    what: &[u8],
    kind: &[u8],
    rate: &[u8],
    channels: &[u8],
    count: &[u8],
    size: &[u8],
) -> Option<TextAct>
    ensures some { IfSome result (λ act. verb.now ∷ port.now ∷ what.now ∷ kind.now ∷ rate.now ∷ channels.now ∷ count.now ∷ size.now ∷ [] ≡ act_words act) }
    ensures act { IfSome result IsAct }
    ensures is { result ≡ of_eight verb.now port.now what.now kind.now rate.now channels.now count.now size.now }
{
    if verb != b"set".as_slice() {
        return None;
    }
    if what != b"port".as_slice() {
        return None;
    }
    of_definition(port, format_in(kind, rate, channels), count, size)
}

/// An act of four words or more.
fn of_more(verb: &[u8], subject: &[u8], what: &[u8], rest: &[&[u8]]) -> Option<TextAct>
    requires { 0 < length rest.now }
    ensures some { IfSome result (λ act. verb.now ∷ subject.now ∷ what.now ∷ texts rest.now ≡ act_words act) }
    ensures act { IfSome result IsAct }
    ensures is { result ≡ act_of (verb.now ∷ subject.now ∷ what.now ∷ texts rest.now) }
{
    match rest {
        [value] => of_four(verb, subject, what, value),
        [first, second, third] => of_six(verb, subject, what, first, second, third),
        [kind, rate, channels, count, size] => {
            of_eight(verb, subject, what, kind, rate, channels, count, size)
        }
        _ => None,
    }
}

/// The act that words say.
pub fn act_in(words: &[&[u8]]) -> Option<TextAct>
    ensures some { IfSome result (λ act. texts words.now ≡ act_words act) }
    ensures act { IfSome result IsAct }
    ensures is { result ≡ act_of (texts words.now) }
{
    match words {
        [verb] => of_one(verb),
        [verb, one] => of_two(verb, one),
        [verb, first, second] => of_three(verb, first, second),
        [verb, subject, what, rest @ ..] => of_more(verb, subject, what, rest),
        _ => None,
    }
}
