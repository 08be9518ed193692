//! Acts are appended as words: the verb, and then the names, settings and numbers of each.

ghost use Rattle.std.specs.Prelude.{◌≡◌, ◌∷◌, ◌++◌, [], ℕ, List, OnOk, OnErr, codes};
ghost use Rattle.std.specs.Fmt.{decimal};
ghost use Rattle.act_text.specs.Acts.{act_words, definition_words, supplier_word, ports_word};
ghost use Rattle.act_text.specs.Ports.{port_word};
ghost use Rattle.line_text.specs.Lists.{spaced};
ghost use Rattle.act_text.specs.Words.{word_bytes, IsGrown};
ghost use Rattle.act_text.specs.declared.act.TextAct.TheVariants.{SetSupplier, SetPriority, Gain, Weight, SendState, SendMark};

use crate::put::{Word, number, put_words};
use crate::{Name, OutOfMemory, PortName, TextAct};
use omx_types::{Format, PortSel, State, Supplier};

/// Appends the words of an act, parted by one space.
pub fn put_act_words(act: &TextAct, out: &mut Vec<u8>) -> Result<(), OutOfMemory>
    ensures ok { OnOk result (out.new.items ≡ out.old.items ++ spaced (act_words act.now)) }
    ensures err { OnErr result (IsGrown out.old.items out.new.items) }
{
    match act {
        TextAct::Free(component) => put_two(b"free", named(component), out),
        TextAct::State(component) => put_two(b"state", named(component), out),
        TextAct::Port(port) => put_two(b"port", Word::Port(port), out),
        TextAct::SetPort {
            port,
            format,
            count,
            size,
        } => put_definition(port, format, *count, *size, out),
        TextAct::SetSupplier { port, supplier } => put_supplier(port, *supplier, out),
        TextAct::SetPriority {
            component,
            priority,
        } => put_priority(component, *priority, out),
        TextAct::Gain { component, gain } => put_gain(component, *gain, out),
        TextAct::Weight { port, weight } => put_weight(port, *weight, out),
        TextAct::Tunnel { first, second } => put_three(b"tunnel", first, second, out),
        TextAct::DropTunnel { first, second } => put_three(b"drop", first, second, out),
        TextAct::SendState { component, state } => put_state(component, *state, out),
        TextAct::SendFlush { component, ports } => command(b"flush", component, *ports, out),
        TextAct::SendDisable { component, ports } => command(b"disable", component, *ports, out),
        TextAct::SendEnable { component, ports } => command(b"enable", component, *ports, out),
        TextAct::SendMark {
            component,
            port,
            target,
            value,
        } => put_mark(component, *port, target, *value, out),
        TextAct::Run(component) => put_two(b"run", named(component), out),
        TextAct::Claim(component) => put_two(b"claim", named(component), out),
        TextAct::Finish(component) => put_two(b"finish", named(component), out),
        TextAct::Supply(port) => put_two(b"supply", Word::Port(port), out),
        TextAct::Release(port) => put_two(b"release", Word::Port(port), out),
        TextAct::Over(port) => put_two(b"over", Word::Port(port), out),
        TextAct::Back(port) => put_two(b"back", Word::Port(port), out),
        TextAct::Take(component) => put_two(b"take", named(component), out),
        TextAct::End(component) => put_two(b"end", named(component), out),
        TextAct::Grant => put_words(&[Word::Bytes(b"grant")], out),
        TextAct::Preempt => put_words(&[Word::Bytes(b"preempt")], out),
    }
}

fn named(name: &Name) -> Word<'_>
    ensures { word_bytes result ≡ name.now }
{
    Word::Bytes(name.as_bytes())
}

fn selected(ports: PortSel) -> Word<'static>
    ensures { word_bytes result ≡ ports_word ports }
{
    match ports {
        PortSel::One(port) => number(port),
        PortSel::All => Word::Bytes(b"all"),
    }
}

fn supplier_bytes(supplier: Supplier) -> &'static [u8]
    ensures { result.now ≡ supplier_word supplier }
{
    match supplier {
        Supplier::Unspecified => b"none",
        Supplier::Input => b"input",
        Supplier::Output => b"output",
    }
}

fn put_two(verb: &[u8], one: Word, out: &mut Vec<u8>) -> Result<(), OutOfMemory>
    ensures ok { OnOk result (out.new.items ≡ out.old.items ++ spaced (verb.now ∷ word_bytes one.entry ∷ [])) }
    ensures err { OnErr result (IsGrown out.old.items out.new.items) }
{
    put_words(&[Word::Bytes(verb), one], out)
}

fn put_three(
    verb: &[u8],
    first: &PortName,
    second: &PortName,
    out: &mut Vec<u8>,
) -> Result<(), OutOfMemory>
    ensures ok { OnOk result (out.new.items ≡ out.old.items ++ spaced (verb.now ∷ port_word first.now ∷ port_word second.now ∷ [])) }
    ensures err { OnErr result (IsGrown out.old.items out.new.items) }
{
    put_words(
        &[Word::Bytes(verb), Word::Port(first), Word::Port(second)],
        out,
    )
}

fn put_four(
    verb: &[u8],
    subject: Word,
    what: &[u8],
    value: Word,
    out: &mut Vec<u8>,
) -> Result<(), OutOfMemory>
    ensures ok { OnOk result (out.new.items ≡ out.old.items ++ spaced (verb.now ∷ word_bytes subject.entry ∷ what.now ∷ word_bytes value.entry ∷ [])) }
    ensures err { OnErr result (IsGrown out.old.items out.new.items) }
{
    put_words(&[Word::Bytes(verb), subject, Word::Bytes(what), value], out)
}

fn put_priority(component: &Name, priority: u32, out: &mut Vec<u8>) -> Result<(), OutOfMemory>
    ensures ok { OnOk result (out.new.items ≡ out.old.items ++ spaced (act_words (SetPriority component.now priority))) }
    ensures err { OnErr result (IsGrown out.old.items out.new.items) }
{
    put_four(b"set", named(component), b"priority", number(priority), out)
}

fn put_supplier(port: &PortName, supplier: Supplier, out: &mut Vec<u8>) -> Result<(), OutOfMemory>
    ensures ok { OnOk result (out.new.items ≡ out.old.items ++ spaced (act_words (SetSupplier port.now supplier))) }
    ensures err { OnErr result (IsGrown out.old.items out.new.items) }
{
    let supplier = Word::Bytes(supplier_bytes(supplier));
    put_four(b"set", Word::Port(port), b"supplier", supplier, out)
}

fn put_gain(component: &Name, gain: u32, out: &mut Vec<u8>) -> Result<(), OutOfMemory>
    ensures ok { OnOk result (out.new.items ≡ out.old.items ++ spaced (act_words (Gain component.now gain))) }
    ensures err { OnErr result (IsGrown out.old.items out.new.items) }
{
    put_four(b"config", named(component), b"gain", number(gain), out)
}

fn put_weight(port: &PortName, weight: u32, out: &mut Vec<u8>) -> Result<(), OutOfMemory>
    ensures ok { OnOk result (out.new.items ≡ out.old.items ++ spaced (act_words (Weight port.now weight))) }
    ensures err { OnErr result (IsGrown out.old.items out.new.items) }
{
    put_four(b"config", Word::Port(port), b"weight", number(weight), out)
}

fn put_state(component: &Name, state: State, out: &mut Vec<u8>) -> Result<(), OutOfMemory>
    ensures ok { OnOk result (out.new.items ≡ out.old.items ++ spaced (act_words (SendState component.now state))) }
    ensures err { OnErr result (IsGrown out.old.items out.new.items) }
{
    let state = Word::Bytes(state.name().as_bytes());
    put_four(b"send", named(component), b"state", state, out)
}

/// A command to one port of a component or to all of them.
fn command(
    what: &[u8],
    component: &Name,
    ports: PortSel,
    out: &mut Vec<u8>,
) -> Result<(), OutOfMemory>
    ensures ok { OnOk result (out.new.items ≡ out.old.items ++ spaced (codes "send" ∷ component.now ∷ what.now ∷ ports_word ports ∷ [])) }
    ensures err { OnErr result (IsGrown out.old.items out.new.items) }
{
    put_four(b"send", named(component), what, selected(ports), out)
}

fn put_mark<'a>(
    component: &'a Name,
    port: u32,
    target: &'a Name,
    value: u64,
    out: &mut Vec<u8>,
) -> Result<(), OutOfMemory>
    ensures ok { OnOk result (out.new.items ≡ out.old.items ++ spaced (act_words (SendMark component.now port target.now value))) }
    ensures err { OnErr result (IsGrown out.old.items out.new.items) }
{
    let port = number(port);
    let value = Word::Number(value);
    let words = [
        Word::Bytes(b"send"),
        named(component),
        Word::Bytes(b"mark"),
        port,
        named(target),
        value,
    ];
    put_words(&words, out)
}

fn put_definition(
    port: &PortName,
    format: &Format,
    count: u32,
    size: u32,
    out: &mut Vec<u8>,
) -> Result<(), OutOfMemory>
    ensures ok { OnOk result (out.new.items ≡ out.old.items ++ spaced (definition_words (port_word port.now) format.now (decimal count) (decimal size))) }
    ensures err { OnErr result (IsGrown out.old.items out.new.items) }
{
    match format {
        Format::Pcm { rate, channels } => {
            put_known(port, b"pcm", *rate, *channels, count, size, out)
        }
        Format::Alaw { rate, channels } => {
            put_known(port, b"alaw", *rate, *channels, count, size, out)
        }
        Format::Mulaw { rate, channels } => {
            put_known(port, b"mulaw", *rate, *channels, count, size, out)
        }
        Format::Auto => put_unknown(port, count, size, out),
    }
}

/// The definition of a port with that format.
fn put_known<'a>(
    port: &'a PortName,
    kind: &'a [u8],
    rate: u32,
    channels: u32,
    count: u32,
    size: u32,
    out: &mut Vec<u8>,
) -> Result<(), OutOfMemory>
    ensures ok { OnOk result (out.new.items ≡ out.old.items ++ spaced (codes "set" ∷ port_word port.now ∷ codes "port" ∷ kind.now ∷ decimal rate ∷ decimal channels ∷ decimal count ∷ decimal size ∷ [])) }
    ensures err { OnErr result (IsGrown out.old.items out.new.items) }
{
    let words = [
        Word::Bytes(b"set"),
        Word::Port(port),
        Word::Bytes(b"port"),
        Word::Bytes(kind),
        number(rate),
        number(channels),
        number(count),
        number(size),
    ];
    put_words(&words, out)
}

/// The definition of a port whose format isn't known.
fn put_unknown(port: &PortName, count: u32, size: u32, out: &mut Vec<u8>) -> Result<(), OutOfMemory>
    ensures ok { OnOk result (out.new.items ≡ out.old.items ++ spaced (codes "set" ∷ port_word port.now ∷ codes "port" ∷ codes "auto" ∷ decimal count ∷ decimal size ∷ [])) }
    ensures err { OnErr result (IsGrown out.old.items out.new.items) }
{
    let words = [
        Word::Bytes(b"set"),
        Word::Port(port),
        Word::Bytes(b"port"),
        Word::Bytes(b"auto"),
        number(count),
        number(size),
    ];
    put_words(&words, out)
}
