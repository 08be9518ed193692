//! What the log says of an act and of its reply.

ghost use Rattle.std.specs.Prelude.{◌≡◌, ◌<◌, Some, length};
ghost use Rattle.play_log.specs.Saying.{did, is_input_end, or_error, supplied};
ghost use Rattle.act_text.specs.declared.reply.TextReply.TheVariants as texts;
ghost use Rattle.pass_book.specs.Saying.{act_said, claim_said, command_said, event_said, frames_of, note_said, param_said, port_named, port_of, reply_said};
ghost use Rattle.pass_book.specs.Seats.{IsOfPlay, IsSeated, names_of};

use act_text::{Name, PortName, TextAct, TextReply};
use board::{Act, LentClaim, Reply};
use il_machine::Acted;
use note_queues::{Taken, Took};
use omx_types::{CallError, Command, Handle, OmxError, Param, PortId, Supplier};
use outside_io::{Sink, Source};
use work_signs::Seat;

// The slots of a component's words: its claim and its finish, and four for each of so many ports.
const PORTS: usize = 8;

const COMPONENT_SLOTS: usize = 2 + 4 * PORTS;

/// For so many slots a book's log takes memory: those of 32 components.
pub const SLOTS: usize = 32 * COMPONENT_SLOTS;

// The name of the component of the number.
fn name_at(seats: &[Seat], number: u64) -> Name
    requires { number < length seats.now }
    ensures { result ≡ names_of seats.now number }
{
    seats[number as usize].name
}

fn name_of(seats: &[Seat], h: Handle) -> Name
    requires { IsSeated seats.now h }
    ensures { result ≡ names_of seats.now h.generation }
{
    name_at(seats, h.generation)
}

fn port_of(seats: &[Seat], h: Handle, index: u32) -> PortName
    requires { IsSeated seats.now h }
    ensures { result ≡ port_of (names_of seats.now) h index }
{
    PortName {
        component: name_of(seats, h),
        index,
    }
}

fn port_named(seats: &[Seat], port: PortId) -> PortName
    requires { IsSeated seats.now port.handle }
    ensures { result ≡ port_named (names_of seats.now) port }
{
    port_of(seats, port.handle, port.index)
}

fn command_said(component: Name, command: Command) -> Option<TextAct>
    ensures { result ≡ command_said component command }
{
    match command {
        Command::StateSet(state) => Some(TextAct::SendState { component, state }),
        Command::PortDisable(ports) => Some(TextAct::SendDisable { component, ports }),
        Command::PortEnable(ports) => Some(TextAct::SendEnable { component, ports }),
        _ => None,
    }
}

fn param_said(port: PortName, value: Param) -> Option<TextAct>
    ensures { result ≡ param_said port value }
{
    match value {
        Param::Port(definition) => Some(TextAct::SetPort {
            port,
            format: definition.format,
            count: definition.count,
            size: definition.size,
        }),
        _ => None,
    }
}

/// What the act says.
#[tactic(auto, using(crate::proofs::Seated::seated_by))]
pub(crate) fn act_said<S: Source, K: Sink, C>(seats: &[Seat], act: &Act<S, K, C>) -> Option<TextAct>
    requires { IsOfPlay seats.now act.now }
    ensures { result ≡ act_said (names_of seats.now) act.now }
{
    Some(match act {
        Act::SetParameter(h, key, value) => {
            return param_said(port_of(seats, *h, key.port), *value);
        }
        Act::SetupTunnel(output, input) => TextAct::Tunnel {
            first: port_named(seats, *output),
            second: port_named(seats, *input),
        },
        Act::DropTunnel(output, input) => TextAct::DropTunnel {
            first: port_named(seats, *output),
            second: port_named(seats, *input),
        },
        Act::SendCommand(h, command) => return command_said(name_of(seats, *h), *command),
        Act::RunCommand(h) => TextAct::Run(name_of(seats, *h)),
        Act::TakeNote(h) => TextAct::Take(name_of(seats, *h)),
        Act::EndNote(h, _) => TextAct::End(name_of(seats, *h)),
        Act::Supply(h, port) => TextAct::Supply(port_of(seats, *h, *port)),
        Act::Release(h, port) => TextAct::Release(port_of(seats, *h, *port)),
        Act::HandOver(h, port) => TextAct::Over(port_of(seats, *h, *port)),
        Act::HandBack(h, port) => TextAct::Back(port_of(seats, *h, *port)),
        Act::Claim(h) => TextAct::Claim(name_of(seats, *h)),
        Act::Finish(done) => TextAct::Finish(name_at(seats, done.component().generation)),
        _ => return None,
    })
}

/// The frames of the step whose work comes back.
pub(crate) fn frames_of<S: Source, K: Sink, C>(act: &Act<S, K, C>) -> u32
    ensures { result ≡ frames_of act.now }
{
    match act {
        Act::Finish(done) => done.frames(),
        _ => 0,
    }
}

fn slot_at(h: Handle, kind: usize) -> Option<usize>
    requires { kind < 34 }
{
    if h.generation < 32 {
        Some(COMPONENT_SLOTS * h.generation as usize + kind)
    } else {
        None
    }
}

fn port_slot(h: Handle, port: u32, kind: usize) -> Option<usize>
    requires { kind < 4 }
{
    if (port as usize) < PORTS {
        slot_at(h, 2 + 4 * port as usize + kind)
    } else {
        None
    }
}

/// Where the words of an act are kept that comes again and again.
pub(crate) fn slot_of<S: Source, K: Sink, C>(act: &Act<S, K, C>) -> Option<usize> {
    match act {
        Act::Claim(h) => slot_at(*h, 0),
        Act::Finish(done) => slot_at(done.component(), 1),
        Act::Supply(h, port) => port_slot(*h, *port, 0),
        Act::Release(h, port) => port_slot(*h, *port, 1),
        Act::HandOver(h, port) => port_slot(*h, *port, 2),
        Act::HandBack(h, port) => port_slot(*h, *port, 3),
        _ => None,
    }
}

fn did(answer: &Result<Acted, OmxError>) -> Option<TextReply>
    ensures { result ≡ or_error did answer.now }
{
    match answer {
        Ok(Acted::Did) => Some(TextReply::Did),
        Ok(Acted::Idle(_)) => None,
        Err(error) => Some(TextReply::Error(*error)),
    }
}

fn supplied(answer: &Result<Acted, CallError>) -> Option<TextReply>
    ensures { result ≡ supplied answer.now }
{
    match answer {
        Ok(Acted::Did) => Some(TextReply::Did),
        Ok(Acted::Idle(_)) => None,
        Err(CallError::Omx(error)) => Some(TextReply::Error(*error)),
        Err(CallError::OutOfMemory) => None,
    }
}

fn done(answer: &Result<(), OmxError>) -> Option<TextReply>
    ensures { result ≡ or_error (λ x. Some texts.Done) answer.now }
{
    match answer {
        Ok(()) => Some(TextReply::Done),
        Err(error) => Some(TextReply::Error(*error)),
    }
}

fn joined(answer: &Result<Supplier, OmxError>) -> Option<TextReply>
    ensures { result ≡ or_error (λ supplier. Some (texts.Supplier (is_input_end supplier))) answer.now }
{
    match answer {
        Ok(supplier) => Some(TextReply::Supplier {
            input: matches!(supplier, Supplier::Input),
        }),
        Err(error) => Some(TextReply::Error(*error)),
    }
}

fn event_said(taken: &Taken) -> Option<TextReply>
    ensures { result ≡ event_said taken.now }
{
    match taken {
        Taken::Told(event) => Some(TextReply::Event(*event)),
        Taken::EmptyDone(_) => None,
        Taken::FillDone(_) => None,
    }
}

fn taken<C>(answer: &Result<Took<C>, OmxError>) -> Option<TextReply>
    ensures { result ≡ or_error note_said answer.now }
{
    match answer {
        Ok(Took::Call(call)) => event_said(&call.taken),
        Ok(Took::None) => None,
        Ok(Took::Busy) => None,
        Err(error) => Some(TextReply::Error(*error)),
    }
}

fn claimed<S: Source, K: Sink>(answer: &Result<LentClaim<S, K>, OmxError>) -> Option<TextReply>
    ensures { result ≡ or_error claim_said answer.now }
{
    match answer {
        Ok(LentClaim::Work(_)) => Some(TextReply::Work),
        Ok(_) => None,
        Err(error) => Some(TextReply::Error(*error)),
    }
}

/// What the reply says.
pub(crate) fn reply_said<S: Source, K: Sink, C>(
    frames: u32,
    reply: &Reply<S, K, C>,
) -> Option<TextReply>
    ensures { result ≡ reply_said frames reply.now }
{
    match reply {
        Reply::SetParameter(answer) => done(answer),
        Reply::SetupTunnel(answer) => joined(answer),
        Reply::DropTunnel(answer) => done(answer),
        Reply::SendCommand(answer) => done(answer),
        Reply::RunCommand(answer) => did(answer),
        Reply::TakeNote(answer) => taken(answer),
        Reply::EndNote => Some(TextReply::Done),
        Reply::Supply(answer) => supplied(answer),
        Reply::Release(answer) => did(answer),
        Reply::HandOver(answer) => did(answer),
        Reply::HandBack(answer) => did(answer),
        Reply::Claim(answer) => claimed(answer),
        Reply::Finish => Some(TextReply::Finished { frames }),
        _ => None,
    }
}
