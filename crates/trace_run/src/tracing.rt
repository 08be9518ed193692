//! A trace from its first line to `end`: each line is written with its answer, and the graph is closed.

ghost use Rattle.std.specs.Prelude.{◌≡◌, ◌≢◌, ◌<◌, ◌^◌, length, false, Err, OnOk, IfErr};
ghost use Rattle.omx_types.specs.declared.fault.Fault.TheVariants.{WriteFault};
ghost use Rattle.outside_io.specs.Keeping.{KeepsSink};
ghost use Rattle.outside_io.specs.Writings.{WritesUntil};
ghost use Rattle.script_lang.specs.Scripts.{IsOfCommand};
ghost use Rattle.script_lang.specs.declared.script.Script.TheVariants.{Trace};
ghost use Rattle.trace_run.specs.Traced.{GotTrace, IsStopped};
ghost use Rattle.trace_run.specs.OneTrace.{HasOneText};
ghost use Rattle.trace_run.specs.Desks.{on_desk};
ghost use Rattle.trace_run.specs.Works.{HasDeskMoment};
ghost use Rattle.trace_run.specs.Writing.{GotBody, IsBroken, FromEach};

use crate::desk::Desk;
use crate::gathering::{GATHERED_BYTES, gather, write};
use crate::lines::put_line;
use omx_types::Fault;
use outside_io::Sink;
use script_lang::{Script, TraceLine};
use std::alloc::Global;

/// Runs a trace script, and writes each line with its answer, and then `end`. Before that everything is given back by acts that
/// aren't printed, so that the graph is closed with no header at the client and no client object out. A script has one text.
pub fn trace<O: Sink>(alloc: Global, script: &Script, out: &mut O) -> Result<(), Fault>
    requires { IsOfCommand false script.now }
    ensures traced { OnOk result (GotTrace script.now (O.told out.old) (O.told out.new)) }
    ensures stopped { IfErr result (IsStopped script.now (O.told out.old) (O.told out.new) (O.faults out.old) (O.faults out.new)) }
    ensures stays { result ≢ Err WriteFault → O.faults out.new ≡ O.faults out.old }
    ensures keeps_sink { KeepsSink O.Sink out.old out.new }
    ensures writing { WritesUntil WriteFault (O.writing out.old) (O.writing out.new) result }
    ensures one { HasOneText script.now }
{
    match script {
        Script::Trace { units, lines } => trace_lines(alloc, *units, lines.as_slice(), out),
        Script::Play {
            units: _,
            parts: _,
            links: _,
        } => unreachable!(),
    }
}

fn trace_lines<O: Sink>(
    alloc: Global,
    units: u32,
    lines: &[TraceLine],
    out: &mut O,
) -> Result<(), Fault>
    ensures traced { OnOk result (GotTrace (Trace units lines.now) (O.told out.old) (O.told out.new)) }
    ensures stopped { IfErr result (IsStopped (Trace units lines.now) (O.told out.old) (O.told out.new) (O.faults out.old) (O.faults out.new)) }
    ensures stays { result ≢ Err WriteFault → O.faults out.new ≡ O.faults out.old }
    ensures keeps_sink { KeepsSink O.Sink out.old out.new }
    ensures writing { WritesUntil WriteFault (O.writing out.old) (O.writing out.new) result }
{
    let Ok(mut desk) = Desk::new(alloc, units) else {
        return Err(Fault::OutOfMemory);
    };
    let written = write_lines(&mut desk, alloc, lines, out);
    let graph = desk.give_back();
    graph.law_of_worlds();
    graph.close();
    match written {
        Ok(()) => write(out, b"end\n"),
        Err(fault) => Err(fault),
    }
}

/// Writes the lines with their answers, many by one write. Whatever ends them, each whole line is written before the answer.
fn write_lines<O: Sink>(
    desk: &mut Desk,
    alloc: Global,
    lines: &[TraceLine],
    out: &mut O,
) -> Result<(), Fault>
    requires { HasDeskMoment (on_desk desk.old) }
    ensures whole { OnOk result (FromEach (on_desk desk.old) (λ at.
        GotBody at lines.now (O.told out.old) (O.told out.new))) }
    ensures broken { IfErr result (λ fault. FromEach (on_desk desk.old) (λ at.
        IsBroken at lines.now (on_desk desk.new) (O.told out.old) (O.told out.new) (O.faults out.old) (O.faults out.new) fault)) }
    ensures stood { HasDeskMoment (on_desk desk.new) }
    ensures stays { result ≢ Err WriteFault → O.faults out.new ≡ O.faults out.old }
    ensures keeps_sink { KeepsSink O.Sink out.old out.new }
    ensures writing { WritesUntil WriteFault (O.writing out.old) (O.writing out.new) result }
{
    let Ok(mut waiting) = Vec::with_capacity(alloc, GATHERED_BYTES) else {
        return Err(Fault::OutOfMemory);
    };
    let mut text = Vec::new(alloc);
    for (place, line) in lines.iter().enumerate() {
        text.clear();
        if put_line(desk, alloc, place as u64 + 1, line, &mut text).is_err() {
            write(out, waiting.as_slice())?;
            return Err(Fault::OutOfMemory);
        }
        gather(text.as_slice(), &mut waiting, out)?;
    }
    write(out, waiting.as_slice())
}
