//! The messages of faults, a line each, and the lines of files that were made and of a log that names a run.

ghost use Rattle.std.specs.Prelude.{◌≡◌, ◌+◌, ◌≤◌, ◌++◌, length, codes};
ghost use Rattle.std.specs.Fmt.{decimal};
ghost use Rattle.omx_types.specs.Texts.{audit_text, packets_text, why_text};
ghost use Rattle.omxrun.specs.Texts.{fault_text, made_text, wav_text, which_text, yes_text};

use crate::text::Text;
use omx_types::{AuditWhy, Fault, PacketsWhy, ScriptWhy, WavFault, Which};

/// The line of a fault.
pub fn text_of_fault(fault: Fault) -> Text
    ensures { result ≡ fault_text fault ++ codes "\n" }
{
    let mut text = Text::new();
    put_fault(&mut text, fault);
    text.push(b"\n");
    text
}

/// What making files prints.
pub fn text_of_make(frames: u64) -> Text
    ensures { result ≡ made_text frames }
{
    let mut text = Text::new();
    text.push(b"made ");
    text.push_number(frames);
    text.push(b" frames\n");
    text
}

/// What the check of a log prints that names a run of so many acts.
pub fn text_of_yes(acts: u64) -> Text
    ensures { result ≡ yes_text acts }
{
    let mut text = Text::new();
    text.push(b"yes ");
    text.push_number(acts);
    text.push(b" acts\n");
    text
}

fn put_fault(text: &mut Text, fault: Fault)
    requires { length text.old ≡ 0 }
    ensures text { text.new ≡ text.old ++ fault_text fault }
    ensures len { length text.new ≤ 150 }
{
    match fault {
        Fault::Script { line, why } => put_script(text, line, why),
        Fault::Usage => {
            text.push(
                b"usage: trace SCRIPT | play SCRIPT WORKERS LOG | make SEED FRAMES DIR | pack WAV PACKETS | unpack PACKETS WAV | clock SCRIPT | audit SCRIPT LOG",
            )
        }
        Fault::BadMedia { which, fault } => put_bad_media(text, which, fault),
        Fault::ReadFault => text.push(b"read fault"),
        Fault::WriteFault => text.push(b"write fault"),
        Fault::Absent(which) => put_absent(text, which),
        Fault::OutOfMemory => text.push(b"out of memory"),
        Fault::Short { which, at, size } => put_short(text, which, at, size),
        Fault::Units { have, need } => put_units(text, have, need),
        Fault::Packets { why } => put_packets(text, why),
        Fault::NotRun { line, why } => put_not_run(text, line, why),
    }
}

fn put_script(text: &mut Text, line: u32, why: ScriptWhy)
    requires { length text.old ≡ 0 }
    ensures text { text.new ≡ text.old ++ (codes "script line " ++ (decimal line ++ (codes ": " ++ why_text why))) }
    ensures len { length text.new ≤ 120 }
{
    text.push(b"script line ");
    text.push_number(u64::from(line));
    text.push(b": ");
    text.push(why.text().as_bytes());
}

fn put_which(text: &mut Text, which: Which)
    requires { length text.old ≤ 10 }
    ensures text { text.new ≡ text.old ++ which_text which }
    ensures len { length text.new ≤ length text.old + 25 }
{
    match which {
        Which::Script => text.push(b"script"),
        Which::Log => text.push(b"log"),
        Which::Line(line) => {
            text.push(b"line ");
            text.push_number(u64::from(line));
        }
        Which::Made(number) => {
            text.push(b"made ");
            text.push_number(u64::from(number));
        }
        Which::Input => text.push(b"input"),
        Which::Output => text.push(b"output"),
    }
}

fn put_bad_media(text: &mut Text, which: Which, fault: WavFault)
    requires { length text.old ≡ 0 }
    ensures text { text.new ≡ text.old ++ (which_text which ++ (codes ": " ++ wav_text fault)) }
    ensures len { length text.new ≤ 120 }
{
    put_which(text, which);
    text.push(b": ");
    put_wav_fault(text, fault);
}

fn put_wav_fault(text: &mut Text, fault: WavFault)
    requires { length text.old ≤ 30 }
    ensures text { text.new ≡ text.old ++ wav_text fault }
    ensures len { length text.new ≤ length text.old + 40 }
{
    match fault {
        WavFault::TooLarge(_) => text.push(b"larger than 67108864 bytes"),
        WavFault::NotRiff => text.push(b"not a RIFF WAVE file"),
        WavFault::NoFormat => text.push(b"no format chunk"),
        WavFault::BadFormat => text.push(b"bad format chunk"),
        WavFault::NoSamples => text.push(b"no data chunk"),
        WavFault::UnsupportedTag(tag) => {
            text.push(b"format tag ");
            text.push_number(u64::from(tag));
        }
        WavFault::Read | WavFault::Short { at: _, size: _ } => {}
    }
}

fn put_absent(text: &mut Text, which: Which)
    requires { length text.old ≡ 0 }
    ensures text { text.new ≡ text.old ++ (codes "absent: " ++ which_text which) }
    ensures len { length text.new ≤ 120 }
{
    text.push(b"absent: ");
    put_which(text, which);
}

fn put_short(text: &mut Text, which: Which, at: u64, size: u64)
    requires { length text.old ≡ 0 }
    ensures text { text.new ≡ text.old ++ (codes "short: " ++ (which_text which ++ (codes " at " ++ (decimal at ++ (codes " of " ++ decimal size))))) }
    ensures len { length text.new ≤ 120 }
{
    text.push(b"short: ");
    put_which(text, which);
    text.push(b" at ");
    text.push_number(at);
    text.push(b" of ");
    text.push_number(size);
}

fn put_units(text: &mut Text, have: u32, need: u32)
    requires { length text.old ≡ 0 }
    ensures text { text.new ≡ text.old ++ (codes "units: have " ++ (decimal have ++ (codes " need " ++ decimal need))) }
    ensures len { length text.new ≤ 120 }
{
    text.push(b"units: have ");
    text.push_number(u64::from(have));
    text.push(b" need ");
    text.push_number(u64::from(need));
}

fn put_packets(text: &mut Text, why: PacketsWhy)
    requires { length text.old ≡ 0 }
    ensures text { text.new ≡ text.old ++ packets_text why }
    ensures len { length text.new ≤ 120 }
{
    text.push(why.text().as_bytes());
}

fn put_not_run(text: &mut Text, line: u64, why: AuditWhy)
    requires { length text.old ≡ 0 }
    ensures text { text.new ≡ text.old ++ (codes "no: log line " ++ (decimal line ++ (codes ": " ++ audit_text why))) }
    ensures len { length text.new ≤ 120 }
{
    text.push(b"no: log line ");
    text.push_number(line);
    text.push(b": ");
    text.push(why.text().as_bytes());
}
