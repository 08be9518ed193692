//! Why a file, a script or a log is refused or a part fails; a command's faults and its exit status.

ghost use Rattle.std.specs.Prelude.{◌≡◌};

use std::{error, fmt};
use thiserror::Error;

/// Why a file is no WAV file that is read here, or why reading it ended.
#[derive(Clone, Copy, Debug, PartialEq, Eq, Error)]
pub enum WavFault {
    /// The file's size, above the limit of 67,108,864 bytes.
    #[error("larger than 67108864 bytes")]
    TooLarge(u64),
    #[error("not a RIFF WAVE file")]
    NotRiff,
    #[error("no format chunk")]
    NoFormat,
    #[error("bad format chunk")]
    BadFormat,
    #[error("no data chunk")]
    NoSamples,
    #[error("format tag {0}")]
    UnsupportedTag(u32),
    #[error("read fault")]
    Read,
    /// The source gave nothing at `at`, below its `size`.
    #[error("short at {at} of {size}")]
    Short { at: u64, size: u64 },
}

/// Why a step of a part failed.
#[derive(Clone, Copy, Debug, PartialEq, Eq, Error)]
pub enum PartFault {
    #[error("read fault")]
    Read,
    #[error("write fault")]
    Write,
    /// The source gave nothing at `at`, below its `size`.
    #[error("short at {at} of {size}")]
    Short { at: u64, size: u64 },
}

/// Why a script is refused: by its grammar, or by the plan of its play.
#[derive(Clone, Copy, Debug, PartialEq, Eq)]
pub enum ScriptWhy {
    TooLong,
    NotText,
    FirstLine,
    BadWord,
    UnknownName,
    NameTwice,
    TooMany,
    PortTwice,
    OpenPort,
    TooManyBlocks,
    Cycle,
    Wrong,
    Small,
    Differ,
}

impl ScriptWhy {
    ghost use Rattle.std.specs.Prelude.{◌≤◌, length};
    ghost use Rattle.omx_types.specs.Texts.{why_text};

    /// The reason, in the words that are printed.
    pub fn text(self) -> &'static str
        ensures text { result.now ≡ why_text self }
        ensures len { length result.now ≤ 15 }
    {
        match self {
            ScriptWhy::TooLong => "too long",
            ScriptWhy::NotText => "not text",
            ScriptWhy::FirstLine => "first line",
            ScriptWhy::BadWord => "bad word",
            ScriptWhy::UnknownName => "unknown name",
            ScriptWhy::NameTwice => "name twice",
            ScriptWhy::TooMany => "too many",
            ScriptWhy::PortTwice => "port twice",
            ScriptWhy::OpenPort => "open port",
            ScriptWhy::TooManyBlocks => "too many blocks",
            ScriptWhy::Cycle => "cycle",
            ScriptWhy::Wrong => "wrong format",
            ScriptWhy::Small => "block too small",
            ScriptWhy::Differ => "formats differ",
        }
    }
}

impl fmt::Display for ScriptWhy {
    fn fmt<W: fmt::Write>(&self, f: &mut fmt::Formatter<W>) -> fmt::Result {
        f.write_str(self.text())
    }
}

impl error::Error for ScriptWhy {}

/// Why a file of packets isn't made or read: by its samples' format, or by its own form.
#[derive(Clone, Copy, Debug, PartialEq, Eq)]
pub enum PacketsWhy {
    WrongFormat,
    NotPackets,
    NoPackets,
    TooLong,
}

impl PacketsWhy {
    ghost use Rattle.std.specs.Prelude.{◌≤◌, length};
    ghost use Rattle.omx_types.specs.Texts.{packets_text};

    /// The reason, in the words that are printed.
    pub fn text(self) -> &'static str
        ensures text { result.now ≡ packets_text self }
        ensures len { length result.now ≤ 19 }
    {
        match self {
            PacketsWhy::WrongFormat => "not G.711 mono 8000",
            PacketsWhy::NotPackets => "not a packet file",
            PacketsWhy::NoPackets => "no packets",
            PacketsWhy::TooLong => "too long",
        }
    }
}

impl fmt::Display for PacketsWhy {
    fn fmt<W: fmt::Write>(&self, f: &mut fmt::Formatter<W>) -> fmt::Result {
        f.write_str(self.text())
    }
}

impl error::Error for PacketsWhy {}

/// Why a line of a log isn't that of a run of its script.
#[derive(Clone, Copy, Debug, PartialEq, Eq)]
pub enum AuditWhy {
    BadLine,
    OtherAct,
    NotOut,
    OtherReply,
    OtherFile,
    NotEnded,
}

impl AuditWhy {
    ghost use Rattle.std.specs.Prelude.{◌≤◌, length};
    ghost use Rattle.omx_types.specs.Texts.{audit_text};

    /// The reason, in the words that are printed.
    pub fn text(self) -> &'static str
        ensures text { result.now ≡ audit_text self }
        ensures len { length result.now ≤ 13 }
    {
        match self {
            AuditWhy::BadLine => "not canonical",
            AuditWhy::OtherAct => "not of a play",
            AuditWhy::NotOut => "not out",
            AuditWhy::OtherReply => "other reply",
            AuditWhy::OtherFile => "other file",
            AuditWhy::NotEnded => "not ended",
        }
    }
}

impl fmt::Display for AuditWhy {
    fn fmt<W: fmt::Write>(&self, f: &mut fmt::Formatter<W>) -> fmt::Result {
        f.write_str(self.text())
    }
}

impl error::Error for AuditWhy {}

/// A file of a command: its script, its log, that of a script line, the made one of that number from 1,
/// or the one that it reads or writes where it has two.
#[derive(Clone, Copy, Debug, PartialEq, Eq)]
pub enum Which {
    Script,
    Log,
    Line(u32),
    Made(u32),
    Input,
    Output,
}

impl fmt::Display for Which {
    fn fmt<W: fmt::Write>(&self, f: &mut fmt::Formatter<W>) -> fmt::Result {
        match self {
            Which::Script => write!(f, "script"),
            Which::Log => write!(f, "log"),
            Which::Line(line) => write!(f, "line {line}"),
            Which::Made(number) => write!(f, "made {number}"),
            Which::Input => write!(f, "input"),
            Which::Output => write!(f, "output"),
        }
    }
}

/// Why a command of the program wasn't done whole.
#[derive(Clone, Copy, Debug, PartialEq, Eq, Error)]
pub enum Fault {
    #[error("script line {line}: {why}")]
    Script { line: u32, why: ScriptWhy },
    #[error("usage")]
    Usage,
    #[error("{which}: {fault}")]
    BadMedia { which: Which, fault: WavFault },
    #[error("read fault")]
    ReadFault,
    #[error("write fault")]
    WriteFault,
    #[error("absent: {0}")]
    Absent(Which),
    #[error("out of memory")]
    OutOfMemory,
    #[error("short: {which} at {at} of {size}")]
    Short { which: Which, at: u64, size: u64 },
    #[error("units: have {have} need {need}")]
    Units { have: u32, need: u32 },
    #[error("{why}")]
    Packets { why: PacketsWhy },
    /// A line of the log, from 1.
    #[error("no: log line {line}: {why}")]
    NotRun { line: u64, why: AuditWhy },
}

/// How a command of the program ended.
#[derive(Clone, Copy, Debug, PartialEq, Eq)]
pub enum Status {
    Ok,
    Fault(Fault),
}

impl Status {
    ghost use Rattle.omx_types.specs.Numbers.{status_number};

    /// The exit status of the program.
    pub fn number(self) -> u8
        ensures { result ≡ status_number self }
    {
        match self {
            Status::Ok => 0,
            Status::Fault(fault) => fault.number(),
        }
    }
}

impl Fault {
    ghost use Rattle.omx_types.specs.Numbers.{fault_number};

    /// The exit status of a program that ends with this fault.
    pub fn number(self) -> u8
        ensures { result ≡ fault_number self }
    {
        match self {
            Fault::Script { line: _, why: _ } => 1,
            Fault::Usage => 2,
            Fault::BadMedia { which: _, fault: _ } => 3,
            Fault::ReadFault => 4,
            Fault::WriteFault => 5,
            Fault::Absent(_) => 6,
            Fault::OutOfMemory => 7,
            Fault::Short {
                which: _,
                at: _,
                size: _,
            } => 8,
            Fault::Units { have: _, need: _ } => 9,
            Fault::Packets { why: _ } => 11,
            Fault::NotRun { line: _, why: _ } => 12,
        }
    }
}
