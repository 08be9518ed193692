//! Two workers are between the claim of a work and its step at one time: their gates wait for each other. What a gate counted is what the log tells.

ghost use Rattle.std.specs.Prelude.{◌≡◌, ℕ, get_or};

use outside_io::MemoryMedia;
use play_worker::Gate;
use script_lang::read_script;
use std::alloc::{AllocError, Global};
use std::sync::atomic::{AtomicBool, Ordering};
use std::test::Fail;
use std::thread;
use worker_course::play_workers;

/// How often a gate looks whether the other was called.
const LOOKS: u32 = 100_000_000;

/// A mix of three links, of which each has one buffer.
const SCRIPT: &str =
    "omx 1 play\nsource a a\nsource b b\nsplitter p 2\nmixer m 3 4096 0 4096\nsink s s\nlink a.0 p.0 1 2\nlink p.1 m.0 1 4096\nlink p.2 m.1 1 2\nlink b.0 m.2 1 4096\nlink m.3 s.0 1 2\n";

/// The names of its components, by their places.
const NAMES: [&str; 5] = ["a", "b", "p", "m", "s"];

/// PCM, mono, 8,000 frames a second: 32767 and -5; 1, 2 and 3; and 32767, -3 and 3.
const FIRST: &[u8] =
    b"RIFF\x28\0\0\0WAVEfmt \x10\0\0\0\x01\0\x01\0\x40\x1f\0\0\x80\x3e\0\0\x02\0\x10\0data\x04\0\0\0\xff\x7f\xfb\xff";

const SECOND: &[u8] =
    b"RIFF\x2a\0\0\0WAVEfmt \x10\0\0\0\x01\0\x01\0\x40\x1f\0\0\x80\x3e\0\0\x02\0\x10\0data\x06\0\0\0\x01\0\x02\0\x03\0";

const MIXED: &[u8] =
    b"RIFF\x2a\0\0\0WAVEfmt \x10\0\0\0\x01\0\x01\0\x40\x1f\0\0\x80\x3e\0\0\x02\0\x10\0data\x06\0\0\0\xff\x7f\xfd\xff\x03\0";

/// It counts its calls by component, and waits at the first until the other gate was called.
#[derive(Drop)]
struct MeetingGate<'a> {
    counts: [u64; 32],
    /// It was called.
    here: &'a AtomicBool,
    /// The other one was.
    there: &'a AtomicBool,
    /// Whether that was seen at the first call.
    met: Option<bool>,
}

impl<'a> MeetingGate<'a> {
    fn new(here: &'a AtomicBool, there: &'a AtomicBool) -> MeetingGate<'a>
        ensures { (place : ℕ) → get_or result.counts place 0 ≡ 0 }
    {
        MeetingGate {
            counts: [0; 32],
            here,
            there,
            met: None,
        }
    }
}

/// Whether the flag is raised before so many looks are over.
fn is_raised(flag: &AtomicBool) -> bool {
    for _ in 0..LOOKS {
        if flag.load(Ordering::SeqCst) {
            return true;
        }
        thread::yield_now();
    }
    false
}

impl Gate for MeetingGate<'_> {
    ghost use Rattle.std.specs.Prelude.{get_or, Some};

    ghost counts = { λ gate. Some (λ place. get_or gate.counts place 0) };

    fn between(&mut self, _worker: u32, component: u32) {
        let place = component as usize;
        self.counts[place] = self.counts[place].saturating_add(1);
        if self.met.is_none() {
            self.here.store(true, Ordering::SeqCst);
            self.met = Some(is_raised(self.there));
        }
    }
}

fn media_of(alloc: Global) -> Result<MemoryMedia, AllocError> {
    let first = (String::from_str(alloc, "a")?, FIRST.to_vec(alloc)?);
    let second = (String::from_str(alloc, "b")?, SECOND.to_vec(alloc)?);
    let files = vec![in alloc; first, second]?;
    MemoryMedia::new(alloc, files, Vec::new(alloc), 4096)
}

/// How many lines of the log tell that the worker claimed a work of the component.
fn claims(alloc: Global, log: &str, worker: u32, name: &str) -> Result<u64, AllocError> {
    let ending = format!(in alloc; " {worker} claim {name} = work")?;
    let mut claims = 0_u64;
    for line in log.lines() {
        if line.ends_with(ending.as_str()) {
            claims = claims.saturating_add(1);
        }
    }
    Ok(claims)
}

#[test]
fn two_workers_meet_at_their_gates(rt: HostRuntime) -> Result<(), Fail> {
    let alloc = rt.alloc();
    let mut media = media_of(alloc)?;
    let one = AtomicBool::new(false);
    let two = AtomicBool::new(false);
    let gates = vec![in alloc; MeetingGate::new(&one, &two), MeetingGate::new(&two, &one)]?;
    let Ok(script) = read_script(alloc, SCRIPT.as_bytes(), true, "script", "log") else {
        panic!(rt; "no script");
    };
    let Ok((_summary, gates)) = play_workers(&rt, alloc, &script, &mut media, "log", gates) else {
        panic!(rt; "not played");
    };
    assert_eq!(rt; media.file("s"), Some(MIXED));
    let Some(log) = media.file("log") else {
        panic!(rt; "no log");
    };
    let log = str::from_utf8(log)?;
    let mut worker = 0_u32;
    for gate in &gates {
        worker = worker.saturating_add(1);
        let met = gate.met;
        let counts = gate.counts;
        assert_eq!(rt; met, Some(true));
        for (place, name) in NAMES.iter().enumerate() {
            assert_eq!(rt; counts[place], claims(alloc, log, worker, name)?);
        }
    }
    assert_eq!(rt; worker, 2);
    Ok(())
}
