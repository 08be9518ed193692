//! The lines of a text, one after the other.

ghost use Rattle.std.specs.Prelude.{Bool, ◌≡◌, ◌+◌, ◌<◌, ◌^◌, [], codes, length};
ghost use Rattle.std.specs.Str.{bytes_eq};
ghost use Rattle.audit_forms.specs.Audited.{Case, Moment};
ghost use Rattle.audit_lines.specs.Lines.{pieces_of};
ghost use Rattle.run_audit.specs.Replaying.{IsReplay};
ghost use Rattle.run_audit.specs.Walking.{FilesWalked, IsWalked};
ghost use Rattle.run_audit.specs.Seeing.{replay_sight};

use crate::replay::{Passed, Replay};
use audit_lines::next_line;
use note_queues::Client;
use omx_types::{AuditWhy, PartFault};
use outside_io::Source;

/// Where the lines of a text led.
#[derive(Clone, Copy)]
pub enum Walked {
    /// To its `end`, which has that number and is the last line.
    Ended(u64),
    /// The line of that number doesn't pass the test.
    Stopped {
        line: u64,
        why: AuditWhy,
    },
    /// The step of the work that the line of that number brings back failed, of the component at that place.
    Failed {
        line: u64,
        component: usize,
        fault: PartFault,
    },
}

fn is_end(piece: &[u8]) -> bool
    ensures { result ≡ bytes_eq piece.now (codes "end") }
{
    piece == b"end".as_slice()
}

/// What an `end` of that number comes to, by what is behind it.
fn ended(number: u64, behind: &[u8]) -> Walked
    ensures last { behind.now ≡ [] → result ≡ Walked.Ended number }
    ensures more { (behind.now ≡ [] → ⊥) → result ≡ Walked.Stopped number AuditWhy.BadLine }
{
    if behind.is_empty() {
        Walked::Ended(number)
    } else {
        Walked::Stopped {
            line: number,
            why: AuditWhy::BadLine,
        }
    }
}

impl<S: Source, C: Client> Replay<S, C> {
    /// Goes on by the lines of a text, the first of which has that number.
    pub fn walk(&mut self, first: u64, text: &[u8]) -> Walked
        requires stands { (tells : Bool) × (x : Case) × (at : Moment) × IsReplay (replay_sight C.Client S.Source) tells self.old x at }
        requires room { first + length text.now < 2 ^ 64 }
        ensures walked { (tells : Bool) (x : Case) (at : Moment) → IsReplay (replay_sight C.Client S.Source) tells self.old x at
            → IsWalked (replay_sight C.Client S.Source) tells self.new x first at (pieces_of text.now) result }
        ensures files { FilesWalked (replay_sight C.Client S.Source) result self.old self.new }
        ensures plan { self.new.plan ≡ self.old.plan }
        ensures handles { self.new.handles ≡ self.old.handles }
    {
        let mut rest = text;
        let mut number = first;
        while let Some((piece, behind)) = next_line(rest) {
            if is_end(piece) {
                return ended(number, behind);
            }
            match self.line(number, piece) {
                Passed::On => {}
                Passed::Stop(why) => return Walked::Stopped { line: number, why },
                Passed::Failed { component, fault } => {
                    return Walked::Failed {
                        line: number,
                        component,
                        fault,
                    };
                }
            }
            rest = behind;
            number += 1;
        }
        Walked::Stopped {
            line: number,
            why: AuditWhy::NotEnded,
        }
    }
}
