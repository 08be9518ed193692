//! The command `audit`: a script and a log are read, and whether the log names a play of the script is told.

ghost use Rattle.std.specs.Prelude.{◌≡◌};
ghost use Rattle.outside_io.specs.Files.{GoesOn};
ghost use Rattle.omxrun.specs.Audits.{IsAuditOutcome, outcome_of_audit};

use crate::done::Done;
use crate::play::script_of;
use omx_types::Fault;
use outside_io::Media;
use play_files::law_of_names;
use run_audit::{AuditFault, audit};
use script_lang::one_play;
use std::alloc::Global;

/// Checks the log of that name against the script of a play, its sources and its sinks.
pub fn audit_file<M: Media>(
    alloc: Global,
    media: &mut M,
    name: &str,
    log: &str,
) -> Result<Done, Fault>
    ensures goes_on { GoesOn (M.outside media.old) (M.outside media.new) }
    ensures outcome { IsAuditOutcome name.now log.now (M.outside media.old) (M.outside media.new) result }
{
    one_play();
    law_of_names();
    let script = script_of(alloc, media, name, log)?;
    outcome_of(audit(alloc, &script, media, log))
}

/// What the command comes to by what the check of a log answered.
fn outcome_of(audited: Result<u64, AuditFault>) -> Result<Done, Fault>
    ensures { result ≡ outcome_of_audit audited }
{
    match audited {
        Ok(acts) => Ok(Done::Audited { acts }),
        Err(AuditFault::No { line, why }) => Err(Fault::NotRun { line, why }),
        Err(AuditFault::Fault(fault)) => Err(fault),
    }
}
