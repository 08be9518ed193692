//! A component's work goes out, is done and comes back, with readings of the clock.

use crate::stopped::{Host, Stopped};
use il_graph::{Claimed, Graph};
use note_queues::Client;
use omx_types::Handle;
use outside_io::{Sink, Source};
use std::time::{Duration, Instant};

/// When a work had gone out, and when its step was done.
#[derive(Clone, Copy)]
pub(crate) struct Laps {
    claimed: Instant,
    ran: Instant,
}

impl Laps {
    /// What lies between the two moments, but for the step.
    pub(crate) fn beside_step(&self, start: Instant, end: Instant) -> Duration {
        let before = self.claimed.duration_since(start);
        before.saturating_add(end.duration_since(self.ran))
    }
}

/// The work of a component, or None where it has none.
pub(crate) fn work<S: Source, K: Sink, C: Client, R: Host>(
    rt: &R,
    graph: &mut Graph<S, K, C>,
    h: Handle,
) -> Result<Option<Laps>, Stopped> {
    graph.law_of_worlds();
    let work = match graph.claim(h) {
        Ok(Claimed::Work(work)) => work,
        Ok(Claimed::Busy) => return Ok(None),
        Ok(Claimed::NotRunning) => return Ok(None),
        Ok(Claimed::Ended) => return Ok(None),
        Ok(Claimed::Held(_port)) => return Ok(None),
        Ok(Claimed::NoData(_port)) => return Ok(None),
        Ok(Claimed::NoRoom(_port)) => return Ok(None),
        Ok(Claimed::Events { room: _, need: _ }) => return Ok(None),
        Err(error) => return Err(Stopped::from(error)),
    };
    let claimed = Instant::now(rt);
    let done = work.run();
    let ran = Instant::now(rt);
    graph.finish(done);
    Ok(Some(Laps {
        claimed: claimed?,
        ran: ran?,
    }))
}

/// The readings alone.
pub(crate) fn no_work<R: Host>(rt: &R) -> Result<Laps, Stopped> {
    Ok(Laps {
        claimed: Instant::now(rt)?,
        ran: Instant::now(rt)?,
    })
}
