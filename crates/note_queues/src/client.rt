//! Client objects: what one must do with a component's events, and two that keep their progress alone, one of which may be given headers.

ghost use Rattle.std.specs.Prelude.{◌≡◌, Bool, false, true};
ghost use Rattle.il_machine.specs.declared.answer.Progress.{Progress as Reached};
ghost use Rattle.il_machine.specs.Components.{moved_by, no_progress, first_error};

use il_machine::Progress;
use omx_types::{Completion, Event, OmxError};
use std::marker::Model;

/// An object that is told a component's events, and keeps what they come to.
pub trait Client {
    /// Whether clients of this type may be given headers. No call of this crate or of a graph asks it: a header in a note goes to who
    /// takes the note, whatever the client's type is. It is for those who share a graph.
    const HEADERS: bool;

    ghost HEADERS: { Bool };

    /// What the events told so far come to.
    ghost progress: { Self → Reached };

    /// Tells it an event, which moves its progress.
    fn hear(&mut self, event: Event)
        ensures { progress self.new ≡ moved_by event (progress self.old) };

    /// The last state that was reached, whether the end of a stream was told, and the first error.
    fn progress(&self) -> Progress
        ensures { result ≡ progress self.now };
}

/// A client that keeps its progress alone. Who takes a note with a header keeps that beside it.
#[derive(Clone, Copy, Debug, PartialEq, Eq)]
pub struct ProgressClient {
    progress: Progress,
}

impl Model for ProgressClient {
    ghost use Rattle.il_machine.specs.declared.answer.Progress.{Progress as Reached};

    ghost Value = { Reached };

    ghost view = { λ client. client.progress };

    ghost inverse = { λ progress. record { progress = progress } };
}

impl ProgressClient {
    /// A client that was told nothing yet.
    pub fn new() -> ProgressClient
        ensures { result ≡ no_progress }
    {
        ProgressClient {
            progress: Progress {
                state: None,
                eos: false,
                error: None,
                settings: None,
                port: None,
            },
        }
    }
}

fn first_error(earlier: Option<OmxError>, error: OmxError) -> Option<OmxError>
    ensures { result ≡ first_error earlier error }
{
    match earlier {
        Some(first) => Some(first),
        None => Some(error),
    }
}

/// What a progress comes to by one more event.
pub fn progress_after(progress: Progress, event: Event) -> Progress
    ensures { result ≡ moved_by event progress }
{
    let mut next = progress;
    match event {
        Event::CmdComplete(Completion::State(state)) => next.state = Some(state),
        Event::CmdComplete(Completion::Disable(port)) => {
            next.port = Some(Completion::Disable(port));
        }
        Event::CmdComplete(Completion::Enable(port)) => {
            next.port = Some(Completion::Enable(port));
        }
        Event::PortSettingsChanged(port) => next.settings = Some(port),
        Event::Error(error) => next.error = first_error(progress.error, error),
        Event::BufferFlag { port: _, flags } => next.eos = progress.eos || flags % 2 == 1,
        _ => {}
    }
    next
}

impl Client for ProgressClient {
    const HEADERS: bool = false;

    ghost HEADERS = { false };

    ghost progress = { λ client. client };

    fn hear(&mut self, event: Event) {
        self.progress = progress_after(self.progress, event);
    }

    fn progress(&self) -> Progress {
        self.progress
    }
}

/// A client that keeps its progress alone, and may be given headers.
#[derive(Clone, Copy, Debug, PartialEq, Eq)]
pub struct HolderClient {
    told: ProgressClient,
}

impl Model for HolderClient {
    ghost use Rattle.il_machine.specs.declared.answer.Progress.{Progress as Reached};

    ghost Value = { Reached };

    ghost view = { λ client. client.told };

    ghost inverse = { λ progress. record { told = progress } };
}

impl HolderClient {
    /// A client that was told nothing yet.
    pub fn new() -> HolderClient
        ensures { result ≡ no_progress }
    {
        HolderClient {
            told: ProgressClient::new(),
        }
    }
}

impl Client for HolderClient {
    const HEADERS: bool = true;

    ghost HEADERS = { true };

    ghost progress = { λ client. client };

    fn hear(&mut self, event: Event) {
        self.told.hear(event);
    }

    fn progress(&self) -> Progress {
        self.told.progress()
    }
}
