//! How the writes to a sink went, in turn.

ghost use Rattle.std.specs.Prelude.{◌≡◌};

/// How the writes to a sink went.
#[derive(Clone, Copy)]
pub enum Writing {
    /// None failed.
    Going,
    /// The last one failed, and none before it.
    Stopped,
    /// One was tried behind one that had failed.
    TriedAgain,
}

impl Writing {
    ghost use Rattle.outside_io.specs.Writings.{after_failed, after_done};

    /// How they went once one more was tried, and failed.
    pub fn after_failed(self) -> Writing
        ensures { result ≡ after_failed self }
    {
        match self {
            Writing::Going => Writing::Stopped,
            _ => Writing::TriedAgain,
        }
    }

    /// How they went once one more was tried, and didn't fail.
    pub fn after_done(self) -> Writing
        ensures { result ≡ after_done self }
    {
        match self {
            Writing::Going => Writing::Going,
            _ => Writing::TriedAgain,
        }
    }
}
