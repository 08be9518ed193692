//! What a worker calls between a claim and the step.

ghost use Rattle.std.specs.Prelude.{None};

/// It is called while no turn is held. A gate may tell its counts, one number for each component.
pub trait Gate {
    ghost use Rattle.std.specs.Prelude.{ℕ, ◌<◌, ◌≤◌, Option};
    ghost use Rattle.play_worker.specs.Counts.{Raised};

    ghost counts: { Self → Option (ℕ → ℕ) };

    /// `worker` is the number of the worker's pass, and `component` the component's place in script order.
    fn between(&mut self, worker: u32, component: u32)
        requires worker { (1 ≤ worker) × (worker ≤ 8) }
        requires component { component < 32 }
        ensures { Raised (counts self.old) component (counts self.new) };
}

/// A gate that does nothing, and tells no counts.
#[derive(Clone, Copy, Drop)]
pub struct NoGate;

impl Gate for NoGate {
    ghost counts = { λ _. None };

    fn between(&mut self, _worker: u32, _component: u32) {}
}
