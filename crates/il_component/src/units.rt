//! A component's units: what it needs, whether it waits for them, and how they are given and taken.

ghost use Rattle.std.specs.Prelude.{◌≡◌, ◌≤◌};
ghost use Rattle.il_machine.specs.Room.{used};
ghost use Rattle.il_machine.specs.Due.{lost};
ghost use Rattle.il_machine.specs.Units.{units_of, need_of, is_giving_back, is_waiter, granted_units, preempted_units};
ghost use Rattle.il_component.specs.Entries.{component_of, KeepsNotices};

use crate::component::Component;
use il_machine::{Cause, Pending};
use omx_types::{Event, Kind, OmxError, State};

const TO_IDLE: Pending = Pending {
    target: State::Idle,
    cause: Cause::Client,
};

/// The units that a component of the kind needs.
fn units(kind: Kind) -> u32
    ensures { result ≡ units_of kind }
{
    match kind {
        Kind::Mixer(_) => 3,
        Kind::Decoder | Kind::Alaw | Kind::Mulaw => 2,
        Kind::Source | Kind::Gain | Kind::Splitter(_) | Kind::Sink | Kind::Late => 1,
    }
}

impl<C> Component<C> {
    /// The units that it needs.
    pub fn need(&self) -> u32
        ensures need { result ≡ need_of (component_of self.now) }
        ensures few { result ≤ 3 }
    {
        units(self.params.kind())
    }

    /// Whether it has its units.
    pub fn holds_units(&self) -> bool
        ensures { result ≡ self.now.holds }
    {
        self.holds
    }

    /// Whether its units are on their way back.
    pub fn is_giving_back(&self) -> bool
        ensures { result ≡ is_giving_back (component_of self.now) }
    {
        let leaves = match self.pending {
            Some(pending) => matches!(pending.cause, Cause::Loss)
                || matches!(pending.target, State::Loaded),
            None => false,
        };
        self.holds && (self.loss_mark || leaves)
    }

    /// Whether it waits for units.
    pub fn is_waiter(&self) -> bool
        ensures { result ≡ is_waiter (component_of self.now) }
    {
        matches!(self.state, State::WaitForResources) && self.pending.is_none()
    }

    /// Its priority number: the lesser goes first.
    pub fn priority(&self) -> u32
        ensures { result ≡ self.now.settings.priority }
    {
        self.params.priority()
    }

    /// The number of its wait, which it has from where it reaches WaitForResources until it leaves it.
    pub fn waiting(&self) -> Option<u64>
        ensures { result ≡ self.now.waiting }
    {
        self.waiting
    }

    /// It waits no more, and has its units.
    pub fn grant(&mut self)
        requires { used (granted_units (component_of self.old)) ≤ 256 }
        ensures component { component_of self.new ≡ granted_units (component_of self.old) }
        ensures kept { KeepsNotices self.old self.new }
    {
        self.set_units(true, None);
        self.settle(self.state, Some(TO_IDLE), self.loss_mark);
        self.queue_event(Event::ResourcesAcquired);
    }

    /// Its units are lost, and it is on its way to Loaded.
    fn lose_units(&mut self)
        requires { used (lost (component_of self.old)) ≤ 256 }
        ensures component { component_of self.new ≡ lost (component_of self.old) }
        ensures kept { KeepsNotices self.old self.new }
    {
        let loaded = Pending {
            target: State::Loaded,
            cause: Cause::Loss,
        };
        self.settle(self.state, Some(loaded), false);
        self.queue_event(Event::Error(OmxError::ResourcesLost));
    }

    /// Its units are taken, at once or once it is Idle.
    pub fn preempt(&mut self)
        requires { used (preempted_units (component_of self.old)) ≤ 256 }
        ensures component { component_of self.new ≡ preempted_units (component_of self.old) }
        ensures kept { KeepsNotices self.old self.new }
    {
        if !state_rules::is_running(self.state) {
            self.lose_units();
            return;
        }
        if let Some(
            Pending {
                target: State::Idle,
                ..
            },
        ) = self.pending
        {
            self.settle(self.state, self.pending, true);
            return;
        }
        let idle = Pending {
            target: State::Idle,
            cause: Cause::Loss,
        };
        self.settle(self.state, Some(idle), self.loss_mark);
        self.queue_event(Event::Error(OmxError::ResourcesPreempted));
    }
}
