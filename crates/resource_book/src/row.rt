//! What the book has of one component.

ghost use Rattle.std.specs.Prelude.{◌≡◌};
ghost use Rattle.resource_book.specs.Rows.{blank_row, is_holder, is_waiter, is_kept, is_returning, units_in, number_of, is_before, gives_first, is_weaker, holding, given_back, marked_back, waiting, left};

/// Units that a component holds.
#[derive(Clone, Copy)]
pub struct Held {
    pub units: u32,
    /// They are on their way back.
    pub returning: bool,
}

/// A component's wait for units. The numbers of waits rise.
#[derive(Clone, Copy)]
pub struct Wait {
    pub need: u32,
    pub number: u64,
}

/// What a component holds and waits for, with the priority number that was told last.
#[derive(Clone, Copy, Default)]
pub struct Row {
    pub component: u64,
    pub priority: u32,
    pub held: Option<Held>,
    pub wait: Option<Wait>,
}

impl Row {
    /// The row of a component that holds nothing and doesn't wait.
    pub fn blank(component: u64) -> Row
        ensures { result ≡ blank_row component }
    {
        Row {
            component,
            priority: 0,
            held: None,
            wait: None,
        }
    }

    /// Whether the component holds units, which may be none.
    pub fn is_holder(self) -> bool
        ensures { result ≡ is_holder self }
    {
        self.held.is_some()
    }

    /// Whether the component waits for units.
    pub fn is_waiter(self) -> bool
        ensures { result ≡ is_waiter self }
    {
        self.wait.is_some()
    }

    /// Whether the book has to keep the row.
    pub fn is_kept(self) -> bool
        ensures { result ≡ is_kept self }
    {
        self.is_holder() || self.is_waiter()
    }

    /// Whether it holds units that are on their way back.
    pub fn is_returning(self) -> bool
        ensures { result ≡ is_returning self }
    {
        match self.held {
            Some(held) => held.returning,
            None => false,
        }
    }

    /// How many units it holds.
    pub fn units(self) -> u32
        ensures { result ≡ units_in self }
    {
        match self.held {
            Some(held) => held.units,
            None => 0,
        }
    }

    fn number(self) -> u64
        ensures { result ≡ number_of self }
    {
        match self.wait {
            Some(wait) => wait.number,
            None => 0,
        }
    }

    /// Whether it gets its units before the other waiter.
    pub fn is_before(self, other: Row) -> bool
        ensures { result ≡ is_before self other }
    {
        self.priority < other.priority
            || (self.priority == other.priority && self.number() < other.number())
    }

    /// Whether it gives its units up before the other holder.
    pub fn gives_first(self, other: Row) -> bool
        ensures { result ≡ gives_first self other }
    {
        other.priority < self.priority
            || (self.priority == other.priority && other.component < self.component)
    }

    /// Whether it holds units that it can lose to the waiter.
    pub fn is_weaker(self, waiter: Row) -> bool
        ensures { result ≡ is_weaker waiter self }
    {
        self.is_holder() && !self.is_returning() && waiter.priority < self.priority
    }

    /// The row with so many units held.
    pub fn holding(mut self, units: u32, priority: u32) -> Row
        ensures { result ≡ holding units priority self }
    {
        self.priority = priority;
        self.held = Some(Held {
            units,
            returning: false,
        });
        self
    }

    /// The row without its units.
    pub fn given_back(mut self) -> Row
        ensures { result ≡ given_back self }
    {
        self.held = None;
        self
    }

    /// The row whose units are on their way back.
    pub fn marked_back(mut self) -> Row
        ensures { result ≡ marked_back self }
    {
        if let Some(held) = self.held {
            self.held = Some(Held {
                units: held.units,
                returning: true,
            });
        }
        self
    }

    /// The row that waits, with its number among all waits.
    pub fn waiting(mut self, need: u32, priority: u32, number: u64) -> Row
        ensures { result ≡ waiting need priority number self }
    {
        self.priority = priority;
        self.wait = Some(Wait { need, number });
        self
    }

    /// The row that waits no more.
    pub fn left(mut self) -> Row
        ensures { result ≡ left self }
    {
        self.wait = None;
        self
    }
}
