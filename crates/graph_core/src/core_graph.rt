//! A graph's record: how it is made, how its components are found, and whether it is full.

ghost use Rattle.std.specs.Prelude.{◌≡◌, ◌<◌, Some, None, [], length, slice_get, option_copied, IsSomeAnd, IfSome, IfOk, MatchOption, true, false};
ghost use Rattle.il_machine.specs.Components.{is_full};
ghost use Rattle.il_machine.specs.Stock.{no_stock};
ghost use Rattle.port_stock.specs.Kept.{stocked};
ghost use Rattle.graph_core.specs.Entries.{Entries, entry_place, entry_named, look_of};

use bit_set::BitSet;
use il_component::Component;
use note_queues::Client;
use omx_types::Handle;
use port_stock::Stock;
use registry::Registry;
use resource_book::Book;
use std::alloc::{AllocError, Global};
use std::marker::Model;

/// All that a graph keeps. The components stand in the order of their numbers.
pub struct Core<C: Client> {
    pub(crate) registry: Registry<usize>,
    pub(crate) components: Vec<Component<C>>,
    pub(crate) stock: Stock,
    /// The units, the components that hold some, and those that wait.
    pub(crate) book: Book,
    /// The places of the components at which something may be pending.
    pub(crate) marked: BitSet,
}

impl<C: Client> Model for Core<C> {
    ghost use Rattle.graph_core.specs.Entries.{Entries};
    ghost use Rattle.graph_core.specs.Standing.{IsGraph};
    ghost use Rattle.graph_core.specs.Booked.{booked};
    ghost use Rattle.graph_core.specs.Entries.{components_of};
    ghost use Rattle.graph_core.specs.Marking.{AreMarked};
    ghost use Rattle.std.specs.Prelude.{◌≡◌, vec_capacity};

    ghost Value = { Entries C };

    ghost view = { λ g. record { entries = g.components.items; stock = g.stock; units = g.book.units; waits = g.book.numbered; numbered = g.registry.given } };

    ghost invariant = { λ g. IsGraph C.progress g.components.items g.registry g.stock g.book.units g.book.numbered (vec_capacity g.components) × AreMarked g.components.items g.marked × (g.book.rows ≡ booked (components_of g.components.items)) };
}

impl<C: Client> Core<C> {
    /// A graph with no component, and so many free units.
    pub fn new(alloc: Global, units: u32) -> Result<Core<C>, AllocError>
        ensures { IfOk result (λ g. (g.entries ≡ []) × (stocked g.stock ≡ no_stock (stocked g.stock).key) × (g.units ≡ units) × (g.waits ≡ 0) × (g.numbered ≡ 0)) }
    {
        let stock = Stock::new(alloc)?;
        let components = match Vec::with_capacity(alloc, 32) {
            Ok(components) => components,
            Err(error) => {
                stock.close();
                return Err(error);
            }
        };
        Ok(Core {
            registry: Registry::new(alloc),
            components,
            stock,
            book: Book::new(units),
            marked: BitSet::empty(),
        })
    }

    /// The place of the component that the handle names.
    pub fn place_of(&self, h: Handle) -> Option<usize>
        ensures place { result ≡ entry_place h self.now.entries }
        ensures within { IfSome result (λ i. i < length self.now.entries) }
    {
        self.registry.lookup(h)
    }

    /// The component that the handle names.
    pub fn find(&self, h: Handle) -> Option<&Component<C>>
        ensures { option_copied result ≡ entry_named h self.now }
    {
        let place = self.place_of(h)?;
        self.components.get(place)
    }

    /// The component that the handle names, which is looked for at the place first.
    pub fn find_near(&self, h: Handle, place: usize) -> Option<&Component<C>>
        ensures { option_copied result ≡ entry_named h self.now }
    {
        match self.components.get(place) {
            Some(component) if component.handle() == h => Some(component),
            _ => self.find(h),
        }
    }

    /// The component at the place, in the order of their numbers.
    pub fn at(&self, place: usize) -> Option<&Component<C>>
        ensures { option_copied result ≡ slice_get self.now.entries place }
    {
        self.components.get(place)
    }

    /// Whether no further handle can be given.
    pub fn is_full(&self) -> bool
        ensures { result ≡ is_full (look_of self.now) }
    {
        self.registry.is_full()
    }
}
