//! The names of a graph's components and of their ports.

ghost use Rattle.std.specs.Prelude.{◌≡◌};

/// Names a component of a graph. The generation is the component's number: how many handles the graph
/// had given before, so a handle that was freed never names a later component of its slot.
#[derive(Clone, Copy, Debug, PartialEq, Eq)]
pub struct Handle {
    pub slot: u64,
    pub generation: u64,
}

impl Handle {
    /// A handle that resolves in no graph.
    pub fn none() -> Handle
        ensures slot { result.slot ≡ u64.MAX }
        ensures generation { result.generation ≡ u64.MAX }
    {
        Handle {
            slot: u64::MAX,
            generation: u64::MAX,
        }
    }
}

/// A port of a component: inputs are numbered from 0, then come the outputs.
#[derive(Clone, Copy, Debug, PartialEq, Eq)]
pub struct PortId {
    pub handle: Handle,
    pub index: u32,
}
