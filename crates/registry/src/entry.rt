//! A value as the registry keeps it, with its handle's generation, and the value lent for writing.

/// A value with the generation of its handle.
#[derive(Clone, Copy)]
pub struct Entry<T> {
    pub generation: u64,
    pub value: T,
}

impl<T> Entry<T> {
    ghost use Rattle.std.specs.Prelude.{◌≡◌};
    ghost use Rattle.std.specs.Borrow.{Lends, sem};
    ghost use Rattle.registry.specs.contracts.entry.Entry.{the_row};

    pub(crate) fn value_mut(&mut self) -> &mut T
        ensures* lends { sem 𝓛 (Lends (the_row T.row) T.row self.entry result (λ w. record self.old { value = w })) }
        ensures value { result.now ≡ self.old.value }
    {
        &mut self.value
    }
}
