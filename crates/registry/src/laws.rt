//! What must hold of registries, stated on functions that do nothing.

ghost use Rattle.std.specs.Prelude.{ℕ, IsSomeAnd};
ghost use Rattle.omx_types.specs.declared.handle.Handle.{Handle as Named};
ghost use Rattle.registry.specs.Handles.{Handles, Removes, AllGiven};
ghost use Rattle.registry.specs.Stale.{ChangesTimes, IsStale};

/// A handle that was given and doesn't resolve never resolves again, whatever is given or taken back later.
pub fn law_of_stale_handles<T>()
    ensures { (times : ℕ) (old new : Handles T) (handle : Named) → ChangesTimes times old new → IsStale old handle → IsStale new handle }
{}
