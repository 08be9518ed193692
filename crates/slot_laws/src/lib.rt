//! That the key of a world's headers and the slots of its handles don't matter to what its acts do. Stated on functions that do nothing.
#![tactic(auto)]

ghost use Rattle.std.specs.Prelude.{◌≡◌, ◌≢◌, ◌-◌, ◌^◌, ℕ, true, List, Ok, Err, Result};
ghost use Rattle.omx_types.specs.declared.error.CallError.{CallError};
ghost use Rattle.omx_types.specs.declared.error.CallError.TheVariants.{OutOfMemory};
ghost use Rattle.omx_types.specs.declared.handle.Handle.{Handle};
ghost use Rattle.il_machine.specs.Acts.{Act, Reply};
ghost use Rattle.il_machine.specs.Components.{GetHandle, is_vacant};
ghost use Rattle.il_machine.specs.Due.{ClosesTo};
ghost use Rattle.il_machine.specs.Run.{Step};
ghost use Rattle.il_machine.specs.World.{World};
ghost use Rattle.slot_laws.specs.Seating.{MakesNone, Seating, mapped, moved, moved_act, moved_handle, moved_reply};

/// What an act does in a world it does in the world whose handles moved, by the moved handles, and so does the close-out. Where
/// the act makes a component its slot has to be vacant there too.
pub fn law_of_moved_steps()
    ensures goes { (seating : Seating) (world : World) (act : Act) (reply : Reply) (after : World)
        → MakesNone act → Step world act reply after → Step (moved seating world) (moved_act seating act) (moved_reply seating reply) (moved seating after) }
    ensures makes { (seating : Seating) (world : World) (name : List ℕ) (handle : Handle) (after : World)
        → is_vacant (moved_handle seating handle).slot (moved seating world).components ≡ true
        → GetHandle world name (Ok handle) after → GetHandle (moved seating world) name (Ok (moved_handle seating handle)) (moved seating after) }
    ensures refuses { (seating : Seating) (world : World) (name : List ℕ) (error : CallError) (after : World)
        → GetHandle world name (Err error) after → GetHandle (moved seating world) name (Err error) (moved seating after) }
    ensures closing { (seating : Seating) (world after : World) → ClosesTo world after → ClosesTo (moved seating world) (moved seating after) }
{}

/// Of two worlds that differ by their key and the slots of their handles alone each act has one answer, but for handles, and leads to
/// two such worlds, but for want of memory. Where the act makes a component the two new handles have to be each other's.
pub fn law_of_alike_steps()
    ensures goes { (seating : Seating) (world : World) (act : Act) (reply : Reply) (after : World) (other : Act) (also : Reply) (middle : World)
        → MakesNone act → other ≡ moved_act seating act → Step world act reply after → Step (moved seating world) other also middle
        → (also ≡ moved_reply seating reply) × (middle ≡ moved seating after) }
    ensures makes { (seating : Seating) (world : World) (name : List ℕ) (result : Result Handle CallError) (after : World) (also : Result Handle CallError) (middle : World)
        → result ≢ Err OutOfMemory → also ≢ Err OutOfMemory
        → ((handle other : Handle) → result ≡ Ok handle → also ≡ Ok other → handle.generation ≡ world.numbered → other.generation ≡ world.numbered
        → world.numbered ≢ 2 ^ 64 - 1 → moved_handle seating handle ≡ other)
        → GetHandle world name result after → GetHandle (moved seating world) name also middle
        → (also ≡ mapped (moved_handle seating) result) × (middle ≡ moved seating after) }
{}
