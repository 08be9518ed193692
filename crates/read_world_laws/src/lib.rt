//! A world of the machine read otherwise: with all its client objects in, so that a note that was taken stands there as one that was told;
//! and without the faults of its steps. What an act of a play does it does there as well. Stated on functions that do nothing.
#![tactic(auto)]

ghost use Rattle.std.specs.Prelude.{◌≡◌, ◌⊎◌, List, None, Ok, Result, Some, false, slice_get, true, ℕ};
ghost use Rattle.omx_types.specs.declared.command.Event.{Event};
ghost use Rattle.omx_types.specs.declared.command.Note.{Note};
ghost use Rattle.omx_types.specs.declared.command.Note.TheVariants.{Told};
ghost use Rattle.omx_types.specs.declared.error.OmxError.{OmxError};
ghost use Rattle.omx_types.specs.declared.handle.Handle.{Handle};
ghost use Rattle.il_machine.specs.Acts as acts;
ghost use Rattle.il_machine.specs.Acts.{Act, Reply};
ghost use Rattle.il_machine.specs.Due.{ClosesTo, IsClosed};
ghost use Rattle.il_machine.specs.Finishing.{Finish};
ghost use Rattle.il_machine.specs.Notes.{EndNote, TakeFrom, TakeNote, TakenEvent, Took, TookNote, with_given};
ghost use Rattle.il_machine.specs.Run.{Meets, Step};
ghost use Rattle.il_machine.specs.Stepping.{WorkDone};
ghost use Rattle.il_machine.specs.World.{Component, Stream, World, number_of, place_numbered, place_of, stream_of, with_component};
ghost use Rattle.read_world_laws.specs.Beside.{IsBeside, IsDeclined};
ghost use Rattle.read_world_laws.specs.Inside.{inside};
ghost use Rattle.read_world_laws.specs.Mended.{gone_on, is_fault, mend, mended};

/// With the client objects in each step that looks at none of them goes the same way. A note that tells an event is taken and told at
/// once, and a client object that comes back is nothing.
pub fn law_of_taken_notes()
    ensures steps { (world : World) (act : Act) (reply : Reply) (after : World) → IsBeside act → Step world act reply after
        → Step (inside world) act reply (inside after) }
    ensures finishes { (world : World) (done : WorkDone) (after : World) → Finish world done after → Finish (inside world) done (inside after) }
    ensures meets { (world : World) (done : WorkDone) → Meets world (acts.Finish done) → Meets (inside world) (acts.Finish done) }
    ensures closes { (world after : World) → ClosesTo world after → ClosesTo (inside world) (inside after) }
    ensures took { (world : World) (place : ℕ) (component : Component) (event : Event) → slice_get world.components place ≡ Some component
        → (handle : Handle) → place_of handle world.components ≡ Some place → component.client_out ≡ false
        → slice_get component.notes 0 ≡ Some (Told event) → IsClosed world → IsClosed (with_given place component (Told event) world)
        × ((between : World) × TakeNote (inside world) handle (Ok (TookNote (TakenEvent event))) between
        × EndNote between handle (inside (with_given place component (Told event) world))) }
    ensures back { (world : World) (handle : Handle) (after : World) → IsClosed world → EndNote world handle after
        → (inside after ≡ inside world) × IsClosed after }
{}

/// Without the faults of its steps, whatever is said to have gone through the files, a step goes the same way, unless it was declined. A
/// work that comes back without a fault comes back so; and a note that tells a fault is nothing.
pub fn law_of_mended_worlds()
    ensures steps { (streams : List Stream) (world : World) (act : Act) (reply : Reply) (after : World) → IsBeside act → Step world act reply after
        → Step (mend streams world) act reply (mend streams after) ⊎ ((after ≡ world) × IsDeclined reply) }
    ensures finishes { (streams : List Stream) (world : World) (done : WorkDone) (after : World) (place : ℕ) (component : Component)
        → place_numbered done.component world.components ≡ Some place → slice_get world.components place ≡ Some component
        → component.part.failed ≡ false → stream_of (number_of component) (mend streams world) ≡ stream_of (number_of component) world
        → done.fault ≡ None → Finish world done after
        → (Finish (mend streams world) done (mend streams after) × (after.streams ≡ world.streams))
        ⊎ (Finish (mend streams world) done (mend (gone_on streams (number_of component) done) after)
        × (after.streams ≡ gone_on world.streams (number_of component) done)) }
    ensures meets { (streams : List Stream) (world : World) (done : WorkDone)
        → stream_of done.component (mend streams world) ≡ stream_of done.component world → Meets world (acts.Finish done)
        → Meets (mend streams world) (acts.Finish done) }
    ensures closes { (streams : List Stream) (world after : World) → ClosesTo world after → ClosesTo (mend streams world) (mend streams after) }
    ensures takes { (streams : List Stream) (world : World) (place : ℕ) (component : Component) (note : Note)
        → slice_get world.components place ≡ Some component → slice_get component.notes 0 ≡ Some note → (handle : Handle) (result : Result Took OmxError)
        (after : World) → place_of handle world.components ≡ Some place → component.client_out ≡ false → is_fault note ≡ false
        → TakeFrom world place component false (Some note) result after → TakeNote (mend streams world) handle result (mend streams after) }
    ensures told { (streams : List Stream) (world : World) (place : ℕ) (component : Component) (note : Note)
        → slice_get world.components place ≡ Some component → slice_get component.notes 0 ≡ Some note → is_fault note ≡ true
        → mend streams (with_given place component note world)
        ≡ with_component place (record (mended component) { client_out = true }) (mend streams world) }
    ensures back { (streams : List Stream) (world : World) (handle : Handle) (after : World) → EndNote world handle after
        → EndNote (mend streams world) handle (mend streams after) }
{}
