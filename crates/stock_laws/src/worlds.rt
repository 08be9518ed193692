//! What a graph keeps stands for whole worlds: steps follow one another, and each change of what is kept is one of every world.

ghost use Rattle.std.specs.Prelude.{◌≡◌, ℕ, List, Option, Some, None, is_some, slice_get, slice_set};
ghost use Rattle.il_machine.specs.World.{Component, Stream, Work, World, component_numbered, number_of, stream_of, with_component};
ghost use Rattle.il_machine.specs.Files.{Offered, attached, stream_with, with_file};
ghost use Rattle.il_machine.specs.Claims.{seen_work, with_work};
ghost use Rattle.il_machine.specs.Stepping.{WorkDone};
ghost use Rattle.il_machine.specs.Finishing.{announced, gone_through, with_landed};
ghost use Rattle.il_machine.specs.Parts.{terms_of};
ghost use Rattle.il_machine.specs.Whole.{Kept, Stands, PartSeen, HasDone, HasParts, IsOut};
ghost use Rattle.il_machine.specs.Sound.{Sound};
ghost use Rattle.stock_laws.specs.Parts.{IsAlone};

/// Where what is kept stands for one sound world, each world that it stands for is sound.
pub fn law_of_sound_worlds()
    ensures { (kept : Kept) (world after : World) → Stands kept world → Sound world → Stands kept after → Sound after }
{}

/// The parts that are kept are the world's after a file came to one, after one went out with its work, which then is out in the
/// world with that part, and after it came back, from a step or from an announcement.
pub fn law_of_parts()
    ensures attached { (parts : List (Option PartSeen)) (world : World) (index : ℕ) (component : Component) (file : Offered) (part_seen : Option PartSeen) (other_part_seen : PartSeen)
        → slice_get world.components index ≡ Some component → IsAlone index component world.components → slice_get parts index ≡ Some part_seen
        → ((stream : Stream) → stream_of (number_of component) world ≡ Some stream → HasDone (terms_of (record component { file = Some (attached file) })) component.part.failed (stream_with file stream) other_part_seen)
        → HasParts parts world → HasParts (slice_set parts index (Some other_part_seen)) (with_file index component file world) }
    ensures claimed { (parts : List (Option PartSeen)) (world : World) (index : ℕ) (component : Component) (work : Work)
        → slice_get world.components index ≡ Some component → HasParts parts world → HasParts (slice_set parts index None) (with_work index component work world) }
    ensures out { (world : World) (index : ℕ) (component : Component) (work : Work) (stream : Stream) (part_seen : PartSeen)
        → component_numbered (number_of component) (with_work index component work world) ≡ Some (record component { work = Some work }) → stream_of (number_of component) world ≡ Some stream
        → HasDone (terms_of component) component.part.failed stream part_seen → IsOut (with_work index component work world) (seen_work component work world.headers) part_seen }
    ensures landed { (parts : List (Option PartSeen)) (world : World) (index : ℕ) (component : Component) (done : WorkDone) (stream : Stream) (part_seen : Option PartSeen) (other_part_seen : PartSeen)
        → slice_get world.components index ≡ Some component → IsAlone index component world.components → slice_get parts index ≡ Some part_seen → stream_of (number_of component) world ≡ Some stream
        → HasDone (terms_of component) (is_some done.fault) (gone_through done stream) other_part_seen
        → HasParts parts world → HasParts (slice_set parts index (Some other_part_seen)) (with_landed index component done stream world) }
    ensures told { (parts : List (Option PartSeen)) (world : World) (index : ℕ) (component : Component) (stream : Stream) (part_seen : Option PartSeen) (other_part_seen : PartSeen)
        → slice_get world.components index ≡ Some component → IsAlone index component world.components → slice_get parts index ≡ Some part_seen → stream_of (number_of component) world ≡ Some stream
        → HasDone (terms_of component) component.part.failed stream other_part_seen
        → HasParts parts world → HasParts (slice_set parts index (Some other_part_seen)) (with_component index (announced component) world) }
{}
