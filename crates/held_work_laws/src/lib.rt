//! The works that a caller of a graph holds: each is out as it was claimed, and no other is out. Stated on functions that do nothing.
#![tactic(auto)]

ghost use Rattle.std.specs.Prelude.{◌≡◌, ℕ, Bool, List, None, Option, Result, Some, IsSomeAnd, false, remove, slice_get, slice_set};
ghost use Rattle.omx_types.specs.declared.error.OmxError.{OmxError};
ghost use Rattle.omx_types.specs.declared.fault.PartFault.{PartFault};
ghost use Rattle.omx_types.specs.declared.handle.Handle.{Handle};
ghost use Rattle.part_api.specs.Terms.{Terms};
ghost use Rattle.il_machine.specs.Acts as acts;
ghost use Rattle.il_machine.specs.Acts.{Act, Reply};
ghost use Rattle.il_machine.specs.Answers.{component_named};
ghost use Rattle.il_machine.specs.Claims.{Claimed};
ghost use Rattle.il_machine.specs.Finishing.{Finish};
ghost use Rattle.il_machine.specs.Run.{Meets, Step};
ghost use Rattle.il_machine.specs.Sound.{Sound};
ghost use Rattle.il_machine.specs.Whole.{HasDone, Kept, PartSeen, Stands, StepsWhere};
ghost use Rattle.il_machine.specs.World.{Stream, World, stream_of};
ghost use Rattle.graph_core.specs.Claiming.{AreLent};
ghost use Rattle.graph_core.specs.Finishing.{AreHandedBack};
ghost use Rattle.il_flow.specs.Works.{DoneOf, seen_done};
ghost use Rattle.il_graph.specs.Finishing.{IsItsOwn, Returns};
ghost use Rattle.held_work_laws.specs.Claims.{IsTaken, TakesWork, TakesWorkAt};
ghost use Rattle.held_work_laws.specs.Places.{AreHeldAt, IsWorkless};
ghost use Rattle.held_work_laws.specs.Works.{AreHeld, BackSo, HeldWork, IsBroughtBack, IsOutSomewhere, IsRun, seen_of};

/// Works that are held in a list stay so over each act that moves no work. A claim puts the work that it gives last, and a work that
/// comes back is taken out of the list.
pub fn law_of_held_works()
    ensures stays { (works : List HeldWork) (world : World) (act : Act) (reply : Reply) (after : World) → Sound world → Meets world act
        → Step world act reply after → IsWorkless act reply → AreHeld works world → AreHeld works after }
    ensures claimed { (works news : List HeldWork) (world : World) (handle : Handle) (answer : Result Claimed OmxError) (after : World) → Sound world
        → AreHeld works world → Step world (acts.Claim handle) (acts.Claimed answer) after → TakesWork handle works news answer after
        → AreHeld news after }
    ensures finished { (works : List HeldWork) (place : ℕ) (held : HeldWork) (frames : ℕ) (fault : Option PartFault) (world after : World) → Sound world
        → slice_get works place ≡ Some held → BackSo held frames fault world after → AreHeld works world → AreHeld (remove works place) after }
{}

/// The same of works that are held by the numbers of their components.
pub fn law_of_placed_works()
    ensures stays { (works : List (Option HeldWork)) (world : World) (act : Act) (reply : Reply) (after : World) → Sound world → Meets world act
        → Step world act reply after → IsWorkless act reply → AreHeldAt works world → AreHeldAt works after }
    ensures claimed { (works news : List (Option HeldWork)) (world : World) (handle : Handle) (answer : Result Claimed OmxError) (after : World) → Sound world
        → (old : Option HeldWork) × (slice_get works handle.generation ≡ Some old) → AreHeldAt works world
        → Step world (acts.Claim handle) (acts.Claimed answer) after → TakesWorkAt handle works news answer after → AreHeldAt news after }
    ensures finished { (works : List (Option HeldWork)) (number : ℕ) (held : HeldWork) (frames : ℕ) (fault : Option PartFault) (world after : World)
        → Sound world → slice_get works number ≡ Some (Some held) → BackSo held frames fault world after → AreHeldAt works world
        → AreHeldAt (slice_set works number None) after }
{}

/// A work that a graph's claim gave is the one that is held; and one that is held and was run, with a fault or without, may be brought back
/// to the graph in each world that has it out.
pub fn law_of_returned_works<P>()
    ensures taken { (graph : Kept) (handle : Handle) (terms : Terms) (held : HeldWork) (after : World) → Stands graph after → held.handle ≡ handle
        → (held.announces ≡ false → held.terms ≡ terms)
        → ((stream : Stream) → stream_of handle.generation after ≡ Some stream → HasDone terms false stream held.part)
        → IsSomeAnd (component_named handle (graph.looks).components) (λ c. IsItsOwn c held.announces None held.terms held.failed) → held.failed ≡ false
        → AreLent handle.generation held.headers graph.looks → IsTaken handle held (seen_of terms held) after }
    ensures comes { (held : HeldWork) (done : DoneOf P) (terms : Terms) (failed : Bool) (part : PartSeen) (graph : Kept) → IsRun held done terms failed part
        → IsOutSomewhere graph held → (world : World) × (took : List ℕ) × (Stands graph world × Returns world (seen_done took done) part) }
    ensures its { (held : HeldWork) (done : DoneOf P) (terms : Terms) (failed : Bool) (part : PartSeen) (graph : Kept) → IsRun held done terms failed part
        → IsOutSomewhere graph held
        → IsSomeAnd (component_named done.component (graph.looks).components) (λ c. IsItsOwn c done.announces done.fault terms failed) }
    ensures handed { (held : HeldWork) (done : DoneOf P) (terms : Terms) (failed : Bool) (part : PartSeen) (graph : Kept) → IsRun held done terms failed part
        → IsOutSomewhere graph held → AreHandedBack done.headers graph.looks }
    ensures back { (held : HeldWork) (done : DoneOf P) (terms : Terms) (failed : Bool) (part : PartSeen) (old new : Kept) → IsRun held done terms failed part
        → ((took : List ℕ) → StepsWhere old new (λ w. Returns w (seen_done took done) part) (λ w v. Finish w (seen_done took done) v))
        → IsBroughtBack old new held done.frames done.fault }
{}
