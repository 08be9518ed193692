//! What must hold of the machine's steps and runs, stated on functions that do nothing: how queues grow, that what a client
//! was given stays, which way headers go, that each comes back with its memory, and that one act in one world has one result.

ghost use Rattle.std.specs.Prelude.{◌≡◌, ◌≢◌, ℕ, true, false, List, All, ◌++◌, ◌∷◌, [], ◌⊎◌, Option, Some, None, Ok, IsSome, Contains};
ghost use Rattle.omx_types.specs.declared.handle.Handle.{Handle};
ghost use Rattle.omx_types.specs.declared.state.State.TheVariants as states;
ghost use Rattle.omx_types.specs.declared.command.Completion.{Completion};
ghost use Rattle.omx_types.specs.declared.command.Completion.TheVariants as completions;
ghost use Rattle.omx_types.specs.declared.command.Note.{Note};
ghost use Rattle.il_machine.specs.declared.port.Port.{Port};
ghost use Rattle.il_machine.specs.States.{is_running};
ghost use Rattle.il_machine.specs.World.{Component, Stream, World, component_numbered, no_world, ports_of, stream_of};
ghost use Rattle.il_machine.specs.declared.port.PortKey.{PortKey};
ghost use Rattle.il_machine.specs.declared.header.HeaderState.{HeaderState};
ghost use Rattle.il_machine.specs.Headers.{seen, is_for};
ghost use Rattle.il_machine.specs.Look.{look};
ghost use Rattle.il_machine.specs.Answers.{component_named};
ghost use Rattle.il_machine.specs.Components.{noted_by, progress_of};
ghost use Rattle.il_machine.specs.Ports.{settled};
ghost use Rattle.il_machine.specs.Buffers.{Held};
ghost use Rattle.il_machine.specs.Due.{Happens, HappenTimes, ClosesTo, IsClosed};
ghost use Rattle.il_machine.specs.Acts.{Act, Reply};
ghost use Rattle.il_machine.specs.Acts as acts;
ghost use Rattle.il_machine.specs.Claims.{WorkSeen, ClaimedWork};
ghost use Rattle.il_machine.specs.Stepping.{WorkDone, IsStep, IsAnnounced};
ghost use Rattle.history_laws.specs.Works.{IsHeldOut, HeaderStays, returns_work, takes_work, has_work_out};
ghost use Rattle.il_machine.specs.Run.{Step, Meets, Run};
ghost use Rattle.il_machine.specs.Sound.{Sound};
ghost use Rattle.il_machine.specs.Effect.{effect};
ghost use Rattle.il_machine.specs.Queued.{notes_given, queued_for, completions_in, StepQueues, WasDue};
ghost use Rattle.il_machine.specs.Trails.{Move, moves, HaveTrails, RunMoves};
ghost use Rattle.history_laws.specs.Runs.{IsUnchanged, RunQueues, WasDueIn};
ghost use Rattle.history_laws.specs.Given.{IsGivenToNumbered, LeavesNotes, note_for, is_freed_by};
ghost use Rattle.history_laws.specs.Settled.{IsReturned, TakesToIdle, ReachesIdle, WasUnmade, IsUnmadeAndBack};
ghost use Rattle.history_laws.specs.Determined.{AreAlike};
ghost use Rattle.history_laws.specs.ClientHeaders.{IsClients, taken_in, given_out, number_out, IsGiven};
ghost use Rattle.history_laws.specs.Memory.{HasMemory, handed_in, number_in, filled_in, with_front, RunFills, brings};

/// What is queued for a client grows at its end alone: the act tells no completion, and each that the close-out
/// tells was due in it. The close-out begins with the act's effect. For a component that comes nothing is queued.
pub fn law_of_queues()
    ensures steps { (world : World) (act : Act) (reply : Reply) (after : World)
        → Sound world → Meets world act → Step world act reply after → StepQueues world act reply after }
    ensures effects { (world : World) (act : Act) (reply : Reply) (after : World)
        → Sound world → Meets world act → Step world act reply after → IsUnchanged world (effect world act reply) after ⊎ ClosesTo (effect world act reply) after }
    ensures new { (key units : ℕ) (steps : List (Act × Reply)) (world : World) (act : Act) (reply : Reply) (after : World) (number : ℕ)
        → Run (no_world key units) steps world → Meets world act → Step world act reply after
        → component_numbered number world ≡ None → IsSome (component_numbered number after) → queued_for number (effect world act reply) ≡ [] }
    ensures runs { (world after : World) (steps : List (Act × Reply)) (number : ℕ)
        → Sound world → Run world steps after → IsSome (component_numbered number after) → RunQueues world steps after number }
    ensures whole { (key units : ℕ) (steps : List (Act × Reply)) (world : World) (number : ℕ) (completion : Completion)
        → Run (no_world key units) steps world → IsSome (component_numbered number world)
        → Contains (completions_in (queued_for number world)) completion → WasDueIn (no_world key units) steps world number completion }
{}

/// The notes that were given for a component stay: an act that gives it a note adds just this one, at the end, and the act that
/// frees it removes all. A component that comes has none. So the progress of its client object is moved by such a note alone,
/// and stays until the next one.
pub fn law_of_given()
    ensures stays { (world : World) (act : Act) (reply : Reply) (after : World) (number : ℕ)
        → Sound world → Meets world act → Step world act reply after → LeavesNotes number act reply → notes_given number after ≡ notes_given number world }
    ensures adds { (world : World) (act : Act) (reply : Reply) (after : World) (number : ℕ) (note : Note)
        → Sound world → Meets world act → Step world act reply after → note_for number act reply ≡ Some note → notes_given number after ≡ notes_given number world ++ note ∷ [] }
    ensures frees { (world : World) (act : Act) (reply : Reply) (after : World) (number : ℕ)
        → Sound world → Meets world act → Step world act reply after → is_freed_by number act reply ≡ true → notes_given number after ≡ [] }
    ensures new { (world : World) (act : Act) (reply : Reply) (after : World) (number : ℕ)
        → Sound world → IsGivenToNumbered world → Meets world act → Step world act reply after
        → component_numbered number world ≡ None → IsSome (component_numbered number after) → notes_given number after ≡ [] }
    ensures numbered { (key units : ℕ) (steps : List (Act × Reply)) (world : World) → Run (no_world key units) steps world → IsGivenToNumbered world }
    ensures closing { (world after : World) → ClosesTo world after → after.given ≡ world.given }
    ensures told { (world : World) (act : Act) (reply : Reply) (after : World) (handle : Handle) (note : Note) (component other_component : Component)
        → Sound world → Meets world act → Step world act reply after → note_for handle.generation act reply ≡ Some note
        → component_named handle world.components ≡ Some component → component_named handle after.components ≡ Some other_component
        → progress_of other_component after ≡ noted_by note (progress_of component world) }
    ensures runs { (world after : World) (steps : List (Act × Reply)) (number : ℕ)
        → Sound world → Run world steps after → All (λ x. LeavesNotes number x.0 x.1) steps → notes_given number after ≡ notes_given number world }
    ensures progress { (world after : World) (steps : List (Act × Reply)) (handle : Handle) (component other_component : Component)
        → Sound world → Run world steps after → All (λ x. LeavesNotes handle.generation x.0 x.1) steps
        → component_named handle world.components ≡ Some component → component_named handle after.components ≡ Some other_component
        → progress_of other_component after ≡ progress_of component world }
{}

/// Every trail stays legal, ends with the header's owner, and has at most one return of each hand-over.
pub fn law_of_trails()
    ensures steps { (world : World) (ms : List Move) (act : Act) (reply : Reply) (after : World)
        → Sound world → HaveTrails world ms → Meets world act → Step world act reply after → HaveTrails after (ms ++ moves world act reply) }
    ensures closing { (number : ℕ) (world after : World) (ms : List Move)
        → Sound world → HappenTimes number world after → HaveTrails world ms → HaveTrails after ms }
    ensures runs { (key units : ℕ) (steps : List (Act × Reply)) (ms : List Move) (world : World)
        → RunMoves (no_world key units) steps ms world → HaveTrails world ms }
{}

/// At a settled port each hand-over has its return. So it is where a component reaches Idle from Executing
/// or Pause. A port whose disable is completed has no header; each that had been made for it in some world of
/// the run is unmade, and has as many returns as hand-overs.
pub fn law_of_settled()
    ensures ports { (world : World) (ms : List Move) (port : Port)
        → HaveTrails world ms → settled (seen world.headers) port ≡ true → IsReturned world ms port }
    ensures reaching { (world after : World) (ms : List Move) (happens : Happens world after)
        → HaveTrails world ms → TakesToIdle world after happens → All (IsReturned world ms) (ports_of happens.component) }
    ensures idle { (world : World) (ms : List Move) (act : Act) (reply : Reply) (after : World) (number : ℕ) (component other_component : Component)
        → Sound world → HaveTrails world ms → Meets world act → Step world act reply after
        → component_numbered number world ≡ Some component → is_running component.state ≡ true
        → component_numbered number after ≡ Some other_component → other_component.state ≡ states.Idle
        → ReachesIdle (effect world act reply) after (ms ++ moves world act reply) number }
    ensures disabled { (world : World) (ms : List Move) (act : Act) (reply : Reply) (after : World) (number port : ℕ)
        (was_due : WasDue (effect world act reply) after number (completions.Disable port))
        → Sound world → HaveTrails world ms → Meets world act → Step world act reply after
        → WasUnmade (effect world act reply) after (ms ++ moves world act reply) number port was_due }
    ensures back { (world : World) (old : List Move) (steps : List (Act × Reply)) (ms : List Move)
        (after : World) (act : Act) (reply : Reply) (middle : World) (key : PortKey)
        (was_due : WasDue (effect after act reply) middle key.component (completions.Disable key.port)) (number : ℕ) (header_state : HeaderState)
        → Sound world → HaveTrails world old → RunMoves world steps ms after → Meets after act → Step after act reply middle
        → (look world).headers.header number ≡ Some header_state → is_for key header_state ≡ true
        → IsUnmadeAndBack was_due.before (old ++ ms ++ moves after act reply) number header_state.home }
{}

/// Each step of a closed world leaves a closed one, so every world that a run reaches is closed.
pub fn law_of_closed_runs()
    ensures steps { (world : World) (act : Act) (reply : Reply) (after : World) → IsClosed world → Step world act reply after → IsClosed after }
    ensures runs { (key units : ℕ) (steps : List (Act × Reply)) (world : World) → Run (no_world key units) steps world → IsClosed world }
{}

/// One act in one world has one result, but for want of memory and the slot of a new handle.
pub fn law_of_steps_determined()
    ensures { (world : World) (act : Act) (reply : Reply) (after : World) (other : Reply) (middle : World)
        → Step world act reply after → Step world act other middle → AreAlike world reply after other middle }
{}

/// A header that is with the client stays so, as it is, unless an act takes it in, and then it isn't. A header that an
/// act gives is with the client, and no other one comes to it. The close-out takes none and gives none.
pub fn law_of_client_headers()
    ensures stays { (world : World) (act : Act) (reply : Reply) (after : World) (number : ℕ) (header_state : HeaderState)
        → Sound world → Meets world act → Step world act reply after → IsClients (look world) number header_state → taken_in act reply ≢ Some number → IsClients (look after) number header_state }
    ensures taken { (world : World) (act : Act) (reply : Reply) (after : World) (number : ℕ) (header_state : HeaderState)
        → Sound world → Meets world act → Step world act reply after → taken_in act reply ≡ Some number → ¬ (IsClients (look after) number header_state) }
    ensures comes { (world : World) (act : Act) (reply : Reply) (after : World) (number : ℕ) (header_state : HeaderState)
        → Sound world → Meets world act → Step world act reply after → IsClients (look after) number header_state → number_out act reply ≢ Some number → IsClients (look world) number header_state }
    ensures closing { (world after : World) (number : ℕ) (header_state : HeaderState)
        → Sound world → ClosesTo world after → IsClients (look world) number header_state → IsClients (look after) number header_state }
    ensures closing_back { (world after : World) (number : ℕ) (header_state : HeaderState)
        → Sound world → ClosesTo world after → IsClients (look after) number header_state → IsClients (look world) number header_state }
    ensures given { (world : World) (act : Act) (reply : Reply) (after : World) (header : Held)
        → Sound world → Meets world act → Step world act reply after → given_out act reply ≡ Some header → IsGiven world act after header }
    ensures runs { (world after : World) (steps : List (Act × Reply)) (number : ℕ) (header_state : HeaderState)
        → Sound world → Run world steps after → IsClients (look world) number header_state → All (λ x. taken_in x.0 x.1 ≢ Some number) steps → IsClients (look after) number header_state }
    ensures runs_back { (world after : World) (steps : List (Act × Reply)) (number : ℕ) (header_state : HeaderState)
        → Sound world → Run world steps after → IsClients (look after) number header_state → All (λ x. number_out x.0 x.1 ≢ Some number) steps → IsClients (look world) number header_state }
{}

/// A header's memory stays in each step that doesn't hand this very header in; but an output's header that comes back from a
/// work has the content that its step made at the front of its memory. One that is handed in has the memory that it was handed
/// in with, until it comes back. So no two headers swap their memories.
pub fn law_of_memory()
    ensures stays { (world : World) (act : Act) (reply : Reply) (middle : World) (number : ℕ) (before after : Option (List ℕ))
        → Sound world → Meets world act → Step world act reply middle → HasMemory world number before → HasMemory middle number after
        → number_in act reply ≢ Some number → after ≡ with_front (filled_in world act number) before }
    ensures handed { (world : World) (act : Act) (reply : Reply) (after : World) (header : Held)
        → Sound world → Step world act reply after → handed_in act reply ≡ Some header → HasMemory after header.number header.memory }
    ensures closing { (world after : World) (number : ℕ) (memory : Option (List ℕ))
        → Sound world → ClosesTo world after → HasMemory world number memory → HasMemory after number memory }
    ensures runs { (world middle : World) (steps : List (Act × Reply)) (number : ℕ) (before after : Option (List ℕ))
        → Sound world → Run world steps middle → HasMemory world number before → HasMemory middle number after
        → All (λ step. number_in step.0 step.1 ≢ Some number) steps → RunFills world steps middle number before after }
    ensures kept { (world middle : World) (steps : List (Act × Reply)) (number : ℕ) (before after : Option (List ℕ))
        → RunFills world steps middle number before after → All (λ step. brings number step.0 ≡ false) steps → after ≡ before }
    ensures back { (world : World) (act : Act) (reply : Reply) (after : World) (steps : List (Act × Reply))
        (middle : World) (other_act : Act) (other_reply : Reply) (last : World) (header back : Held)
        → Sound world → Meets world act → Step world act reply after → handed_in act reply ≡ Some header
        → Run after steps middle → All (λ step. number_in step.0 step.1 ≢ Some header.number) steps
        → Meets middle other_act → Step middle other_act other_reply last → given_out other_act other_reply ≡ Some back → back.number ≡ header.number
        → RunFills after steps middle header.number header.memory back.memory }
{}

/// The key of all headers stays.
pub fn law_of_keys()
    ensures steps { (world : World) (act : Act) (reply : Reply) (after : World)
        → Sound world → Meets world act → Step world act reply after → after.key ≡ world.key }
    ensures closing { (world after : World) → ClosesTo world after → after.key ≡ world.key }
    ensures runs { (world after : World) (steps : List (Act × Reply)) → Sound world → Run world steps after → after.key ≡ world.key }
{}

/// A work that was claimed is out, as its holder sees it, until an act brings it back: nobody else moves its headers, what they
/// carry stays, and so do its part's terms and what went through it. So a holder who did one step of it may bring it back. No act but
/// a claim takes a work out, and of a component whose work came back none is out.
pub fn law_of_works()
    ensures claimed { (world : World) (handle : Handle) (work_seen : WorkSeen) (after : World)
        → Sound world → Step world (acts.Claim handle) (acts.Claimed (Ok (ClaimedWork work_seen))) after
        → (stream : Stream) × (stream_of work_seen.component world ≡ Some stream) × IsHeldOut after work_seen stream }
    ensures stays { (world : World) (act : Act) (reply : Reply) (after : World) (work_seen : WorkSeen) (stream : Stream)
        → Sound world → Meets world act → Step world act reply after → returns_work work_seen.component act reply ≡ false → IsHeldOut world work_seen stream → IsHeldOut after work_seen stream }
    ensures closing { (world after : World) (work_seen : WorkSeen) (stream : Stream) → Sound world → ClosesTo world after → IsHeldOut world work_seen stream → IsHeldOut after work_seen stream }
    ensures runs { (world after : World) (steps : List (Act × Reply)) (work_seen : WorkSeen) (stream : Stream)
        → Sound world → Run world steps after → All (λ y. returns_work work_seen.component y.0 y.1 ≡ false) steps → IsHeldOut world work_seen stream → IsHeldOut after work_seen stream }
    ensures back { (world : World) (work_seen : WorkSeen) (stream : Stream) (done : WorkDone)
        → IsHeldOut world work_seen stream → done.component ≡ work_seen.component → work_seen.announces ≡ false → IsStep work_seen.terms stream work_seen.headers done → Meets world (acts.Finish done) }
    ensures told { (world : World) (work_seen : WorkSeen) (stream : Stream) (done : WorkDone)
        → IsHeldOut world work_seen stream → done.component ≡ work_seen.component → work_seen.announces ≡ true → IsAnnounced done → Meets world (acts.Finish done) }
    ensures headers { (world : World) (act : Act) (reply : Reply) (after : World) (work_seen : WorkSeen) (stream : Stream)
        → Sound world → Meets world act → Step world act reply after → returns_work work_seen.component act reply ≡ false → IsHeldOut world work_seen stream → All (HeaderStays world.headers after.headers) work_seen.headers }
    ensures first { (world : World) (handle : Handle) (work_seen : WorkSeen) (after : World)
        → Sound world → Step world (acts.Claim handle) (acts.Claimed (Ok (ClaimedWork work_seen))) after → has_work_out work_seen.component world ≡ false }
    ensures comes { (world : World) (act : Act) (reply : Reply) (after : World) (number : ℕ)
        → Sound world → Meets world act → Step world act reply after → takes_work number act reply ≡ false → has_work_out number world ≡ false → has_work_out number after ≡ false }
    ensures gone { (world : World) (done : WorkDone) (after : World)
        → Sound world → Meets world (acts.Finish done) → Step world (acts.Finish done) acts.Finished after → has_work_out done.component after ≡ false }
{}
