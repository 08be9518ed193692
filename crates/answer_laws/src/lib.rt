//! That each act has an answer, that answers lead to one world, and which handles no world has. Stated on functions that do nothing.
#![tactic(auto)]

ghost use Rattle.std.specs.Prelude.{◌≡◌, ◌<◌, ◌≤◌, ◌-◌, ◌^◌, ℕ, List, None};
ghost use Rattle.omx_types.specs.declared.handle.Handle.{Handle};
ghost use Rattle.il_machine.specs.World.{World, no_world};
ghost use Rattle.il_machine.specs.Answers.{component_named};
ghost use Rattle.il_machine.specs.Acts.{Act, Reply};
ghost use Rattle.il_machine.specs.Run.{Meets, Run, Step};
ghost use Rattle.il_machine.specs.Sound.{Sound};
ghost use Rattle.history_laws.specs.Determined.{WantsMemory};

/// Each act whose condition is met has an answer that isn't want of memory.
pub fn law_of_answers()
    ensures { (world : World) (act : Act) → Sound world → Meets world act
        → (reply : Reply) × (after : World) × Step world act reply after × (WantsMemory reply → ⊥) }
{}

/// The acts of a run with their answers lead to one world.
pub fn law_of_one_end()
    ensures { (world after other : World) (steps : List (Act × Reply)) → Run world steps after → Run world steps other → other ≡ after }
{}

/// Of each world that is reached fewer than 2^64 components were numbered, so a handle whose generation is that of
/// `Handle::none` names none.
pub fn law_of_no_handle()
    ensures numbered { (key units : ℕ) (steps : List (Act × Reply)) (world : World) → Run (no_world key units) steps world → world.numbered < 2 ^ 64 }
    ensures none { (key units : ℕ) (steps : List (Act × Reply)) (world : World) (handle : Handle)
        → Run (no_world key units) steps world → 2 ^ 64 - 1 ≤ handle.generation → component_named handle world.components ≡ None }
{}
