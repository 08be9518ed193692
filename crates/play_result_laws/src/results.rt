//! What a play leaves that was done whole: its files, its log and its summary, as definitions.

ghost use Rattle.std.specs.Prelude.{◌≡◌, ◌∷◌, ◌<◌, ◌^◌, ℕ, List, codes, length, Some};
ghost use Rattle.outside_io.specs.Files.{Outside};
ghost use Rattle.il_machine.specs.World.{World};
ghost use Rattle.play_forms.specs.Plans.{PlanValue};
ghost use Rattle.play_plan_laws.specs.Assemblies.{PlayFiles};
ghost use Rattle.play_result_laws.specs.Files.{IsWriter};
ghost use Rattle.play_log.specs.Entries.{Entry};
ghost use Rattle.play_log.specs.Naming.{IsNaming};
ghost use Rattle.play_log.specs.Scenes.{scene_of};
ghost use Rattle.play_result_laws.specs.Results.{IsLogOf, IsPlanIn};
ghost use Rattle.play_result_laws.specs.Worlds.{IsOpening};

/// The log of a play isn't `end` alone where the file of one of its sinks has a byte: its lines name the acts by which that was written.
pub fn law_of_no_acts()
    ensures { (workers : ℕ) (plan : PlanValue) (files : PlayFiles) (new : Outside) (place byte : ℕ) (name bytes : List ℕ)
        → IsWriter plan.parts place name → new.file name ≡ Some (byte ∷ bytes)
        → IsLogOf workers plan files new (codes "end\n") → ⊥ }
{}

/// From the world where a play begins a text names one list of acts at most, and these lead to one world.
pub fn law_of_one_log()
    ensures { (script log text : List ℕ) (old : Outside) (plan : PlanValue) (files : PlayFiles) (samples : List (List ℕ))
        (opening world after : World) (entries others : List Entry)
        → IsPlanIn script log old plan files samples → IsOpening plan files opening → length text < 2 ^ 64
        → IsNaming (scene_of plan.parts opening) opening text entries world
        → IsNaming (scene_of plan.parts opening) opening text others after → (others ≡ entries) × (after ≡ world) }
{}
