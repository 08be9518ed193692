//! How a graph is assembled: the acts that make its components, set them, bring their files and join them, one stage after the other. Each
//! is accepted where the earlier ones were. Stated on functions that do nothing.

ghost use Rattle.std.specs.Prelude.{◌≡◌, ℕ, ◌+◌, ◌<◌, ◌⊎◌, true, false, List, [], ◌∷◌, ◌++◌, length, slice_get, None, Some, Result, Ok, Err};
ghost use Rattle.omx_types.specs.declared.handle.Handle.{Handle};
ghost use Rattle.omx_types.specs.declared.error.OmxError.{OmxError};
ghost use Rattle.omx_types.specs.declared.error.CallError.{CallError};
ghost use Rattle.omx_types.specs.declared.error.CallError.TheVariants.{OutOfMemory};
ghost use Rattle.omx_types.specs.declared.param.Supplier.{Supplier};
ghost use Rattle.omx_types.specs.declared.param.Supplier.TheVariants.{Input};
ghost use Rattle.il_machine.specs.Components.{GetHandle};
ghost use Rattle.il_machine.specs.Due.{IsClosed};
ghost use Rattle.il_machine.specs.Files.{Attach, Offered};
ghost use Rattle.il_machine.specs.Parameters.{SetConfig, SetParameter};
ghost use Rattle.il_machine.specs.Run.{Run};
ghost use Rattle.il_machine.specs.Tunnels.{SetupTunnel};
ghost use Rattle.il_machine.specs.World.{World, no_world, place_of};
ghost use Rattle.play_build_laws.specs.Assembly.{Assembly, IsLawful, component_at};
ghost use Rattle.play_build_laws.specs.Building.{building};
ghost use Rattle.play_build_laws.specs.Stages.{Stage, Making, Factoring, Setting, Filing, Joining, IsStage, factor_key, factor_value, id_at, name_of, port_key, port_value};

/// Each act of an assembly is accepted where it is next, but that a component's making may want memory, and leads to the next stage.
pub fn law_of_assembling()
    ensures made { (assembly : Assembly) (handles : List Handle) (world after : World) (number : ℕ) (result : Result Handle CallError)
        → IsLawful assembly → IsStage assembly (Making number) handles world → number < assembly.components → GetHandle world (name_of (assembly.kind number)) result after
        → ((handle : Handle) × (result ≡ Ok handle) × IsStage assembly (Making (number + 1)) (handles ++ handle ∷ []) after) ⊎ ((result ≡ Err OutOfMemory) × (after ≡ world)) }
    ensures factored { (assembly : Assembly) (handles : List Handle) (world after : World) (place index factor : ℕ) (handle : Handle) (result : Result (Unit {0}) OmxError)
        → IsLawful assembly → IsStage assembly (Factoring place index) handles world → place < assembly.components → slice_get handles place ≡ Some handle → slice_get (assembly.factors place) index ≡ Some factor
        → SetConfig world handle (factor_key (assembly.kind place) index) (factor_value (assembly.kind place) factor) result after
        → (result ≡ Ok tt) × IsStage assembly (Factoring place (index + 1)) handles after }
    ensures output { (assembly : Assembly) (handles : List Handle) (world after : World) (link : ℕ) (handle : Handle) (result : Result (Unit {0}) OmxError)
        → IsLawful assembly → IsStage assembly (Setting link false) handles world → link < assembly.links → slice_get handles (component_at assembly false link) ≡ Some handle
        → SetParameter world handle (port_key (assembly.end false link).port) (port_value assembly false link) result after
        → (result ≡ Ok tt) × IsStage assembly (Setting link true) handles after }
    ensures input { (assembly : Assembly) (handles : List Handle) (world after : World) (link : ℕ) (handle : Handle) (result : Result (Unit {0}) OmxError)
        → IsLawful assembly → IsStage assembly (Setting link true) handles world → link < assembly.links → slice_get handles (component_at assembly true link) ≡ Some handle
        → SetParameter world handle (port_key (assembly.end true link).port) (port_value assembly true link) result after
        → (result ≡ Ok tt) × IsStage assembly (Setting (link + 1) false) handles after }
    ensures filed { (assembly : Assembly) (handles : List Handle) (world after : World) (place : ℕ) (handle : Handle) (file : Offered) (result : Result (Unit {0}) OmxError)
        → IsLawful assembly → IsStage assembly (Filing place) handles world → place < assembly.components → slice_get handles place ≡ Some handle → assembly.file place ≡ Some file
        → Attach world handle file result after → (result ≡ Ok tt) × IsStage assembly (Filing (place + 1)) handles after }
    ensures joined { (assembly : Assembly) (handles : List Handle) (world after : World) (link : ℕ) (handle other_handle : Handle) (result : Result Supplier OmxError)
        → IsLawful assembly → IsStage assembly (Joining link) handles world → link < assembly.links
        → slice_get handles (component_at assembly false link) ≡ Some handle → slice_get handles (component_at assembly true link) ≡ Some other_handle
        → SetupTunnel world (id_at assembly false link handle) (id_at assembly true link other_handle) result after
        → (result ≡ Ok Input) × IsStage assembly (Joining (link + 1)) handles after }
{}

/// An assembly begins with no components, and where all of one kind of act is done it goes on with the next kind.
pub fn law_of_building_stages()
    ensures begins { (assembly : Assembly) (key : ℕ) → IsStage assembly (Making 0) [] (no_world key assembly.units) }
    ensures all_made { (assembly : Assembly) (handles : List Handle) (world : World) → IsStage assembly (Making assembly.components) handles world → IsStage assembly (Factoring 0 0) handles world }
    ensures one_factored { (assembly : Assembly) (handles : List Handle) (world : World) (place : ℕ)
        → IsStage assembly (Factoring place (length (assembly.factors place))) handles world → IsStage assembly (Factoring (place + 1) 0) handles world }
    ensures all_factored { (assembly : Assembly) (handles : List Handle) (world : World) → IsStage assembly (Factoring assembly.components 0) handles world → IsStage assembly (Setting 0 false) handles world }
    ensures all_set { (assembly : Assembly) (handles : List Handle) (world : World) → IsStage assembly (Setting assembly.links false) handles world → IsStage assembly (Filing 0) handles world }
    ensures no_file { (assembly : Assembly) (handles : List Handle) (world : World) (place : ℕ)
        → assembly.file place ≡ None → IsStage assembly (Filing place) handles world → IsStage assembly (Filing (place + 1)) handles world }
    ensures all_filed { (assembly : Assembly) (handles : List Handle) (world : World) → IsStage assembly (Filing assembly.components) handles world → IsStage assembly (Joining 0) handles world }
    ensures names { (assembly : Assembly) (stage : Stage) (handles : List Handle) (world : World) (place : ℕ) (handle : Handle)
        → IsStage assembly stage handles world → slice_get handles place ≡ Some handle → place_of handle world.components ≡ Some place }
    ensures closed { (assembly : Assembly) (stage : Stage) (handles : List Handle) (world : World) → IsStage assembly stage handles world → IsClosed world }
{}

/// The acts of an assembly, one behind the other and each answered that it was done, are a run to its last stage.
pub fn law_of_building()
    ensures { (assembly : Assembly) (key : ℕ) (handles : List Handle) (world : World) → IsLawful assembly → length handles ≡ assembly.components
        → Run (no_world key assembly.units) (building assembly handles) world → IsStage assembly (Joining assembly.links) handles world }
{}
