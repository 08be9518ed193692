//! How a graph is taken apart once all its components rest and no header is left: its links are parted, and its components freed.
//! No act of it is refused. Stated on a function that does nothing.

ghost use Rattle.std.specs.Prelude.{◌≡◌, ℕ, ◌+◌, ◌<◌, Bool, true, false, Option, Some, length, slice_get, Result, Ok};
ghost use Rattle.omx_types.specs.declared.handle.Handle.{Handle};
ghost use Rattle.omx_types.specs.declared.error.OmxError.{OmxError};
ghost use Rattle.part_api.specs.declared.attached.Attached.{Attached};
ghost use Rattle.il_machine.specs.declared.port.PortKey.{PortKey};
ghost use Rattle.il_machine.specs.Components.{FreeHandle};
ghost use Rattle.il_machine.specs.Tunnels.{DropTunnel};
ghost use Rattle.il_machine.specs.World.{Component, World, place_of};
ghost use Rattle.play_build_laws.specs.Dismantling.{AreFirst, AreLinks, IsParted, IsSameButPorts, IsUnjoined};

/// The next link is parted, and once all are, the last component is freed.
pub fn law_of_dismantling()
    ensures parted { (end : Bool → ℕ → PortKey) (links link : ℕ) (world after : World) (other_handle third_handle : Handle) (result : Result (Unit {0}) OmxError)
        → AreLinks end links → IsParted end links link world → link < links
        → place_of other_handle world.components ≡ Some (end false link).component → place_of third_handle world.components ≡ Some (end true link).component
        → DropTunnel world (record { handle = other_handle; index = (end false link).port }) (record { handle = third_handle; index = (end true link).port }) result after
        → (result ≡ Ok tt) × IsParted end links (link + 1) after × IsSameButPorts world after }
    ensures all_parted { (end : Bool → ℕ → PortKey) (links : ℕ) (world : World) → IsParted end links links world → IsUnjoined (length world.components) world }
    ensures freed { (left : ℕ) (world after : World) (handle : Handle) (component : Component) (result : Result (Option Attached) OmxError)
        → IsUnjoined (left + 1) world → place_of handle world.components ≡ Some left → slice_get world.components left ≡ Some component → FreeHandle world handle result after
        → (result ≡ Ok component.file) × IsUnjoined left after × AreFirst left world after }
{}
