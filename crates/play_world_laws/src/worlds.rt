//! The worlds of a play, whose links are changed while it runs. Stated on functions that do nothing.

ghost use Rattle.std.specs.Prelude.{◌≡◌, ℕ, ◌<◌, Bool, true, false, not, None, Some};
ghost use Rattle.il_machine.specs.declared.port.Link.{Link};
ghost use Rattle.il_machine.specs.declared.port.Mode.TheVariants.{Steady};
ghost use Rattle.il_machine.specs.Commands.{disabling, enabling};
ghost use Rattle.il_machine.specs.Due.{unheld};
ghost use Rattle.il_machine.specs.World.{World};
ghost use Rattle.play_model.specs.Numbers.{not_announced, both_disables_sent, tunnel_dropped, output_set, retuned, disable_queued, disable_pending, enable_queued, enable_pending};
ghost use Rattle.play_model.specs.Changes.{Change, HasCompletion, conducted, port_at, port_on, told_on};
ghost use Rattle.play_model.specs.Play.{Play};
ghost use Rattle.play_model.specs.Acts.{Act, CanAct, acted};
ghost use Rattle.play_world_laws.specs.Openings.{IsOpeningWorld, opening};
ghost use Rattle.play_world_laws.specs.Changing.{state_by};
ghost use Rattle.play_world_laws.specs.PlayWorlds.{IsPlayWorld, PlayCast};

/// The world in which a play begins is one of them, where nothing was begun, made, done or announced.
pub fn law_of_play_openings()
    ensures opens { (cast : PlayCast) (recent : ℕ) (world : World) → IsOpeningWorld cast world → IsPlayWorld cast recent opening world }
{}

/// The conductor begins the next StateSet: the world stays.
pub fn law_of_play_sends()
    ensures begun { (cast : PlayCast) (recent : ℕ) (play : Play) (world : World)
        → IsPlayWorld cast recent play world → CanAct (cast.cast).layout play Act.Begin → IsPlayWorld cast recent (acted (cast.cast).layout Act.Begin play) world }
{}

/// What each act of a change makes of a port's state is the state that the change has next: the source holds its port once it has
/// announced, the tunnel is dropped, the formats are set, it is set up again; a disable and an enable begin and end.
pub fn law_of_changed_ports()
    ensures announced { (change : Change) (link : Link) → change.step ≡ not_announced → record (state_by true change link) { held = true } ≡ state_by true (told_on change) link }
    ensures dropped { (change : Change) (link : Link) (output : Bool) → change.step ≡ both_disables_sent
        → record (state_by output change link) { link = None } ≡ state_by output (conducted change) link }
    ensures set_output { (change : Change) (link : Link) (output : Bool) → change.step ≡ tunnel_dropped → unheld (state_by output change link) ≡ state_by output (conducted change) link }
    ensures set_input { (change : Change) (link : Link) (output : Bool) → change.step ≡ output_set → unheld (state_by output change link) ≡ state_by output (conducted change) link }
    ensures joined { (change : Change) (link : Link) (output : Bool) → change.step ≡ retuned
        → record (state_by output change link) { link = Some link } ≡ state_by output (conducted change) link }
    ensures disabling { (change : Change) (link : Link) (output : Bool) → port_at output change ≡ disable_queued
        → disabling (state_by output change link) ≡ state_by output (port_on output change) link }
    ensures disabled { (change : Change) (link : Link) (output : Bool) → port_at output change ≡ disable_pending
        → record (state_by output change link) { mode = Steady } ≡ state_by output (port_on output change) link }
    ensures enabling { (change : Change) (link : Link) (output : Bool) → port_at output change ≡ enable_queued
        → enabling (state_by output change link) ≡ state_by output (port_on output change) link }
    ensures enabled { (change : Change) (link : Link) (output : Bool) → port_at output change ≡ enable_pending
        → record (state_by output change link) { mode = Steady } ≡ state_by output (port_on output change) link }
    ensures told { (change : Change) (link : Link) (output : Bool) → HasCompletion (port_at output change)
        → state_by output (port_on output change) link ≡ state_by output change link }
    ensures other { (change : Change) (link : Link) (output : Bool) → state_by (not output) (port_on output change) link ≡ state_by (not output) change link }
{}
