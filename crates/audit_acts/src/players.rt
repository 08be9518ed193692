//! The component of a name.

ghost use Rattle.std.specs.Prelude.{◌≡◌, ℕ, length, slice_get, true, false, IfNone, IfSome, Some};
ghost use Rattle.script_lang.specs.declared.play_line.PartLine.{PartLine as Line};
ghost use Rattle.play_log.specs.Scenes.{IsPlayer};
ghost use Rattle.audit_acts.specs.Asking.{IsUnknown, scene_in};

use act_text::Name;
use omx_types::Handle;
use script_lang::PartLine;

/// A component: its place in the script, and its handle.
#[derive(Clone, Copy)]
pub struct Player {
    pub place: usize,
    pub handle: Handle,
}

fn is_same_name(one: &Name, other: &Name) -> bool
    ensures yes { result ≡ true → one.now ≡ other.now }
    ensures no { result ≡ false → one.now ≡ other.now → ⊥ }
{
    one.as_bytes() == other.as_bytes()
}

/// The place of the component of the name.
fn place_named(parts: &[PartLine], name: &Name) -> Option<usize>
    ensures some { IfSome result (λ place. (part : Line) × (slice_get parts.now place ≡ Some part) × (part.name ≡ name.now)) }
    ensures none { IfNone result ((place : ℕ) (part : Line) → slice_get parts.now place ≡ Some part → part.name ≡ name.now → ⊥) }
{
    for (place, part) in parts.iter().enumerate() {
        if is_same_name(&part.name, name) {
            return Some(place);
        }
    }
    None
}

/// The component of the name, by the components' lines in script order and their handles.
pub fn player_of(parts: &[PartLine], handles: &[Handle], name: &Name) -> Option<Player>
    requires { length handles.now ≡ length parts.now }
    ensures some { IfSome result (λ player. (part : Line) × IsPlayer (scene_in parts.now handles.now) player.place name.now part player.handle) }
    ensures none { IfNone result (IsUnknown (scene_in parts.now handles.now) name.now) }
{
    let Some(place) = place_named(parts, name) else {
        return None;
    };
    Some(Player {
        place,
        handle: handles[place],
    })
}
