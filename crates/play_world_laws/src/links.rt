//! A link of a play in the flat list of headers of a world: what each of the machine's changes of the headers is for the link,
//! and how many headers are made for it. A header that a work has stands as if it were still at the front of its port's todo.
//! Stated on functions that do nothing; the play's worlds stand on them.

ghost use Rattle.std.specs.Prelude.{◌≡◌, ℕ, ◌+◌, ◌-◌, ◌&&◌, Bool, true, false, List, [], ◌∷◌, ◌++◌, length, map, Option, None};
ghost use Rattle.omx_types.specs.declared.param.Supplier.{Supplier};
ghost use Rattle.il_machine.specs.declared.port.PortKey.{PortKey};
ghost use Rattle.il_machine.specs.declared.header.Owner.{Owner};
ghost use Rattle.il_machine.specs.declared.header.Spot.{Spot};
ghost use Rattle.il_machine.specs.declared.header.Spot.TheVariants.{TodoBack, TodoFront, DoneBack};
ghost use Rattle.il_machine.specs.World.{HeaderRecord, Load, World};
ghost use Rattle.il_machine.specs.Headers.{changed, cleared, find_header, given_to, in_done, in_todo, is_away, is_for, loaded, put, reset, same_key, seen, unchanged, without, Once, input_reset, output_reset};
ghost use Rattle.il_machine.specs.Sound.{Sound, port_at};
ghost use Rattle.play_model.specs.Network.{headers_of};
ghost use Rattle.play_model.specs.Moves.{sent_on, sent_back};
ghost use Rattle.play_world_laws.specs.View.{AreApart, LinkEnds, filled, filled_by, link_view, is_in};
ghost use Rattle.play_world_laws.specs.Tunnel.{IsOutAt, IsTunnel, IsWorkedAt, Supplies};

/// The front of done of the output goes to the back of todo of the input, and the front of done of the input to the back of
/// todo of the output. Other links stay.
pub fn law_of_hands()
    ensures on { (link_ends : LinkEnds) (hs : List HeaderRecord) (number : ℕ) (ns : List ℕ)
        → Once hs → same_key link_ends.input link_ends.output ≡ false → (seen hs).done link_ends.output ≡ number ∷ ns
        → link_view link_ends (put link_ends.input TodoBack number unchanged hs) ≡ sent_on (link_view link_ends hs).sent (link_view link_ends hs) }
    ensures back { (link_ends : LinkEnds) (hs : List HeaderRecord) (number : ℕ) (ns : List ℕ)
        → Once hs → same_key link_ends.input link_ends.output ≡ false → (seen hs).done link_ends.input ≡ number ∷ ns
        → link_view link_ends (put link_ends.output TodoBack number unchanged hs) ≡ sent_back (link_view link_ends hs) }
    ensures on_beside { (link_ends : LinkEnds) (hs : List HeaderRecord) (number : ℕ) (ns : List ℕ)
        → Once hs → same_key link_ends.input link_ends.output ≡ false → (other_link_ends : LinkEnds) → (seen hs).done link_ends.output ≡ number ∷ ns
        → AreApart link_ends other_link_ends → is_in number other_link_ends.draining ≡ false → link_view other_link_ends (put link_ends.input TodoBack number unchanged hs) ≡ link_view other_link_ends hs }
    ensures back_beside { (link_ends : LinkEnds) (hs : List HeaderRecord) (number : ℕ) (ns : List ℕ)
        → Once hs → same_key link_ends.input link_ends.output ≡ false → (other_link_ends : LinkEnds) → (seen hs).done link_ends.input ≡ number ∷ ns
        → AreApart link_ends other_link_ends → is_in number other_link_ends.draining ≡ false → link_view other_link_ends (put link_ends.output TodoBack number unchanged hs) ≡ link_view other_link_ends hs }
{}

/// An unused header comes back cleared: to todo of an output that supplies, to done of an input that does.
pub fn law_of_unused()
    ensures input { (link_ends : LinkEnds) (hs : List HeaderRecord) (number : ℕ) (ns : List ℕ)
        → Once hs → same_key link_ends.input link_ends.output ≡ false → is_in number link_ends.draining ≡ false → (seen hs).todo link_ends.input ≡ number ∷ ns
        → link_view link_ends (put link_ends.output TodoBack number cleared hs)
        ≡ record (link_view link_ends hs) { held = map (filled link_ends.unit hs) (link_ends.draining ++ ns); ready = (link_view link_ends hs).ready + 1 } }
    ensures output { (link_ends : LinkEnds) (hs : List HeaderRecord) (number : ℕ) (ns : List ℕ)
        → Once hs → same_key link_ends.input link_ends.output ≡ false → is_in number link_ends.draining ≡ false → (seen hs).todo link_ends.output ≡ number ∷ ns
        → link_view link_ends (put link_ends.input DoneBack number cleared hs)
        ≡ record (link_view link_ends hs) { ready = length link_ends.filling + length ns; spent = (link_view link_ends hs).spent + 1 } }
    ensures input_beside { (link_ends other_link_ends : LinkEnds) (hs : List HeaderRecord) (number : ℕ) (ns : List ℕ)
        → Once hs → AreApart link_ends other_link_ends → is_in number other_link_ends.draining ≡ false → (seen hs).todo link_ends.input ≡ number ∷ ns
        → link_view other_link_ends (put link_ends.output TodoBack number cleared hs) ≡ link_view other_link_ends hs }
    ensures output_beside { (link_ends other_link_ends : LinkEnds) (hs : List HeaderRecord) (number : ℕ) (ns : List ℕ)
        → Once hs → AreApart link_ends other_link_ends → is_in number other_link_ends.draining ≡ false → (seen hs).todo link_ends.output ≡ number ∷ ns
        → link_view other_link_ends (put link_ends.input DoneBack number cleared hs) ≡ link_view other_link_ends hs }
{}

/// A header is made by an output or by an input.
pub fn law_of_made()
    ensures ready { (link_ends : LinkEnds) (hs : List HeaderRecord) (header : HeaderRecord)
        → find_header header.state.number hs ≡ None → is_in header.state.number link_ends.draining ≡ false
        → in_todo link_ends.output header.state ≡ true → in_done link_ends.output header.state ≡ false → in_todo link_ends.input header.state ≡ false → in_done link_ends.input header.state ≡ false
        → link_view link_ends (hs ++ header ∷ []) ≡ record (link_view link_ends hs) { ready = (link_view link_ends hs).ready + 1 } }
    ensures spent { (link_ends : LinkEnds) (hs : List HeaderRecord) (header : HeaderRecord)
        → find_header header.state.number hs ≡ None → is_in header.state.number link_ends.draining ≡ false
        → in_todo link_ends.output header.state ≡ false → in_done link_ends.output header.state ≡ false → in_todo link_ends.input header.state ≡ false → in_done link_ends.input header.state ≡ true
        → link_view link_ends (hs ++ header ∷ []) ≡ record (link_view link_ends hs) { spent = (link_view link_ends hs).spent + 1 } }
    ensures beside { (link_ends : LinkEnds) (hs : List HeaderRecord) (header : HeaderRecord)
        → find_header header.state.number hs ≡ None → is_in header.state.number link_ends.draining ≡ false
        → in_todo link_ends.output header.state ≡ false → in_done link_ends.output header.state ≡ false → in_todo link_ends.input header.state ≡ false → in_done link_ends.input header.state ≡ false
        → link_view link_ends (hs ++ header ∷ []) ≡ link_view link_ends hs }
{}

/// A header is unmade: the front of a list of its supplier.
pub fn law_of_unmade()
    ensures ready { (link_ends : LinkEnds) (hs : List HeaderRecord) (number : ℕ) → Once hs → is_in number link_ends.draining ≡ false
        → same_key link_ends.input link_ends.output ≡ false → (ns : List ℕ) → (seen hs).todo link_ends.output ≡ number ∷ ns
        → link_view link_ends (without number hs) ≡ record (link_view link_ends hs) { ready = length link_ends.filling + length ns } }
    ensures sent { (link_ends : LinkEnds) (hs : List HeaderRecord) (number : ℕ) → Once hs → is_in number link_ends.draining ≡ false
        → same_key link_ends.input link_ends.output ≡ false → (ns : List ℕ) → (seen hs).done link_ends.output ≡ number ∷ ns
        → link_view link_ends (without number hs) ≡ record (link_view link_ends hs) { sent = map (filled link_ends.unit hs) ns } }
    ensures held { (link_ends : LinkEnds) (hs : List HeaderRecord) (number : ℕ) → Once hs → is_in number link_ends.draining ≡ false
        → same_key link_ends.input link_ends.output ≡ false → (ns : List ℕ) → (seen hs).todo link_ends.input ≡ number ∷ ns
        → link_view link_ends (without number hs) ≡ record (link_view link_ends hs) { held = map (filled link_ends.unit hs) (link_ends.draining ++ ns) } }
    ensures spent { (link_ends : LinkEnds) (hs : List HeaderRecord) (number : ℕ) → Once hs → is_in number link_ends.draining ≡ false
        → same_key link_ends.input link_ends.output ≡ false → (ns : List ℕ) → (seen hs).done link_ends.input ≡ number ∷ ns
        → link_view link_ends (without number hs) ≡ record (link_view link_ends hs) { spent = length ns } }
    ensures todo_beside { (link_ends : LinkEnds) (hs : List HeaderRecord) (number : ℕ) → Once hs → is_in number link_ends.draining ≡ false
        → (key : PortKey) (ns : List ℕ) → same_key link_ends.output key ≡ false → same_key link_ends.input key ≡ false → (seen hs).todo key ≡ number ∷ ns
        → link_view link_ends (without number hs) ≡ link_view link_ends hs }
    ensures done_beside { (link_ends : LinkEnds) (hs : List HeaderRecord) (number : ℕ) → Once hs → is_in number link_ends.draining ≡ false
        → (key : PortKey) (ns : List ℕ) → same_key link_ends.output key ≡ false → same_key link_ends.input key ≡ false → (seen hs).done key ≡ number ∷ ns
        → link_view link_ends (without number hs) ≡ link_view link_ends hs }
{}

/// The reset of the headers at home, where the other end has none and no work has any.
pub fn law_of_resets()
    ensures output { (link_ends : LinkEnds) (hs : List HeaderRecord)
        → Once hs → same_key link_ends.input link_ends.output ≡ false → link_ends.draining ≡ [] → (seen hs).todo link_ends.input ≡ []
        → link_view link_ends (output_reset link_ends.output hs)
        ≡ record (link_view link_ends hs) { ready = (link_view link_ends hs).ready + length (link_view link_ends hs).sent; sent = [] } }
    ensures input { (link_ends : LinkEnds) (hs : List HeaderRecord)
        → Once hs → same_key link_ends.input link_ends.output ≡ false → link_ends.draining ≡ [] → (seen hs).done link_ends.output ≡ []
        → link_view link_ends (input_reset link_ends.input hs)
        ≡ record (link_view link_ends hs) { spent = (link_view link_ends hs).spent + length (link_view link_ends hs).held; held = [] } }
    ensures beside { (is_input : Bool) (key : PortKey) (hs : List HeaderRecord) (link_ends : LinkEnds)
        → Once hs → link_ends.draining ≡ [] → same_key link_ends.output key ≡ false → same_key link_ends.input key ≡ false
        → link_view link_ends (reset is_input key hs) ≡ link_view link_ends hs }
{}

/// A header that goes to a work stays where it is for the link.
pub fn law_of_claimed_headers()
    ensures output { (owner : Owner) (link_ends : LinkEnds) (hs : List HeaderRecord) (number : ℕ) (ns : List ℕ)
        → Once hs → same_key link_ends.input link_ends.output ≡ false → (seen hs).todo link_ends.output ≡ number ∷ ns
        → link_view (record link_ends { filling = number ∷ link_ends.filling }) (changed number (given_to owner) hs) ≡ link_view link_ends hs }
    ensures input { (owner : Owner) (link_ends : LinkEnds) (hs : List HeaderRecord) (number : ℕ) (ns : List ℕ)
        → Once hs → same_key link_ends.input link_ends.output ≡ false → link_ends.draining ≡ [] → (seen hs).todo link_ends.input ≡ number ∷ ns
        → link_view (record link_ends { draining = number ∷ [] }) (changed number (given_to owner) hs) ≡ link_view link_ends hs }
    ensures beside { (owner : Owner) (link_ends : LinkEnds) (hs : List HeaderRecord) (number : ℕ) (ns : List ℕ)
        → Once hs → same_key link_ends.input link_ends.output ≡ false
        → (key : PortKey) → same_key link_ends.output key ≡ false → same_key link_ends.input key ≡ false → (seen hs).todo key ≡ number ∷ ns
        → link_view link_ends (changed number (given_to owner) hs) ≡ link_view link_ends hs }
{}

/// A header of a work lands at the back of done of its port, or again at the front of its todo.
pub fn law_of_landed_headers()
    ensures sent { (number : ℕ) (link_ends : LinkEnds) (hs : List HeaderRecord) (count : ℕ) (load : Load)
        → Once hs → IsOutAt number count hs → same_key link_ends.input link_ends.output ≡ false → is_in count link_ends.draining ≡ false → link_ends.filling ≡ count ∷ []
        → link_view (record link_ends { filling = [] }) (put link_ends.output DoneBack count (loaded load) hs)
        ≡ record (link_view link_ends hs) { ready = (link_view link_ends hs).ready - 1; sent = (link_view link_ends hs).sent ++ filled_by link_ends.unit load ∷ [] } }
    ensures ready { (number : ℕ) (link_ends : LinkEnds) (hs : List HeaderRecord) (count : ℕ) (load : Load)
        → Once hs → IsOutAt number count hs → same_key link_ends.input link_ends.output ≡ false → is_in count link_ends.draining ≡ false → link_ends.filling ≡ count ∷ []
        → link_view (record link_ends { filling = [] }) (put link_ends.output TodoFront count (loaded load) hs) ≡ link_view link_ends hs }
    ensures spent { (number : ℕ) (link_ends : LinkEnds) (hs : List HeaderRecord) (count : ℕ) (load : Load)
        → Once hs → IsOutAt number count hs → same_key link_ends.input link_ends.output ≡ false → link_ends.draining ≡ count ∷ []
        → link_view (record link_ends { draining = [] }) (put link_ends.input DoneBack count (loaded load) hs)
        ≡ record (link_view link_ends hs) { held = map (filled link_ends.unit hs) ((seen hs).todo link_ends.input); spent = (link_view link_ends hs).spent + 1 } }
    ensures held { (number : ℕ) (link_ends : LinkEnds) (hs : List HeaderRecord) (count : ℕ) (load : Load)
        → Once hs → IsOutAt number count hs → same_key link_ends.input link_ends.output ≡ false → link_ends.draining ≡ count ∷ []
        → link_view (record link_ends { draining = [] }) (put link_ends.input TodoFront count (loaded load) hs)
        ≡ record (link_view link_ends hs) { held = filled_by link_ends.unit load ∷ map (filled link_ends.unit hs) ((seen hs).todo link_ends.input) } }
    ensures beside { (number : ℕ) (key : PortKey) (count : ℕ) (load : Load) (hs : List HeaderRecord)
        → Once hs → IsOutAt number count hs → (spot : Spot) (link_ends : LinkEnds) → same_key link_ends.output key ≡ false → same_key link_ends.input key ≡ false
        → is_in count link_ends.draining ≡ false → link_view link_ends (put key spot count (loaded load) hs) ≡ link_view link_ends hs }
{}

/// In a sound world the headers made for the ends of a tunnel are those of its link, and those that are away are in the
/// lists of the end that doesn't supply it, or in a work of one of its ends.
pub fn law_of_counts()
    ensures made { (world : World) (link_ends : LinkEnds) (supplier : Supplier)
        → Sound world → IsTunnel (λ key. port_at key world.components) link_ends.output link_ends.input supplier
        → IsWorkedAt world.components link_ends.output link_ends.filling → IsWorkedAt world.components link_ends.input link_ends.draining
        → (seen world.headers).count (is_for link_ends.output) ≡ headers_of (link_view link_ends world.headers) }
    ensures away { (world : World) (other_key b : PortKey) (supplier : Supplier) (one other : List ℕ)
        → Sound world → (is_tunnel : IsTunnel (λ key. port_at key world.components) other_key b supplier) → Supplies is_tunnel.one is_tunnel.other
        → IsWorkedAt world.components other_key one → IsWorkedAt world.components b other
        → (seen world.headers).count (λ r. is_for other_key r && is_away r)
        ≡ length ((seen world.headers).todo b) + length ((seen world.headers).done b) + length one + length other }
{}
