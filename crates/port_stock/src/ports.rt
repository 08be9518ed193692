//! The list of ports, and the place of each in it.

ghost use Rattle.std.specs.Prelude.{◌≡◌, ◌+◌, ◌*◌, ◌<◌, ◌≤◌, ◌++◌, true, filter, length, nat_eq, not, position, replicate, slice_get, take, vec_capacity, vec_len, Some, IfSome, OnOk, OnErr, MatchOption};
ghost use Rattle.il_machine.specs.Headers.{is_away, is_for, same_key};
ghost use Rattle.port_stock.specs.Conditions.{IsMadeForOwner, has_key};
ghost use Rattle.port_stock.specs.Rings.{Differ, HasCounted, IsForWhere, IsKnownBy, Recounts, Replaces, is_at, new_ports, port_at, port_keys, recounted, with_number, without_done, without_todo};

use crate::OutOfMemory;
use crate::entry::{Entry, is_away, is_away_with};
use crate::port::{Away, Port};
use il_machine::{HeaderState, Owner, PortKey, Spot};
use std::alloc::{AllocError, Global};

/// A port may have so many headers.
const MOST_HEADERS: usize = 32;

/// So many places are told at once: more than there are components.
const TOLD: usize = 64;

/// Where the first port of each component stands, by the last digits of its number. A place that is told here is looked at before it
/// is believed.
#[derive(Drop)]
pub struct Firsts {
    places: [usize; TOLD],
}

/// Which of the places is that of the component.
fn told_at(component: u64) -> usize
    ensures { result < 64 }
{
    (component % TOLD as u64) as usize
}

impl Firsts {
    /// Places that tell nothing: a search begins at the first port.
    pub fn new() -> Firsts
        ensures { result.places ≡ replicate 64 0 }
    {
        Firsts { places: [0; TOLD] }
    }

    fn of(&self, component: u64) -> usize {
        self.places[told_at(component)]
    }

    fn set_first(&mut self, component: u64, first: usize) {
        self.places[told_at(component)] = first;
    }

    /// The places that stand behind this one move down by so many.
    fn move_down(&mut self, first: usize, gone: usize) {
        for place in self.places.iter_mut() {
            if *place > first {
                *place = place.saturating_sub(gone);
            }
        }
    }
}

/// Takes places for so many more ports and for all headers of all ports.
pub fn reserve(
    ports: &mut Vec<Port>,
    entries: &mut Vec<Entry>,
    count: usize,
) -> Result<(), OutOfMemory>
    ensures ports { ports.new.items ≡ ports.old.items }
    ensures port_count { vec_len ports.new ≡ vec_len ports.old }
    ensures entries { entries.new.items ≡ entries.old.items }
    ensures kept { vec_capacity entries.old ≤ vec_capacity entries.new }
    ensures ports_room { OnOk result (vec_len ports.old + count ≤ vec_capacity ports.new) }
    ensures entries_room { OnOk result (32 * (vec_len ports.old + count) ≤ vec_capacity entries.new) }
{
    ports.reserve(count)?;
    let Some(places) = (ports.len() + count).checked_mul(MOST_HEADERS) else {
        return Err(AllocError);
    };
    entries.reserve(places.saturating_sub(entries.len()))?;
    Ok(())
}

/// Adds so many ports of the component, for which there is room. Where memory is wanted, some of them may stand behind the others.
fn push(ports: &mut Vec<Port>, alloc: Global, component: u64, count: u32) -> Result<(), OutOfMemory>
    requires { vec_len ports.old + count ≤ vec_capacity ports.old }
    ensures ok { OnOk result (ports.new.items ≡ ports.old.items ++ new_ports component 0 count) }
    ensures front { take (length ports.old.items) ports.new.items ≡ ports.old.items }
{
    for port in 0..count {
        let made = Port::new(alloc, PortKey { component, port })?;
        ports.push_reserved(made);
    }
    Ok(())
}

/// Adds so many ports of the component, for which there is room, or none where memory is wanted.
pub fn add(
    ports: &mut Vec<Port>,
    firsts: &mut Firsts,
    alloc: Global,
    component: u64,
    count: u32,
) -> Result<(), OutOfMemory>
    requires { vec_len ports.old + count ≤ vec_capacity ports.old }
    ensures ok { OnOk result (ports.new.items ≡ ports.old.items ++ new_ports component 0 count) }
    ensures err { OnErr result (ports.new.items ≡ ports.old.items) }
{
    let first = ports.len();
    if let Err(refused) = push(ports, alloc, component, count) {
        ports.truncate(first);
        return Err(refused);
    }
    firsts.set_first(component, first);
    Ok(())
}

fn is_of_key(port: &Port, key: PortKey) -> bool
    ensures { result ≡ is_at key port.now }
{
    port.key == key
}

/// The place of the port where the first of its component stands at `first`, if it is there.
fn place_from(ports: &[Port], first: usize, key: PortKey) -> Option<usize>
    ensures { IfSome result (λ place. MatchOption (slice_get ports.now place) ⊥ (λ p. is_at key p ≡ true)) }
{
    let place = first.checked_add(key.port as usize)?;
    let port = ports.get(place)?;
    if is_of_key(port, key) {
        Some(place)
    } else {
        None
    }
}

/// The place of the port, found by halves: components stand by rising number, but this isn't relied on.
fn halved_place(ports: &[Port], key: PortKey) -> Option<usize>
    ensures { IfSome result (λ place. MatchOption (slice_get ports.now place) ⊥ (λ p. is_at key p ≡ true)) }
{
    let near = ports
        .binary_search_by_key(&key.component, |port| port.key.component)
        .ok()?;
    let first = near.checked_sub(ports.get(near)?.key.port as usize)?;
    place_from(ports, first, key)
}

/// The place of the port as it is told, or found by halves, if it stands there.
fn likely_place(firsts: &Firsts, ports: &[Port], key: PortKey) -> Option<usize>
    ensures { IfSome result (λ place. MatchOption (slice_get ports.now place) ⊥ (λ p. is_at key p ≡ true)) }
{
    let told = place_from(ports, firsts.of(key.component), key);
    if told.is_some() {
        return told;
    }
    halved_place(ports, key)
}

/// Takes the ports of the component away.
pub fn remove(ports: &mut Vec<Port>, firsts: &mut Firsts, component: u64)
    ensures { ports.new.items ≡ filter (λ p. not (nat_eq p.key.component component)) ports.old.items }
{
    let before = ports.len();
    let first = likely_place(firsts, ports, PortKey { component, port: 0 });
    ports.retain(|port| port.key.component != component);
    firsts.move_down(first.unwrap_or(before), before.saturating_sub(ports.len()));
}

fn looked_up_place(ports: &[Port], key: PortKey) -> Option<usize>
    ensures { result ≡ position (λ p. is_at key p) ports.now }
{
    ports.iter().position(|port| is_of_key(port, key))
}

/// The place of the port.
fn place_of(firsts: &Firsts, ports: &[Port], key: PortKey) -> usize
    requires { has_key key (port_keys ports.now) ≡ true }
    ensures { MatchOption (slice_get ports.now result) ⊥ (λ p. is_at key p ≡ true) }
{
    if let Some(place) = likely_place(firsts, ports, key) {
        return place;
    }
    match looked_up_place(ports, key) {
        Some(place) => place,
        None => unreachable!(),
    }
}

/// The port of the key.
pub fn at<'a>(firsts: &Firsts, ports: &'a [Port], key: PortKey) -> &'a Port
    requires there { has_key key (port_keys ports.now) ≡ true }
    requires differ { Differ ports.now }
    ensures { result.now ≡ port_at key ports.now }
{
    let place = place_of(firsts, ports, key);
    let port = &ports[place];
    port
}

/// Puts the number at the spot of the port, for which there is a place.
pub fn put(firsts: &Firsts, ports: &mut Vec<Port>, key: PortKey, number: u64, spot: Spot)
    requires there { has_key key (port_keys ports.old.items) ≡ true }
    requires differ { Differ ports.old.items }
    requires todo { length (port_at key ports.old.items).todo.items < (port_at key ports.old.items).todo.capacity }
    requires done { length (port_at key ports.old.items).done.items < (port_at key ports.old.items).done.capacity }
    ensures { Replaces key (with_number spot number (port_at key ports.old.items)) ports.old.items ports.new.items }
{
    let place = place_of(firsts, ports, key);
    let port = &mut ports[place];
    port.put(number, spot);
}

/// Takes the number in front of `todo` out of it.
pub fn pull(firsts: &Firsts, ports: &mut Vec<Port>, key: PortKey) -> Option<u64>
    requires there { has_key key (port_keys ports.old.items) ≡ true }
    requires differ { Differ ports.old.items }
    ensures front { result ≡ slice_get (port_at key ports.old.items).todo.items 0 }
    ensures ports { Replaces key (without_todo (port_at key ports.old.items)) ports.old.items ports.new.items }
{
    let place = place_of(firsts, ports, key);
    let port = &mut ports[place];
    port.todo.pop_front()
}

/// Takes the number in front of `done` out of it.
pub fn send(firsts: &Firsts, ports: &mut Vec<Port>, key: PortKey) -> Option<u64>
    requires there { has_key key (port_keys ports.old.items) ≡ true }
    requires differ { Differ ports.old.items }
    ensures front { result ≡ slice_get (port_at key ports.old.items).done.items 0 }
    ensures ports { Replaces key (without_done (port_at key ports.old.items)) ports.old.items ports.new.items }
{
    let place = place_of(firsts, ports, key);
    let port = &mut ports[place];
    port.done.pop_front()
}

fn recount_at(
    firsts: &Firsts,
    ports: &mut Vec<Port>,
    key: PortKey,
    before: &Option<HeaderState>,
    after: &Option<HeaderState>,
)
    requires there { has_key key (port_keys ports.old.items) ≡ true }
    requires differ { Differ ports.old.items }
    requires counted { HasCounted before.now (port_at key ports.old.items) }
    requires before { IsForWhere key before.now }
    requires after { IsForWhere key after.now }
    ensures { Replaces key (recounted key before.now after.now (port_at key ports.old.items)) ports.old.items ports.new.items }
{
    let place = place_of(firsts, ports, key);
    let port = &mut ports[place];
    port.recount(before, after);
}

fn reown_at(
    firsts: &Firsts,
    ports: &mut Vec<Port>,
    key: PortKey,
    state: &HeaderState,
    owner: Owner,
    away: Away,
)
    requires there { has_key key (port_keys ports.old.items) ≡ true }
    requires differ { Differ ports.old.items }
    requires counted { HasCounted (Some state.now) (port_at key ports.old.items) }
    requires made_for { is_for key state.now ≡ true }
    requires before { away.before ≡ is_away state.now }
    requires after { away.after ≡ is_away (record state.now { owner = owner }) }
    ensures { Replaces key (recounted key (Some state.now) (Some (record state.now { owner = owner })) (port_at key ports.old.items)) ports.old.items ports.new.items }
{
    let place = place_of(firsts, ports, key);
    let port = &mut ports[place];
    port.reown(state, owner, away);
}

fn is_same(peer: PortKey, port: PortKey) -> bool
    ensures { result ≡ same_key peer port }
{
    peer == port
}

/// Counts a header anew, for both ports that it was made for.
pub fn recount(
    firsts: &Firsts,
    ports: &mut Vec<Port>,
    made_for: (PortKey, Option<PortKey>),
    before: Option<HeaderState>,
    after: Option<HeaderState>,
)
    requires port { has_key made_for.0 (port_keys ports.old.items) ≡ true }
    requires peer { MatchOption made_for.1 (Unit {0}) (λ key. has_key key (port_keys ports.old.items) ≡ true) }
    requires differ { Differ ports.old.items }
    requires counted { (key : PortKey) → HasCounted before (port_at key ports.old.items) }
    requires before { IsKnownBy made_for.0 made_for.1 before }
    requires after { IsKnownBy made_for.0 made_for.1 after }
    ensures { Recounts before after ports.old.items ports.new.items }
{
    let (port, peer) = made_for;
    recount_at(firsts, ports, port, &before, &after);
    let Some(peer) = peer else {
        return;
    };
    if is_same(peer, port) {
        return;
    }
    recount_at(firsts, ports, peer, &before, &after);
}

/// Counts a header anew that goes to the owner, for both ports that it was made for.
pub fn reown(firsts: &Firsts, ports: &mut Vec<Port>, state: &HeaderState, owner: Owner)
    requires port { has_key state.now.port (port_keys ports.old.items) ≡ true }
    requires peer { MatchOption state.now.peer (Unit {0}) (λ key. has_key key (port_keys ports.old.items) ≡ true) }
    requires differ { Differ ports.old.items }
    requires counted { (key : PortKey) → HasCounted (Some state.now) (port_at key ports.old.items) }
    requires before { IsMadeForOwner state.now }
    requires after { IsMadeForOwner (record state.now { owner = owner }) }
    ensures { Recounts (Some state.now) (Some (record state.now { owner = owner })) ports.old.items ports.new.items }
{
    let away = Away {
        before: is_away(state),
        after: is_away_with(state.home, owner),
    };
    reown_at(firsts, ports, state.port, state, owner, away);
    let Some(peer) = state.peer else {
        return;
    };
    if is_same(peer, state.port) {
        return;
    }
    reown_at(firsts, ports, peer, state, owner, away);
}
