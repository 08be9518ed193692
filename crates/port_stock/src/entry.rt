//! A header as the stock keeps it, and what its state says of its port, its home, its owner and its list.

ghost use Rattle.std.specs.Prelude.{◌≡◌, ◌&&◌, ◌||◌, not, is_none};
ghost use Rattle.il_machine.specs.Headers.{in_todo, in_done, is_away, is_at_home, is_for, is_home_of, is_home_owner, is_key, is_notice, is_owned_by, same_key, spot_queue, state_at};
ghost use Rattle.il_machine.specs.Stock.{home_owner};
ghost use Rattle.port_stock.specs.Kept.{is_waiting};
ghost use Rattle.port_stock.specs.Conditions.{is_inside};

use header_core::Header;
use il_machine::{HeaderState, Home, Owner, PortKey, Queue, Spot};

/// A header's state, and the header itself while it waits in a list of a port.
pub struct Entry {
    pub state: HeaderState,
    pub kept: Option<Header>,
}

fn is_peer(key: PortKey, peer: Option<PortKey>) -> bool
    ensures { result ≡ is_key key peer }
{
    match peer {
        Some(peer) => peer == key,
        None => false,
    }
}

/// Whether the header was made for the port.
pub fn is_made_for(key: PortKey, state: &HeaderState) -> bool
    ensures { result ≡ is_for key state.now }
{
    state.port == key || is_peer(key, state.peer)
}

fn is_of_port(key: PortKey, owner: Owner) -> bool
    ensures { result ≡ is_owned_by key owner }
{
    match owner {
        Owner::Port(owner) => owner == key,
        Owner::Client | Owner::Work(_) | Owner::Notice(_) => false,
    }
}

/// Whether the header is in the list of headers that the port has to work on.
pub fn waits_in_todo(key: PortKey, state: &HeaderState) -> bool
    ensures { result ≡ in_todo key state.now }
{
    matches!(state.queue, Queue::Todo) && is_of_port(key, state.owner)
}

/// Whether the header is in the list of headers that the port has finished.
pub fn waits_in_done(key: PortKey, state: &HeaderState) -> bool
    ensures { result ≡ in_done key state.now }
{
    matches!(state.queue, Queue::Done) && is_of_port(key, state.owner)
}

fn is_owner_home(home: Home, owner: Owner) -> bool
    ensures { result ≡ is_home_owner home owner }
{
    match (home, owner) {
        (Home::Client, Owner::Client) => true,
        (Home::Port(home), Owner::Port(owner)) => home == owner,
        _ => false,
    }
}

fn is_in_notice(owner: Owner) -> bool
    ensures { result ≡ is_notice owner }
{
    matches!(owner, Owner::Notice(_))
}

/// Whether the owner of a header of this home is neither its home nor a notice.
pub fn is_away_with(home: Home, owner: Owner) -> bool
    ensures { result ≡ not (is_home_owner home owner || is_notice owner) }
{
    !(is_owner_home(home, owner) || is_in_notice(owner))
}

/// Whether the header's owner is neither its home nor a notice.
pub fn is_away(state: &HeaderState) -> bool
    ensures { result ≡ is_away state.now }
{
    is_away_with(state.home, state.owner)
}

fn is_home(key: PortKey, home: Home) -> bool
    ensures { result ≡ is_home_of key home }
{
    match home {
        Home::Port(home) => home == key,
        Home::Client => false,
    }
}

/// Whether the owner is the port, which isn't the home.
pub fn is_guest_of(key: PortKey, home: Home, owner: Owner) -> bool
    ensures { result ≡ (is_owned_by key owner && not (is_home_of key home)) }
{
    is_of_port(key, owner) && !is_home(key, home)
}

/// Whether the header is in a list of the port, and the port isn't its home.
pub fn is_foreign(key: PortKey, state: &HeaderState) -> bool
    ensures { result ≡ (is_owned_by key state.now.owner && not (is_home_of key state.now.home)) }
{
    is_guest_of(key, state.home, state.owner)
}

fn queue_of(spot: Spot) -> Queue
    ensures { result ≡ spot_queue spot }
{
    match spot {
        Spot::TodoBack | Spot::TodoFront => Queue::Todo,
        Spot::DoneBack => Queue::Done,
    }
}

/// The state of a header that is put at the spot of the port.
pub fn put_state(key: PortKey, spot: Spot, state: HeaderState) -> HeaderState
    ensures { result ≡ state_at key spot state }
{
    HeaderState {
        owner: Owner::Port(key),
        queue: queue_of(spot),
        ..state
    }
}

/// Who owns a header that is at home.
pub fn owner_at(home: Home) -> Owner
    ensures { result ≡ home_owner home }
{
    match home {
        Home::Client => Owner::Client,
        Home::Port(key) => Owner::Port(key),
    }
}

/// Whether the header is in a list of a port.
pub fn is_in_list(queue: Queue) -> bool
    ensures { result ≡ is_waiting queue }
{
    matches!(queue, Queue::Todo | Queue::Done)
}

/// Whether the owner is a port or a note.
pub fn is_kept_by(owner: Owner) -> bool
    ensures { result ≡ is_inside owner }
{
    matches!(owner, Owner::Port(_) | Owner::Notice(_))
}
