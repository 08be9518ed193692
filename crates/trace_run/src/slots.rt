//! Slots of headers: found by name or number, and their headers taken out of the client's hand or put back.

ghost use Rattle.std.specs.Prelude.{◌≡◌, ◌<◌, length, position, slice_get, Some, None, IfSome, IfNone, MatchOption, vec_len};
ghost use Rattle.trace_run.specs.Standing.{slot_named, slot_numbered, HasEmptyHand, Rehanded};
ghost use Rattle.trace_run.specs.InHand.{IsTakenOut, HasNone};

use act_text::Name;
use header_core::Header;
use omx_types::PortId;

/// A header that was made, with the name of its line and its port. The client has it in hand, or the graph has it.
pub struct Slot {
    pub name: Name,
    pub number: u64,
    pub port: PortId,
    pub hand: Option<Header>,
}

/// The slot of a header that was just made.
pub fn new_slot(name: Name, port: PortId, header: Header) -> Slot
    ensures { result ≡ record { name = name; number = header.held.number; port = port; hand = Some header } }
{
    Slot {
        name,
        number: header.id(),
        port,
        hand: Some(header),
    }
}

/// The place of the header of a number.
pub fn place_numbered(slots: &[Slot], number: u64) -> Option<usize>
    ensures place { result ≡ position (slot_numbered number) slots.now }
    ensures within { IfSome result (λ place. place < length slots.now) }
{
    slots.iter().position(|slot| slot.number == number)
}

/// Takes the header of a name out of the client's hand, if it is there, and tells the place of its slot.
pub fn take_named(slots: &mut Vec<Slot>, name: &Name) -> Option<(usize, Header)>
    ensures taken { IfSome result (λ taken. IsTakenOut slots.old.items name.now taken.0 (Some taken.1) slots.new.items) }
    ensures within { IfSome result (λ taken. taken.0 < vec_len slots.new) }
    ensures none { IfNone result (HasNone slots.old.items name.now) }
    ensures unchanged { IfNone result (slots.new.items ≡ slots.old.items) }
{
    let Some(place) = place_named(slots.as_slice(), name) else {
        return None;
    };
    match take_hand(slots, place) {
        Some(header) => Some((place, header)),
        None => None,
    }
}

fn place_named(slots: &[Slot], name: &Name) -> Option<usize>
    ensures place { result ≡ position (slot_named name.now) slots.now }
    ensures within { IfSome result (λ place. place < length slots.now) }
{
    slots
        .iter()
        .position(|slot| slot.name.as_bytes() == name.as_bytes())
}

fn take_hand(slots: &mut Vec<Slot>, place: usize) -> Option<Header>
    requires { place < vec_len slots.old }
    ensures hand { MatchOption (slice_get slots.old.items place) ⊥ (λ slot. result ≡ slot.hand) }
    ensures slots { Rehanded place None slots.old.items slots.new.items }
{
    let slot = &mut slots[place];
    slot.hand.take()
}

/// Puts a header into the hand of its slot, which is empty.
pub fn put_hand(slots: &mut Vec<Slot>, place: usize, header: Header)
    requires within { place < vec_len slots.old }
    requires empty { HasEmptyHand place slots.old.items }
    ensures { Rehanded place (Some header) slots.old.items slots.new.items }
{
    let slot = &mut slots[place];
    match slot.hand.replace(header) {
        None => {}
        Some(_) => unreachable!(),
    }
}
