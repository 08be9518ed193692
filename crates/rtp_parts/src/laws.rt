//! What must hold of unpacking and of the numbers of packets, stated on functions that do nothing.

ghost use Rattle.std.specs.Prelude.{◌≡◌, ℕ, ◌<◌, ◌≤◌, List, length};
ghost use Rattle.g711_law.specs.declared.companding.Companding.{Companding};
ghost use Rattle.rtp_parts.specs.Packing.{packet_count};
ghost use Rattle.rtp_parts.specs.Sorting.{IsNearest, nearest};
ghost use Rattle.rtp_parts.specs.Unpacking.{most_codes};
ghost use Rattle.rtp_parts.specs.Deliveries.{AreDeliveries, Unpacks, delivered};

/// Packets that come late, twice or out of order give the samples that were packed: each at least once, and none after one
/// whose place is 64 or more greater.
pub fn deliveries_again()
    ensures { (companding : Companding) (samples places : List ℕ) → 0 < length samples → length samples ≤ most_codes →
        AreDeliveries (packet_count (length samples)) places → Unpacks (delivered companding samples places) companding samples }
{}

/// The number of an arrival lies near the greatest one and equals its sequence number modulo 65,536, and no other does.
pub fn nearest_number()
    ensures is { (greatest sequence : ℕ) → 65536 ≤ greatest → sequence < 65536 → IsNearest greatest sequence (nearest greatest sequence) }
    ensures only { (greatest sequence number : ℕ) → 65536 ≤ greatest → sequence < 65536 → IsNearest greatest sequence number →
        number ≡ nearest greatest sequence }
{}
