//! RTP packets of G.711 (RFC 3550, RFC 3551): a WAV file is cut into packets, and the law by which a list of packets that
//! came late, twice or out of order gives the samples again.
#![tactic(auto)]

mod companding;
mod fault;
mod laws;
mod packet;
mod packing;
mod pieces;
mod reading;
mod records;
mod unpacker;
mod unpacking;
mod window;

pub use fault::RtpFault;
pub use laws::{deliveries_again, nearest_number};
pub use packing::{Packed, pack};
pub use unpacking::{Unpacked, unpack};
