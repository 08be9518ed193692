//! The ports and headers of one graph: which ports there are, in which list of a port each header waits, who has it,
//! and the headers themselves while they wait.
//!
//! Contracts see a stock by `stocked`, which gives the lists, states and counts of `il_machine`'s `Stocked`. The laws that
//! tie these to the machine's flat lists of headers are those of `stock_laws`. A port has two rings of the numbers of headers,
//! and counts of its headers that are kept; the headers themselves stand in a table with 32 places for each port. One flat list,
//! of which all this tells, is part of what is proved of a stock, and isn't kept.
//!
//! A stock has the region of the graph's blocks: a header that is made of none of the client's memory gets one, and gives it back as it
//! is unmade. No call takes memory but `new` and `add_ports`. A stock must be ended by `close`.
#![tactic(auto)]

mod entries;
mod entry;
mod port;
mod ports;
mod stock;

pub use entry::is_made_for;
pub use stock::Stock;

/// Want of memory.
pub type OutOfMemory = std::alloc::AllocError;
