//! The stock of a graph: headers are made, moved between lists and owners, counted and unmade, and it is closed.

ghost use Rattle.std.specs.Prelude.{◌≡◌, ◌↔◌, ◌+◌, ◌<◌, ◌≤◌, ◌&&◌, nat_eq, not, true, false, is_some, slice_get, option_map, None, IfOk, IfSome, OnOk, OnErr};
ghost use Rattle.il_machine.specs.Lists.{is_empty};
ghost use Rattle.il_machine.specs.Headers.{in_todo, in_done, is_away, is_for, is_home_of, is_owned_by, weight};
ghost use Rattle.il_machine.specs.Buffers.{is_block, load_in};
ghost use Rattle.il_machine.specs.Stock.{added, header_given, made_header, no_stock, header_made, todo_pulled, pushed, removed, done_pulled, header_unmade};
ghost use Rattle.header_core.specs.BufferHeader.{fresh, is_clients, own_memory};
ghost use Rattle.stock_laws.specs.Changes.{done_cleared, marked_first, todo_cleared};
ghost use Rattle.header_core.specs.Blocks.{IsSameRegion};
ghost use Rattle.port_stock.specs.Kept.{stocked};
ghost use Rattle.port_stock.specs.Blocks.{key_of};
ghost use Rattle.port_stock.specs.Ending.{AreEnding, IsEnding};
ghost use Rattle.port_stock.specs.Passing.{AreDoneFor, IsPassed};
ghost use Rattle.port_stock.specs.Conditions.{AllInside, AllWait, AreMadeForOwners, Fits, HasBlockFor, HasFewer, IsFrom, IsMadeFor, IsOfOneList, IsOut, IsOutside, IsPeer, IsPort, IsUnmade, IsWithoutPorts, is_home_among, is_port, made_in, number_of};

use crate::entry::{Entry, owner_at};
use crate::port::Port;
use crate::ports::Firsts;
use crate::{OutOfMemory, entries, ports};
use block_region::Region;
use header_core::{Header, Key, Memory, Store};
use il_machine::{HeaderState, Home, Mark, Owner, PortKey, Queue, Spot};
use omx_types::{BLOCK_BYTES, BLOCKS};
use std::alloc::Global;
use std::marker::Model;

/// The ports and headers of one graph, with the region of its blocks.
pub struct Stock {
    region: Region,
    ports: Vec<Port>,
    firsts: Firsts,
    entries: Vec<Entry>,
    next: u64,
}

impl Model for Stock {
    ghost use Rattle.port_stock.specs.Kept.{StockKept};

    ghost Value = { StockKept };

    ghost use Rattle.std.specs.Prelude.{vec_capacity};
    ghost use Rattle.port_stock.specs.Entries.{headers_of};
    ghost use Rattle.port_stock.specs.Rings.{IsLawful, shelves_of};
    ghost use Rattle.port_stock.specs.Blocks.{HasBlocks, blocks_out, key_of};

    ghost view = { λ s. record { key = key_of s.region; ports = shelves_of s.ports.items; headers = headers_of s.entries.items; next = s.next } };

    ghost invariant = { λ s. IsLawful (key_of s.region) s.ports.items s.entries.items (blocks_out s.region) s.next (vec_capacity s.entries) × HasBlocks s.region };
}

/// Whether a header gets the number: the last one is never given.
fn is_given(number: u64) -> bool
    ensures left { result ≡ not (nat_eq number 18446744073709551615) }
    ensures below { result ≡ true → number < 18446744073709551615 }
{
    number != u64::MAX
}

/// Takes an entry off whose header waits in a list.
fn end_entry(region: &mut Region, entry: Entry)
    requires { IsEnding (key_of region.old) entry }
    ensures same { IsSameRegion region.old region.new }
    ensures free { region.new.free ≡ region.old.free + weight (is_block entry.state) }
{
    let Entry { state: _, kept } = entry;
    let Some(header) = kept else { unreachable!() };
    let _memory = header.into_memory(region);
}

/// Ends headers that all wait in lists, and then the region.
fn end_all(mut region: Region, mut entries: Vec<Entry>)
    requires { AreEnding region entries.items }
{
    while let Some(entry) = entries.pop() {
        end_entry(&mut region, entry);
    }
    entries.destroy_empty();
    region.close();
}

impl Stock {
    /// A stock without ports and headers. It takes the memory of all its blocks.
    pub fn new(alloc: Global) -> Result<Stock, OutOfMemory>
        ensures { IfOk result (λ s. stocked s ≡ no_stock (stocked s).key) }
    {
        Ok(Stock {
            region: Region::new(alloc, BLOCKS, BLOCK_BYTES)?,
            ports: Vec::new(alloc),
            firsts: Firsts::new(),
            entries: Vec::new(alloc),
            next: 0,
        })
    }

    /// Adds the ports of a component, numbered from 0: its inputs, then its outputs.
    pub fn add_ports(
        &mut self,
        alloc: Global,
        component: u64,
        inputs: u32,
        outputs: u32,
    ) -> Result<(), OutOfMemory>
        requires without { IsWithoutPorts component (stocked self.old) }
        requires inputs { inputs ≤ 8 }
        requires outputs { outputs ≤ 8 }
        ensures ok { OnOk result (stocked self.new ≡ added component (inputs + outputs) (stocked self.old)) }
        ensures err { OnErr result (stocked self.new ≡ stocked self.old) }
    {
        let count = inputs + outputs;
        ports::reserve(&mut self.ports, &mut self.entries, count as usize)?;
        ports::add(&mut self.ports, &mut self.firsts, alloc, component, count)?;
        Ok(())
    }

    /// Takes the ports of a component away.
    pub fn remove_ports(&mut self, component: u64)
        requires { IsUnmade component (stocked self.old) }
        ensures { stocked self.new ≡ removed component (stocked self.old) }
    {
        ports::remove(&mut self.ports, &mut self.firsts, component);
    }

    /// Makes a header for the port, and for the other port of its tunnel, of the client's own memory or of a free block.
    pub fn make_header(
        &mut self,
        port: PortKey,
        peer: Option<PortKey>,
        home: Home,
        memory: Option<Memory>,
        size: u32,
    ) -> Header
        requires port { IsPort port (stocked self.old) }
        requires peer { IsPeer peer (stocked self.old) }
        requires home { is_home_among port peer home ≡ true }
        requires some { 1 ≤ size }
        requires limit { size ≤ 4096 }
        requires fits { Fits memory size }
        requires block { HasBlockFor memory (stocked self.old) }
        requires few { made_in (stocked self.old) port < 32 }
        requires few_of_peer { HasFewer (made_in (stocked self.old)) peer }
        requires numbers { (stocked self.old).next < 18446744073709551615 }
        ensures header { result ≡ fresh (stocked self.old).key (stocked self.old).next result.store size }
        ensures memory { own_memory result.store ≡ memory }
        ensures new_number { (stocked self.old).headers.header (stocked self.old).next ≡ None }
        ensures outside { IsOutside result (stocked self.new) }
        ensures stock { stocked self.new
            ≡ header_made (made_header (stocked self.old).next port peer home size (is_some memory)) (stocked self.old) }
    {
        let number = self.next;
        let store = Store::of(&mut self.region, memory);
        let state = HeaderState {
            number,
            port,
            peer,
            home,
            owner: owner_at(home),
            queue: Queue::Out,
            size,
            client_memory: store.is_clients(),
        };
        entries::add(&mut self.entries, state);
        ports::recount(
            &self.firsts,
            &mut self.ports,
            (port, peer),
            None,
            Some(state),
        );
        self.next += 1;
        Header::new(Key::of(&self.region), number, store, size)
    }

    /// Unmakes a header. Its block is free again, and memory of the client's own comes back.
    pub fn unmake_header(&mut self, header: Header) -> Option<Memory>
        requires { IsOutside header (stocked self.old) }
        ensures memory { result ≡ header.held.memory }
        ensures own { is_some result ≡ is_clients header.store }
        ensures stock { stocked self.new ≡ header_unmade header.held.number (stocked self.old) }
    {
        let before = entries::remove(&mut self.entries, header.id());
        let made_for = (before.port, before.peer);
        ports::recount(&self.firsts, &mut self.ports, made_for, Some(before), None);
        header.into_memory(&mut self.region)
    }

    /// The front of `todo`, which leaves it.
    pub fn pull_todo(&mut self, port: PortKey) -> Option<Header>
        requires { IsPort port (stocked self.old) }
        ensures front { option_map number_of result ≡ slice_get ((stocked self.old).headers.todo port) 0 }
        ensures was { IfSome result (λ header. IsFrom (in_todo port) header (stocked self.old)) }
        ensures outside { IfSome result (λ header. IsOutside header (stocked self.new)) }
        ensures stock { stocked self.new ≡ todo_pulled port (stocked self.old) }
    {
        let Some(number) = ports::pull(&self.firsts, &mut self.ports, port) else {
            return None;
        };
        Some(entries::take(&mut self.entries, number))
    }

    /// The front of `done`, which leaves it.
    pub fn pull_done(&mut self, port: PortKey) -> Option<Header>
        requires { IsPort port (stocked self.old) }
        ensures front { option_map number_of result ≡ slice_get ((stocked self.old).headers.done port) 0 }
        ensures was { IfSome result (λ header. IsFrom (in_done port) header (stocked self.old)) }
        ensures outside { IfSome result (λ header. IsOutside header (stocked self.new)) }
        ensures stock { stocked self.new ≡ done_pulled port (stocked self.old) }
    {
        let Some(number) = ports::send(&self.firsts, &mut self.ports, port) else {
            return None;
        };
        Some(entries::take(&mut self.entries, number))
    }

    /// The front of `done` goes to the spot of another port that it was made for, with all that it carries. Answers whether there was one.
    pub fn pass_done(&mut self, port: PortKey, to: PortKey, spot: Spot) -> bool
        requires port { IsPort port (stocked self.old) }
        requires to { IsPort to (stocked self.old) }
        requires made_for { AreDoneFor port to (stocked self.old) }
        ensures some { result ≡ not (is_empty ((stocked self.old).headers.done port)) }
        ensures stock { IsPassed port to spot ((stocked self.old).headers.done port) (stocked self.old) (stocked self.new) }
    {
        let Some(number) = ports::send(&self.firsts, &mut self.ports, port) else {
            return false;
        };
        let before = entries::pass(&mut self.entries, number, to, spot);
        ports::put(&self.firsts, &mut self.ports, to, number, spot);
        ports::reown(&self.firsts, &mut self.ports, &before, Owner::Port(to));
        true
    }

    /// Puts a header that is in no list at the spot of a port that it was made for.
    pub fn push_header(&mut self, port: PortKey, header: Header, spot: Spot)
        requires port { IsPort port (stocked self.old) }
        requires outside { IsOutside header (stocked self.old) }
        requires made_for { IsMadeFor port header (stocked self.old) }
        ensures { stocked self.new ≡ pushed port spot header.held.number (load_in header.held) (stocked self.old) }
    {
        let number = header.id();
        let before = entries::put(&mut self.entries, port, header, spot);
        ports::put(&self.firsts, &mut self.ports, port, number, spot);
        ports::reown(&self.firsts, &mut self.ports, &before, Owner::Port(port));
    }

    /// Gives a header that is in no list to an owner that is no port.
    pub fn give_header(&mut self, id: u64, owner: Owner)
        requires outside { IsOut id (stocked self.old) }
        requires owner { is_port owner ≡ false }
        ensures { stocked self.new ≡ header_given id owner (stocked self.old) }
    {
        let before = entries::give(&mut self.entries, id, owner);
        ports::reown(&self.firsts, &mut self.ports, &before, owner);
    }

    /// Clears every header of `todo` where it stands.
    pub fn clear_todo(&mut self, port: PortKey)
        requires { IsPort port (stocked self.old) }
        ensures { stocked self.new ≡ todo_cleared port (stocked self.old) }
    {
        entries::clear_todo(&mut self.entries, port);
    }

    /// Clears every header of `done` where it stands.
    pub fn clear_done(&mut self, port: PortKey)
        requires { IsPort port (stocked self.old) }
        ensures { stocked self.new ≡ done_cleared port (stocked self.old) }
    {
        entries::clear_done(&mut self.entries, port);
    }

    /// Gives the mark to the first header of `todo` without one, and answers whether there was one.
    pub fn mark_first(&mut self, port: PortKey, mark: Mark) -> bool
        requires { IsPort port (stocked self.old) }
        ensures some { result ≡ not (is_empty ((stocked self.old).headers.unmarked port)) }
        ensures stock { stocked self.new ≡ marked_first port mark (stocked self.old) }
    {
        let todo = &ports::at(&self.firsts, &self.ports, port).todo;
        let Some(number) = entries::first_unmarked(&self.entries, todo) else {
            return false;
        };
        entries::mark(&mut self.entries, number, mark);
        true
    }

    /// What is known of the header of the number: `None` where no such header is made.
    pub fn state(&self, id: u64) -> Option<HeaderState>
        ensures { result ≡ (stocked self.now).headers.header id }
    {
        entries::state_of(&self.entries, id)
    }

    /// Who has the header of the number: `None` where no such header is made.
    pub fn owner(&self, id: u64) -> Option<Owner>
        ensures { result ≡ option_map (λ h. h.owner) ((stocked self.now).headers.header id) }
    {
        let Some(state) = self.state(id) else {
            return None;
        };
        Some(state.owner)
    }

    /// How many headers are made for the port.
    pub fn made(&self, port: PortKey) -> u32
        requires { IsPort port (stocked self.now) }
        ensures made { result ≡ made_in (stocked self.now) port }
        ensures few { result ≤ 32 }
    {
        ports::at(&self.firsts, &self.ports, port).made
    }

    /// How many of those have an owner that is neither their home nor a notice.
    pub fn outstanding(&self, port: PortKey) -> u32
        requires { IsPort port (stocked self.now) }
        ensures { result ≡ (stocked self.now).headers.count (λ h. is_for port h && is_away h) }
    {
        ports::at(&self.firsts, &self.ports, port).outstanding
    }

    /// How many headers the port has whose home it isn't.
    pub fn foreign(&self, port: PortKey) -> u64
        requires { IsPort port (stocked self.now) }
        ensures { result ≡ (stocked self.now).headers.count (λ h. is_owned_by port h.owner && not (is_home_of port h.home)) }
    {
        ports::at(&self.firsts, &self.ports, port).foreign as u64
    }

    /// How many headers have a block of the graph.
    pub fn blocks(&self) -> u64
        ensures { result ≡ (stocked self.now).headers.count is_block }
    {
        u64::from(BLOCKS - self.region.free())
    }

    /// Whether the port has a header to work on.
    pub fn has_todo(&self, port: PortKey) -> bool
        requires { IsPort port (stocked self.now) }
        ensures { result ≡ not (is_empty ((stocked self.now).headers.todo port)) }
    {
        !ports::at(&self.firsts, &self.ports, port).todo.is_empty()
    }

    /// Whether the port has a header that is finished.
    pub fn has_done(&self, port: PortKey) -> bool
        requires { IsPort port (stocked self.now) }
        ensures { result ≡ not (is_empty ((stocked self.now).headers.done port)) }
    {
        !ports::at(&self.firsts, &self.ports, port).done.is_empty()
    }

    /// Whether `todo` has a header without a mark.
    pub fn has_unmarked(&self, port: PortKey) -> bool
        requires { IsPort port (stocked self.now) }
        ensures { result ≡ not (is_empty ((stocked self.now).headers.unmarked port)) }
    {
        let todo = &ports::at(&self.firsts, &self.ports, port).todo;
        entries::first_unmarked(&self.entries, todo).is_some()
    }

    /// Whether a header can be numbered: fewer than 2^64 - 1 were.
    pub fn numbers_left(&self) -> bool
        ensures left { result ≡ not (nat_eq (stocked self.now).next 18446744073709551615) }
        ensures below { result ≡ true → (stocked self.now).next < 18446744073709551615 }
    {
        is_given(self.next)
    }

    /// Whether each header that is made waits in a list, so that the stock can be closed.
    pub fn all_wait(&self) -> bool
        ensures { (result ≡ true) ↔ AllWait (stocked self.now) }
    {
        entries::all_wait(&self.entries)
    }

    /// Whether each header that is made is with a port or in a note, and none with the client or in a work.
    pub fn all_inside(&self) -> bool
        ensures { (result ≡ true) ↔ AllInside (stocked self.now) }
    {
        entries::all_inside(&self.entries)
    }

    /// Each header that a port has was made for that port.
    pub fn law_of_owners(&self)
        ensures { AreMadeForOwners (stocked self.now) }
    {
        // The proof learns from it what always holds of the stock.
        let _ = &self.entries;
    }

    /// Its lists, owners and counts are those of one flat list of headers.
    pub fn law_of_lists(&self)
        ensures { IsOfOneList (stocked self.now) }
    {
        // The proof learns from it what always holds of the stock.
        let _ = &self.entries;
    }

    /// Ends a stock of which each header that is made waits in a list, and gives all its memory back.
    pub fn close(self)
        requires { AllWait (stocked self) }
    {
        let Stock {
            region,
            ports: _,
            firsts: _,
            entries,
            next: _,
        } = self;
        end_all(region, entries);
    }
}
