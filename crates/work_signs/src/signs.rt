//! What the threads of a play tell each other beside the board. No proof rests on it: a sign says when it is worth asking.

use crate::OutOfMemory;
use std::alloc::Global;
use std::hint::spin_loop;
use std::sync::atomic::{AtomicBool, AtomicU64, Ordering};
use std::thread;

/// How often a thread looks at once, before it lets other threads run between two looks.
const SPINS: u32 = 200;

/// Signs that all threads see.
#[derive(Drop)]
pub struct Signs {
    /// A thread wanted memory.
    stop: AtomicBool,
    /// The conductor has nothing more to send.
    over: AtomicBool,
    /// How many notes were told.
    notes: AtomicU64,
    /// How often a bell was rung, with the end.
    rings: AtomicU64,
    /// The signs of each component, by its place.
    places: Vec<PlaceSigns>,
}

/// Signs of a component.
#[derive(Drop)]
struct PlaceSigns {
    /// How often something happened at it or at one near it.
    bell: AtomicU64,
    /// A worker is there.
    taken: AtomicBool,
}

impl Signs {
    /// Signs for so many components, of which nothing was told yet.
    pub fn new(alloc: Global, components: usize) -> Result<Signs, OutOfMemory> {
        let mut places = Vec::with_capacity(alloc, components)?;
        for _ in 0..components {
            places.push(PlaceSigns {
                bell: AtomicU64::new(0),
                taken: AtomicBool::new(false),
            })?;
        }
        Ok(Signs {
            stop: AtomicBool::new(false),
            over: AtomicBool::new(false),
            notes: AtomicU64::new(0),
            rings: AtomicU64::new(0),
            places,
        })
    }

    /// All threads are to end as soon as they hold nothing.
    pub fn stop(&self) {
        self.stop.store(true, Ordering::SeqCst);
    }

    /// Whether all threads are to end.
    pub fn is_stopped(&self) -> bool {
        self.stop.load(Ordering::SeqCst)
    }

    /// The conductor is done, so that workers look whether all is.
    pub fn end(&self) {
        self.over.store(true, Ordering::SeqCst);
        self.rings.fetch_add(1, Ordering::SeqCst);
    }

    /// Whether the conductor is done.
    pub fn is_over(&self) -> bool {
        self.over.load(Ordering::SeqCst)
    }

    /// A client object was told a note.
    pub fn tell_note(&self) {
        self.notes.fetch_add(1, Ordering::SeqCst);
    }

    /// How many notes were told.
    pub fn notes(&self) -> u64 {
        self.notes.load(Ordering::SeqCst)
    }

    /// Something happened at the component of the place, and so at those near it, which are given by their bits.
    pub fn ring(&self, place: usize, near: u32) {
        for (other, signs) in self.places.iter().enumerate() {
            if other == place || (other < 32 && near >> (other as u32) & 1 == 1) {
                signs.bell.fetch_add(1, Ordering::SeqCst);
            }
        }
        self.rings.fetch_add(1, Ordering::SeqCst);
    }

    /// Something happened at every component.
    pub fn ring_all(&self) {
        for signs in self.places.iter() {
            signs.bell.fetch_add(1, Ordering::SeqCst);
        }
        self.rings.fetch_add(1, Ordering::SeqCst);
    }

    /// How often the bell of the component was rung.
    pub fn bell(&self, place: usize) -> u64 {
        match self.places.get(place) {
            Some(signs) => signs.bell.load(Ordering::SeqCst),
            None => 0,
        }
    }

    /// A worker comes to the component, unless another one is there. Whether it came.
    pub fn enter(&self, place: usize) -> bool {
        match self.places.get(place) {
            Some(signs) => {
                !signs.taken.load(Ordering::SeqCst) && !signs.taken.swap(true, Ordering::SeqCst)
            }
            None => true,
        }
    }

    /// The worker that came goes.
    pub fn leave(&self, place: usize) {
        if let Some(signs) = self.places.get(place) {
            signs.taken.store(false, Ordering::SeqCst);
        }
    }

    /// How often any bell was rung, with the end.
    pub fn rings(&self) -> u64 {
        self.rings.load(Ordering::SeqCst)
    }

    /// Rests until a bell was rung since then, the conductor was done or a thread wanted memory, for so many looks at most. Whether one of
    /// these was seen.
    pub fn rest(&self, heard: u64, looks: u32) -> bool {
        for look in 0..looks {
            if self.rings() != heard || self.is_stopped() {
                return true;
            }
            pause(look);
        }
        false
    }
}

fn pause(look: u32) {
    if look < SPINS {
        spin_loop();
    } else {
        thread::yield_now();
    }
}
