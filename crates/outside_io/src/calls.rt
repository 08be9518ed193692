//! A counter of the calls of one kind on an open object, which says when one is to fail.

ghost use Rattle.std.specs.Prelude.{◌≡◌, []};

use std::alloc::Global;

/// The calls of one kind on an object, and in how many calls from its opening on the failing ones come.
#[derive(Drop)]
pub struct Calls {
    pub made: u64,
    pub due: Vec<u64>,
}

impl Calls {
    ghost use Rattle.outside_io.specs.Calls.{call_fails, called};

    /// None was made, and these are to fail.
    pub fn new(due: Vec<u64>) -> Calls
        ensures made { result.made ≡ 0 }
        ensures due { result.due ≡ due }
    {
        Calls { made: 0, due }
    }

    /// None fails.
    pub fn sound(alloc: Global) -> Calls
        ensures made { result.made ≡ 0 }
        ensures due { result.due.items ≡ [] }
    {
        Calls::new(Vec::new(alloc))
    }

    /// Counts a call, and answers whether it fails.
    pub fn call(&mut self) -> bool
        ensures fails { result ≡ call_fails self.old }
        ensures counted { self.new ≡ called self.old }
    {
        self.made = self.made.saturating_add(1);
        self.due.contains(&self.made)
    }
}
