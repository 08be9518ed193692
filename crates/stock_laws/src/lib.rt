//! What ties the value that contracts see of ports and headers (`Stocked` of `il_machine`) to flat lists of headers:
//! each change of the value, and the machine's own change of a list that it stands for, lead to values of which one
//! stands for the other; and what ties what a graph keeps to the worlds that it stands for. The laws are stated on functions
//! that do nothing; crates above import their lemmas.
#![tactic(auto)]

ghost use Rattle.std.specs.Prelude.{◌≡◌, ◌++◌, ◌∷◌, [], List, ℕ, ◌<◌, ◌≤◌, Bool, true, false, length, Some, None};
ghost use Rattle.il_machine.specs.declared.port.PortKey.{PortKey};
ghost use Rattle.il_machine.specs.declared.port.Mark.{Mark};
ghost use Rattle.il_machine.specs.declared.header.Owner.{Owner};
ghost use Rattle.il_machine.specs.declared.header.Queue.TheVariants.{Out};
ghost use Rattle.il_machine.specs.declared.header.Spot.{Spot};
ghost use Rattle.il_machine.specs.declared.header.HeaderState.{HeaderState};
ghost use Rattle.il_machine.specs.World.{HeaderRecord, Load};
ghost use Rattle.il_machine.specs.Headers.{at_spot, changed, cleared, cleared_all, given_to, in_done, in_todo, loaded, put, put_at, unchanged, unloaded, weight, without};
ghost use Rattle.il_machine.specs.Due.{first_marked};
ghost use Rattle.il_machine.specs.Stock.{StandsFor, Stocked, added, header_given, no_stock, header_made, todo_pulled, pushed, removed, done_pulled, header_unmade};
ghost use Rattle.stock_laws.specs.Changes.{done_cleared, front_out, marked_first, todo_cleared};
ghost use Rattle.stock_laws.specs.Seeing.{Implies, Shows};

mod worlds;

pub use worlds::{law_of_parts, law_of_sound_worlds};

/// No ports and no headers stand for the empty list.
pub fn law_of_start()
    ensures { (key : ℕ) → StandsFor (no_stock key) [] }
{}

/// Which ports there are doesn't matter to the headers.
pub fn law_of_ports()
    ensures added { (stocked : Stocked) (hs : List HeaderRecord) (component count : ℕ) →
        StandsFor stocked hs → StandsFor (added component count stocked) hs }
    ensures removed { (stocked : Stocked) (hs : List HeaderRecord) (component : ℕ) →
        StandsFor stocked hs → StandsFor (removed component stocked) hs }
{}

/// A header that is in no list is put at a spot of a port, with what it carries.
pub fn law_of_push()
    ensures { (stocked : Stocked) (hs : List HeaderRecord) (key : PortKey) (spot : Spot) (number : ℕ) (load : Load) (header_state : HeaderState) →
        StandsFor stocked hs → stocked.headers.header number ≡ Some header_state → header_state.queue ≡ Out →
        StandsFor (pushed key spot number load stocked) (put key spot number (loaded load) hs) }
{}

/// The front of a list of a port leaves it where it stands.
pub fn law_of_leaving()
    ensures todo { (stocked : Stocked) (hs : List HeaderRecord) (key : PortKey) →
        StandsFor stocked hs → StandsFor (todo_pulled key stocked) (front_out (stocked.headers.todo key) hs) }
    ensures done { (stocked : Stocked) (hs : List HeaderRecord) (key : PortKey) →
        StandsFor stocked hs → StandsFor (done_pulled key stocked) (front_out (stocked.headers.done key) hs) }
{}

/// A header that is in no list gets an owner, and may get something else to carry where nothing is kept of that; it is made, or
/// unmade.
pub fn law_of_owners()
    ensures given { (stocked : Stocked) (hs : List HeaderRecord) (number : ℕ) (owner : Owner) (header_state : HeaderState) →
        StandsFor stocked hs → stocked.headers.header number ≡ Some header_state → header_state.queue ≡ Out →
        StandsFor (header_given number owner stocked) (changed number (given_to owner) hs) }
    ensures given_loaded { (stocked : Stocked) (hs : List HeaderRecord) (number : ℕ) (owner : Owner) (load : Load) (header_state : HeaderState) →
        StandsFor stocked hs → stocked.headers.header number ≡ Some header_state → header_state.queue ≡ Out → stocked.loads number ≡ None →
        StandsFor (header_given number owner stocked) (changed number (λ r. given_to owner (loaded load r)) hs) }
    ensures made { (stocked : Stocked) (hs : List HeaderRecord) (state : HeaderState) (load : Load) →
        StandsFor stocked hs → stocked.headers.header stocked.next ≡ None → state.number ≡ stocked.next → state.queue ≡ Out →
        StandsFor (header_made state stocked) (hs ++ record { state = state; load = load } ∷ []) }
    ensures unmade { (stocked : Stocked) (hs : List HeaderRecord) (number : ℕ) (header_state : HeaderState) →
        StandsFor stocked hs → stocked.headers.header number ≡ Some header_state → header_state.queue ≡ Out →
        StandsFor (header_unmade number stocked) (without number hs) }
{}

/// The front of `todo` leaves it, and is put at a spot, given to an owner, cleared or as it is, or unmade.
pub fn law_of_todo()
    ensures put { (stocked : Stocked) (hs : List HeaderRecord) (key peer : PortKey) (spot : Spot) (number : ℕ) (ns : List ℕ) (load : Load) →
        StandsFor stocked hs → stocked.headers.todo key ≡ number ∷ ns →
        StandsFor (pushed peer spot number load (todo_pulled key stocked)) (put peer spot number (loaded load) hs) }
    ensures unchanged { (stocked : Stocked) (hs : List HeaderRecord) (key peer : PortKey) (spot : Spot) (number : ℕ) (ns : List ℕ) (load : Load) →
        StandsFor stocked hs → stocked.headers.todo key ≡ number ∷ ns → stocked.loads number ≡ Some load →
        StandsFor (pushed peer spot number load (todo_pulled key stocked)) (put peer spot number unchanged hs) }
    ensures cleared { (stocked : Stocked) (hs : List HeaderRecord) (key peer : PortKey) (spot : Spot) (number : ℕ) (ns : List ℕ) (load : Load) →
        StandsFor stocked hs → stocked.headers.todo key ≡ number ∷ ns → stocked.loads number ≡ Some load →
        StandsFor (pushed peer spot number (unloaded load) (todo_pulled key stocked)) (put peer spot number cleared hs) }
    ensures given { (stocked : Stocked) (hs : List HeaderRecord) (key : PortKey) (owner : Owner) (number : ℕ) (ns : List ℕ) →
        StandsFor stocked hs → stocked.headers.todo key ≡ number ∷ ns →
        StandsFor (header_given number owner (todo_pulled key stocked)) (changed number (λ r. given_to owner (cleared r)) hs) }
    ensures given_on { (stocked : Stocked) (hs : List HeaderRecord) (key : PortKey) (owner : Owner) (number : ℕ) (ns : List ℕ) →
        StandsFor stocked hs → stocked.headers.todo key ≡ number ∷ ns →
        StandsFor (header_given number owner (todo_pulled key stocked)) (changed number (given_to owner) hs) }
    ensures unmade { (stocked : Stocked) (hs : List HeaderRecord) (key : PortKey) (number : ℕ) (ns : List ℕ) →
        StandsFor stocked hs → stocked.headers.todo key ≡ number ∷ ns →
        StandsFor (header_unmade number (todo_pulled key stocked)) (without number hs) }
{}

/// The front of `done` leaves it, and is put at a spot, given to an owner, or unmade.
pub fn law_of_done()
    ensures put { (stocked : Stocked) (hs : List HeaderRecord) (key peer : PortKey) (spot : Spot) (number : ℕ) (ns : List ℕ) (load : Load) →
        StandsFor stocked hs → stocked.headers.done key ≡ number ∷ ns →
        StandsFor (pushed peer spot number load (done_pulled key stocked)) (put peer spot number (loaded load) hs) }
    ensures unchanged { (stocked : Stocked) (hs : List HeaderRecord) (key peer : PortKey) (spot : Spot) (number : ℕ) (ns : List ℕ) (load : Load) →
        StandsFor stocked hs → stocked.headers.done key ≡ number ∷ ns → stocked.loads number ≡ Some load →
        StandsFor (pushed peer spot number load (done_pulled key stocked)) (put peer spot number unchanged hs) }
    ensures cleared { (stocked : Stocked) (hs : List HeaderRecord) (key peer : PortKey) (spot : Spot) (number : ℕ) (ns : List ℕ) (load : Load) →
        StandsFor stocked hs → stocked.headers.done key ≡ number ∷ ns → stocked.loads number ≡ Some load →
        StandsFor (pushed peer spot number (unloaded load) (done_pulled key stocked)) (put peer spot number cleared hs) }
    ensures given { (stocked : Stocked) (hs : List HeaderRecord) (key : PortKey) (owner : Owner) (number : ℕ) (ns : List ℕ) →
        StandsFor stocked hs → stocked.headers.done key ≡ number ∷ ns →
        StandsFor (header_given number owner (done_pulled key stocked)) (changed number (λ r. given_to owner (cleared r)) hs) }
    ensures unmade { (stocked : Stocked) (hs : List HeaderRecord) (key : PortKey) (number : ℕ) (ns : List ℕ) →
        StandsFor stocked hs → stocked.headers.done key ≡ number ∷ ns →
        StandsFor (header_unmade number (done_pulled key stocked)) (without number hs) }
{}

/// A header is made and put at a spot.
pub fn law_of_supply()
    ensures { (stocked : Stocked) (hs : List HeaderRecord) (state : HeaderState) (key : PortKey) (spot : Spot) (load : Load) →
        StandsFor stocked hs → stocked.headers.header stocked.next ≡ None → state.number ≡ stocked.next → state.queue ≡ Out →
        StandsFor (pushed key spot stocked.next load (header_made state stocked))
        (at_spot spot (put_at key spot (record { state = state; load = load })) hs) }
{}

/// The headers of a list of a port are cleared where they stand.
pub fn law_of_clearing()
    ensures todo { (stocked : Stocked) (hs : List HeaderRecord) (key : PortKey) →
        StandsFor stocked hs → StandsFor (todo_cleared key stocked) (cleared_all (stocked.headers.todo key) hs) }
    ensures done { (stocked : Stocked) (hs : List HeaderRecord) (key : PortKey) →
        StandsFor stocked hs → StandsFor (done_cleared key stocked) (cleared_all (stocked.headers.done key) hs) }
{}

/// The first header of `todo` without a mark gets one.
pub fn law_of_marks()
    ensures { (stocked : Stocked) (hs : List HeaderRecord) (key : PortKey) (mark : Mark) →
        StandsFor stocked hs → StandsFor (marked_first key mark stocked) (first_marked (stocked.headers.unmarked key) (Some mark) hs) }
{}

/// A number in front of a list of a port has its header there.
pub fn law_of_fronts()
    ensures todo { (stocked : Stocked) (hs : List HeaderRecord) (key : PortKey) (number : ℕ) (ns : List ℕ) →
        StandsFor stocked hs → stocked.headers.todo key ≡ number ∷ ns → Shows stocked number (in_todo key) }
    ensures done { (stocked : Stocked) (hs : List HeaderRecord) (key : PortKey) (number : ℕ) (ns : List ℕ) →
        StandsFor stocked hs → stocked.headers.done key ≡ number ∷ ns → Shows stocked number (in_done key) }
{}

/// What counts of headers tell: a header that is there is counted, a test that implies another has the smaller count,
/// and the lists of a port are as long as their counts.
pub fn law_of_kept_counts()
    ensures counted { (stocked : Stocked) (hs : List HeaderRecord) (test : HeaderState → Bool) (number : ℕ) (header_state : HeaderState) →
        StandsFor stocked hs → stocked.headers.header number ≡ Some header_state → weight (test header_state) ≤ stocked.headers.count test }
    ensures none { (stocked : Stocked) (hs : List HeaderRecord) (test : HeaderState → Bool) (number : ℕ) (header_state : HeaderState) →
        StandsFor stocked hs → stocked.headers.count test ≡ 0 → stocked.headers.header number ≡ Some header_state → test header_state ≡ false }
    ensures implied { (stocked : Stocked) (hs : List HeaderRecord) (test weaker : HeaderState → Bool) →
        StandsFor stocked hs → Implies stocked.headers test weaker → stocked.headers.count test ≤ stocked.headers.count weaker }
    ensures fewer { (stocked : Stocked) (hs : List HeaderRecord) (test weaker : HeaderState → Bool) (number : ℕ) (header_state : HeaderState) →
        StandsFor stocked hs → Implies stocked.headers test weaker → stocked.headers.header number ≡ Some header_state → test header_state ≡ false →
        weaker header_state ≡ true → stocked.headers.count test < stocked.headers.count weaker }
    ensures todo { (stocked : Stocked) (hs : List HeaderRecord) (key : PortKey) →
        StandsFor stocked hs → length (stocked.headers.todo key) ≡ stocked.headers.count (in_todo key) }
    ensures done { (stocked : Stocked) (hs : List HeaderRecord) (key : PortKey) →
        StandsFor stocked hs → length (stocked.headers.done key) ≡ stocked.headers.count (in_done key) }
{}
