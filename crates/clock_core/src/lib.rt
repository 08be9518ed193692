//! A media clock after the OpenMAX IL clock component: requests are fulfilled as its media time reaches theirs.
//! The wall moment is handed in with each call. No call takes memory.
#![tactic(auto)]

mod act;
mod clock;
mod due;
mod laws;
mod motion;
mod pace;
mod queue;
mod refusing;
mod run;
mod script;
mod text;

pub use act::{ClockAct, ClockRefusal, Fulfilled, Request, TimedAct};
pub use clock::Clock;
pub use laws::law_of_calls;
pub use motion::Motion;
pub use run::run_clock;
