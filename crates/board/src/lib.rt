//! A graph of components that several threads use in turns, and whose states they read without waiting.
#![tactic(auto)]

mod asked;
mod boards;
mod calls;
mod laws;
mod looks;
mod making;
mod pass;
mod passes;
mod row;
mod rows;
mod serving;
mod showing;
mod threads;
mod watched;

pub use asked::{Asked, Told};
pub use boards::Board;
pub use graph_acts::{Act, DoneWork, LentClaim, LentWork, Reply};
pub use laws::{law_of_event_notes, law_of_files, law_of_histories};
pub use making::OutOfMemory;
pub use pass::BoardPass;
pub use row::ActRow;
pub use rows::OutOfPlaces;
pub use watched::Watched;
