//! Who holds units of a resource, who waits for some, and who gives its own up for the first of these.
#![tactic(auto)]

mod book;
mod row;

pub use book::{Ask, Book};
pub use row::{Held, Row, Wait};
