//! The bytes of a play: those on their way in its links, those that its inputs took, and those that the files of its sinks took. Each act
//! keeps that they are what the plain functions give of the files of its sources. Stated on functions that do nothing.
#![tactic(auto)]

mod flows;
mod parts;
mod streams;

pub use flows::{law_of_stepped_streams, law_of_written_streams};
pub use parts::{law_of_plain_parts, law_of_sunk_text};
pub use streams::{
    law_of_begun_streams, law_of_changed_streams, law_of_component_streams, law_of_link_streams,
};
