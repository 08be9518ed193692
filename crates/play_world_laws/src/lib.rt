//! The worlds of a play, with late sources or without: how its components, links and headers stand in the machine while the play is where
//! the model has it, and what each act of the machine is in one, in both directions. Stated on functions that do nothing; the other laws of
//! a play stand on them.
#![tactic(auto)]

mod changes;
mod clients;
mod happenings;
mod link_calls;
mod links;
mod stage_calls;
mod supplies;
mod worlds;

pub use changes::{
    law_of_announcements, law_of_conducted_changes, law_of_port_happenings, law_of_port_runs,
    law_of_told_changes,
};
pub use clients::law_of_play_tellings;
pub use happenings::{law_of_play_closings, law_of_play_happenings, law_of_waiting};
pub use link_calls::{law_of_play_hand_backs, law_of_play_hand_overs, law_of_play_releases};
pub use links::{
    law_of_claimed_headers, law_of_counts, law_of_hands, law_of_landed_headers, law_of_made,
    law_of_resets, law_of_unmade, law_of_unused,
};
pub use stage_calls::{law_of_play_notes, law_of_stages};
pub use supplies::law_of_play_supplies;
pub use worlds::{law_of_changed_ports, law_of_play_openings, law_of_play_sends};
