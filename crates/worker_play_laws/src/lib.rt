//! What a play by workers leaves, whatever the schedule: the history of a board that its passes share as the play of a plan, with its log; the
//! files that it leaves; and what is told of it where steps failed. Stated on functions that do nothing; the player by workers stands on them.
#![tactic(auto)]

mod board_entries;
mod board_failures;
mod board_files;
mod board_gates;
mod board_logs;
mod board_plays;
mod left_files;

pub use board_entries::law_of_board_entries;
pub use board_failures::law_of_board_failures;
pub use board_files::law_of_board_files;
pub use board_gates::law_of_board_gates;
pub use board_logs::law_of_board_logs;
pub use board_plays::law_of_board_plays;
pub use left_files::law_of_left_files;
