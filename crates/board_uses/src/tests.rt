//! The tests of a board: states read without a turn, and two threads at one board.

mod asking;
mod client;
mod peeks;
mod threads;
