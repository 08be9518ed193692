//! The tests of a graph's use: what a whole client's object was told in the end, a file that is copied, and calls that are refused.

mod client;
mod playing;
mod refusals;
