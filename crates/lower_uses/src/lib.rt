//! The public calls of the crates below the graph, each as a client of it calls it: what no clause says of them, shown by tests.
//! They stand here, since a crate with tests is proved a second time with them.
#![tactic(auto)]

#[cfg(test)]
mod generator;
#[cfg(test)]
mod media;
#[cfg(test)]
mod prints;
#[cfg(test)]
mod region;
