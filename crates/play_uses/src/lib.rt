//! Plays whose source or sink breaks off while they are played, and two workers that work at one time: what no clause says of them, and no file
//! of the host can be made to do or to show.
#![tactic(auto)]

#[cfg(test)]
mod breaking;
#[cfg(test)]
mod gates;
