//! A purse with one coin, which threads take and give back in turns: how a turnstile is used.
#![tactic(auto)]

mod borrow;
mod coin;
mod purse;
#[cfg(test)]
mod tests;

pub use borrow::{both, give, take};
pub use coin::{Answer, Ask, Coin};
pub use purse::Purse;
