//! The coin, and what is asked of its purse.

/// It can't be copied or dropped.
pub struct Coin {
    pub value: u64,
}

pub enum Ask {
    Take,
    Back(Coin),
}

pub enum Answer {
    Got(Option<Coin>),
    Thanks,
}
