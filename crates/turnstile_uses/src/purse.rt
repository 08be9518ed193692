//! The purse.

use crate::coin::{Answer, Ask, Coin};
use turnstile::Serve;

/// A place for one coin, and how often it was asked.
pub struct Purse {
    pub coin: Option<Coin>,
    pub calls: u64,
}

impl Serve for Purse {
    ghost use Rattle.std.specs.Prelude.{◌≡◌, None};
    ghost use Rattle.turnstile_uses.specs.Runs.{Legal, Stands, May, held, CanServe};

    type Act = Ask;

    type Reply = Answer;

    ghost legal = { Legal };

    ghost reaches = { Stands };

    ghost may = { λ first. May };

    ghost clear = { λ own. held own ≡ None };

    ghost can_serve = { CanServe };

    fn serve(&mut self, act: Ask, place: u64) -> Answer {
        self.calls = place + 1;
        match act {
            Ask::Take => Answer::Got(self.coin.take()),
            Ask::Back(coin) => {
                match self.coin.replace(coin) {
                    None => {}
                    Some(_) => unreachable!(),
                }
                Answer::Thanks
            }
        }
    }

    ghost serves = { λ first value log pass act place due. (first, log, pass, due) };
}
