//! An act is served, and each changed state is shown.

use crate::asked::{Asked, Told};
use crate::watched::Watched;
use note_queues::Client;
use outside_io::{Sink, Source};
use turnstile::Serve;

impl<S: Source, K: Sink, C: Client> Serve for Watched<S, K, C> {
    ghost use Rattle.graph_acts.specs.Plain.{sight_of};
    ghost use Rattle.board.specs.Histories.{Legal, StandsAfter, MayAsk, IsClear, CanServe};
    ghost use Rattle.board.specs.Serving.{can_serve as can};

    type Act = Asked<S, K, C>;

    type Reply = Told<S, K, C>;

    ghost legal = { Legal (sight_of C.Client S.Source K.Sink) };

    ghost reaches = { StandsAfter (sight_of C.Client S.Source K.Sink) };

    ghost may = { MayAsk (sight_of C.Client S.Source K.Sink) C.HEADERS };

    ghost clear = { IsClear (sight_of C.Client S.Source K.Sink) };

    ghost can_serve = { CanServe (sight_of C.Client S.Source K.Sink) };

    fn serve(&mut self, asked: Asked<S, K, C>, place: u64) -> Told<S, K, C> {
        let Asked { act, mut reader } = asked;
        self.served.graph.law_of_worlds();
        let reply = self.served.answer(act);
        self.served.graph.law_of_worlds();
        self.show_changes(place);
        self.words.share(&mut self.shower, &mut reader);
        Told { reply, reader }
    }

    ghost serves = { λ first value log pass act place due. can (sight_of C.Client S.Source K.Sink) C.HEADERS first value log pass act place due };
}
