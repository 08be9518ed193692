//! Calls in turns, and looks without one.
ghost use Rattle.std.specs.Prelude.{◌≡◌, ◌≢◌, ℕ, slice_get, Some, IfOk, IfErr, OnOk, MatchOption};
ghost use Rattle.omx_types.specs.declared.error.OmxError.TheVariants.{InvalidComponent};
ghost use Rattle.turnstile.specs.Passes.{IsSamePass, IsPastPlaces};
ghost use Rattle.state_words.specs.Shown.{Within, LastIs};
ghost use Rattle.graph_acts.specs.Plain.{sight_of};
ghost use Rattle.graph_acts.specs.Replying.{IsReplyTo};
ghost use Rattle.graph_acts.specs.Holding.{May};
ghost use Rattle.board.specs.Boards.{first_of, pass_view, own_calls, seen_states, headers, clients, works, headers_after, clients_after, works_after, IsOf, IsCalled, HasSeen};

use crate::asked::{Asked, Told};
use crate::boards::Board;
use crate::pass::BoardPass;
use graph_acts::{Act, Reply};
use note_queues::Client;
use omx_types::{Handle, OmxError, State};
use outside_io::{Sink, Source};
use std::sync::Wait;

// The place of the handle.
fn index_of(handles: &[Handle], h: Handle) -> Option<usize>
    ensures { MatchOption result ((i : ℕ) → slice_get handles.now i ≢ Some h) (λ i. slice_get handles.now i ≡ Some h) }
{
    for i in 0..handles.len() {
        if handles[i] == h {
            return Some(i);
        }
    }
    None
}

impl<S: Source, K: Sink, C: Client> Board<S, K, C> {
    /// Makes the call when its turn comes, and answers its place in the history and the graph's answer. `Err` where 2^50 places were given.
    /// Each state that the act changed is shown within the turn.
    pub fn call<R: Wait>(
        &self,
        rt: &R,
        pass: &mut BoardPass<S, K, C>,
        act: Act<S, K, C>,
    ) -> Result<(u64, Reply<S, K, C>), Act<S, K, C>>
        requires pass { IsOf self.now pass.old }
        requires may { May (sight_of C.Client S.Source K.Sink) C.HEADERS (own_calls pass.old) act }
        ensures pass { IsOf self.now pass.new × IsSamePass (pass_view pass.old) (pass_view pass.new) }
        ensures ok { IfOk result (λ r. IsCalled (sight_of C.Client S.Source K.Sink) C.HEADERS (first_of self.now) (pass_view pass.old) act r.0 r.1 (pass_view pass.new)) }
        ensures reply { IfOk result (λ r. IsReplyTo act r.1) }
        ensures headers { IfOk result (λ r. headers pass.new ≡ headers_after act r.1 (headers pass.old)) }
        ensures clients { IfOk result (λ r. clients C.progress pass.new ≡ clients_after C.progress act r.1 (clients C.progress pass.old)) }
        ensures works { IfOk result (λ r. works pass.new ≡ works_after act r.1 (works pass.old)) }
        ensures shown { OnOk result (HasSeen (sight_of C.Client S.Source K.Sink) self.now pass.new) }
        ensures known { Within (seen_states pass.old) (seen_states pass.new) }
        ensures err { IfErr result (λ back. (back ≡ act) × ((pass_view pass.new).seen ≡ (pass_view pass.old).seen) × (own_calls pass.new ≡ own_calls pass.old) × IsPastPlaces (pass_view pass.new).ticket) }
    {
        let reader = self.words.split(&mut pass.reader);
        match self.turns.turn(rt, &mut pass.turn, Asked { act, reader }) {
            Ok((place, Told { reply, reader })) => {
                self.words.learn(&mut pass.reader, reader);
                Ok((place, reply))
            }
            Err(Asked { act, reader }) => {
                self.words.learn(&mut pass.reader, reader);
                Err(act)
            }
        }
    }

    /// The version and the state of a component of the board's making: the last that the pass has then seen. It takes no turn.
    pub fn peek_state(
        &self,
        pass: &mut BoardPass<S, K, C>,
        h: Handle,
    ) -> Result<(u64, State), OmxError>
        requires { IsOf self.now pass.old }
        ensures pass { IsOf self.now pass.new × (pass_view pass.new ≡ pass_view pass.old) }
        ensures known { Within (seen_states pass.old) (seen_states pass.new) }
        ensures last { IfOk result (λ r. (i : ℕ) × (slice_get (first_of self.now).handles.items i ≡ Some h) × LastIs (seen_states pass.new) i r.0 r.1) }
        ensures none { IfErr result (λ e. (e ≡ InvalidComponent) × ((i : ℕ) → slice_get (first_of self.now).handles.items i ≢ Some h)) }
    {
        match index_of(self.handles.as_slice(), h) {
            Some(i) => Ok(self.words.peek(&mut pass.reader, i as u32)),
            None => Err(OmxError::InvalidComponent),
        }
    }
}
