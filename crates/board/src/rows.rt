//! Calls in a row.
ghost use Rattle.std.specs.Prelude.{◌≡◌, ◌<◌, ◌≤◌, ◌+◌, ◌^◌, List, [], ◌∷◌, ◌++◌, length, IfOk, IfErr, IfSome, IfNone};
ghost use Rattle.std.specs.VecDeque.{deque_len, deque_capacity};
ghost use Rattle.turnstile.specs.Passes.{IsSamePass, IsPastPlaces};
ghost use Rattle.turnstile.specs.Rows.{MayInRow};
ghost use Rattle.state_words.specs.Shown.{Within};
ghost use Rattle.state_words.specs.Tokens.{IsReaderOf, known};
ghost use Rattle.graph_acts.specs.Plain.{sight_of};
ghost use Rattle.graph_acts.specs.Holding.{May};
ghost use Rattle.board.specs.declared.asked.Told.{Told};
ghost use Rattle.board.specs.declared.boards.Board.{Board};
ghost use Rattle.board.specs.Histories.{words_of};
ghost use Rattle.board.specs.Boards.{first_of, pass_view, own_calls, seen_states, headers, clients, works, headers_after, clients_after, works_after, IsOf, HasSeen};
ghost use Rattle.board.specs.Rows.{acts, replies, replies_of, room_of, place_of, IsRowOf, AreRepliesTo, AreCalled, StandTogether, FrontIsCalled, after_all};

use crate::asked::{Asked, Told};
use crate::boards::Board;
use crate::making::OutOfMemory;
use crate::pass::BoardPass;
use crate::row::{ActRow, Lists};
use graph_acts::{Act, Reply};
use note_queues::Client;
use outside_io::{Sink, Source};
use state_words::Reader;
use std::alloc::Global;
use std::collections::VecDeque;
use std::sync::Wait;

/// No more places are given, since 2^50 were.
#[derive(Clone, Copy, Debug)]
pub struct OutOfPlaces;

impl<S: Source, K: Sink, C> ActRow<S, K, C> {
    /// A row without acts, and with room for so many.
    pub fn new(alloc: Global, room: usize) -> Result<ActRow<S, K, C>, OutOfMemory>
        requires { room ≤ 2 ^ 16 }
        ensures empty { IfOk result (λ r. (acts r ≡ []) × (replies r ≡ []) × (room_of r ≡ room)) }
        ensures of { IfOk result (λ r. (b : Board S K C) → IsRowOf b r) }
    {
        let asked = VecDeque::with_capacity(alloc, room)?;
        match VecDeque::with_capacity(alloc, room) {
            Ok(told) => Ok(ActRow {
                lists: Lists {
                    asked,
                    told,
                    place: 0,
                },
            }),
            Err(e) => {
                asked.destroy_empty();
                Err(e)
            }
        }
    }

    /// The oldest of the replies that are left, and the place of its call.
    pub fn take_reply(&mut self) -> Option<(u64, Reply<S, K, C>)>
        ensures some { IfSome result (λ r. (r.0 ≡ place_of self.old) × (place_of self.new ≡ place_of self.old + 1) × (replies self.old ≡ r.1 ∷ replies self.new)) }
        ensures none { IfNone result ((replies self.old ≡ []) × (replies self.new ≡ [])) }
        ensures acts { (acts self.new ≡ acts self.old) × (room_of self.new ≡ room_of self.old) }
        ensures of { (b : Board S K C) → IsRowOf b self.old → IsRowOf b self.new }
    {
        let Some(Told { reply, reader: _ }) = self.lists.told.pop_front() else {
            return None;
        };
        let place = self.lists.place;
        self.lists.place += 1;
        Some((place, reply))
    }

    /// The first of the acts, which is then not to be made.
    pub fn take_act(&mut self) -> Option<Act<S, K, C>>
        ensures some { IfSome result (λ a. acts self.old ≡ a ∷ acts self.new) }
        ensures none { IfNone result ((acts self.old ≡ []) × (acts self.new ≡ [])) }
        ensures of { (b : Board S K C) → IsRowOf b self.old → IsRowOf b self.new }
        ensures replies { (replies self.new ≡ replies self.old) × (place_of self.new ≡ place_of self.old) × (room_of self.new ≡ room_of self.old) }
    {
        let Some(Asked { act, reader: _ }) = self.lists.asked.pop_front() else {
            return None;
        };
        Some(act)
    }

    /// Ends a row that has neither acts nor replies.
    pub fn end(self)
        requires { (acts self ≡ []) × (replies self ≡ []) }
    {
        let ActRow { lists } = self;
        let Lists {
            asked,
            told,
            place: _,
        } = lists;
        asked.destroy_empty();
        told.destroy_empty();
    }
}

impl<S: Source, K: Sink, C: Client> Board<S, K, C> {
    /// The act is then the last that the row asks. It takes no turn and no memory.
    pub fn add(&self, pass: &mut BoardPass<S, K, C>, row: &mut ActRow<S, K, C>, act: Act<S, K, C>)
        requires pass { IsOf self.now pass.old }
        requires row { IsRowOf self.now row.old }
        requires room { length (acts row.old) < room_of row.old }
        ensures pass { IsOf self.now pass.new × (pass_view pass.new ≡ pass_view pass.old) × (seen_states pass.new ≡ seen_states pass.old) }
        ensures row { IsRowOf self.now row.new × (room_of row.new ≡ room_of row.old) }
        ensures acts { acts row.new ≡ acts row.old ++ act ∷ [] }
        ensures replies { (replies row.new ≡ replies row.old) × (place_of row.new ≡ place_of row.old) }
    {
        let reader = self.words.split(&mut pass.reader);
        row.lists.asked.push_back_reserved(Asked { act, reader });
    }

    // The reader then knows what the reader of the last reply does, which stays.
    fn learn_last(&self, reader: &mut Reader, told: &mut VecDeque<Told<S, K, C>>)
        requires reader { IsReaderOf (words_of (first_of self.now)) reader.old }
        requires last { (before : List (Told S K C)) (t : Told S K C) → told.old.items ≡ before ++ t ∷ [] → IsReaderOf (words_of (first_of self.now)) t.reader }
        ensures reader { IsReaderOf (words_of (first_of self.now)) reader.new }
        ensures known { Within (known reader.old) (known reader.new) }
        ensures learned { (before : List (Told S K C)) (t : Told S K C) → told.old.items ≡ before ++ t ∷ [] → Within (known t.reader) (known reader.new) }
        ensures replies { replies_of told.new.items ≡ replies_of told.old.items }
        ensures room { (deque_len told.new ≡ deque_len told.old) × (deque_capacity told.new ≡ deque_capacity told.old) }
    {
        let Some(
            Told {
                reply,
                reader: mut last,
            },
        ) = told.pop_back()
        else {
            return;
        };
        let seen = self.words.split(&mut last);
        told.push_back_reserved(Told {
            reply,
            reader: last,
        });
        self.words.learn(reader, seen);
    }

    // Makes the acts at the front of the row for which there are places.
    fn call_front<R: Wait>(&self, rt: &R, pass: &mut BoardPass<S, K, C>, row: &mut ActRow<S, K, C>)
        requires pass { IsOf self.now pass.old }
        requires row { IsRowOf self.now row.old × (replies row.old ≡ []) }
        requires may { MayInRow (May (sight_of C.Client S.Source K.Sink) C.HEADERS) (pass_view pass.old).number (own_calls pass.old) (acts row.old) }
        ensures pass { IsOf self.now pass.new × IsSamePass (pass_view pass.old) (pass_view pass.new) }
        ensures row { IsRowOf self.now row.new × (room_of row.new ≡ room_of row.old) }
        ensures front { FrontIsCalled (sight_of C.Client S.Source K.Sink) C.HEADERS (first_of self.now) (pass_view pass.old) (acts row.old) (place_of row.new) (replies row.new) (acts row.new) (pass_view pass.new) }
        ensures shown { 0 < length (replies row.new) → HasSeen (sight_of C.Client S.Source K.Sink) self.now pass.new }
        ensures known { Within (seen_states pass.old) (seen_states pass.new) }
        ensures left { 0 < length (acts row.new) → IsPastPlaces (pass_view pass.new).ticket }
    {
        // No reply is left, so none has a place.
        row.lists.place = 0;
        let Some(place) = self.turns.turns(
            rt,
            &mut pass.turn,
            &mut row.lists.asked,
            &mut row.lists.told,
        )
        else {
            return;
        };
        row.lists.place = place;
        self.learn_last(&mut pass.reader, &mut row.lists.told);
    }

    /// Makes the acts of the row in turns that follow each other, with no other call between, by tickets that are drawn together. Their
    /// replies then stand in the row. It takes no memory. `Err` where 2^50 places were given before the last of them: the acts that are
    /// left stay in the row, and none of them was made. Each state that an act changed is shown within its turn.
    pub fn calls<R: Wait>(
        &self,
        rt: &R,
        pass: &mut BoardPass<S, K, C>,
        row: &mut ActRow<S, K, C>,
    ) -> Result<(), OutOfPlaces>
        requires pass { IsOf self.now pass.old }
        requires row { IsRowOf self.now row.old × (replies row.old ≡ []) }
        requires may { MayInRow (May (sight_of C.Client S.Source K.Sink) C.HEADERS) (pass_view pass.old).number (own_calls pass.old) (acts row.old) }
        ensures pass { IsOf self.now pass.new × IsSamePass (pass_view pass.old) (pass_view pass.new) }
        ensures row { IsRowOf self.now row.new × (room_of row.new ≡ room_of row.old) }
        ensures ok { IfOk result (λ _. (acts row.new ≡ []) × AreCalled (sight_of C.Client S.Source K.Sink) C.HEADERS (first_of self.now) (pass_view pass.old) (acts row.old) (place_of row.new) (replies row.new) (pass_view pass.new)) }
        ensures together { IfOk result (λ _. 0 < length (acts row.old) → StandTogether (pass_view pass.old) (acts row.old) (place_of row.new) (replies row.new) (pass_view pass.new)) }
        ensures replies { IfOk result (λ _. AreRepliesTo (acts row.old) (replies row.new)) }
        ensures headers { IfOk result (λ _. headers pass.new ≡ after_all headers_after (acts row.old) (replies row.new) (headers pass.old)) }
        ensures clients { IfOk result (λ _. clients C.progress pass.new ≡ after_all (clients_after C.progress) (acts row.old) (replies row.new) (clients C.progress pass.old)) }
        ensures works { IfOk result (λ _. works pass.new ≡ after_all works_after (acts row.old) (replies row.new) (works pass.old)) }
        ensures shown { 0 < length (replies row.new) → HasSeen (sight_of C.Client S.Source K.Sink) self.now pass.new }
        ensures known { Within (seen_states pass.old) (seen_states pass.new) }
        ensures err { IfErr result (λ _. (0 < length (acts row.new)) × IsPastPlaces (pass_view pass.new).ticket × FrontIsCalled (sight_of C.Client S.Source K.Sink) C.HEADERS (first_of self.now) (pass_view pass.old) (acts row.old) (place_of row.new) (replies row.new) (acts row.new) (pass_view pass.new)) }
    {
        self.call_front(rt, pass, row);
        if row.lists.asked.is_empty() {
            Ok(())
        } else {
            Err(OutOfPlaces)
        }
    }
}
