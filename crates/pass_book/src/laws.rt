//! What must hold of the lines of a book, stated on a function that does nothing.

ghost use Rattle.std.specs.Prelude.{◌≡◌, ◌⊎◌, ℕ, List, Some, None, true, false};
ghost use Rattle.il_machine.specs.Acts as machine;
ghost use Rattle.act_text.specs.declared.text.ActText.{ActText};
ghost use Rattle.turnstile.specs.Entries.{entry};
ghost use Rattle.graph_acts.specs.declared.act.Act.{Act};
ghost use Rattle.graph_acts.specs.declared.act.Reply.{Reply};
ghost use Rattle.graph_acts.specs.Plain.{sight_of};
ghost use Rattle.graph_acts.specs.Replying.{IsReplyTo};
ghost use Rattle.board.specs.Asking.{IsPlain};
ghost use Rattle.play_log.specs.Entries.{is_unprinted};
ghost use Rattle.play_log.specs.Saying.{Says};
ghost use Rattle.play_log.specs.Scenes.{Scene};
ghost use Rattle.work_signs.specs.declared.seat.Seat.{Seat};
ghost use Rattle.pass_book.specs.Saying.{line_by, said_of};
ghost use Rattle.pass_book.specs.Scenes.{AreSeatsIn, HasNoText};
ghost use Rattle.pass_book.specs.Seats.{IsOfPlay, names_of};

use note_queues::Client;
use outside_io::{Sink, Source};

/// What a book's line says is what the machine's act and reply are, and such an entry is printed. An act of a play without a line is one
/// that a log leaves out, but for want of memory and a header in a note, which have no text.
pub fn law_of_said_lines<S: Source, K: Sink, C: Client>()
    ensures says { (scene : Scene) (seats : List Seat) (p : ℕ) (act : Act S K C) (reply : Reply S K C) (x : machine.Act × machine.Reply) (said : ActText)
        → AreSeatsIn scene seats → IsOfPlay seats act → IsReplyTo act reply → said_of (names_of seats) act reply ≡ Some said → IsPlain (sight_of C.Client S.Source K.Sink) (entry p act reply) x
        → Says scene (line_by p said) (record { pass = p; act = x.0; reply = x.1 }) × (is_unprinted x.1 ≡ false) }
    ensures unsaid { (seats : List Seat) (p : ℕ) (act : Act S K C) (reply : Reply S K C) (x : machine.Act × machine.Reply)
        → IsOfPlay seats act → IsReplyTo act reply → said_of (names_of seats) act reply ≡ None → IsPlain (sight_of C.Client S.Source K.Sink) (entry p act reply) x
        → (is_unprinted x.1 ≡ true) ⊎ HasNoText reply }
{}
