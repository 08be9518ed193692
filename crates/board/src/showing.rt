//! Each state that changed is shown.
ghost use Rattle.std.specs.Prelude.{◌≡◌, ◌<◌, ◌^◌, ◌+◌, ◌≤◌, ℕ, vec_len, slice_get, Some};
ghost use Rattle.state_words.specs.Shown.{after, version_of};
ghost use Rattle.board.specs.Histories.{IsTidy, HasVersions, known_of};
ghost use Rattle.board.specs.Showing.{ShowsChanges, ShowsNew, ShowsAt};

use crate::watched::Watched;
use note_queues::Client;
use omx_types::State;
use outside_io::{Sink, Source};

impl<S: Source, K: Sink, C: Client> Watched<S, K, C> {
    // Shows one more state of the component at the place.
    fn show_new(&mut self, i: usize, state: State)
        requires tidy { IsTidy self.old }
        requires at { i < vec_len self.old.handles }
        requires room { version_of (known_of self.old) i < 2 ^ 60 }
        ensures { ShowsNew i state self.old self.new }
    {
        self.words.show(&mut self.shower, i as u32, state);
        self.states[i] = state;
    }

    // Shows the state of the component at the place, if it is another than the last that was shown.
    fn show_at(&mut self, i: usize)
        requires tidy { IsTidy self.old }
        requires at { i < vec_len self.old.handles }
        requires room { version_of (known_of self.old) i < 2 ^ 60 }
        ensures { ShowsAt C.progress i self.old self.new }
    {
        let h = self.handles[i];
        match self.served.graph.state_near(h, i) {
            Ok(state) => {
                if state.number() != self.states[i].number() {
                    self.show_new(i, state);
                }
            }
            Err(_) => {}
        }
    }

    // Shows each state that changed.
    pub(crate) fn show_changes(&mut self, _place: u64)
        requires tidy { IsTidy self.old }
        requires versions { HasVersions (known_of self.old) _place }
        requires in_time { _place < 2 ^ 50 }
        ensures { ShowsChanges C.progress self.old self.new }
    {
        for i in 0..self.handles.len() {
            self.show_at(i);
        }
    }
}
