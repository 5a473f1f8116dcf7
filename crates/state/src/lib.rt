// What a run carries from one event to the next. The outputs are lent slices beside it.
// What is read of the text and written of the outputs are places and numbers here: as slices they would be borrowed, and a state borrows nothing.
// An event asks that fuel is left, and what is counted has to be at most 1,000,000, so that no sum is too large. Nothing else is asked.
#![tactic(auto)]

ghost use Rattle.std.specs.Prelude.{◌≡◌, ◌+◌, ◌≤◌, ◌<◌};
ghost use Rattle.state.specs.State.{counted_event, with_input, with_call};
ghost use Rattle.model.specs.Limits.{fuel_most};

use store::Store;

#[derive(Clone, Copy)]
pub struct State {
    // where the input left starts in the text
    pub at: usize,
    // the last input line read
    pub line: usize,
    // the last call number
    pub calls: usize,
    // the last number of ed2
    pub symbols: usize,
    // the names that are stored, with their texts
    pub store: Store,
    // how many bytes of the output are written
    pub written: usize,
    // and how many of the second output
    pub second: usize,
    pub events: usize,
    pub fuel: usize,
}

impl State {
    // An event is counted.
    pub fn count_event(&mut self)
        requires { (0 < self.old.fuel) × (self.old.events + self.old.fuel ≤ fuel_most) }
        ensures { self.new ≡ counted_event self.old }
    {
        self.events += 1;
        self.fuel -= 1;
    }

    // The input is read up to a place of the text.
    pub fn set_input(&mut self, at: usize, line: usize)
        ensures { self.new ≡ with_input self.old at line }
    {
        self.at = at;
        self.line = line;
    }

    // A call is opened.
    pub fn add_call(&mut self)
        requires { self.old.calls ≤ fuel_most }
        ensures { self.new ≡ with_call self.old }
    {
        self.calls += 1;
    }
}
