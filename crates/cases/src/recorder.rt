// The run recorder.
ghost use Rattle.std.specs.Prelude.{◌≡◌, true};
ghost use Rattle.cases.specs.Phases.{phase_fits};

mod events;

use tables::States;

// A run is empty, open, or closed with a back position.
#[derive(Clone, Copy)]
pub enum Phase {
    Empty,
    Open,
    Closed(usize),
}

// What the recorder is told.
#[derive(Clone, Copy)]
pub enum Event {
    // One state more, with the letters whose bits are set.
    State(u32),
    // The last position is followed by the back position.
    Loop(usize),
    // The run is cleared.
    Drop,
}

// The run that is recorded.
#[derive(Clone, Copy)]
pub struct Recorder {
    states: States,
    phase: Phase,
    ghost fits: { phase_fits phase states.len ≡ true },
}
