// The record of a table.

// The instance of a session, and its rounds so far.
#[derive(Clone, Copy, Debug, PartialEq, Eq)]
pub struct Evaluation {
    pub instance: usize,
    pub rounds: u32,
}

#[derive(Clone, Copy, Debug, PartialEq, Eq)]
pub enum State {
    Idle,
    Iterating(Evaluation),
    Settled(Evaluation),
}
