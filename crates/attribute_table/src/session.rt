// Sessions, and what calls answer.
ghost use Rattle.std.specs.Prelude.{◌≡◌, ◌≤◌};
ghost use Rattle.attribute_table.specs.Phases.{SessionPhase, iterating, settled, fits_in};

use std::marker::PhantomData;
use table_model::record::State;

// A phase of a session.
pub trait Phase {
    // Which one it is.
    ghost phase: { SessionPhase };

    // Whether a session of this phase at `instance` fits a record: the record is in this phase, at that instance.
    fn fits(state: State, instance: usize) -> bool
        ensures { result ≡ fits_in phase state instance };
}

// The evaluation iterates.
#[derive(Clone, Copy, Debug, PartialEq, Eq)]
pub struct Iterating;

impl Phase for Iterating {
    ghost phase = { iterating };

    fn fits(state: State, instance: usize) -> bool {
        matches!(state, State::Iterating(open) if open.instance == instance)
    }
}

// The last round changed nothing.
#[derive(Clone, Copy, Debug, PartialEq, Eq)]
pub struct Settled;

impl Phase for Settled {
    ghost phase = { settled };

    fn fits(state: State, instance: usize) -> bool {
        matches!(state, State::Settled(settled) if settled.instance == instance)
    }
}

// An evaluation in the phase `P`. It ends by a close or a give-up: only at an instance that no system has may a session be dropped,
// and an open gives a session at an instance of its system.
#[derive(Debug, PartialEq, Eq)]
pub struct Session<P> {
    pub(crate) instance: usize,
    phase: PhantomData<P>,
}

pub type OpenSession = Session<Iterating>;

pub type SettledSession = Session<Settled>;

impl<P> Drop for Session<P> {
    fn drop(self)
        requires { 4096 ≤ self.instance }
    {
        let Session {
            instance: _,
            phase: _,
        } = self;
    }
}

impl<P> Session<P> {
    pub(crate) fn new(instance: usize) -> Session<P>
        ensures { result.instance ≡ instance }
    {
        Session {
            instance,
            phase: PhantomData,
        }
    }

    // Ends the session.
    pub(crate) fn spend(self) -> usize
        ensures { result ≡ self.instance }
    {
        let Session { instance, phase: _ } = self;
        instance
    }
}

// What a round did.
#[derive(Debug, PartialEq, Eq, Drop)]
pub enum Rounded {
    // `count` rows changed, one at least.
    Changed { session: OpenSession, count: usize },
    // No row changed: the session is settled.
    Unchanged { session: SettledSession },
}

// What a close or a demand answers: the value, how many rows it made final, and the rounds.
#[derive(Clone, Copy, Debug, PartialEq, Eq)]
pub struct Answer<V> {
    pub value: V,
    pub made_final: usize,
    pub rounds: u32,
}
