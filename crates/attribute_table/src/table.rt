// The table and its calls.
ghost use Rattle.std.specs.Prelude.{◌≡◌, ◌<◌, ◌≤◌, length, IfOk, IfErr};
ghost use Rattle.table_model.specs.Calls.{open_at, round_of, close_of, demand_at, read_at, refused, gave_up};
ghost use Rattle.table_model.specs.Laws.{TableLaws};
ghost use Rattle.table_model.specs.declared.fault.TableFault.TheVariants.{TooShort, NoInstance};
ghost use Rattle.attribute_table.specs.Answers.{open_answer, OpensAt, round_answer, RoundsAt, close_answer, ClosesAt, demand_answer, read_answer};
ghost use Rattle.attribute_table.specs.Lent.{rows_of, EnoughRows, EnoughPlaces, Asked, NotAsked, Called, Made};
ghost use Rattle.attribute_table.specs.Phases.{give_up_in};

use crate::rows;
use crate::session::{Answer, OpenSession, Phase, Rounded, Session, SettledSession};
use equations::System;
use lattices::{Lattice, TOLD_HEIGHT_LIMIT};
use reach_search::reach;
use table_model::fault::TableFault;
use table_model::record::{Evaluation, State};
use table_model::row::{Mark, Row};

// The record of a table. The caller owns the rows and the work list and lends them at each call, with the system:
// so each call has them as parameters. A struct of system and rows was tried: after a method that gives up nothing was
// known of the rows.
#[derive(Drop)]
pub struct Table {
    state: State,
}

// Refuses a slice that is shorter than `least`.
fn check_length<T>(lent: &[T], least: usize) -> Result<(), TableFault>
    ensures ok { IfOk result (λ _. least ≤ length lent.now) }
    ensures err { IfErr result (λ fault. (fault ≡ TooShort) × (length lent.now < least)) }
{
    if lent.len() < least {
        return Err(TableFault::TooShort);
    }
    Ok(())
}

// The row of an instance, one of the first `size`.
fn row_of<V: Lattice>(rows: &[Row<V>], size: usize, instance: usize) -> Result<Row<V>, TableFault>
    requires { size ≤ length rows.now }
    ensures ok { IfOk result (λ row. (instance < size) × (row ≡ rows_of V.Lattice.bot rows.now instance)) }
    ensures err { IfErr result (λ fault. (fault ≡ NoInstance) × (size ≤ instance)) }
{
    rows[..size]
        .get(instance)
        .copied()
        .ok_or(TableFault::NoInstance)
}

impl Table {
    // A new table: idle, its rows untouched at the bottom.
    pub fn new<S: System>(system: &S, rows: &mut [Row<S::Value>]) -> Result<Table, TableFault>
        ensures made { Made S.Value.Lattice.bot S.Value.Lattice.same (S.System.equations system.now) S.Value.Lattice.height rows.old result rows.new }
        ensures laws { TableLaws S.Value.Lattice.bot S.Value.Lattice.le S.Value.Lattice.same S.Value.Lattice.height (S.System.equations system.now) }
    {
        let size = system.size();
        if S::Value::told_height() == TOLD_HEIGHT_LIMIT {
            return Err(TableFault::TooHigh);
        }
        check_length(rows, size)?;
        rows::clear(&mut rows[..size]);
        Ok(Table { state: State::Idle })
    }

    // The row of the instance that an open or a demand asks for, where enough is lent and the table is idle.
    fn asked_row<S: System>(
        &self,
        system: &S,
        rows: &[Row<S::Value>],
        work: &[usize],
        instance: usize,
    ) -> Result<Row<S::Value>, TableFault>
        ensures ok { IfOk result (λ row. Asked (S.System.equations system.now) self.now.state rows.now work.now instance × (row ≡ rows_of S.Value.Lattice.bot rows.now instance)) }
        ensures err { IfErr result (NotAsked (S.System.equations system.now) self.now.state rows.now work.now instance) }
    {
        let size = system.size();
        check_length(rows, size)?;
        check_length(work, 2 * size)?;
        let State::Idle = self.state else {
            return Err(TableFault::NotIdle);
        };
        row_of(rows, size, instance)
    }

    // Opens a session at an instance: makes pending what is in its reach and not final.
    pub fn open<S: System>(
        &mut self,
        system: &S,
        rows: &mut [Row<S::Value>],
        work: &mut [usize],
        instance: usize,
    ) -> Result<OpenSession, TableFault>
        ensures call { Called S.Value.Lattice.bot S.Value.Lattice.same (S.System.equations system.now) (EnoughPlaces (S.System.equations system.now) rows.old work.old) (refused TooShort) self.old.state rows.old (open_at instance) (open_answer result) self.new.state rows.new }
        ensures session { OpensAt instance result }
        ensures work { length work.new ≡ length work.old }
    {
        let size = system.size();
        let asked = self.asked_row(system, rows, work, instance)?;
        if asked.mark == Mark::Final {
            return Err(TableFault::AlreadyFinal);
        }
        reach(system, work, instance)?;
        rows::open_rows(&mut rows[..size], work);
        self.state = State::Iterating(Evaluation {
            instance,
            rounds: 0,
        });
        Ok(Session::new(instance))
    }

    // Gives each pending row its equation's value.
    // Matches the record, and does not call `Phase::fits`, since it needs the rounds in the record. Tests the length by an
    // `if`, since a refusal hands the session back.
    pub fn round<S: System>(
        &mut self,
        system: &S,
        rows: &mut [Row<S::Value>],
        session: OpenSession,
    ) -> Result<Rounded, (TableFault, OpenSession)>
        ensures call { Called S.Value.Lattice.bot S.Value.Lattice.same (S.System.equations system.now) (EnoughRows (S.System.equations system.now) rows.old) (refused TooShort) self.old.state rows.old (round_of session.instance) (round_answer result) self.new.state rows.new }
        ensures session { RoundsAt session.instance result }
    {
        if rows.len() < system.size() {
            return Err((TableFault::TooShort, session));
        }
        match (self.state, session.instance) {
            (State::Iterating(open), instance) if open.instance == instance => {
                let rounds = open.rounds.saturating_add(1);
                let count = rows::evaluate_all(system, rows);
                if count == 0 {
                    self.state = State::Settled(Evaluation { instance, rounds });
                    Ok(Rounded::Unchanged {
                        session: Session::new(session.spend()),
                    })
                } else {
                    self.state = State::Iterating(Evaluation { instance, rounds });
                    Ok(Rounded::Changed { session, count })
                }
            }
            _ => Err((TableFault::NoFit, session)),
        }
    }

    // Makes the session's pending rows final.
    // Matches the record and tests the length as `round` does, for the same reasons.
    pub fn close<S: System>(
        &mut self,
        system: &S,
        rows: &mut [Row<S::Value>],
        session: SettledSession,
    ) -> Result<Answer<S::Value>, (TableFault, SettledSession)>
        ensures call { Called S.Value.Lattice.bot S.Value.Lattice.same (S.System.equations system.now) (EnoughRows (S.System.equations system.now) rows.old) (refused TooShort) self.old.state rows.old (close_of session.instance) (close_answer result) self.new.state rows.new }
        ensures session { ClosesAt session.instance result }
    {
        let size = system.size();
        if rows.len() < size {
            return Err((TableFault::TooShort, session));
        }
        if session.instance >= size {
            return Err((TableFault::NoInstance, session));
        }
        match (self.state, session.instance) {
            (State::Settled(settled), instance) if settled.instance == instance => {
                self.state = State::Idle;
                let row = rows[session.spend()];
                let value = row.value;
                let made_final = rows::make_final(&mut rows[..size]);
                Ok(Answer {
                    value,
                    made_final,
                    rounds: settled.rounds,
                })
            }
            _ => Err((TableFault::NoFit, session)),
        }
    }

    // Ends a session and releases its pending rows. Answers how many: 0 if the session does not fit or the rows are too short.
    // Tests the length by an `if`, since it answers 0 and refuses nothing.
    pub fn give_up<S: System, P: Phase>(
        &mut self,
        system: &S,
        rows: &mut [Row<S::Value>],
        session: Session<P>,
    ) -> usize
        ensures { Called S.Value.Lattice.bot S.Value.Lattice.same (S.System.equations system.now) (EnoughRows (S.System.equations system.now) rows.old) (gave_up 0) self.old.state rows.old (give_up_in P.phase session.instance) (gave_up result) self.new.state rows.new }
    {
        let size = system.size();
        let fits = P::fits(self.state, session.spend());
        if rows.len() < size || !fits {
            return 0;
        }
        self.state = State::Idle;
        rows::release(&mut rows[..size])
    }

    // Opens a session at an instance, rounds until it is settled, and closes it.
    pub fn demand<S: System>(
        &mut self,
        system: &S,
        rows: &mut [Row<S::Value>],
        work: &mut [usize],
        instance: usize,
    ) -> Result<Answer<S::Value>, TableFault>
        ensures call { Called S.Value.Lattice.bot S.Value.Lattice.same (S.System.equations system.now) (EnoughPlaces (S.System.equations system.now) rows.old work.old) (refused TooShort) self.old.state rows.old (demand_at instance) (demand_answer result) self.new.state rows.new }
        ensures work { length work.new ≡ length work.old }
    {
        let size = system.size();
        let row = self.asked_row(system, rows, work, instance)?;
        if row.mark == Mark::Final {
            return Ok(Answer {
                value: row.value,
                made_final: 0,
                rounds: 0,
            });
        }
        reach(system, work, instance)?;
        rows::open_rows(&mut rows[..size], work);
        let rounds = rows::iterate(system, rows);
        let row = rows[instance];
        let value = row.value;
        let made_final = rows::make_final(&mut rows[..size]);
        Ok(Answer {
            value,
            made_final,
            rounds,
        })
    }

    // The value of a final row.
    pub fn read<S: System>(
        &self,
        system: &S,
        rows: &[Row<S::Value>],
        instance: usize,
    ) -> Result<S::Value, TableFault>
        ensures { Called S.Value.Lattice.bot S.Value.Lattice.same (S.System.equations system.now) (EnoughRows (S.System.equations system.now) rows.now) (refused TooShort) self.now.state rows.now (read_at instance) (read_answer result) self.now.state rows.now }
    {
        let size = system.size();
        check_length(rows, size)?;
        let row = row_of(rows, size, instance)?;
        match row.mark {
            Mark::Final => Ok(row.value),
            Mark::Untouched | Mark::Pending => Err(TableFault::NotFinal),
        }
    }
}
