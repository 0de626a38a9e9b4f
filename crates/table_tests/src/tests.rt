// The table's calls on small systems.
use crate::largest::{Largest, NoEquations};
use attribute_table::fault::{DanglingOperand, TableFault};
use attribute_table::row::{Mark, Row};
use attribute_table::session::{OpenSession, Phase, Rounded, Session, SettledSession};
use attribute_table::table::Table;
use equations::System;
use example_system::parts::{ExampleSystem, Instance, Value, one_number};
use lattices::Lattice;
use references::Dangling;
use std::alloc::{AllocError, Global};
use std::test::Fail;

// 0 and 1 read each other, 2 reads itself and 0, 3 dangles at its second and third operand, 4 reads 3.
fn five(heap: Global) -> Result<ExampleSystem, AllocError> {
    let dangling = [
        Ok(0),
        Err(Dangling { reference: 7 }),
        Err(Dangling { reference: 6 }),
    ];
    let instances = vec![in heap;
        Instance::joining(heap, one_number(false, 1), &[Ok(1)])?,
        Instance::joining(heap, one_number(true, 2), &[Ok(0)])?,
        Instance::joining(heap, one_number(false, 3), &[Ok(2), Ok(0)])?,
        Instance::joining(heap, one_number(false, 4), &dangling)?,
        Instance::joining(heap, one_number(false, 5), &[Ok(3)])?,
    ]?;
    Ok(ExampleSystem { instances })
}

// Rows that no table has touched yet, with some number in them.
fn some_rows(heap: Global, count: usize) -> Result<Vec<Row<Value>>, AllocError> {
    let row = Row {
        mark: Mark::Pending,
        value: one_number(false, 9),
    };
    Ok(vec![in heap; row; count]?)
}

// The number of a refusal, by which the tests expect it.
fn numbered<T: Drop>(outcome: Result<T, TableFault>) -> Result<(), u8> {
    outcome.map(|_| ()).map_err(TableFault::number)
}

fn has(rows: &[Row<Value>], instance: usize, mark: Mark, value: Value) -> bool {
    rows.get(instance) == Some(&Row { mark, value })
}

// A system with its table.
#[derive(Drop)]
struct Lent {
    system: ExampleSystem,
    rows: Vec<Row<Value>>,
    work: Vec<usize>,
    table: Table,
}

// The system of five with a new table, and a work list of so many places.
fn lend(heap: Global, count: usize) -> Result<Lent, Fail> {
    let system = five(heap)?;
    let mut rows = some_rows(heap, 5)?;
    let work = vec![in heap; 77; count]?;
    let table = Table::new(&system, &mut rows).map_err(TableFault::number)?;
    Ok(Lent {
        system,
        rows,
        work,
        table,
    })
}

impl Lent {
    fn demand(&mut self, instance: usize) -> Result<(), u8> {
        numbered(
            self.table
                .demand(&self.system, &mut self.rows, &mut self.work, instance),
        )
    }

    fn read(&self, instance: usize) -> Result<(), u8> {
        numbered(self.table.read(&self.system, &self.rows, instance))
    }

    fn open(&mut self, instance: usize) -> Result<OpenSession, u8> {
        self.table
            .open(&self.system, &mut self.rows, &mut self.work, instance)
            .map_err(TableFault::number)
    }

    // Opens a session and gives it up.
    fn open_and_give_up(&mut self, instance: usize) -> Result<(), u8> {
        let session = self.open(instance)?;
        self.give_up(session);
        Ok(())
    }

    // A round that changes rows: how many.
    fn round(&mut self, session: OpenSession) -> Result<(usize, OpenSession), Fail> {
        match self.table.round(&self.system, &mut self.rows, session) {
            Ok(Rounded::Changed { session, count }) => Ok((count, session)),
            Ok(Rounded::Unchanged { session }) => Err(self.fail(session, "no row changed")),
            Err((_, session)) => Err(self.fail(session, "a round was refused")),
        }
    }

    // A round that changes no row.
    fn last_round(&mut self, session: OpenSession) -> Result<SettledSession, Fail> {
        match self.table.round(&self.system, &mut self.rows, session) {
            Ok(Rounded::Unchanged { session }) => Ok(session),
            Ok(Rounded::Changed { session, count: _ }) => Err(self.fail(session, "a row changed")),
            Err((_, session)) => Err(self.fail(session, "a round was refused")),
        }
    }

    // A round that is refused: the number.
    fn refused_round(&mut self, session: OpenSession) -> Result<(u8, OpenSession), Fail> {
        match self.table.round(&self.system, &mut self.rows, session) {
            Err((fault, session)) => Ok((fault.number(), session)),
            Ok(Rounded::Changed { session, count: _ }) => Err(self.fail(session, "not refused")),
            Ok(Rounded::Unchanged { session }) => Err(self.fail(session, "not refused")),
        }
    }

    // Rounds until the session of a cycle is settled: how many rows the first two changed.
    fn settle(&mut self, session: OpenSession) -> Result<([usize; 2], SettledSession), Fail> {
        let (first, session) = self.round(session)?;
        let (second, session) = self.round(session)?;
        let session = self.last_round(session)?;
        Ok(([first, second], session))
    }

    // The rows made final and the rounds of a close. A session whose close is refused is given up.
    fn close(&mut self, session: SettledSession) -> Result<(usize, u32), u8> {
        match self.table.close(&self.system, &mut self.rows, session) {
            Ok(answer) => Ok((answer.made_final, answer.rounds)),
            Err((fault, session)) => {
                self.give_up(session);
                Err(fault.number())
            }
        }
    }

    // Gives a session up: how many rows there were.
    fn give_up<P: Phase>(&mut self, session: Session<P>) -> usize {
        self.table.give_up(&self.system, &mut self.rows, session)
    }

    // Gives a session up in a test that fails.
    fn fail<P: Phase>(&mut self, session: Session<P>, why: &'static str) -> Fail {
        self.give_up(session);
        Fail::new(why)
    }
}

#[test]
fn making(rt: HostRuntime) -> Result<(), Fail> {
    let heap = rt.alloc();
    let system = five(heap)?;
    let mut short = some_rows(heap, 4)?;
    assert_eq!(rt; numbered(Table::new(&system, &mut short)), Err(10));
    assert!(rt; has(&short, 0, Mark::Pending, one_number(false, 9)));
    let mut rows = some_rows(heap, 6)?;
    assert_eq!(rt; numbered(Table::new(&system, &mut rows)), Ok(()));
    let bottom = Value::bottom();
    assert!(rt; has(&rows, 4, Mark::Untouched, bottom));
    assert!(rt; has(&rows, 5, Mark::Pending, one_number(false, 9)));
    Ok(())
}

#[test]
fn too_high(rt: HostRuntime) {
    let mut none: Vec<Row<Largest>> = Vec::new(rt.alloc());
    assert_eq!(rt; numbered(Table::new(&NoEquations, &mut none)), Err(11));
}

#[test]
fn demands_and_reads(rt: HostRuntime) -> Result<(), Fail> {
    let mut lent = lend(rt.alloc(), 10)?;
    assert_eq!(rt; lent.demand(5), Err(12));
    assert_eq!(rt; lent.demand(3), Err(14));
    assert_eq!(rt; lent.read(0), Err(16));
    assert_eq!(rt; lent.demand(1), Ok(()));
    assert_eq!(rt; lent.read(0), Ok(()));
    assert_eq!(rt; lent.read(5), Err(12));
    Ok(())
}

#[test]
fn opens(rt: HostRuntime) -> Result<(), Fail> {
    let mut lent = lend(rt.alloc(), 10)?;
    assert_eq!(rt; lent.open_and_give_up(5), Err(12));
    assert_eq!(rt; lent.open_and_give_up(4), Err(14));
    assert_eq!(rt; lent.open_and_give_up(2), Ok(()));
    assert_eq!(rt; lent.demand(1), Ok(()));
    assert_eq!(rt; lent.open_and_give_up(0), Err(15));
    Ok(())
}

#[test]
fn too_few_places(rt: HostRuntime) -> Result<(), Fail> {
    let mut lent = lend(rt.alloc(), 9)?;
    assert_eq!(rt; lent.open_and_give_up(5), Err(10));
    assert_eq!(rt; lent.demand(5), Err(10));
    Ok(())
}

#[test]
fn too_few_rows(rt: HostRuntime) -> Result<(), Fail> {
    let heap = rt.alloc();
    let mut lent = lend(heap, 10)?;
    lent.rows = some_rows(heap, 4)?;
    assert_eq!(rt; lent.open_and_give_up(5), Err(10));
    assert_eq!(rt; lent.demand(5), Err(10));
    assert_eq!(rt; lent.read(5), Err(10));
    Ok(())
}

#[test]
fn dangling_names_the_lowest(rt: HostRuntime) -> Result<(), Fail> {
    let heap = rt.alloc();
    let mut lent = lend(heap, 10)?;
    let outcome = lent
        .table
        .demand(&lent.system, &mut lent.rows, &mut lent.work, 4);
    let fault = TableFault::Dangling(DanglingOperand {
        instance: 3,
        operand: 1,
        dangling: Dangling { reference: 7 },
    });
    assert_eq!(rt; outcome, Err(fault));
    assert_eq!(rt;
        format!(in heap; "{fault}")?.as_str(),
        "operand 1 of instance 3 dangles at reference 7"
    );
    Ok(())
}

#[test]
fn session_of_a_cycle(rt: HostRuntime) -> Result<(), Fail> {
    let mut lent = lend(rt.alloc(), 10)?;
    let session = lent.open(0)?;
    let (changed, session) = lent.settle(session)?;
    assert_eq!(rt; changed, [2, 1]);
    assert_eq!(rt; lent.close(session), Ok((2, 3)));
    let both = one_number(true, 1).join(one_number(true, 2));
    assert!(rt; has(&lent.rows, 0, Mark::Final, both));
    assert!(rt; has(&lent.rows, 1, Mark::Final, both));
    Ok(())
}

#[test]
fn interrupted_and_given_up(rt: HostRuntime) -> Result<(), Fail> {
    let mut lent = lend(rt.alloc(), 10)?;
    let session = lent.open(2)?;
    let (_, session) = lent.round(session)?;
    assert_eq!(rt; lent.demand(9), Err(13));
    assert_eq!(rt; lent.read(0), Err(16));
    assert_eq!(rt; lent.give_up(session), 3);
    assert_eq!(rt; lent.demand(2), Ok(()));
    let three = one_number(true, 1)
        .join(one_number(true, 2))
        .join(one_number(true, 3));
    assert!(rt; has(&lent.rows, 2, Mark::Final, three));
    Ok(())
}

// Brings a session to another table: the refusal of a round there, and of a close once it is settled.
fn bring(lent: &mut Lent, other: &mut Lent) -> Result<(u8, Result<(usize, u32), u8>), Fail> {
    let session = lent.open(0)?;
    let (round, session) = other.refused_round(session)?;
    let (_, session) = lent.settle(session)?;
    Ok((round, other.close(session)))
}

#[test]
fn sessions_that_do_not_fit(rt: HostRuntime) -> Result<(), Fail> {
    let heap = rt.alloc();
    let mut lent = lend(heap, 10)?;
    let mut other = lend(heap, 10)?;
    let (round, close) = bring(&mut lent, &mut other)?;
    assert_eq!(rt; round, 17);
    assert_eq!(rt; close, Err(17));
    assert_eq!(rt; lent.demand(0), Err(13));
    Ok(())
}

#[test]
fn no_such_instance_to_close(rt: HostRuntime) -> Result<(), Fail> {
    let heap = rt.alloc();
    let mut lent = lend(heap, 10)?;
    let mut other = lend(heap, 10)?;
    other.system = ExampleSystem {
        instances: Vec::new(heap),
    };
    let (_, close) = bring(&mut lent, &mut other)?;
    assert_eq!(rt; close, Err(12));
    Ok(())
}

#[test]
fn demands_in_two_orders(rt: HostRuntime) -> Result<(), Fail> {
    let heap = rt.alloc();
    let mut lent = lend(heap, 10)?;
    assert_eq!(rt; lent.demand(1), Ok(()));
    assert_eq!(rt; lent.demand(2), Ok(()));
    let mut other = lend(heap, 10)?;
    assert_eq!(rt; other.demand(2), Ok(()));
    assert_eq!(rt; other.demand(1), Ok(()));
    assert_eq!(rt; lent.rows, other.rows);
    Ok(())
}

#[test]
fn too_few_rows_in_a_session(rt: HostRuntime) -> Result<(), Fail> {
    let heap = rt.alloc();
    let mut lent = lend(heap, 10)?;
    let short = some_rows(heap, 4)?;
    let session = lent.open(0)?;
    lent.rows = short;
    let (round, session) = lent.refused_round(session)?;
    assert_eq!(rt; round, 10);
    assert_eq!(rt; lent.give_up(session), 0);
    assert_eq!(rt; lent.demand(0), Err(10));
    Ok(())
}

// What is refused in a session of instance 0, by numbers below and past the last instance: calls are refused for the state first.
fn refused_in_a_session(lent: &mut Lent) -> [Result<(), u8>; 4] {
    [
        lent.open_and_give_up(9),
        lent.demand(9),
        lent.read(9),
        lent.read(0),
    ]
}

#[test]
fn refused_while_iterating(rt: HostRuntime) -> Result<(), Fail> {
    let heap = rt.alloc();
    let mut lent = lend(heap, 10)?;
    let session = lent.open(0)?;
    let expected = [Err(13), Err(13), Err(12), Err(16)];
    assert_eq!(rt; refused_in_a_session(&mut lent), expected);
    lent.work.truncate(9);
    assert_eq!(rt; lent.open_and_give_up(9), Err(10));
    assert_eq!(rt; lent.demand(9), Err(10));
    assert_eq!(rt; lent.give_up(session), 2);
    Ok(())
}

#[test]
fn refused_while_settled(rt: HostRuntime) -> Result<(), Fail> {
    let heap = rt.alloc();
    let mut lent = lend(heap, 10)?;
    let session = lent.open(0)?;
    let (_, session) = lent.settle(session)?;
    let expected = [Err(13), Err(13), Err(12), Err(16)];
    assert_eq!(rt; refused_in_a_session(&mut lent), expected);
    lent.rows.truncate(4);
    assert_eq!(rt; lent.close(session), Err(10));
    Ok(())
}

// Brings a session to a table that is in a session of another instance, which is then given up.
fn bring_meanwhile<P: Phase>(
    lent: &mut Lent,
    other: &mut Lent,
    session: Session<P>,
) -> Result<(u8, Result<(usize, u32), u8>), Fail> {
    let brought = bring(lent, other);
    other.give_up(session);
    brought
}

#[test]
fn sessions_of_another_instance(rt: HostRuntime) -> Result<(), Fail> {
    let heap = rt.alloc();
    let mut lent = lend(heap, 10)?;
    let mut another = lend(heap, 10)?;
    let mut other = lend(heap, 10)?;
    let session = other.open(1)?;
    let iterating = bring_meanwhile(&mut lent, &mut other, session)?;
    assert_eq!(rt; iterating, (17, Err(17)));
    let session = other.open(1)?;
    let (_, session) = other.settle(session)?;
    let settled = bring_meanwhile(&mut another, &mut other, session)?;
    assert_eq!(rt; settled, (17, Err(17)));
    Ok(())
}
