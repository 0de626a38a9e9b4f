// What a call of a table can be refused with.
ghost use Rattle.std.specs.Prelude.{◌≡◌, Some};
ghost use Rattle.table_model.specs.Faults.{dangling_words, number_of, reason_of};
ghost use Rattle.table_model.specs.declared.fault.TableFault.TheVariants.{Dangling};

use references::Dangling;
use std::error::Error;
use std::fmt;

// A dangling operand of an instance.
#[derive(Clone, Copy, Debug, PartialEq, Eq)]
pub struct DanglingOperand {
    pub instance: usize,
    pub operand: usize,
    pub dangling: Dangling,
}

#[derive(Clone, Copy, Debug, PartialEq, Eq)]
pub enum TableFault {
    // The rows or the work list are too short.
    TooShort,
    // The told height of the lattice is 65,536.
    TooHigh,
    // There is no such instance.
    NoInstance,
    // The table is not idle.
    NotIdle,
    // The instance reaches a dangling operand: the lowest instance in its reach that has one, and its lowest.
    Dangling(DanglingOperand),
    // The instance is final.
    AlreadyFinal,
    // The row is not final.
    NotFinal,
    // The session does not fit the record.
    NoFit,
}

impl TableFault {
    // The number of the refusal.
    pub fn number(self) -> u8
        ensures { result ≡ number_of self }
    {
        match self {
            TableFault::TooShort => 10,
            TableFault::TooHigh => 11,
            TableFault::NoInstance => 12,
            TableFault::NotIdle => 13,
            TableFault::Dangling(_) => 14,
            TableFault::AlreadyFinal => 15,
            TableFault::NotFinal => 16,
            TableFault::NoFit => 17,
        }
    }
}

// By hand, since the contracts name the fault that `?` makes.
impl From<DanglingOperand> for TableFault {
    ghost from_gives = { λ d r. r ≡ Dangling d };

    fn from(dangling: DanglingOperand) -> TableFault {
        TableFault::Dangling(dangling)
    }
}

impl fmt::Display for DanglingOperand {
    ghost output = { λ d. Some (dangling_words d) };

    fn fmt<W: fmt::Write>(&self, f: &mut fmt::Formatter<W>) -> fmt::Result {
        let DanglingOperand {
            instance,
            operand,
            dangling: Dangling { reference },
        } = *self;
        write!(
            f,
            "operand {operand} of instance {instance} dangles at reference {reference}"
        )
    }
}

impl Error for DanglingOperand {}

impl fmt::Display for TableFault {
    ghost output = { λ fault. Some (reason_of fault) };

    fn fmt<W: fmt::Write>(&self, f: &mut fmt::Formatter<W>) -> fmt::Result {
        match self {
            TableFault::TooShort => f.write_str("the rows or the work list are too short"),
            TableFault::TooHigh => f.write_str("the lattice is too high"),
            TableFault::NoInstance => f.write_str("there is no such instance"),
            TableFault::NotIdle => f.write_str("the table is not idle"),
            TableFault::Dangling(dangling) => dangling.fmt(f),
            TableFault::AlreadyFinal => f.write_str("the instance is already final"),
            TableFault::NotFinal => f.write_str("the row is not final"),
            TableFault::NoFit => f.write_str("the session does not fit the table"),
        }
    }
}

impl Error for TableFault {}
