// All 32-bit numbers under maximum, and a system of no instances.
ghost use Rattle.std.specs.Prelude.{◌-◌, ◌^◌};
ghost use Rattle.table_tests.specs.Largest.{zero, le, larger, same, rank, largest_laws, no_equations, no_lawful};

use crate::largest::Largest;
use equations::System;
use lattices::{Lattice, TOLD_HEIGHT_LIMIT};
use references::Dangling;

impl Lattice for Largest {
    ghost bot = { zero };

    ghost le = { le };

    ghost lub = { larger };

    ghost same = { same };

    ghost height = { 2 ^ 32 - 1 };

    ghost rank = { rank };

    ghost laws = { largest_laws };

    fn bottom() -> Largest {
        Largest { number: 0 }
    }

    fn join(self, other: Largest) -> Largest {
        self.max(other)
    }

    fn equal(self, other: Largest) -> bool {
        self == other
    }

    fn below(self, other: Largest) -> bool {
        self <= other
    }

    fn told_height() -> u32 {
        TOLD_HEIGHT_LIMIT
    }
}

// The system of no equations.
#[derive(Clone, Copy)]
pub struct NoEquations;

impl System for NoEquations {
    type Value = Largest;

    ghost equations = { λ _. no_equations };

    ghost order = { le };

    ghost least = { zero };

    ghost lawful = { λ _. no_lawful };

    fn size(&self) -> usize {
        0
    }

    fn operand_count(&self, _instance: usize) -> usize {
        0
    }

    fn operand(&self, _instance: usize, _index: usize) -> Result<usize, Dangling> {
        Err(Dangling { reference: 65535 })
    }

    fn start(&self, _instance: usize) -> Largest {
        Largest::bottom()
    }

    fn step(&self, _instance: usize, _index: usize, so_far: Largest, _operand: Largest) -> Largest {
        so_far
    }
}
