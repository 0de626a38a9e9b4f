// The laws of the table, over every list of calls.
ghost use Rattle.std.specs.Prelude.{◌≡◌};
ghost use Rattle.table_model.specs.Laws.{TableLaws};

use equations::System;
use lattices::Lattice;

// The number of rows that a table of the system has, one for each instance.
pub fn row_count<S: System>(system: &S) -> usize
    ensures value { result ≡ (S.System.equations system.now).size }
    ensures laws { TableLaws S.Value.Lattice.bot S.Value.Lattice.le S.Value.Lattice.same S.Value.Lattice.height (S.System.equations system.now) }
{
    system.size()
}
