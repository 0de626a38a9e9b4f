// The value of one equation.
ghost use Rattle.std.specs.Prelude.{◌≡◌};
ghost use Rattle.equations.specs.Equations.{equation};
ghost use Rattle.equations.specs.Theory.{Theory};
ghost use Rattle.equations.specs.Worked.{worked};

use crate::System;
use crate::family::Family;
use crate::listed::listed_value;
use lattices::Lattice;

// The value of the equation of `instance` over the lent values, or none if there are fewer values than instances.
pub fn work<S: System>(system: &S, values: &[S::Value], instance: usize) -> Option<S::Value>
    ensures value { result ≡ worked S.Value.Lattice.bot (S.System.equations system.now) values.now instance }
    ensures theory { Theory S.Value.Lattice.bot S.Value.Lattice.le S.Value.Lattice.same S.Value.Lattice.height (S.System.equations system.now) }
{
    if values.len() < system.size() {
        return None;
    }
    Some(listed_value(system, values, instance))
}

// The value of the equation of `instance` over a family of values.
pub fn equation_value<S: System, W: Family<S::Value>>(
    system: &S,
    family: &W,
    instance: usize,
) -> S::Value
    ensures { result ≡ equation (S.System.equations system.now) (W.Family.value family.now) instance }
{
    let mut so_far = system.start(instance);
    for k in 0..system.operand_count(instance) {
        if let Ok(j) = system.operand(instance, k) {
            so_far = system.step(instance, k, so_far, family.value(j));
        }
    }
    so_far
}
