// The value of one equation over a list of values.
ghost use Rattle.std.specs.Prelude.{◌≡◌, ◌≤◌, length, slice_index_or};
ghost use Rattle.equations.specs.Equations.{equation};

use crate::System;
use lattices::Lattice;

// The value of the equation of `instance` over the lent values, where there are values enough.
// A loop of its own, and not `equation_value` over `Values`, which tests each operand against the end of the list: where
// steps are cheap that took up to three times as long.
pub(crate) fn listed_value<S: System>(system: &S, values: &[S::Value], instance: usize) -> S::Value
    requires { (S.System.equations system.now).size ≤ length values.now }
    ensures { result ≡ equation (S.System.equations system.now) (λ j. slice_index_or values.now j S.Value.Lattice.bot) instance }
{
    let mut so_far = system.start(instance);
    for k in 0..system.operand_count(instance) {
        if let Ok(j) = system.operand(instance, k) {
            so_far = system.step(instance, k, so_far, values[j]);
        }
    }
    so_far
}
