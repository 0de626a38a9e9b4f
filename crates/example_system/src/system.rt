// The equations of the system.
ghost use Rattle.std.specs.Prelude.{◌≡◌, false, length, min, take};
ghost use Rattle.std.specs.Option.{option_map};
ghost use Rattle.lattices.specs.Pairs.{pair, pair_le};
ghost use Rattle.lattices.specs.Sets.{Subset, empty_set};
ghost use Rattle.lattices.specs.YesNos.{yes_le};
ghost use Rattle.example_system.specs.Example.{applied, example_equations, instance_at, operand_at};
ghost use Rattle.example_system.specs.Lawfulness.{example_lawful};

use crate::parts::{ExampleSystem, Instance, Operand, Step, Value};
use equations::System;
use lattices::Lattice;
use lattices::number_set::NumberSet;
use lattices::pair::Pair;
use references::Dangling;

// The number of instances and of operands at most.
const LIMIT: usize = 4096;

// The reference of an operand that there is not, by the rules of a system.
const NO_REFERENCE: usize = 65535;

// The elements that are not left out.
fn limited<T>(elements: &[T]) -> &[T]
    ensures value { result.now ≡ take LIMIT elements.now }
    ensures len { length result.now ≡ min (length elements.now) LIMIT }
{
    &elements[..elements.len().min(LIMIT)]
}

impl Step {
    // The value after the step.
    fn apply(self, so_far: Value, operand: Value) -> Value
        ensures { result ≡ applied self so_far operand }
    {
        match self {
            Step::Join => so_far.join(operand),
            Step::AndThen if so_far.first => Pair {
                first: operand.first,
                second: so_far.second.join(operand.second),
            },
            Step::AndThen => so_far,
            Step::Constant(value) => value,
        }
    }
}

impl ExampleSystem {
    fn instance(&self, instance: usize) -> Option<&Instance>
        ensures { option_map (λ x. x.now) result ≡ instance_at self.now instance }
    {
        limited(&self.instances).get(instance)
    }

    fn operand_at(&self, instance: usize, index: usize) -> Option<Operand>
        ensures { result ≡ operand_at (instance_at self.now instance) index }
    {
        let found = self.instance(instance)?;
        limited(&found.operands).get(index).copied()
    }
}

impl System for ExampleSystem {
    type Value = Value;

    ghost equations = { example_equations };

    ghost order = { pair_le yes_le Subset };

    ghost least = { pair false empty_set };

    ghost lawful = { example_lawful };

    fn size(&self) -> usize {
        limited(&self.instances).len()
    }

    fn operand_count(&self, instance: usize) -> usize {
        self.instance(instance)
            .map_or(0, |found| limited(&found.operands).len())
    }

    fn operand(&self, instance: usize, index: usize) -> Result<usize, Dangling> {
        let missing = Dangling {
            reference: NO_REFERENCE,
        };
        let target = self.operand_at(instance, index).ok_or(missing)?.target?;
        if target < self.size() {
            Ok(target)
        } else {
            Err(missing)
        }
    }

    fn start(&self, instance: usize) -> Value {
        self.instance(instance)
            .map_or(Value::bottom(), |found| found.start)
    }

    fn step(&self, instance: usize, index: usize, so_far: Value, operand: Value) -> Value {
        self.operand_at(instance, index)
            .map_or(so_far, |found| found.step.apply(so_far, operand))
    }
}
