// What the system is made of.
ghost use Rattle.std.specs.Prelude.{◌≡◌, ◌&&◌, ◌==◌, IfOk, map, nat_lt, vec_items};
ghost use Rattle.lattices.specs.Sets.{Members};
ghost use Rattle.example_system.specs.Example.{joined};

use lattices::number_set::NumberSet;
use lattices::pair::Pair;
use references::Dangling;
use std::alloc::{AllocError, Global};

// Whether something may be empty, and the numbers that it may begin with.
pub type Value = Pair<bool, NumberSet>;

// A value with one number, or with none where the number is past 63.
pub fn one_number(yes: bool, number: usize) -> Value
    ensures yes { result.first ≡ yes }
    ensures numbers { Members result.second (λ n. n == number && nat_lt n 64) }
{
    Pair {
        first: yes,
        second: NumberSet::empty().insert(number),
    }
}

// How the value of an operand goes into the value so far. These three kinds are all that the example can say, and each is
// proved monotone by itself. A boxed function in their place would have to bring that law with each value.
#[derive(Clone, Copy, Debug, PartialEq, Eq)]
pub enum Step {
    // The join of both.
    Join,
    // Yes if both are; the numbers so far and, if that is yes, the operand's too.
    AndThen,
    // This value, whatever both are.
    Constant(Value),
}

#[derive(Clone, Copy, Debug, PartialEq, Eq)]
pub struct Operand {
    pub target: Result<usize, Dangling>,
    pub step: Step,
}

#[derive(Drop)]
pub struct Instance {
    pub start: Value,
    pub operands: Vec<Operand>,
}

impl Instance {
    // The instance that joins the values of the targets to its start.
    pub fn joining(
        heap: Global,
        start: Value,
        targets: &[Result<usize, Dangling>],
    ) -> Result<Instance, AllocError>
        ensures start { IfOk result (λ i. i.start ≡ start) }
        ensures operands { IfOk result (λ i. vec_items i.operands ≡ map joined targets.now) }
    {
        let operands = targets
            .iter()
            .map(|target| Operand {
                target: *target,
                step: Step::Join,
            })
            .collect(heap)?;
        Ok(Instance { start, operands })
    }
}

// Instances past the 4,096th and operands past the 4,096th are left out, and an operand that is no instance dangles at 65,535.
#[derive(Drop)]
pub struct ExampleSystem {
    pub instances: Vec<Instance>,
}
