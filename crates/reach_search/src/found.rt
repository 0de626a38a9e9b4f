// The instances that a search has found, over a lent work list.
ghost use Rattle.std.specs.Prelude.{◌≡◌, ℕ, ◌<◌, ◌≤◌, ◌==◌, length, slice_index, EachIndex};
ghost use Rattle.equations.specs.Reach.{Uses};
ghost use Rattle.equations.specs.Rounds.{members};
ghost use Rattle.reach_search.specs.Dangles.{TellsLowest};
ghost use Rattle.reach_search.specs.Marks.{Marked, is_marked, HasPlace};

use equations::System;
use table_model::fault::DanglingOperand;

// A system, a mark for each instance of it, and the queue of those found, in the order in which they were.
// The caller lends one list of numbers for both. So a mark is a number, 1 for an instance that is found and else 0,
// and the queue is a lent stretch with a count beside it, and not a Vec.
#[derive(Drop)]
pub(crate) struct Found<'s, 'm, 'q, S: System> {
    system: &'s S,
    marks: &'m mut [usize],
    queue: &'q mut [usize],
    // How many are in the queue.
    count: usize,
    // How many of them were visited.
    visited: usize,
    // There is a mark for each instance of the system.
    ghost size: { length marks.now ≡ (S.System.equations system.now).size },
    // The queue has room for each instance, and each mark is 0 or 1.
    ghost room: { length marks.now ≤ length queue.now },
    ghost flags: { EachIndex marks.now (λ j. slice_index marks.now j ≤ 1) },
    // The queue has the marked instances, each once.
    ghost marked: { (p : ℕ) → p < count → Marked marks.now (slice_index queue.now p) },
    ghost queued: { (j : ℕ) → Marked marks.now j → HasPlace queue.now count j },
    ghost once: { count ≡ members (is_marked marks.now) (length marks.now) },
}

impl<'s, 'm, 'q, S: System> Found<'s, 'm, 'q, S> {
    ghost use Rattle.reach_search.specs.Additions.{Begins, Adds, Visits};

    // None is found.
    pub(crate) fn new(
        system: &'s S,
        marks: &'m mut [usize],
        queue: &'q mut [usize],
    ) -> Found<'s, 'm, 'q, S>
        requires size { length marks.old ≡ (S.System.equations system.now).size }
        requires room { length marks.old ≤ length queue.old }
        ensures { Begins system.now marks.entry queue.entry result }
    {
        marks.fill(0);
        Found {
            system,
            marks,
            queue,
            count: 0,
            visited: 0,
        }
    }

    // The next instance in the queue, which is then a visited one.
    #[tactic(auto, using(crate::proofs::Members::members_most))]
    pub(crate) fn next(&mut self) -> Option<usize>
        ensures { Visits self.old self.new result }
    {
        if self.visited >= self.count {
            return None;
        }
        let instance = self.queue[self.visited];
        self.visited += 1;
        Some(instance)
    }

    // Adds an instance, unless it is found already.
    #[tactic(auto, using(crate::proofs::Adding::fewer_marked))]
    pub(crate) fn add(&mut self, instance: usize)
        requires { instance < length self.old.marks.now }
        ensures { Adds (λ j. j ≡ instance) self.old self.new }
    {
        if !is_marked(self.marks[instance]) {
            self.queue[self.count] = instance;
            self.marks[instance] = 1;
            self.count += 1;
        }
    }

    // Adds the operands of an instance.
    pub(crate) fn add_operands(&mut self, instance: usize)
        ensures { Adds (Uses (S.System.equations self.old.system.now) instance) self.old self.new }
    {
        let system = self.system;
        for index in 0..system.operand_count(instance) {
            if let Ok(operand) = system.operand(instance, index) {
                self.add(operand);
            }
        }
    }

    // The lowest dangling operand of the instances found.
    pub(crate) fn check_whole(&self) -> Result<(), DanglingOperand>
        ensures { TellsLowest (S.System.equations self.now.system.now) (Marked self.now.marks.now) result }
    {
        for (instance, mark) in self.marks.iter().enumerate() {
            if is_marked(*mark) {
                self.check_operands(instance)?;
            }
        }
        Ok(())
    }

    // The lowest dangling operand of one instance.
    fn check_operands(&self, instance: usize) -> Result<(), DanglingOperand>
        ensures { TellsLowest (S.System.equations self.now.system.now) (λ j. j ≡ instance) result }
    {
        for operand in 0..self.system.operand_count(instance) {
            self.system
                .operand(instance, operand)
                .map_err(|dangling| DanglingOperand {
                    instance,
                    operand,
                    dangling,
                })?;
        }
        Ok(())
    }
}

// Whether a mark is that of an instance found, which after the search is one in reach.
pub fn is_marked(mark: usize) -> bool
    ensures { result ≡ (mark == 1) }
{
    mark == 1
}
