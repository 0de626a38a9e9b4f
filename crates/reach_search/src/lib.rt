// The search of an instance's reach, over a lent work list.
#![tactic(auto)]

ghost use Rattle.std.specs.Prelude.{◌≡◌, ◌<◌, ◌≤◌, length};
ghost use Rattle.reach_search.specs.Searched.{Searched};

mod found;

use crate::found::Found;
pub use crate::found::is_marked;
use equations::System;
use table_model::fault::TableFault;

// Marks the instances in reach of `instance`, and refuses it if one of them has a dangling operand.
// Of the n instances of the system the work list has n marks, then the instances that were found, in the order in which they were.
pub fn reach<S: System>(system: &S, work: &mut [usize], instance: usize) -> Result<(), TableFault>
    ensures { Searched (S.System.equations system.now) instance work.old work.new result }
{
    let size = system.size();
    if work.len() < 2 * size {
        return Err(TableFault::TooShort);
    }
    if instance >= size {
        return Err(TableFault::NoInstance);
    }
    let (marks, queue) = work.split_at_mut(size);
    let mut found = Found::new(system, marks, queue);
    found.add(instance);
    while let Some(next) = found.next() {
        found.add_operands(next);
    }
    found.check_whole()?;
    Ok(())
}
