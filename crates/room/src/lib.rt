// The room of a table that may have buttons: the costs of one task up to its deadline are halved by trials of the distance test.
#![tactic(auto)]

ghost use Rattle.values.specs.declared.ByDistance.{ByDistance};
ghost use Rattle.std.specs.Prelude.{◌≡◌, ◌≤◌, ◌<◌, Ok};
ghost use Rattle.model.specs.Tasks.{task};
ghost use Rattle.model.specs.Patterns.{distance_answer};
ghost use Rattle.model.specs.Room.{room_with, room as roomOf, room_answer};
ghost use Rattle.numbers.specs.Form.{told_number};
ghost use Rattle.room.specs.Halving.{Well};

use values::{ByDistance, Fault, Refusal, Table};

// One trial.
fn passes_with(t: Table, i: usize, cost: u32) -> bool
    requires well { Well t }
    requires i_lt_count { i < t.count }
    requires i_bound { ((task t i).cost ≤ cost) × (cost ≤ (task t i).deadline) }
    ensures { result ≡ room_with t i cost }
{
    match distance::test(largest::with_cost(t, i, cost)) {
        Ok(said) => matches!(said, ByDistance::Pass),
        Err(_) => false,
    }
}

// Between the present cost, which passes, and the first past the deadline.
fn search(t: Table, i: usize) -> u32
    requires well { Well t }
    requires i_lt_count { i < t.count }
    requires t_value { distance_answer t ≡ Ok ByDistance.Pass }
    ensures { result ≡ roomOf t i }
{
    let task = t.tasks[i];
    halving::last_passing(task.cost, task.deadline + 1, |cost| passes_with(t, i, cost))
}

// The one permitted number for any table and task number.
pub fn room_number(t: Table, task: u32) -> u64
    ensures { result ≡ room_answer t task }
{
    numbers::told(room_of(t, task))
}

fn room_of(t: Table, task: u32) -> Result<u64, Refusal>
    ensures { told_number result ≡ room_answer t task }
{
    table::admit_mixed(t)?;
    let i = task as usize;
    if t.count <= i {
        return Err(Refusal::new(Fault::NoSuchTask, task));
    }
    match distance::test(t)? {
        ByDistance::Overload => Ok(60_001),
        ByDistance::Pass => Ok(u64::from(search(t, i))),
        ByDistance::NoAnswer => Ok(60_003),
    }
}
