// Whether a state belongs to a table: the places of 8 in their order, or how many slots the state can still count.
#![tactic(auto)]

ghost use Rattle.std.specs.Prelude.{◌≡◌, not, ◌||◌, ◌-◌, max, ◌≤◌, ltb, eqb, length};
ghost use Rattle.model.specs.Limits.{task_limit};
ghost use Rattle.model.specs.Values.{refusal};
ghost use Rattle.model.specs.Tasks.{offset};
ghost use Rattle.belonging.specs.Strange.{strange_at};
ghost use Rattle.belonging.specs.Room.{room_for, belonging};

use slots::NO_TASK;
use values::{Fault, Refusal, SLOT_COUNT_LIMIT, State, TASK_LIMIT, Table, Task};

// The place of 8 for a state that counts more slots than it can.
const SUM_PLACE: u32 = NO_TASK + 1;

// A number of slots for each task.
pub type Counts = [u64; TASK_LIMIT];

// The state's refusal, by the places of 8 in their order; or how many slots it can still count.
pub fn belonging(d: State, t: Table) -> Result<u64, Refusal>
    requires { t.count ≤ task_limit }
    ensures { result ≡ belonging t d }
{
    for (i, task) in t.tasks[..t.count].iter().enumerate() {
        if is_strange(*task, d.wait[i], d.left[i]) {
            return Err(strange_state(i as u32));
        }
    }
    if last_strange(d.last, t.count) {
        return Err(strange_state(NO_TASK));
    }
    room_for(&d.given[..t.count], d.empty)
}

// The state does not belong to the table: this task is the first that does not, or no task is.
fn strange_state(place: u32) -> Refusal
    ensures { result ≡ refusal 8 place }
{
    Refusal::new(Fault::StrangeState, place)
}

// The sum is never made: each count is taken from what can be counted, for as long as it can.
fn room_for(given: &[u64], empty: u64) -> Result<u64, Refusal>
    ensures { result ≡ room_for given.now empty (length given.now) }
{
    let mut room = SLOT_COUNT_LIMIT - empty;
    for slots in given {
        if room < *slots {
            return Err(strange_state(SUM_PLACE));
        }
        room -= *slots;
    }
    Ok(room)
}

fn is_strange(task: Task, wait: u32, left: u32) -> bool
    ensures { result ≡ strange_at task wait left }
{
    waits_too_long(task, wait) || task.cost < left || 0 < left && cannot_be_open(task, wait)
}

fn waits_too_long(task: Task, wait: u32) -> bool
    ensures { result ≡ ltb (max (offset task) task.period) wait }
{
    sorts::offset_of(task).max(task.period) < wait
}

// A job that was released r slots ago and is not past its deadline waits T - r, with r from 1 to D.
fn cannot_be_open(task: Task, wait: u32) -> bool
    ensures { result ≡ (ltb wait (task.period - task.deadline) || ltb (task.period - 1) wait) }
{
    wait < task.period.saturating_sub(task.deadline) || task.period.saturating_sub(1) < wait
}

fn last_strange(last: u32, n: usize) -> bool
    ensures { result ≡ not (eqb last task_limit || ltb last n) }
{
    last != NO_TASK && n <= last as usize
}
