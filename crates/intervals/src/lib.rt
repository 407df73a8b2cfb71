// What an interval asks for, in closed form, and which starts need no look.
#![tactic(auto)]

ghost use Rattle.std.specs.Prelude.{◌≡◌, ℕ, ◌-◌, ◌≤◌, ◌<◌};
ghost use Rattle.model.specs.Demand.{jobs_in, demand};
ghost use Rattle.wellformed.specs.Ranges.{InRange, Ranged};
ghost use Rattle.wellformed.specs.WellFormed.{horizon_limit};
ghost use Rattle.intervals.specs.Starts.{NoRelease, PassedOver};

use values::{Table, Task};

// The jobs of a task inside an interval: those due by its end, less those released before its start.
#[tactic(auto, using(wellformed::specs::Closed::jobs_closed))]
pub fn jobs_in(k: Task, from: u64, to: u64) -> u64
    requires in_range { InRange k }
    requires from_le_to { (from ≤ to) × (to ≤ horizon_limit) }
    ensures { result ≡ jobs_in k from to }
{
    let period = u64::from(k.period);
    let offset = u64::from(sorts::offset_of(k));
    let due = (to + period).saturating_sub(offset + u64::from(k.deadline)) / period;
    let released = (from.saturating_sub(offset) + (period - 1)) / period;
    due.saturating_sub(released)
}

// The slots that an interval asks for.
pub fn demand(t: Table, from: u64, to: u64) -> u64
    requires ranged { Ranged t }
    requires from_le_to { (from ≤ to) × (to ≤ horizon_limit) }
    ensures { result ≡ demand t from to }
{
    let mut asked = 0;
    for task in &t.tasks[..t.count] {
        asked += u64::from(task.cost) * jobs_in(*task, from, to);
    }
    asked
}

// The latest release of a task before `from`, or 0.
fn release_before(k: Task, from: u64) -> u64
    requires { InRange k }
    ensures { (0 < from → result < from) × NoRelease k result from }
{
    let offset = u64::from(sorts::offset_of(k));
    if from <= offset {
        return 0;
    }
    let period = u64::from(k.period);
    offset + (from - offset - 1) / period * period
}

// The next start to look at, where the interval from `from` leaves some slots to spare: the latest release before it of a task
// whose n-fold cost exceeds them, or 0.
pub fn start_before(t: Table, from: u64, spare: u64) -> u64
    requires { Ranged t }
    ensures { (0 < from → result < from) × ((i : ℕ) → i < t.count → PassedOver t spare result from i) }
{
    let tasks = &t.tasks[..t.count];
    let mut start = 0;
    for task in tasks {
        if spare < tasks.len() as u64 * u64::from(task.cost) {
            start = start.max(release_before(*task, from));
        }
    }
    start
}
