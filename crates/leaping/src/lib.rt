// The leaping engine of the exact test: from one release or finish to the next, and at the first late deadline a search for the largest start.
#![tactic(auto)]

ghost use Rattle.std.specs.Prelude.{◌≡◌, true, false, ◌/◌, ◌≤◌, ◌<◌, Ok};
ghost use Rattle.model.specs.Limits.{slot_limit};
ghost use Rattle.model.specs.Tasks.{judged, round, load};
ghost use Rattle.wellformed.specs.Ranges.{Ranged};
ghost use Rattle.wellformed.specs.WellFormed.{horizon_limit};
ghost use Rattle.walks.specs.Course.{Ends};
ghost use Rattle.leaps.specs.Entry.{span};
ghost use Rattle.leaps.specs.Queue.{Queue as IsQueue};
ghost use Rattle.leaps.specs.Columns.{Marked};
ghost use Rattle.leaps.specs.Skipping.{Rounded};
ghost use Rattle.leaping.specs.Start.{Last, due_by, Requeued};
ghost use Rattle.leaping.specs.Ended.{Ended, Idled};

use leaps::{Kept, Queue, Times, Way};
use values::{Measure, TASK_LIMIT, Table};
use walks::{Course, Engine};

// Of each task the last job that is due by then, by how far before it the job is released.
fn last_jobs(t: Table, mark: &Times, to: u64) -> Queue
    requires ranged { Ranged t }
    requires marked { Marked t mark.now }
    requires to_le_horizon_limit { to ≤ horizon_limit }
    ensures { IsQueue (Last t to t.count (due_by t to)) result.entries result.len }
{
    let mut queue = Queue::new();
    for (i, task) in t.tasks[..t.count].iter().enumerate() {
        let due = intervals::jobs_in(*task, 0, to);
        if 0 < due {
            let first = u64::from(sorts::offset_of(*task));
            let last = first + (due - 1) * u64::from(task.period);
            queue.insert(leaps::entry(to - last, mark[i]));
        }
    }
    queue
}

// The job before a counted one, if there is one, is queued in its place.
fn requeue(queue: &mut Queue, key: u64, period: u64, offset: u32, to: u64)
    requires { (0 < queue.old.len) × (key / span ≤ to) × (to ≤ horizon_limit) × (period ≤ slot_limit) }
    ensures { Requeued to key period offset queue.old.entries queue.old.len queue.new.entries queue.new.len }
{
    if leaps::time_of(key) + period + u64::from(offset) <= to {
        queue.replace_least(key + leaps::entry(period, 0));
    } else {
        queue.drop_least();
    }
}

// From event to event; at the first late deadline, unless only an idle instant is asked for, from job to job to the largest start that asks too much.
pub fn search(t: Table, end: u64, again: u64, idling: bool) -> Course
    requires ranged { Ranged t }
    requires t_bound { load t ≤ round t }
    requires end_le_horizon_limit { end ≤ horizon_limit }
    requires rounded { idling ≡ false → Rounded t again }
    ensures ended { idling ≡ false → Ended t end result }
    ensures idled { idling ≡ true → Idled t end result.idle }
{
    let columns = leaps::unpack(t);
    let mut kept = Kept {
        releases: leaps::first_releases(t, &columns.mark),
        ready: Queue::new(),
        left: [0u64; TASK_LIMIT],
        worst: [0u32; TASK_LIMIT],
    };
    let mut here = leaps::going(0, 0);
    let mut from = 0;
    let mut asked = 0;
    // A walk that stops and is not late has seen all up to its end.
    let mut at = end;
    'search: loop {
        here = leaps::leap(&columns, &mut kept, end, here);
        if leaps::stops(here, &kept, again) {
            if idling {
                break 'search;
            }
            let Way::Late = here.way else {
                break 'search;
            };
            at = here.time;
            let offset = slots::offsets(t);
            let mut queue = last_jobs(t, &columns.mark, at);
            let mut count = 0;
            loop {
                let key = queue.least();
                let i = leaps::task_of(key);
                let length = leaps::time_of(key);
                from = at - length;
                count += columns.cost[i];
                if length < count {
                    asked = intervals::demand(t, from, at);
                    break 'search;
                }
                let period = leaps::time_of(columns.period[i]);
                requeue(&mut queue, key, period, offset[i], at);
            }
        }
    }
    Course {
        from,
        asked,
        at,
        worst: kept.worst,
        idle: here.idle,
    }
}

// To the budget or the horizon; a round before the horizon every task has had its first release.
pub fn walk(t: Table, m: Measure, budget: u64) -> Course
    requires t_value { judged t ≡ Ok m }
    requires load_le_round { m.load ≤ m.round }
    ensures { Ends t m budget result }
{
    let end = budget.min(m.horizon);
    search(t, end, m.horizon - m.round, false)
}

// The engine.
#[derive(Clone, Copy)]
pub struct Leaping;

impl Engine for Leaping {
    fn walk(self, t: Table, m: Measure, budget: u64) -> Course {
        crate::walk(t, m, budget)
    }
}
