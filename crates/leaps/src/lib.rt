// The leaps of a walk over a table, from one release or finish to the next.
#![tactic(auto)]

ghost use Rattle.std.specs.Prelude.{◌≡◌, true, false, cond, ◌+◌, ◌-◌, ◌*◌, ◌/◌, ◌%◌, ◌^◌, ◌≤◌, ◌<◌, leb, set};
ghost use Rattle.model.specs.Limits.{task_limit};
ghost use Rattle.model.specs.Tasks.{task, offset};
ghost use Rattle.model.specs.Dispatcher.{wait_released, left_released};
ghost use Rattle.wellformed.specs.Ranges.{Ranged};
ghost use Rattle.backlog.specs.Walk.{walked};
ghost use Rattle.backlog.specs.WalkWorst.{noted};
ghost use Rattle.slots.specs.Slot.{at as entry_at};
ghost use Rattle.leaps.specs.Entry.{places, span, time_limit};
ghost use Rattle.leaps.specs.Queue.{Queue as IsQueue, inserted};
ghost use Rattle.leaps.specs.Held.{Coming};
ghost use Rattle.leaps.specs.Columns.{columns_of, Marked};
ghost use Rattle.leaps.specs.Kept.{DueIn, HeldIn, ReadyIn, HereIn, LandingIn};
ghost use Rattle.leaps.specs.Landed.{going_at, over_at, rested_at, done_at, done_way, next_late};
ghost use Rattle.leaps.specs.Skipping.{Stops};

mod queues;

pub use queues::Queue;
use slots::Numbers;
use values::{TASK_LIMIT, Table};

// A number for each task.
pub type Times = [u64; TASK_LIMIT];

// An entry of a queue is a time, below it a rank, and below that a task: its mark.
const SPAN: u64 = 0x20_0000;

const PLACES: u64 = 32;

pub fn entry(time: u64, mark: u64) -> u64
    requires { (time < time_limit) × (mark < span) }
    ensures { result ≡ time * span + mark }
{
    time * SPAN + mark
}

pub fn time_of(x: u64) -> u64
    ensures { result ≡ x / span }
{
    x / SPAN
}

pub fn task_of(x: u64) -> usize
    ensures { result ≡ x % places }
{
    (x % PLACES) as usize
}

// What a walk reads of a table: a list for each number. Period and deadline are entries: now as an entry is added to them.
#[derive(Clone, Copy)]
pub struct Columns {
    pub table: Table,
    pub period: Times,
    pub cost: Times,
    pub deadline: Times,
    pub mark: Times,
}

pub fn unpack(t: Table) -> Columns
    requires { Ranged t }
    ensures { result ≡ columns_of t }
{
    let mut period = [0u64; TASK_LIMIT];
    let mut cost = [0u64; TASK_LIMIT];
    let mut deadline = [0u64; TASK_LIMIT];
    let mut mark = [0u64; TASK_LIMIT];
    for (i, task) in t.tasks[..t.count].iter().enumerate() {
        let own = u64::from(slots::rank_of(*task)) * PLACES + i as u64;
        period[i] = entry(u64::from(task.period), own);
        cost[i] = u64::from(task.cost);
        deadline[i] = entry(u64::from(task.deadline), own);
        mark[i] = own;
    }
    Columns {
        table: t,
        period,
        cost,
        deadline,
        mark,
    }
}

// The first release of each task.
pub fn first_releases(t: Table, mark: &Times) -> Queue
    requires ranged { Ranged t }
    requires marked { Marked t mark.now }
    ensures coming { IsQueue (Coming t 0 (λ i. offset (task t i))) result.entries t.count }
    ensures len { result.len ≡ t.count }
{
    let mut queue = Queue::new();
    for (i, task) in t.tasks[..t.count].iter().enumerate() {
        queue.insert(entry(u64::from(sorts::offset_of(*task)), mark[i]));
    }
    queue
}

// What a walk keeps: the next releases, the deadlines of the open jobs, the slots left to each, and the worst responses so far.
#[derive(Clone, Copy)]
pub struct Kept {
    pub releases: Queue,
    pub ready: Queue,
    pub left: Times,
    pub worst: Numbers,
}

// A job of task i, whose release is the next, is released.
fn release(columns: &Columns, kept: &mut Kept, at: u64, i: usize)
    requires i_lt_task_limit { (i < task_limit) × (0 < kept.old.releases.len) × (kept.old.ready.len < task_limit) }
    requires at_lt_time_limit { (at < time_limit) × (entry_at columns.now.period i < 2 ^ 62) × (entry_at columns.now.deadline i < 2 ^ 62) }
    ensures releases { kept.new.releases.entries ≡ inserted kept.old.releases.entries (kept.old.releases.len - 1) (at * span + entry_at columns.now.period i) }
    ensures releases_len { kept.new.releases.len ≡ kept.old.releases.len }
    ensures ready { kept.new.ready.entries ≡ inserted kept.old.ready.entries kept.old.ready.len (at * span + entry_at columns.now.deadline i) }
    ensures ready_len { kept.new.ready.len ≡ kept.old.ready.len + 1 }
    ensures left { kept.new.left ≡ set kept.old.left i (entry_at columns.now.cost i) }
    ensures worst { kept.new.worst ≡ kept.old.worst }
{
    kept.releases.replace_least(at * SPAN + columns.period[i]);
    kept.ready.insert(at * SPAN + columns.deadline[i]);
    kept.left[i] = columns.cost[i];
}

// The jobs that are released now.
fn release_all(columns: &Columns, kept: &mut Kept, at: u64)
    requires { DueIn columns.now kept.old at }
    ensures held { HeldIn columns.now at (wait_released columns.now.table (walked columns.now.table at) false)
        (left_released columns.now.table (walked columns.now.table at) false) kept.new }
    ensures worst { kept.new.worst ≡ kept.old.worst }
{
    while time_of(kept.releases.least()) == at {
        let i = task_of(kept.releases.least());
        release(columns, kept, at, i);
    }
}

// How a walk goes on: further, over at its end, or over at a late deadline.
#[derive(Clone, Copy)]
pub enum Way {
    Going,
    Over,
    Late,
}

// Where a leap ends: the time, the first idle instant so far or 0, and how the walk goes on.
#[derive(Clone, Copy)]
pub struct Landed {
    pub time: u64,
    pub idle: u64,
    pub way: Way,
}

pub fn going(time: u64, idle: u64) -> Landed
    ensures { result ≡ going_at time idle }
{
    Landed {
        time,
        idle,
        way: Way::Going,
    }
}

// With no job open: to the next release or to the end. The instant after now is idle.
fn rest(at: u64, soon: u64, end: u64, idle: u64) -> Landed
    requires { at < time_limit }
    ensures { result ≡ rested_at at soon end idle }
{
    let first = walks::first_idle(idle, at < end, at + 1);
    if soon < end {
        going(soon, first)
    } else {
        Landed {
            time: end,
            idle: first,
            way: Way::Over,
        }
    }
}

// The deadline or the end comes before all else.
fn stop(due: u64, end: u64, idle: u64) -> Landed
    ensures { result ≡ cond (leb due end) (over_at due idle true) (over_at end idle false) }
{
    if due <= end {
        Landed {
            time: due,
            idle,
            way: Way::Late,
        }
    } else {
        Landed {
            time: end,
            idle,
            way: Way::Over,
        }
    }
}

// Of a job that is done at its deadline: late, if the next open one has the same deadline.
fn next_way(ready: &Queue, due: u64, done: u64) -> Way
    ensures { result ≡ done_way (next_late ready.now.entries ready.now.len due done) }
{
    if done < due {
        return Way::Going;
    }
    if ready.is_empty() {
        return Way::Going;
    }
    if time_of(ready.least()) == done {
        Way::Late
    } else {
        Way::Going
    }
}

// The first open job, of task i, is done, no later than its deadline.
fn finish(columns: &Columns, kept: &mut Kept, i: usize, due: u64, done: u64, idle: u64) -> Landed
    requires { (i < task_limit) × (0 < kept.old.ready.len) × (done ≤ due) × (due - done ≤ (task columns.now.table i).deadline) }
    ensures releases { kept.new.releases ≡ kept.old.releases }
    ensures ready { kept.new.ready.entries ≡ kept.old.ready.entries }
    ensures ready_len { kept.new.ready.len ≡ kept.old.ready.len - 1 }
    ensures left { kept.new.left ≡ set kept.old.left i 0 }
    ensures worst { kept.new.worst ≡ noted kept.old.worst i ((task columns.now.table i).deadline - (due - done)) }
    ensures landed { result ≡ done_at done (kept.old.ready.len - 1) idle (next_late kept.old.ready.entries (kept.old.ready.len - 1) due done) }
{
    kept.ready.drop_least();
    kept.left[i] = 0;
    walks::note(
        &mut kept.worst,
        i,
        columns.table.tasks[i].deadline - (due - done) as u32,
    );
    Landed {
        time: done,
        idle: walks::first_idle(idle, kept.ready.is_empty(), done),
        way: next_way(&kept.ready, due, done),
    }
}

// From now, with all releases made, to the next release or finish, or to where the walk is over.
fn turn(columns: &Columns, kept: &mut Kept, at: u64, end: u64, idle: u64) -> Landed
    requires { ReadyIn columns.now kept.old at end idle }
    ensures { LandingIn columns.now at end kept.new result }
{
    let soon = time_of(kept.releases.least());
    if kept.ready.is_empty() {
        return rest(at, soon, end, idle);
    }
    let key = kept.ready.least();
    let i = task_of(key);
    let due = time_of(key);
    let done = at + kept.left[i];
    if soon < done {
        if due <= soon {
            return stop(due, end, idle);
        }
        if end < soon {
            return stop(due, end, idle);
        }
        kept.left[i] = done - soon;
        return going(soon, idle);
    }
    if due < done {
        return stop(due, end, idle);
    }
    if end < done {
        return stop(due, end, idle);
    }
    finish(columns, kept, i, due, done, idle)
}

// The releases of now, and the turn after them.
pub fn leap(columns: &Columns, kept: &mut Kept, end: u64, here: Landed) -> Landed
    requires { HereIn columns.now kept.old end here }
    ensures { LandingIn columns.now here.time end kept.new result }
{
    release_all(columns, kept, here.time);
    turn(columns, kept, here.time, end, here.idle)
}

// A walk stops where it is over, or where no job is open at `again` or later.
pub fn stops(here: Landed, kept: &Kept, again: u64) -> bool
    ensures { Stops again kept.now.ready.len here result }
{
    match here.way {
        Way::Going => kept.ready.is_empty() && again <= here.time,
        Way::Over | Way::Late => true,
    }
}
