// A table with one cost, one deadline or every cost changed, in steps from easy to hard.
#![tactic(auto)]

ghost use Rattle.std.specs.Prelude.{◌≡◌, ◌≤◌, ◌<◌, leb};
ghost use Rattle.std.specs.List.{list_all};
ghost use Rattle.model.specs.Limits.{task_limit, slot_limit, share_limit};
ghost use Rattle.model.specs.Tasks.{task};
ghost use Rattle.model.specs.Largest.{with_cost};
ghost use Rattle.model.specs.Fitting.{with_deadline, share_of, with_share, task_of};
ghost use Rattle.wellformed.specs.Ranges.{InRange, Ranged};
ghost use Rattle.changes.specs.Fits.{costs_kept};
ghost use Rattle.changes.specs.Hardening.{steps_of, number_of, steps, hardened};

use values::{Change, SHARE_LIMIT, Table, Task};

pub fn with_cost(mut t: Table, i: usize, cost: u32) -> Table
    requires { i < task_limit }
    ensures { result ≡ with_cost t i cost }
{
    t.tasks[i].cost = cost;
    t
}

fn with_deadline(mut t: Table, i: usize, deadline: u32) -> Table
    requires { i < task_limit }
    ensures { result ≡ with_deadline t i deadline }
{
    t.tasks[i].deadline = deadline;
    t
}

fn share_of(cost: u32, thousandths: u32) -> u32
    requires { (cost ≤ slot_limit) × (thousandths ≤ share_limit) }
    ensures { result ≡ share_of cost thousandths }
{
    ((u64::from(cost) * u64::from(thousandths) + 999) / 1000) as u32
}

fn with_share(t: Table, thousandths: u32) -> Table
    requires ranged { Ranged t }
    requires thousandths_le_share_limit { thousandths ≤ share_limit }
    ensures { result ≡ with_share t thousandths }
{
    let mut shared = t;
    for (i, task) in t.tasks[..t.count].iter().enumerate() {
        shared.tasks[i].cost = share_of(task.cost, thousandths);
    }
    shared
}

// The task that a change is about; every table has a task 0.
pub fn task_of(change: Change) -> u32
    ensures { result ≡ task_of change }
{
    match change {
        Change::Cost(i) => i,
        Change::Deadline(i) => i,
        Change::Share => 0,
    }
}

// That task itself.
pub fn changed_task(t: Table, change: Change) -> Task
    requires ranged { Ranged t }
    requires change_bound { task_of change < t.count }
    ensures value { result ≡ task t (task_of change) }
    ensures in_range { InRange result }
{
    t.tasks[task_of(change) as usize]
}

// The last step that is looked at, by the task that the change is about.
pub fn last_step(k: Task, change: Change) -> u32
    requires { InRange k }
    ensures { result ≡ steps_of k change }
{
    match change {
        Change::Cost(_) => k.deadline,
        Change::Deadline(_) => k.period + 1 - k.cost,
        Change::Share => SHARE_LIMIT,
    }
}

// The number that a step stands for: a harder step is a shorter deadline.
pub fn number_at(k: Task, change: Change, step: u32) -> u32
    requires in_range { InRange k }
    requires step_bound { step ≤ steps_of k change }
    ensures { result ≡ number_of k change step }
{
    match change {
        Change::Cost(_) => step,
        Change::Deadline(_) => k.period + 1 - step,
        Change::Share => step,
    }
}

pub fn hardened(t: Table, change: Change, step: u32) -> Table
    requires ranged { Ranged t }
    requires change_bound { task_of change < t.count }
    requires step_bound { step ≤ steps t change }
    ensures { result ≡ hardened t change step }
{
    let i = task_of(change) as usize;
    let number = number_at(changed_task(t, change), change, step);
    match change {
        Change::Cost(_) => with_cost(t, i, number),
        Change::Deadline(_) => with_deadline(t, i, number),
        Change::Share => with_share(t, number),
    }
}

fn all_keep(tasks: &[Task]) -> bool
    ensures { result ≡ list_all (λ task. leb task.cost task.deadline) tasks.now }
{
    tasks.iter().all(|task| task.cost <= task.deadline)
}

// A share can raise a cost above its deadline; then the table is no longer well-formed.
pub fn keeps_costs(t: Table) -> bool
    requires { t.count ≤ task_limit }
    ensures { result ≡ costs_kept t }
{
    all_keep(&t.tasks[..t.count])
}
