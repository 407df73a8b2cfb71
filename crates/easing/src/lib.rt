// Whether one table is an easing of another: each of its tasks is looked for behind what the one before it was found to be.
#![tactic(auto)]

ghost use Rattle.std.specs.Prelude.{◌≡◌, ◌+◌, ◌^◌, ◌≤◌, ◌<◌, position};
ghost use Rattle.model.specs.Limits.{task_limit};
ghost use Rattle.model.specs.Easing.{eases, easing};

use values::{Easing, Table, Task};

// A button is an easing of a button alone.
fn is_eased(old: Task, new: Task) -> bool
    ensures { result ≡ eases old new }
{
    sorts::is_button(new) == sorts::is_button(old)
        && sorts::offset_of(new) == sorts::offset_of(old)
        && new.period == old.period
        && new.cost <= old.cost
        && old.deadline <= new.deadline
}

// The first of the tasks of which k is the eased one.
#[inline(always)]
fn next_eased(tasks: &[Task], k: Task) -> Option<usize>
    ensures { result ≡ position (λ task. eases task k) tasks.now }
{
    tasks.iter().position(|task| is_eased(*task, k))
}

// The set with k; the others are below k.
fn with_task(tasks: u32, k: usize) -> u32
    requires { (k < task_limit) × (tasks < 2 ^ k) }
    ensures { result ≡ tasks + 2 ^ k }
{
    tasks | (1u32 << k)
}

pub fn compare(old: Table, new: Table) -> Easing
    requires { (old.count ≤ task_limit) × (new.count ≤ task_limit) }
    ensures { result ≡ easing old new }
{
    let mut kept = 0;
    let mut from = 0;
    for (i, task) in new.tasks[..new.count].iter().enumerate() {
        let Some(passed) = next_eased(&old.tasks[from..old.count], *task) else {
            return Easing::Unmatched(i as u32);
        };
        kept = with_task(kept, from + passed);
        from = from + passed + 1;
    }
    Easing::Kept(kept)
}
