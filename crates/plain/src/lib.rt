// The plain engine of the exact test: a walk slot by slot, and at the first late deadline a search for the largest start.
#![tactic(auto)]

ghost use Rattle.std.specs.Prelude.{◌≡◌, ◌≤◌, Ok};
ghost use Rattle.model.specs.Limits.{task_limit};
ghost use Rattle.model.specs.Tasks.{judged};
ghost use Rattle.walks.specs.Course.{Ends};
ghost use Rattle.plain.specs.Noted.{noted_of, idle_noted};

use slots::{NO_TASK, Numbers};
use values::{Measure, TASK_LIMIT, Table};
use walks::{Course, Engine};

// The response of the owner's job, if the slot finished it: a job released r slots ago waits T - r.
fn note(worst: &mut Numbers, owner: u32, period: &Numbers, wait: &Numbers, left: &Numbers)
    ensures { worst.new ≡ noted_of worst.old owner period.now wait.now left.now }
{
    if owner < NO_TASK {
        let i = owner as usize;
        if left[i] == 0 {
            walks::note(worst, i, period[i].saturating_sub(wait[i]));
        }
    }
}

// Once an idle instant is found, no slot looks at the tasks for another.
fn first_idle(idle: u64, left: &Numbers, n: usize, at: u64) -> u64
    requires { n ≤ task_limit }
    ensures { result ≡ idle_noted idle left.now n at }
{
    if 0 < idle {
        return idle;
    }
    walks::first_idle(idle, slots::none_left(left, n), at)
}

// Slot by slot to the end, or to the first late deadline: there, downwards, to the largest start that asks too much. At the end
// one slot more is begun, to see whether a job is late there.
pub fn walk(t: Table, m: Measure, budget: u64) -> Course
    requires t_value { judged t ≡ Ok m }
    requires load_le_round { m.load ≤ m.round }
    ensures { Ends t m budget result }
{
    let end = budget.min(m.horizon);
    let columns = slots::unpack(t);
    let mut wait = slots::offsets(t);
    let mut left = [0u32; TASK_LIMIT];
    let mut worst = [0u32; TASK_LIMIT];
    let mut idle: u64 = 0;
    let mut from: u64 = 0;
    let mut asked: u64 = 0;
    let mut at: u64 = 0;
    'search: loop {
        match columns.serve(&mut wait, &mut left) {
            Some(owner) => {
                if at == end {
                    break 'search;
                }
                note(&mut worst, owner, &columns.period, &wait, &left);
                at += 1;
                idle = first_idle(idle, &left, columns.count, at);
            }
            None => {
                from = at;
                while from > 0 {
                    from = intervals::start_before(t, from, at - from - asked);
                    asked = intervals::demand(t, from, at);
                    if asked > at - from {
                        break 'search;
                    }
                }
            }
        }
    }
    Course {
        from,
        asked,
        at,
        worst,
        idle,
    }
}

// The engine.
#[derive(Clone, Copy)]
pub struct Plain;

impl Engine for Plain {
    fn walk(self, t: Table, m: Measure, budget: u64) -> Course {
        crate::walk(t, m, budget)
    }
}
