// What a walk over a table holds before each slot, for the exact test and for the distance test; and how a walk of the exact test ended.
#![tactic(auto)]

ghost use Rattle.std.specs.Prelude.{◌≡◌, ◌<◌, ◌≤◌, Ok};
ghost use Rattle.model.specs.Limits.{task_limit};
ghost use Rattle.model.specs.Tasks.{judged};
ghost use Rattle.backlog.specs.WalkWorst.{noted};
ghost use Rattle.walks.specs.Tally.{idle_then};
ghost use Rattle.walks.specs.Course.{Ends};

use slots::Numbers;
use values::{Measure, Table};

// Where it ended; for a late deadline the start from which the interval to it asks too much, and for how many slots, else 0; and the
// worst responses and the first idle instant that it has seen.
#[derive(Clone, Copy)]
pub struct Course {
    pub from: u64,
    pub asked: u64,
    pub at: u64,
    pub worst: Numbers,
    pub idle: u64,
}

// The response of a job of task i, noted where it is larger than those before.
pub fn note(worst: &mut Numbers, i: usize, response: u32)
    requires { i < task_limit }
    ensures { worst.new ≡ noted worst.old i response }
{
    worst[i] = worst[i].max(response);
}

// The first idle instant after 0 is looked for until it is found: it is 0 before.
pub fn first_idle(idle: u64, here: bool, at: u64) -> u64
    ensures { result ≡ idle_then idle here at }
{
    if idle == 0 && here { at } else { idle }
}

// A way to walk: to the budget or the horizon, or to the first late deadline.
pub trait Engine {
    fn walk(self, t: Table, m: Measure, budget: u64) -> Course
        requires t_value { judged t ≡ Ok m }
        requires load_le_round { m.load ≤ m.round }
        ensures { Ends t m budget result };
}
