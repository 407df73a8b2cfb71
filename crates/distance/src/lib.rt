// The distance test: each periodic task as first at 0, every other at its smallest distance, and a walk to the first idle instant.
#![tactic(auto)]

ghost use Rattle.std.specs.Prelude.{◌≡◌, not, ◌||◌, ◌≤◌, ◌<◌, pos, ◌-ℤ◌, Ok};
ghost use Rattle.std.specs.List.{list_any};
ghost use Rattle.model.specs.Notation.{every};
ghost use Rattle.model.specs.Tasks.{task, is_button, judged_mixed};
ghost use Rattle.model.specs.Patterns.{calm as calmly, reduced as reducedTo, common_divisor, distance, pattern, calm_patterns, distance_answer};
ghost use Rattle.wellformed.specs.Ranges.{Ranged};
ghost use Rattle.slots.specs.Columns.{column};

use slots::Numbers;
use values::{ByDistance, DistanceAnswer, Judgement, Measure, TASK_LIMIT, Table, Task};

fn difference(a: u32, b: u32) -> i64
    ensures { result ≡ pos a -ℤ pos b }
{
    i64::from(a) - i64::from(b)
}

// Upward, into 0 to g - 1.
fn reduced(z: i64, g: u32) -> u32
    requires { 0 < g }
    ensures { result ≡ reducedTo z g }
{
    z.rem_euclid(i64::from(g)) as u32
}

fn common_divisor(a: u32, b: u32) -> u32
    requires { 0 < a }
    ensures { result ≡ common_divisor a b }
{
    divisor::divisor(u64::from(a), u64::from(b)) as u32
}

fn distance_of(one: Task, other: Task) -> u32
    requires { (0 < one.period) × (0 < other.period) }
    ensures { result ≡ distance one other }
{
    if sorts::is_button(other) {
        return 0;
    }
    let g = common_divisor(one.period, other.period);
    reduced(
        difference(sorts::offset_of(other), sorts::offset_of(one)),
        g,
    )
}

// The distance of each task from task i.
fn distances(t: Table, i: usize) -> Numbers
    requires ranged { Ranged t }
    requires i_lt_count { i < t.count }
    ensures { result ≡ column t.count (λ k. distance (task t i) (task t k)) }
{
    let first = t.tasks[i];
    let mut start = [0u32; TASK_LIMIT];
    for (k, task) in t.tasks[..t.count].iter().enumerate() {
        start[k] = distance_of(first, *task);
    }
    start
}

// A button never stands first.
fn pattern_calm(t: Table, m: Measure, i: usize) -> bool
    requires t_value { judged_mixed t ≡ Ok m }
    requires load_le_round { m.load ≤ m.round }
    requires i_lt_count { i < t.count }
    ensures { result ≡ (is_button (task t i) || calmly (pattern t i)) }
{
    if sorts::is_button(t.tasks[i]) {
        return true;
    }
    calm::is_calm(calm::starting(t, distances(t, i)))
}

// Whether the pattern of each periodic task is calm.
fn each_calm(t: Table, m: Measure) -> bool
    requires t_value { judged_mixed t ≡ Ok m }
    requires load_le_round { m.load ≤ m.round }
    ensures { result ≡ every (λ i. is_button (task t i) || calmly (pattern t i)) t.count }
{
    let n = t.count;
    for i in 0..n {
        if !pattern_calm(t, m, i) {
            return false;
        }
    }
    true
}

fn some_periodic(tasks: &[Task]) -> bool
    ensures { result ≡ list_any (λ task. not (is_button task)) tasks.now }
{
    tasks.iter().any(|task| !sorts::is_button(*task))
}

// A quick pass is a pass of every pattern, so no pattern is walked. Buttons alone have one pattern, the quick test's.
fn all_calm(t: Table, m: Measure) -> bool
    requires t_value { judged_mixed t ≡ Ok m }
    requires load_le_round { m.load ≤ m.round }
    ensures { result ≡ calm_patterns t }
{
    let passed = quick::passes(t, m);
    if !passed && some_periodic(&t.tasks[..t.count]) {
        return each_calm(t, m);
    }
    passed
}

// The one answer to any table, of tasks of both sorts: refusals 1 to 7, overload, pass, or none.
pub fn test(t: Table) -> DistanceAnswer
    ensures { result ≡ distance_answer t }
{
    match table::judge_mixed(t) {
        Err(why) => Err(why),
        Ok(m) => {
            if m.round < m.load {
                Ok(ByDistance::Overload)
            } else if all_calm(t, m) {
                Ok(ByDistance::Pass)
            } else {
                Ok(ByDistance::NoAnswer)
            }
        }
    }
}
