// Judges any table: refusals 1 to 7, and 11 where only periodic tasks are allowed, or what a well-formed table measures.
#![tactic(auto)]

ghost use Rattle.std.specs.Prelude.{◌≡◌, ◌≤◌, ◌<◌};
ghost use Rattle.model.specs.Limits.{task_limit, slot_limit, round_limit};
ghost use Rattle.model.specs.Tasks.{within, measure, judged_mixed, judged, admission_of};
ghost use Rattle.counting.specs.Divisors.{lcm};
ghost use Rattle.wellformed.specs.Ranges.{Ranged};
ghost use Rattle.wellformed.specs.Round.{RoundKept};
ghost use Rattle.table.specs.Survey.{FitsTable, Surveyed, button_refused, range_refused};

use values::{
    Admission, Fault, Judgement, Measure, ROUND_LIMIT, Refusal, SLOT_LIMIT, TASK_LIMIT, Table, Task,
};

// Where only periodic tasks are allowed.
pub fn judge(t: Table) -> Judgement
    ensures { result ≡ judged t }
{
    let seen = survey(t)?;
    refuse_button(seen)?;
    Ok(measure_of(t, seen.round))
}

// Tasks of both sorts.
pub fn judge_mixed(t: Table) -> Judgement
    ensures { result ≡ judged_mixed t }
{
    let seen = survey(t)?;
    Ok(measure_of(t, seen.round))
}

// The judge's refusal alone: what a step needs of it.
pub fn admit(t: Table) -> Admission
    ensures { result ≡ admission_of (judged t) }
{
    let found = survey(t)?;
    refuse_button(found)
}

pub fn admit_mixed(t: Table) -> Admission
    ensures { result ≡ admission_of (judged_mixed t) }
{
    survey(t)?;
    Ok(())
}

// What one pass over a table finds: its round, and its first button.
#[derive(Clone, Copy)]
pub struct Sight {
    pub round: u64,
    pub button: Option<usize>,
}

// By 11 at the first button, if there is one.
fn refuse_button(seen: Sight) -> Admission
    requires { FitsTable seen.button }
    ensures { result ≡ button_refused seen.button }
{
    match seen.button {
        Some(i) => Err(Refusal::new(Fault::HasButton, i as u32)),
        None => Ok(()),
    }
}

// One pass: a table handed to a call is copied.
fn survey(t: Table) -> Result<Sight, Refusal>
    ensures { Surveyed t result }
{
    let n = t.count;
    if n == 0 {
        return Err(Refusal::new(Fault::NoTasks, 0));
    }
    if n > TASK_LIMIT {
        return Err(Refusal::new(Fault::TooManyTasks, TASK_LIMIT as u32));
    }
    let mut round: u64 = 1;
    let mut button = None;
    for (i, task) in t.tasks[..n].iter().enumerate() {
        check_ranges(*task, i as u32)?;
        round = common_multiple(round, u64::from(task.period));
        if button.is_none() && sorts::is_button(*task) {
            button = Some(i);
        }
    }
    if ROUND_LIMIT < round {
        return Err(Refusal::new(Fault::LongRound, 0));
    }
    Ok(Sight { round, button })
}

// The first range that a task leaves refuses it, in the order T, D, C, O.
fn check_ranges(k: Task, i: u32) -> Admission
    ensures { result ≡ range_refused k i }
{
    if !within(1, SLOT_LIMIT, k.period) {
        return Err(Refusal::new(Fault::BadPeriod, i));
    }
    if !within(1, k.period, k.deadline) {
        return Err(Refusal::new(Fault::BadDeadline, i));
    }
    if !within(1, k.deadline, k.cost) {
        return Err(Refusal::new(Fault::BadCost, i));
    }
    if !within(0, SLOT_LIMIT, sorts::offset_of(k)) {
        return Err(Refusal::new(Fault::BadOffset, i));
    }
    Ok(())
}

fn within(least: u32, most: u32, x: u32) -> bool
    ensures { result ≡ within least most x }
{
    least <= x && x <= most
}

// Above its limit a round stays as it is: with more periods it never falls below, and so nothing wraps.
fn common_multiple(round: u64, period: u64) -> u64
    requires { (0 < period) × (period ≤ slot_limit) }
    ensures { (round ≤ round_limit → result ≡ lcm round period) × (round_limit < round → result ≡ round) }
{
    if round > ROUND_LIMIT {
        return round;
    }
    if round % period == 0 {
        return round;
    }
    round / divisor::divisor(round, period) * period
}

pub fn measure_of(t: Table, round: u64) -> Measure
    requires ranged { Ranged t }
    requires round_kept { RoundKept t round }
    ensures { result ≡ measure t }
{
    let mut load: u64 = 0;
    let mut latest: u32 = 0;
    for task in &t.tasks[..t.count] {
        load += u64::from(task.cost) * (round / u64::from(task.period));
        latest = latest.max(sorts::offset_of(*task));
    }
    Measure {
        round,
        load,
        horizon: u64::from(latest) + 2 * round,
    }
}
