// The quick test: no overload, and with all tasks started at 0 no instant by which the jobs due ask for more slots than there are.
#![tactic(auto)]

ghost use Rattle.std.specs.Prelude.{◌≡◌, suc, ◌≤◌, ◌<◌, Ok};
ghost use Rattle.model.specs.Limits.{round_limit};
ghost use Rattle.model.specs.Notation.{every};
ghost use Rattle.model.specs.Tasks.{judged_mixed};
ghost use Rattle.model.specs.Patterns.{quick_pass, quick_answer};
ghost use Rattle.wellformed.specs.Ranges.{InRange, Ranged};
ghost use Rattle.wellformed.specs.Round.{RoundKept};
ghost use Rattle.patterns.specs.Asked.{due_by, asked};
ghost use Rattle.patterns.specs.Decided.{enough, EnoughBeyond};
ghost use Rattle.patterns.specs.Slack.{slack as slackTotal, slack_of};

use values::{Judgement, Measure, Quick, QuickAnswer, SLOT_LIMIT, Table, Task};

// How far up from 0 the search looks: some sixteen of the longest periods.
const EARLY: u64 = 1_000_000;

// The slots that are asked for by an instant, and the first deadline after it, where the way up looks next.
#[derive(Clone, Copy)]
struct Seen {
    asked: u64,
    next: u64,
}

// The jobs of a task that are due by `u`, all released from 0 on.
fn due_by(k: Task, u: u64) -> u64
    requires in_range { InRange k }
    requires u_le_round_limit { u ≤ round_limit }
    ensures { result ≡ due_by k u }
{
    let period = u64::from(k.period);
    (u + period - u64::from(k.deadline)) / period
}

fn look(t: Table, u: u64) -> Seen
    requires ranged { Ranged t }
    requires u_le_round_limit { u ≤ round_limit }
    ensures { result.asked ≡ asked t u }
{
    let mut asked = 0;
    let mut next = u + u64::from(SLOT_LIMIT);
    for task in &t.tasks[..t.count] {
        let jobs = due_by(*task, u);
        asked += u64::from(task.cost) * jobs;
        next = next.min(u64::from(task.deadline) + u64::from(task.period) * jobs);
    }
    Seen { asked, next }
}

// No earlier instant asks for more than `high` does, so the way down leaps to that number; the way up finds early failures soon.
fn all_enough(t: Table, bound: u64) -> bool
    requires ranged { Ranged t }
    requires bound_le_round_limit { bound ≤ round_limit }
    ensures { result ≡ every (enough t) (suc bound) }
{
    let mut high = bound;
    let mut low = 0;
    while 0 < high {
        let above = look(t, high);
        if high < above.asked {
            return false;
        }
        high = above.asked.min(high - 1);
        if low < EARLY.min(high) {
            let below = look(t, low);
            if low < below.asked {
                return false;
            }
            low = below.next;
        }
    }
    true
}

// The slots from a task's deadline to its next release, once for each slot that the task asks for in a round.
fn slack_of(k: Task, round: u64) -> u64
    requires in_range { InRange k }
    requires round_le_round_limit { round ≤ round_limit }
    ensures { result ≡ slack_of k round }
{
    let period = u64::from(k.period);
    u64::from(k.cost) * ((period - u64::from(k.deadline)) * (round / period))
}

fn slack(t: Table, round: u64) -> u64
    requires ranged { Ranged t }
    requires round_kept { RoundKept t round }
    ensures { result ≡ slackTotal t }
{
    let mut total = 0;
    for task in &t.tasks[..t.count] {
        total += slack_of(*task, round);
    }
    total
}

// No instant beyond it, up to H, asks for too much: what the load leaves over has outgrown the slack.
fn bound(t: Table, m: Measure) -> u64
    requires t_value { judged_mixed t ≡ Ok m }
    requires load_le_round { m.load ≤ m.round }
    ensures { (result ≤ m.round) × EnoughBeyond t result }
{
    let slack = slack(t, m.round);
    if slack < m.round {
        return 0;
    }
    let spare = m.round - m.load;
    if spare == 0 {
        return m.round;
    }
    ((slack - m.round) / spare).min(m.round)
}

// No overload, and enough up to the bound. Of buttons too: what comes as it likes is worst if all comes at once.
pub fn passes(t: Table, m: Measure) -> bool
    requires { judged_mixed t ≡ Ok m }
    ensures { result ≡ quick_pass t }
{
    if m.round < m.load {
        return false;
    }
    all_enough(t, bound(t, m))
}

// The one answer to any table: refusals 1 to 7 and 11, pass, or none.
pub fn test(t: Table) -> QuickAnswer
    ensures { result ≡ quick_answer t }
{
    match table::judge(t) {
        Err(why) => Err(why),
        Ok(m) => {
            if passes(t, m) {
                Ok(Quick::Pass)
            } else {
                Ok(Quick::NoAnswer)
            }
        }
    }
}
