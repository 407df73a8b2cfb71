// The largest cost that one task of a table can take: the costs up to its deadline are halved by trials of the exact test.
#![tactic(auto)]

ghost use Rattle.std.specs.Prelude.{◌≡◌, ◌≤◌, ◌<◌, Ok, Err};
ghost use Rattle.values.specs.declared.Verdict.{Verdict};
ghost use Rattle.model.specs.Values.{refusal};
ghost use Rattle.model.specs.Tasks.{task, judged};
ghost use Rattle.model.specs.Verdict.{verdict};
ghost use Rattle.model.specs.Largest.{with_cost, passes_with, largest_cost, cost_told, cost_answer};

pub use changes::with_cost;
use leaping::Leaping;
use values::{Fault, Judgement, LargestCost, Limit, Measure, Outcome, Refusal, Table, Verdict};

// More of one task's cost adds to the load, and moves neither H nor the horizon.
fn measure_with(t: Table, m: Measure, i: usize, cost: u32) -> Measure
    requires t_value { judged t ≡ Ok m }
    requires i_lt_count { i < t.count }
    requires i_bound { ((task t i).cost ≤ cost) × (cost ≤ (task t i).deadline) }
    ensures { judged (with_cost t i cost) ≡ Ok result }
{
    let task = t.tasks[i];
    let jobs = m.round / u64::from(task.period);
    Measure {
        load: m.load + u64::from(cost - task.cost) * jobs,
        ..m
    }
}

// A quick pass spares the walk, where the budget reaches the horizon. A table that was judged is not refused.
fn verdict_on(t: Table, m: Measure, budget: u64) -> Verdict
    requires { judged t ≡ Ok m }
    ensures { result ≡ verdict t budget }
{
    if m.horizon <= budget && quick::passes(t, m) {
        return Verdict::Passes;
    }
    let answer = exact::tested(t, m, budget, Leaping);
    let outcome = answer.outcome;
    match outcome {
        Err(_) => Verdict::Undecided,
        Ok(said) => said,
    }
}

// One trial.
fn passes_with(t: Table, m: Measure, i: usize, budget: u64, cost: u32) -> bool
    requires t_value { judged t ≡ Ok m }
    requires i_lt_count { i < t.count }
    requires i_bound { ((task t i).cost ≤ cost) × (cost ≤ (task t i).deadline) }
    ensures { result ≡ passes_with t i budget cost }
{
    let measure = measure_with(t, m, i, cost);
    matches!(
        verdict_on(with_cost(t, i, cost), measure, budget),
        Verdict::Passes
    )
}

// Between the present cost, which passes, and the first past the deadline.
fn search(t: Table, m: Measure, i: usize, budget: u64) -> u32
    requires t_value { judged t ≡ Ok m }
    requires i_lt_count { i < t.count }
    requires budget_value { verdict t budget ≡ Verdict.Passes }
    ensures { result ≡ largest_cost t i budget }
{
    let task = t.tasks[i];
    halving::last_passing(task.cost, task.deadline + 1, |cost| {
        passes_with(t, m, i, budget, cost)
    })
}

fn told(t: Table, m: Measure, i: usize, budget: u64) -> LargestCost
    requires t_value { judged t ≡ Ok m }
    requires i_lt_count { i < t.count }
    ensures { result ≡ cost_told t i budget (verdict t budget) }
{
    match verdict_on(t, m, budget) {
        Verdict::Passes => Ok(Limit::At(search(t, m, i, budget))),
        Verdict::Overload => Ok(Limit::Overload),
        Verdict::Late { .. } => Ok(Limit::Late),
        Verdict::Undecided => Ok(Limit::Undecided),
    }
}

// The one permitted answer to any table, task number and budget.
pub fn largest_cost(t: Table, task: u32, budget: u64) -> LargestCost
    ensures { result ≡ cost_answer t task budget }
{
    let m = table::judge(t)?;
    let i = task as usize;
    if t.count <= i {
        return Err(Refusal::new(Fault::NoSuchTask, task));
    }
    told(t, m, i, budget)
}
