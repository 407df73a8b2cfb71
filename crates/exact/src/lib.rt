// The exact test: a table is judged, its load looked at, one of two engines walks it, and what it found is said.
#![tactic(auto)]

ghost use Rattle.std.specs.Prelude.{◌≡◌, ◌≤◌, Ok};
ghost use Rattle.model.specs.Tasks.{judged};
ghost use Rattle.model.specs.Verdict.{brief as briefly, Permitted};
ghost use Rattle.exact.specs.Concluded.{refused_by, overloaded, concluded};

use leaping::Leaping;
use plain::Plain;
use slots::Numbers;
use values::{Answer, Judgement, Measure, Outcome, Refusal, TASK_LIMIT, Table, Verdict};
use walks::Engine;

fn brief(outcome: Outcome, measure: Measure, settled: u64) -> Answer
    ensures { result ≡ briefly outcome measure settled }
{
    Answer {
        outcome: outcome,
        measure: measure,
        settled: settled,
        worst: [0u32; TASK_LIMIT],
        idle: 0,
    }
}

pub fn refuse(why: Refusal) -> Answer
    ensures { result ≡ refused_by why }
{
    let nothing = Measure {
        round: 0,
        load: 0,
        horizon: 0,
    };
    brief(Err(why), nothing, 0)
}

fn overload(m: Measure) -> Answer
    ensures { result ≡ overloaded m }
{
    brief(Ok(Verdict::Overload), m, 0)
}

// What a walk that ended at `at` says: late, where an interval was found that asks for some slots; undecided short of the
// horizon; or passes.
fn conclude(m: Measure, from: u64, asked: u64, at: u64, worst: Numbers, idle: u64) -> Answer
    ensures { result ≡ concluded m from asked at worst idle }
{
    if 0 < asked {
        let late = Verdict::Late {
            from: from,
            to: at,
            demand: asked,
        };
        return brief(Ok(late), m, at);
    }
    if at < m.horizon {
        return brief(Ok(Verdict::Undecided), m, at);
    }
    Answer {
        outcome: Ok(Verdict::Passes),
        measure: m,
        settled: at,
        worst: worst,
        idle: idle,
    }
}

// The one permitted answer to a table that was judged.
pub fn tested<E: Engine + Copy>(t: Table, m: Measure, budget: u64, engine: E) -> Answer
    requires { judged t ≡ Ok m }
    ensures { Permitted t budget result }
{
    if m.round < m.load {
        return overload(m);
    }
    let course = engine.walk(t, m, budget);
    let worst = course.worst;
    conclude(m, course.from, course.asked, course.at, worst, course.idle)
}

// The one permitted answer to any table and budget, whichever engine walks.
pub fn test<E: Engine + Copy>(t: Table, budget: u64, engine: E) -> Answer
    ensures { Permitted t budget result }
{
    match table::judge(t) {
        Err(why) => refuse(why),
        Ok(m) => tested(t, m, budget, engine),
    }
}

// What the two engines answer to one table and budget: the same.
#[derive(Clone, Copy)]
pub struct Twice {
    pub leaping: Answer,
    pub plain: Answer,
}

pub fn by_both_engines(t: Table, budget: u64) -> Twice
    ensures { Permitted t budget result.leaping × (result.leaping ≡ result.plain) }
{
    Twice {
        leaping: test(t, budget, Leaping),
        plain: test(t, budget, Plain),
    }
}
