// The exact test: its verdicts, settled counts, worst responses and idle instants.
use crate::tables::task;
use crate::{say, tables};
use values::{Answer, Outcome, Table, Verdict};

pub fn verdicts() {
    test(b"a", tables::a(), 1000);
    test(b"b", tables::b(), 1000);
    test(b"c", tables::c(), 1000);
    test(b"d", tables::d(), 1000);
    test(b"e", tables::e(), 1000);
    test(b"f", tables::f(), 1000);
    test(b"g", tables::g(), 1000);
    test(b"h", tables::h(), 1000);
    test(b"i", tables::i(), 1000);
    test(b"j", tables::j(), 1000);
}

pub fn budgets() {
    test(b"b", tables::b(), 0);
    test(b"b", tables::b(), 37);
    test(b"b", tables::b(), 38);
    test(b"b", tables::b(), 18_446_744_073_709_551_615);
    test(b"c", tables::c(), 14);
    test(b"c", tables::c(), 15);
    test(b"i", tables::i(), 0);
    test(
        b"periods 31622 and 31623",
        tables::periods(31_622, 31_623),
        100,
    );
    test(b"no task", tables::alike(0, task(0, 1, 1, 1)), 1000);
}

fn test(vector: &[u8], t: Table, budget: u64) {
    say::words(b"test ");
    say::words(vector);
    say::words(b", budget ");
    say::number(budget);
    say::words(b": ");
    let answers = exact::by_both_engines(t, budget);
    say_answer(answers.plain);
    say::words(b"\n");
}

fn say_answer(a: Answer) {
    say_outcome(a.outcome);
    say::words(b", settled ");
    say::number(a.settled);
    say::words(b", ");
    say::measure(a.measure);
    say::words(b", worst ");
    say::numbers(a.worst);
    say::words(b", idle ");
    say::number(a.idle);
}

fn say_outcome(outcome: Outcome) {
    match outcome {
        Err(why) => say::refusal(why),
        Ok(verdict) => say_verdict(verdict),
    }
}

fn say_verdict(verdict: Verdict) {
    match verdict {
        Verdict::Passes => say::words(b"passes"),
        Verdict::Overload => say::words(b"overload"),
        Verdict::Late { from, to, demand } => {
            say::words(b"late ");
            say::number(from);
            say::words(b" to ");
            say::number(to);
            say::words(b", demand ");
            say::number(demand);
        }
        Verdict::Undecided => say::words(b"undecided"),
    }
}
