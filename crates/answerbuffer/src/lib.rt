// The whole answer of a check as numbers in a lent buffer, the lowest byte first.
#![tactic(auto)]

ghost use Rattle.std.specs.Prelude.{◌≡◌, ◌++◌, ◌≤◌, length, replicate, drop};
ghost use Rattle.values.specs.Numbers.{verdict_number};
ghost use Rattle.model.specs.Limits.{task_limit};
ghost use Rattle.model.specs.TableFile.{bytes_of};
ghost use Rattle.model.specs.StateBuffer.{halves};
ghost use Rattle.model.specs.AnswerBuffer.{answer_bytes, numbers_by, numbers_of, answer_buffer};
ghost use Rattle.words.specs.Out.{Fits, Puts};
ghost use Rattle.answerbuffer.specs.Written.{longs_of};

use values::{Answer, AnswerNumbers, TASK_LIMIT, Verdict};
use words::Out;

// What every verdict comes with; the rest is 0.
fn brief_numbers(tasks: usize, quick: bool, answer: Answer, verdict: Verdict) -> AnswerNumbers
    requires { tasks ≤ task_limit }
    ensures { result ≡ numbers_by tasks quick answer (verdict_number verdict) 0 0 0 0 (replicate task_limit 0) }
{
    let measure = answer.measure;
    AnswerNumbers {
        round: measure.round,
        load: measure.load,
        horizon: measure.horizon,
        settled: answer.settled,
        idle: 0,
        from: 0,
        to: 0,
        demand: 0,
        tasks: tasks as u32,
        quick: u32::from(quick),
        verdict: verdict.number(),
        worst: [0u32; TASK_LIMIT],
    }
}

pub fn numbers_of(tasks: usize, quick: bool, answer: Answer, verdict: Verdict) -> AnswerNumbers
    requires { tasks ≤ task_limit }
    ensures { result ≡ numbers_of tasks quick answer verdict }
{
    let mut numbers = brief_numbers(tasks, quick, answer, verdict);
    match verdict {
        Verdict::Overload => {}
        Verdict::Undecided => {}
        Verdict::Late { from, to, demand } => {
            numbers.from = from;
            numbers.to = to;
            numbers.demand = demand;
        }
        Verdict::Passes => {
            let worst = answer.worst;
            numbers.idle = answer.idle;
            numbers.worst = worst;
        }
    }
    numbers
}

// At the front of a buffer; what stands behind the answer stays.
pub fn write_answer(buffer: &mut [u8], numbers: AnswerNumbers)
    requires { answer_bytes ≤ length buffer.old }
    ensures { buffer.new ≡ answer_buffer numbers ++ drop answer_bytes buffer.old }
{
    let mut out = Out::new(buffer);
    put_longs(&mut out, numbers);
    out.put_word(numbers.tasks);
    out.put_word(numbers.quick);
    out.put_word(numbers.verdict);
    out.put_word(0);
    statebuffer::put_words(&mut out, numbers.worst);
}

fn put_longs(out: &mut Out<'_>, numbers: AnswerNumbers)
    requires { Fits (bytes_of (halves (longs_of numbers))) out.old }
    ensures { Puts (bytes_of (halves (longs_of numbers))) out.old out.new }
{
    out.put_long(numbers.round);
    out.put_long(numbers.load);
    out.put_long(numbers.horizon);
    out.put_long(numbers.settled);
    out.put_long(numbers.idle);
    out.put_long(numbers.from);
    out.put_long(numbers.to);
    out.put_long(numbers.demand);
}
