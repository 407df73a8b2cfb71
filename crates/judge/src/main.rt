// The judge: reads a table file from standard input, and prints the report on it or the line that names its refusal.
#![tactic(auto)]

ghost use Rattle.std.specs.Prelude.{◌≡◌, suc, ◌≤◌, length, take};
ghost use Rattle.io.specs.Counts.{IsPrefixLen};
ghost use Rattle.model.specs.Limits.{task_limit, report_bytes, longest_file};
ghost use Rattle.model.specs.Report.{report_of, written, outcome_told, refusal_line, Printed};
ghost use Rattle.report.specs.Put.{exported};
ghost use Rattle.judge.specs.Front.{TablePrinted};

use leaping::Leaping;
use values::{Admission, Answer, Judgement, LONGEST_FILE, Outcome, REPORT_BYTES, Table};

const STDIN_FILENO: i32 = 0;

const STDOUT_FILENO: i32 = 1;

// One byte more than the longest legal file has.
const INPUT_BYTES: usize = LONGEST_FILE + 1;

fn write_outcome(
    buffer: &mut [u8],
    tasks: usize,
    quick: bool,
    answer: Answer,
    outcome: Outcome,
) -> usize
    requires tasks_le_task_limit { tasks ≤ task_limit }
    requires report_bytes_in_bounds { report_bytes ≤ length buffer.old }
    ensures buffer_after { exported result buffer.new ≡ written (outcome_told refusal_line report_of tasks quick answer outcome) buffer.old }
    ensures upper_bound { result ≤ report_bytes }
{
    match outcome {
        Err(why) => report::write_refusal(buffer, why),
        Ok(verdict) => report::write_report(buffer, tasks, quick, answer, verdict),
    }
}

fn judge_table(t: Table, budget: u64, output: &mut [u8]) -> usize
    requires { report_bytes ≤ length output.old }
    ensures { TablePrinted output.old t budget (exported result output.new) }
{
    match table::judge(t) {
        Err(why) => report::write_refusal(output, why),
        Ok(m) => {
            let answer = exact::tested(t, m, budget, Leaping);
            let quick = quick::passes(t, m);
            write_outcome(output, t.count, quick, answer, answer.outcome)
        }
    }
}

fn judge(input: &[u8], output: &mut [u8]) -> usize
    requires { report_bytes ≤ length output.old }
    ensures printed { Printed input.now (take result output.new) }
    ensures prefix_len { IsPrefixLen result output.new }
{
    let form = tablefile::form_of(input);
    match form.admission {
        Err(why) => report::write_refusal(output, why),
        Ok(()) => judge_table(form.table, form.budget, output),
    }
}

// What is read into has room for one byte more than the longest legal file has, so that a longer one is seen to be.
fn read_input(input: &mut [u8]) -> usize
    requires { length input.old ≡ suc longest_file }
    ensures { IsPrefixLen result input.new }
{
    io::read_full(STDIN_FILENO, input)
}

fn main() {
    let mut input = [0u8; INPUT_BYTES];
    let mut output = [0u8; REPORT_BYTES];
    let read = read_input(&mut input);
    let printed = judge(&input[..read], &mut output);
    io::write_all(STDOUT_FILENO, &output[..printed]);
}
