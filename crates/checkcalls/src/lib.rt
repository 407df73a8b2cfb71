// The check of a table file, by leaps or slot by slot, as a report or as numbers in a lent buffer; and whether a report says that the
// table passes.
#![tactic(auto)]

ghost use Rattle.std.specs.Prelude.{◌≡◌, ◌≤◌, length};
ghost use Rattle.model.specs.Limits.{task_limit, report_bytes};
ghost use Rattle.model.specs.Tasks.{judged};
ghost use Rattle.model.specs.TableFile.{file_read};
ghost use Rattle.model.specs.Report.{refused, report_written, Checked};
ghost use Rattle.model.specs.ReportRead.{passes_exported};
ghost use Rattle.model.specs.AnswerBuffer.{answer_bytes, numbers_written, Answered};
ghost use Rattle.report.specs.Put.{exported};
ghost use Rattle.checkcalls.specs.Outcomes.{refused_by, answered, told_of, FileFound, TableFound};

use leaping::Leaping;
use values::{ANSWER_BYTES, Answer, Fault, REPORT_BYTES, Refusal, Table};
use walks::Engine;

// What a check finds of a file: an answer, which may be a refusal, to so many tasks, which the quick test passes or not.
#[derive(Clone, Copy)]
struct FileAnswer {
    tasks: usize,
    quick: bool,
    answer: Answer,
}

fn refuse(why: Refusal) -> FileAnswer
    ensures result_value { told_of refused_by answered result ≡ refused_by why }
    ensures tasks_le_task_limit { result.tasks ≤ task_limit }
{
    FileAnswer {
        tasks: 0,
        quick: false,
        answer: exact::refuse(why),
    }
}

// The table is judged once, for the test and for the quick test.
fn check_table<E: Engine + Copy>(t: Table, budget: u64, engine: E) -> FileAnswer
    ensures table_found { TableFound t budget result (judged t) }
    ensures tasks_le_task_limit { result.tasks ≤ task_limit }
{
    match table::judge(t) {
        Err(why) => refuse(why),
        Ok(m) => FileAnswer {
            tasks: t.count,
            quick: quick::passes(t, m),
            answer: exact::tested(t, m, budget, engine),
        },
    }
}

fn check_file<E: Engine + Copy>(file: &[u8], engine: E) -> FileAnswer
    ensures file_found { FileFound (file_read file.now) result (file_read file.now).admission }
    ensures tasks_le_task_limit { result.tasks ≤ task_limit }
{
    let form = tablefile::form_of(file);
    match form.admission {
        Err(why) => refuse(why),
        Ok(()) => check_table(form.table, form.budget, engine),
    }
}

fn export_report(found: FileAnswer, buffer: &mut [u8]) -> u64
    requires tasks_le_task_limit { found.tasks ≤ task_limit }
    requires report_bytes_in_bounds { report_bytes ≤ length buffer.old }
    ensures { exported result buffer.new ≡ told_of (λ w. refused w buffer.old) (report_written buffer.old) found }
{
    let answer = found.answer;
    match answer.outcome {
        Err(why) => numbers::refusal_number(why),
        Ok(verdict) => {
            report::write_report(buffer, found.tasks, found.quick, answer, verdict) as u64
        }
    }
}

fn export_numbers(found: FileAnswer, buffer: &mut [u8]) -> u64
    requires tasks_le_task_limit { found.tasks ≤ task_limit }
    requires answer_bytes_in_bounds { answer_bytes ≤ length buffer.old }
    ensures { exported result buffer.new ≡ told_of (λ w. refused w buffer.old) (numbers_written buffer.old) found }
{
    let answer = found.answer;
    match answer.outcome {
        Err(why) => numbers::refusal_number(why),
        Ok(verdict) => {
            let numbers = answerbuffer::numbers_of(found.tasks, found.quick, answer, verdict);
            answerbuffer::write_answer(buffer, numbers);
            0
        }
    }
}

// Any file and any buffer: the buffer is looked at before the file.
pub fn check<E: Engine + Copy>(file: &[u8], report: &mut [u8], engine: E) -> u64
    ensures { Checked file.now report.old (exported result report.new) }
{
    if report.len() < REPORT_BYTES {
        return numbers::refusal_number(numbers::refusal_at(Fault::ShortReport, report.len()));
    }
    let found = check_file(file, engine);
    export_report(found, report)
}

// The same answer as numbers.
pub fn answer(file: &[u8], buffer: &mut [u8]) -> u64
    ensures { Answered file.now buffer.old (exported result buffer.new) }
{
    if buffer.len() < ANSWER_BYTES {
        return numbers::refusal_number(numbers::refusal_at(Fault::ShortReport, buffer.len()));
    }
    let found = check_file(file, Leaping);
    export_numbers(found, buffer)
}

// Any bytes: none is looked at if they are longer than a report, as where a refusal is handed over for a length.
pub fn passes(report: &[u8]) -> u64
    ensures { result ≡ passes_exported report.now }
{
    if REPORT_BYTES < report.len() {
        return 0;
    }
    u64::from(pieces::has_line(report, b"verdict passes"))
}
