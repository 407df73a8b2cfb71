// A table file, read record by record where it lies.
#![tactic(auto)]

ghost use Rattle.std.specs.Prelude.{◌≡◌, [], ◌+◌, ◌<◌, ◌≤◌, length};
ghost use Rattle.model.specs.Limits.{longest_file};
ghost use Rattle.model.specs.TableFile.{table_of, refuse_file, judged_table, form_of, file_read, periodic_from};
ghost use Rattle.values.specs.Numbers.{number_of};
ghost use Rattle.tablefile.specs.Kinds.{KindOf, kind_byte};
ghost use Rattle.tablefile.specs.Reading.{body_bytes, record_bytes, body_in, budget_reading, task_reading, end_reading, reading_at};

use values::{Admission, Contents, Fault, Judgement, Refusal, Sort, TASK_LIMIT, Table, Task};

// The kinds of records: the first byte of each.
#[derive(Clone, Copy, PartialEq, Eq)]
pub enum Kind {
    Budget = 1,
    Task = 2,
    End = 3,
    Button = 4,
}

// A byte that is no kind.
#[derive(Clone, Copy, PartialEq, Eq)]
pub struct UnknownKind;

impl TryFrom<u8> for Kind {
    type Error = UnknownKind;

    ghost try_from_gives = { KindOf };

    fn try_from(byte: u8) -> Result<Self, UnknownKind> {
        match byte {
            1 => Ok(Kind::Budget),
            2 => Ok(Kind::Task),
            3 => Ok(Kind::End),
            4 => Ok(Kind::Button),
            _ => Err(UnknownKind),
        }
    }
}

impl From<Kind> for u8 {
    ghost from_gives = { λ kind byte. byte ≡ kind_byte kind };

    fn from(kind: Kind) -> u8 {
        kind as u8
    }
}

const BUDGET_BODY: usize = 8;

const TASK_BODY: usize = 16;

const BUTTON_BODY: usize = 12;

pub const BUDGET_BYTES: usize = 1 + BUDGET_BODY;

pub const TASK_BYTES: usize = 1 + TASK_BODY;

// A record is a budget, a task of either sort or the end, with its numbers.
#[derive(Clone, Copy)]
pub enum Record {
    Budget(u64),
    OneTask(Task),
    End,
}

// A button's body is a task's without the offset.
fn body_bytes(button: bool) -> usize
    ensures { result ≡ body_bytes button }
{
    if button {
        return BUTTON_BODY;
    }
    TASK_BODY
}

fn task_in(button: bool, body: &[u8]) -> Task
    requires { body_bytes button ≤ length body.now }
    ensures { result ≡ body_in button body.now 0 }
{
    if button {
        return Task {
            sort: Sort::Button,
            cost: words::word_at(body, 0),
            deadline: words::word_at(body, 4),
            period: words::word_at(body, 8),
        };
    }
    Task {
        sort: Sort::Periodic(words::word_at(body, 0)),
        cost: words::word_at(body, 4),
        deadline: words::word_at(body, 8),
        period: words::word_at(body, 12),
    }
}

// The kind and the body.
pub fn record_bytes(task: Task) -> usize
    ensures { result ≡ record_bytes task }
{
    1 + body_bytes(sorts::is_button(task))
}

// Reading stops within the longest legal file, so a place fits a refusal whatever the file's length.
fn refusal(fault: Fault, place: usize) -> Refusal
    requires { place ≤ longest_file }
    ensures { result ≡ record { number = number_of fault; place = place } }
{
    Refusal::new(fault, place as u32)
}

fn budget_reading(rest: &[u8], at: usize) -> Result<Record, Refusal>
    requires { at < longest_file }
    ensures { result ≡ budget_reading rest.now at }
{
    if 0 < at {
        return Err(refusal(Fault::FileSecondBudget, at));
    }
    if rest.len() < BUDGET_BODY {
        return Err(refusal(Fault::FileCutShort, at));
    }
    let budget = words::long_at(rest, 0);
    if budget == 0 {
        return Err(refusal(Fault::ZeroBudget, at));
    }
    Ok(Record::Budget(budget))
}

fn task_reading(button: bool, rest: &[u8], at: usize, count: usize) -> Result<Record, Refusal>
    requires { at < longest_file }
    ensures { result ≡ task_reading button rest.now at count }
{
    if at == 0 {
        return Err(refusal(Fault::FileNoBudget, at));
    }
    if TASK_LIMIT <= count {
        return Err(refusal(Fault::FileTooManyTasks, at));
    }
    if rest.len() < body_bytes(button) {
        return Err(refusal(Fault::FileCutShort, at));
    }
    Ok(Record::OneTask(task_in(button, rest)))
}

fn end_reading(rest: &[u8], at: usize) -> Result<Record, Refusal>
    requires { at < longest_file }
    ensures { result ≡ end_reading rest.now at }
{
    if at == 0 {
        return Err(refusal(Fault::FileNoBudget, at));
    }
    if 0 < rest.len() {
        return Err(refusal(Fault::FileAfterEnd, at + 1));
    }
    Ok(Record::End)
}

// The specification's order is kind known, kind allowed here, body whole: the reader of each kind keeps the last two.
fn reading_at(file: &[u8], at: usize, count: usize) -> Result<Record, Refusal>
    requires { at < longest_file }
    ensures { result ≡ reading_at file.now at count }
{
    if file.len() <= at {
        if at == 0 {
            return Err(refusal(Fault::FileNoBudget, at));
        }
        return Err(refusal(Fault::FileNoEnd, at));
    }
    let rest = &file[at + 1..];
    match Kind::try_from(file[at]) {
        Ok(Kind::Budget) => budget_reading(rest, at),
        Ok(Kind::Task) => task_reading(false, rest, at, count),
        Ok(Kind::Button) => task_reading(true, rest, at, count),
        Ok(Kind::End) => end_reading(rest, at),
        Err(_) => Err(refusal(Fault::FileUnknownKind, at)),
    }
}

pub fn no_tasks() -> Table
    ensures { result ≡ table_of [] }
{
    let none = Task {
        sort: Sort::Periodic(0),
        cost: 0,
        deadline: 0,
        period: 0,
    };
    Table {
        count: 0,
        tasks: [none; TASK_LIMIT],
    }
}

pub fn refused_file(why: Refusal) -> Contents
    ensures { result ≡ refuse_file why.number why.place }
{
    Contents {
        admission: Err(why),
        budget: 0,
        table: no_tasks(),
    }
}

// The file's form alone: its table is not judged.
pub fn form_of(file: &[u8]) -> Contents
    ensures { result ≡ form_of file.now }
{
    let mut budget: u64 = 0;
    let mut table = no_tasks();
    let mut at: usize = 0;
    loop {
        // The form is handed back as it is: in a result first, it would be copied twice more.
        match reading_at(file, at, table.count) {
            Err(why) => return refused_file(why),
            Ok(record) => match record {
                Record::Budget(slots) => {
                    budget = slots;
                    at += BUDGET_BYTES;
                }
                // in place: a table handed over and back would be copied for every task
                Record::OneTask(task) => {
                    let count = table.count;
                    table.tasks[count] = task;
                    table.count = count + 1;
                    at += record_bytes(task);
                }
                Record::End => {
                    return Contents {
                        admission: Ok(()),
                        budget,
                        table,
                    };
                }
            },
        }
    }
}

fn judged_by(form: Contents, judgement: Judgement) -> Contents
    ensures { result ≡ judged_table form judgement }
{
    match judgement {
        Err(fault) => refused_file(fault),
        Ok(_) => form,
    }
}

pub fn read(file: &[u8]) -> Contents
    ensures { result ≡ file_read file.now }
{
    let form = form_of(file);
    let admission = form.admission;
    match admission {
        Err(_) => form,
        Ok(()) => judged_by(form, table::judge_mixed(form.table)),
    }
}

// Where only periodic tasks are allowed: refused by 11 too.
pub fn read_periodic(file: &[u8]) -> Contents
    ensures { result ≡ periodic_from file.now }
{
    let form = form_of(file);
    let formed = form.admission;
    match formed {
        Err(_) => form,
        Ok(()) => judged_by(form, table::judge(form.table)),
    }
}
