// Tables in plain text, read where they lie and written into a lent buffer.
#![tactic(auto)]

ghost use Rattle.std.specs.Prelude.{◌≡◌, true, false, suc, ◌+◌, ◌-◌, ◌≤◌, ◌<◌, min, ◌++◌, [], ◌∷◌, length, MatchOption};
ghost use Rattle.model.specs.Notation.{decimal};
ghost use Rattle.model.specs.Limits.{task_limit, longest_text};
ghost use Rattle.model.specs.TableFile.{refuse_file};
ghost use Rattle.model.specs.PlainText.{is_digit, content_of, words_of, all_digits, budget_line, line_of};
ghost use Rattle.model.specs.PlainText.{text_form, sort_text, task_text, task_texts, text_of, text_written, from_text, to_text};
ghost use Rattle.model.specs.Writer.{tasks_of, fitted, budgeted};
ghost use Rattle.counting.specs.Put.{Put};
ghost use Rattle.wellformed.specs.Ranges.{Ranged};
ghost use Rattle.tablefile.specs.Built.{with_task};
ghost use Rattle.writer.specs.Records.{filled};
ghost use Rattle.plaintext.specs.Numbers.{NumberRead, NumbersRead};
ghost use Rattle.plaintext.specs.Lines.{sort_line};
ghost use Rattle.plaintext.specs.Faults.{fault_in, value_in, values_in, said};
ghost use Rattle.words.specs.Out.{Fits, Puts};

use values::{Contents, Entry, Fault, Refusal, Sort, TASK_LIMIT, Table, Task, Writing};
use words::Out;

const LARGEST_NUMBER: u64 = 4_294_967_295;

const LARGEST_BUDGET: u64 = 18_446_744_073_709_551_615;

const LAST_LINE: u32 = 65_535;

// The longest text: the lines of a budget and of every task.
const LONGEST_TEXT: usize = 28 + TASK_LIMIT * 29;

// The first word, if there is one, and what stands behind it.
fn next_word(s: &[u8]) -> Option<(&[u8], &[u8])>
    ensures { MatchOption result (words_of s.now ≡ []) (λ p. words_of s.now ≡ p.0.now ∷ words_of p.1.now) }
{
    let from = pieces::find(s, |byte| !pieces::is_gap(byte));
    if from == s.len() {
        return None;
    }
    let rest = &s[from..];
    Some(rest.split_at(pieces::find(rest, pieces::is_gap)))
}

fn number_in(word: &[u8], largest: u64) -> Result<u64, Fault>
    requires { 9 ≤ largest }
    ensures { NumberRead (suc largest) word.now (fault_in result) (value_in result) }
{
    if !word.iter().all(|byte| byte.is_ascii_digit()) {
        return Err(Fault::TextNotANumber);
    }
    value_of(word, largest)
}

fn value_of(word: &[u8], largest: u64) -> Result<u64, Fault>
    requires le_largest { 9 ≤ largest }
    requires word_value { all_digits word.now ≡ true }
    ensures { NumberRead (suc largest) word.now (fault_in result) (value_in result) }
{
    let mut value = 0;
    for byte in word {
        let digit = digit_of(*byte);
        if (largest - digit) / 10 < value {
            return Err(Fault::TextLargeNumber);
        }
        value = 10 * value + digit;
    }
    Ok(value)
}

fn digit_of(byte: u8) -> u64
    requires { is_digit byte ≡ true }
    ensures { (result ≡ byte - 48) × (result ≤ 9) }
{
    u64::from(byte - b'0')
}

// So many numbers, and no word behind them.
fn numbers_in<const N: usize>(words: &[u8], largest: u64) -> Result<[u64; N], Fault>
    requires { 9 ≤ largest }
    ensures { NumbersRead (suc largest) N (words_of words.now) (fault_in result) (values_in result) }
{
    let mut values = [0; N];
    let mut left = words;
    for i in 0..N {
        let Some((word, rest)) = next_word(left) else {
            return Err(Fault::TextWrongCount);
        };
        values[i] = number_in(word, largest)?;
        left = rest;
    }
    match next_word(left) {
        Some(_) => Err(Fault::TextWrongCount),
        None => Ok(values),
    }
}

fn budget_line(rest: &[u8], given: bool, count: usize) -> Result<Entry, Fault>
    ensures { said result ≡ budget_line given count (words_of rest.now) }
{
    if given {
        return Err(Fault::TextSecondBudget);
    }
    if 0 < count {
        return Err(Fault::TextBudgetNotFirst);
    }
    let [budget] = numbers_in::<1>(rest, LARGEST_BUDGET)?;
    if budget == 0 {
        return Err(Fault::ZeroBudget);
    }
    Ok(Entry::Budget(budget))
}

fn task_line(rest: &[u8], count: usize) -> Result<Entry, Fault>
    ensures { said result ≡ sort_line false count (words_of rest.now) }
{
    if TASK_LIMIT <= count {
        return Err(Fault::TextTooManyTasks);
    }
    let [offset, cost, deadline, period] = numbers_in::<4>(rest, LARGEST_NUMBER)?;
    Ok(Entry::OneTask(Task {
        sort: Sort::Periodic(offset as u32),
        cost: cost as u32,
        deadline: deadline as u32,
        period: period as u32,
    }))
}

// A button has no offset.
fn button_line(rest: &[u8], count: usize) -> Result<Entry, Fault>
    ensures { said result ≡ sort_line true count (words_of rest.now) }
{
    if TASK_LIMIT <= count {
        return Err(Fault::TextTooManyTasks);
    }
    let [cost, deadline, period] = numbers_in::<3>(rest, LARGEST_NUMBER)?;
    Ok(Entry::OneTask(Task {
        sort: Sort::Button,
        cost: cost as u32,
        deadline: deadline as u32,
        period: period as u32,
    }))
}

fn line_of(line: &[u8], given: bool, count: usize) -> Result<Entry, Fault>
    ensures { said result ≡ line_of given count (words_of line.now) }
{
    let Some((name, rest)) = next_word(line) else {
        return Ok(Entry::Nothing);
    };
    if name == b"budget".as_slice() {
        return budget_line(rest, given, count);
    }
    if name == b"task".as_slice() {
        return task_line(rest, count);
    }
    if name == b"button".as_slice() {
        return button_line(rest, count);
    }
    Err(Fault::TextUnknownWord)
}

// What stands before the comment or the end of a line.
fn content(line: &[u8]) -> &[u8]
    ensures { result.now ≡ content_of line.now }
{
    let line = line.strip_suffix(b"\r").unwrap_or(line);
    &line[..pieces::find(line, |byte| byte == b'#')]
}

// The text's form alone: its table is not judged.
pub fn form_of(text: &[u8]) -> Contents
    ensures { result ≡ text_form text.now }
{
    let mut budget = None;
    let mut table = tablefile::no_tasks();
    let mut line: u32 = 0;
    let mut left = text;
    loop {
        let end = pieces::find(left, |byte| byte == b'\n');
        line = (line + 1).min(LAST_LINE);
        let entry = match line_of(content(&left[..end]), budget.is_some(), table.count) {
            Ok(entry) => entry,
            Err(fault) => return tablefile::refused_file(Refusal::new(fault, line)),
        };
        match entry {
            Entry::Nothing => {}
            Entry::Budget(slots) => {
                budget = Some(slots);
            }
            Entry::OneTask(task) => {
                table = with_task(table, task);
            }
        }
        if end == left.len() {
            return Contents {
                admission: Ok(()),
                budget: budget.unwrap_or(LARGEST_BUDGET),
                table,
            };
        }
        left = &left[end + 1..];
    }
}

fn with_task(mut table: Table, task: Task) -> Table
    requires { table.count < task_limit }
    ensures { result ≡ with_task table task }
{
    table.tasks[table.count] = task;
    table.count += 1;
    table
}

// Any table, budget and buffer: the table is judged first, then the budget, then the buffer's length.
pub fn write(table: Table, budget: u64, buffer: &mut [u8]) -> Writing
    ensures { filled result buffer.new ≡ text_written table budget buffer.old }
{
    table::judge_mixed(table)?;
    write_text(table, budget, buffer)
}

// The text is made aside, where there is room for every one, so that a short buffer stays as it is.
fn write_text(table: Table, budget: u64, buffer: &mut [u8]) -> Writing
    requires { Ranged table }
    ensures { filled result buffer.new ≡ budgeted budget (text_of budget (tasks_of table)) buffer.old }
{
    if budget == 0 {
        return writer::no_budget();
    }
    let mut aside = [0u8; LONGEST_TEXT];
    let bytes = put_text(&mut aside, budget, table);
    copy_text(buffer, &aside[..bytes])
}

fn copy_text(buffer: &mut [u8], made: &[u8]) -> Writing
    requires { length made.now ≤ longest_text }
    ensures { filled result buffer.new ≡ fitted made.now buffer.old }
{
    if buffer.len() < made.len() {
        return writer::short_buffer(buffer.len());
    }
    let mut out = Out::new(buffer);
    out.put(made);
    Ok(out.at())
}

fn put_text(buffer: &mut [u8], budget: u64, table: Table) -> usize
    requires ranged { Ranged table }
    requires longest_text_in_bounds { longest_text ≤ length buffer.old }
    ensures put { Put (text_of budget (tasks_of table)) 0 buffer.old buffer.new result }
    ensures upper_bound { result ≤ longest_text }
{
    let mut out = Out::new(buffer);
    text::put_line(&mut out, b"budget ", budget);
    put_tasks(&mut out, &table.tasks[..table.count]);
    out.at()
}

fn put_tasks(out: &mut Out<'_>, tasks: &[Task])
    requires { Fits (task_texts tasks.now) out.old }
    ensures { Puts (task_texts tasks.now) out.old out.new }
{
    for task in tasks {
        put_task(out, *task);
    }
}

fn put_task(out: &mut Out<'_>, task: Task)
    requires { Fits (task_text task) out.old }
    ensures { Puts (task_text task) out.old out.new }
{
    put_name(out, task.sort, task.cost);
    text::put_number(out, b" ", u64::from(task.deadline));
    text::put_line(out, b" ", u64::from(task.period));
}

// Up to the cost: a button has no offset before it.
fn put_name(out: &mut Out<'_>, sort: Sort, cost: u32)
    requires { Fits (sort_text sort ++ decimal cost) out.old }
    ensures { Puts (sort_text sort ++ decimal cost) out.old out.new }
{
    match sort {
        Sort::Periodic(offset) => {
            text::put_number(out, b"task ", u64::from(offset));
            text::put_number(out, b" ", u64::from(cost));
        }
        Sort::Button => text::put_number(out, b"button ", u64::from(cost)),
    }
}

// The file of a text, in a lent buffer.
pub fn file_of(text: &[u8], buffer: &mut [u8]) -> Writing
    ensures { filled result buffer.new ≡ from_text text.now buffer.old }
{
    let form = form_of(text);
    form.admission?;
    writer::write(form.table, form.budget, buffer)
}

// The text of a file, in a lent buffer.
pub fn text_of(file: &[u8], buffer: &mut [u8]) -> Writing
    ensures { filled result buffer.new ≡ to_text file.now buffer.old }
{
    let form = tablefile::form_of(file);
    form.admission?;
    write(form.table, form.budget, buffer)
}
