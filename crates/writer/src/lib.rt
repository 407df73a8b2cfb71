// The table file of a table and a budget, written into a lent buffer.
#![tactic(auto)]

ghost use Rattle.std.specs.Prelude.{◌≡◌, [], ◌∷◌, ◌+◌, ◌≤◌, ◌<◌, length, Err};
ghost use Rattle.model.specs.Limits.{task_limit, budget_bytes};
ghost use Rattle.model.specs.TableFile.{budget_record, sort_bytes, task_record, task_records, file_of};
ghost use Rattle.model.specs.Writer.{budgeted, file_written};
ghost use Rattle.counting.specs.Put.{Put};
ghost use Rattle.tablefile.specs.Kinds.{kind_byte};
ghost use Rattle.tablefile.specs.Reading.{record_bytes};
ghost use Rattle.words.specs.Out.{Fits, Puts};
ghost use Rattle.writer.specs.Records.{filled, file_bytes};

use tablefile::{BUDGET_BYTES, Kind};
use values::{Fault, Refusal, Sort, Table, Task, Writing};
use words::Out;

// Any table, budget and buffer: the table is judged first, then the budget, then the buffer's length.
pub fn write(table: Table, budget: u64, buffer: &mut [u8]) -> Writing
    ensures { filled result buffer.new ≡ file_written table budget buffer.old }
{
    table::judge_mixed(table)?;
    write_file(&table.tasks[..table.count], budget, buffer)
}

fn write_file(tasks: &[Task], budget: u64, buffer: &mut [u8]) -> Writing
    requires { length tasks.now ≤ task_limit }
    ensures { filled result buffer.new ≡ budgeted budget (file_of budget tasks.now) buffer.old }
{
    if budget == 0 {
        return no_budget();
    }
    if buffer.len() < file_bytes(tasks) {
        return short_buffer(buffer.len());
    }
    Ok(put_file(tasks, budget, buffer))
}

fn file_bytes(tasks: &[Task]) -> usize
    requires { length tasks.now ≤ task_limit }
    ensures { result ≡ file_bytes tasks.now }
{
    let mut bytes = BUDGET_BYTES + 1;
    for task in tasks {
        bytes += tablefile::record_bytes(*task);
    }
    bytes
}

// A budget of 0 tests nothing.
pub fn no_budget() -> Writing
    ensures { result ≡ Err (record { number = 27; place = 0 }) }
{
    Err(Refusal::new(Fault::ZeroBudget, 0))
}

// What is too long for a buffer has fewer than 65,536 bytes, and so has the buffer.
pub fn short_buffer(bytes: usize) -> Writing
    requires { bytes < 65536 }
    ensures { result ≡ Err (record { number = 31; place = bytes }) }
{
    Err(Refusal::new(Fault::ShortBuffer, bytes as u32))
}

fn put_file(tasks: &[Task], budget: u64, buffer: &mut [u8]) -> usize
    requires { file_bytes tasks.now ≤ length buffer.old }
    ensures { Put (file_of budget tasks.now) 0 buffer.old buffer.new result }
{
    let mut out = Out::new(buffer);
    put_budget(&mut out, budget);
    put_tasks(&mut out, tasks);
    put_kind(&mut out, Kind::End);
    out.at()
}

fn put_budget(out: &mut Out<'_>, budget: u64)
    requires { Fits (budget_record budget) out.old }
    ensures { Puts (budget_record budget) out.old out.new }
{
    put_kind(out, Kind::Budget);
    out.put_long(budget);
}

fn put_tasks(out: &mut Out<'_>, tasks: &[Task])
    requires { Fits (task_records tasks.now) out.old }
    ensures { Puts (task_records tasks.now) out.old out.new }
{
    for task in tasks {
        put_task(out, *task);
    }
}

fn put_task(out: &mut Out<'_>, task: Task)
    requires { Fits (task_record task) out.old }
    ensures { Puts (task_record task) out.old out.new }
{
    put_sort(out, task.sort);
    out.put_word(task.cost);
    out.put_word(task.deadline);
    out.put_word(task.period);
}

// The kind, and the offset of a task that has one.
fn put_sort(out: &mut Out<'_>, sort: Sort)
    requires { Fits (sort_bytes sort) out.old }
    ensures { Puts (sort_bytes sort) out.old out.new }
{
    match sort {
        Sort::Periodic(offset) => {
            put_kind(out, Kind::Task);
            out.put_word(offset);
        }
        Sort::Button => put_kind(out, Kind::Button),
    }
}

fn put_kind(out: &mut Out<'_>, kind: Kind)
    requires { Fits (kind_byte kind ∷ []) out.old }
    ensures { Puts (kind_byte kind ∷ []) out.old out.new }
{
    out.put(&[u8::from(kind)]);
}
