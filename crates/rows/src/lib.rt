// A table handed over as words, five for each task.
#![tactic(auto)]

ghost use Rattle.std.specs.Prelude.{◌≡◌, cond, not, ◌/◌, ◌%◌, eqb};
ghost use Rattle.values.specs.declared.Sort.{Sort};
ghost use Rattle.model.specs.Tasks.{no_task};
ghost use Rattle.model.specs.TableFile.{button_kind};
ghost use Rattle.model.specs.Writer.{row_words, row_task, is_task, first_stranger, table_in};

use values::{Sort, TASK_LIMIT, Table, Task};

const ROW_WORDS: usize = 5;

const TASK: u32 = 2;

const BUTTON: u32 = 4;

type Row = [u32; ROW_WORDS];

// Words that do not make whole rows.
pub fn broken(words: usize) -> bool
    ensures { result ≡ not (eqb (words % row_words) 0) }
{
    words % ROW_WORDS != 0
}

pub fn count(words: usize) -> usize
    ensures { result ≡ words / row_words }
{
    words / ROW_WORDS
}

// The first row that is no task, or the number of rows.
pub fn first_stranger(words: &[u32]) -> usize
    ensures { result ≡ first_stranger words.now }
{
    let (rows, _) = words.as_chunks::<ROW_WORDS>();
    rows.iter()
        .position(|row| !is_task(row))
        .unwrap_or(rows.len())
}

// A row of a button has 0 where a task has its offset.
fn is_task(row: &Row) -> bool
    ensures { result ≡ is_task row.now 0 }
{
    let [kind, offset, ..] = *row;
    kind == TASK || kind == BUTTON && offset == 0
}

// A table holds no more rows than it has places. A loop over the rows alone: over all places, one row took 1.5 times as long to write.
pub fn table_in(words: &[u32]) -> Table
    ensures { result ≡ table_in words.now }
{
    let (rows, _) = words.as_chunks::<ROW_WORDS>();
    let mut tasks = [no_task(); TASK_LIMIT];
    for (i, row) in rows[..rows.len().min(TASK_LIMIT)].iter().enumerate() {
        tasks[i] = row_task(row);
    }
    Table {
        count: rows.len(),
        tasks,
    }
}

fn no_task() -> Task
    ensures { result ≡ no_task }
{
    Task {
        sort: Sort::Periodic(0),
        cost: 0,
        deadline: 0,
        period: 0,
    }
}

fn row_task(row: &Row) -> Task
    ensures { result ≡ row_task row.now 0 }
{
    let [kind, offset, cost, deadline, period] = *row;
    Task {
        sort: sort_of(kind, offset),
        cost,
        deadline,
        period,
    }
}

fn sort_of(kind: u32, offset: u32) -> Sort
    ensures { result ≡ cond (eqb kind button_kind) Sort.Button (Sort.Periodic offset) }
{
    if kind == BUTTON {
        return Sort::Button;
    }
    Sort::Periodic(offset)
}
