// The specification's tables, and the means to write others.
use values::{Sort, TASK_LIMIT, Table, Task};

pub fn task(offset: u32, cost: u32, deadline: u32, period: u32) -> Task {
    Task {
        sort: Sort::Periodic(offset),
        cost,
        deadline,
        period,
    }
}

pub fn alike(count: usize, k: Task) -> Table {
    Table {
        count,
        tasks: [k; TASK_LIMIT],
    }
}

pub fn pair(first: Task, second: Task) -> Table {
    let mut t = alike(2, first);
    t.tasks[1] = second;
    t
}

pub fn periods(first: u32, second: u32) -> Table {
    pair(task(0, 1, first, first), task(0, 1, second, second))
}

// As many tasks as a table can have, each released one slot after the one before, with a period that is longer by `more`.
pub fn most(shortest: u32, more: u32) -> Table {
    let mut t = alike(TASK_LIMIT, task(0, 1, 16, shortest));
    let mut period = shortest;
    for (i, own) in t.tasks.iter_mut().enumerate() {
        *own = task(i as u32, 1, 16, period);
        period = period.wrapping_add(more);
    }
    t
}

pub fn three(first: Task, second: Task, third: Task) -> Table {
    let mut t = alike(3, first);
    t.tasks[1] = second;
    t.tasks[2] = third;
    t
}

// Its H is the least that is above the limit.
pub fn too_long() -> Table {
    three(
        task(0, 1, 1, 4_093),
        task(0, 1, 1, 8_779),
        task(0, 1, 1, 27_830),
    )
}

pub fn a() -> Table {
    alike(1, task(0, 1, 1, 1))
}

pub fn b() -> Table {
    pair(task(8, 5, 7, 15), task(0, 2, 2, 5))
}

pub fn c() -> Table {
    pair(task(8, 6, 7, 15), task(0, 2, 2, 5))
}

pub fn d() -> Table {
    pair(task(0, 5, 7, 15), task(0, 2, 2, 5))
}

pub fn e() -> Table {
    pair(task(1, 1, 1, 2), task(0, 1, 1, 2))
}

pub fn f() -> Table {
    pair(task(0, 1, 1, 2), task(0, 1, 1, 2))
}

pub fn g() -> Table {
    pair(task(0, 2, 4, 4), task(0, 2, 4, 4))
}

pub fn h() -> Table {
    pair(task(4, 1, 1, 2), task(0, 2, 3, 4))
}

pub fn i() -> Table {
    pair(task(0, 3, 5, 5), task(2, 3, 5, 5))
}

pub fn j() -> Table {
    alike(1, task(4, 1, 1, 2))
}
