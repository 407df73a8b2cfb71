// A queue of entries: a list that falls.

ghost use Rattle.std.specs.Prelude.{◌≡◌, ◌+◌, ◌-◌, ◌≤◌, ◌<◌, eqb, replicate};
ghost use Rattle.model.specs.Limits.{task_limit};
ghost use Rattle.slots.specs.Slot.{at};
ghost use Rattle.leaps.specs.Queue.{inserted};

use values::TASK_LIMIT;

// The last entry is the least.
#[derive(Clone, Copy)]
pub struct Queue {
    pub entries: [u64; TASK_LIMIT],
    pub len: usize,
    ghost few: { len ≤ task_limit },
}

impl Queue {
    pub fn new() -> Self
        ensures entries { result.entries ≡ replicate task_limit 0 }
        ensures len { result.len ≡ 0 }
    {
        Queue {
            entries: [0u64; TASK_LIMIT],
            len: 0,
        }
    }

    pub fn is_empty(&self) -> bool
        ensures { result ≡ eqb self.now.len 0 }
    {
        self.len == 0
    }

    pub fn least(&self) -> u64
        requires { 0 < self.now.len }
        ensures { result ≡ at self.now.entries (self.now.len - 1) }
    {
        self.entries[self.len - 1]
    }

    pub fn insert(&mut self, x: u64)
        requires { self.old.len < task_limit }
        ensures entries { self.new.entries ≡ inserted self.old.entries self.old.len x }
        ensures len { self.new.len ≡ self.old.len + 1 }
    {
        let len = self.len;
        put(&mut self.entries, len, x);
        self.len = len + 1;
    }

    pub fn drop_least(&mut self)
        requires { 0 < self.old.len }
        ensures entries { self.new.entries ≡ self.old.entries }
        ensures len { self.new.len ≡ self.old.len - 1 }
    {
        self.len -= 1;
    }

    pub fn replace_least(&mut self, x: u64)
        requires { 0 < self.old.len }
        ensures entries { self.new.entries ≡ inserted self.old.entries (self.old.len - 1) x }
        ensures len { self.new.len ≡ self.old.len }
    {
        put(&mut self.entries, self.len - 1, x);
    }
}

// One more entry among the first m: the smaller ones move up.
fn put(entries: &mut [u64; TASK_LIMIT], m: usize, x: u64)
    requires { m < task_limit }
    ensures { entries.new ≡ inserted entries.old m x }
{
    let mut place = m;
    for j in (0..m).rev() {
        let above = entries[j];
        if x <= above {
            break;
        }
        entries[j + 1] = above;
        place = j;
    }
    entries[place] = x;
}
