// What a slot reads of a table, and the slot itself.
ghost use Rattle.std.specs.Prelude.{◌≡◌, set, ◌+◌, ◌*◌, ◌-◌, ◌≤◌, ◌<◌, ◌^◌};
ghost use Rattle.model.specs.Limits.{task_limit};

use crate::{NO_TASK, Numbers, Ranks};

// Ranks are below this, so that a deadline and a rank are compared as one number.
const RANKS: u64 = 0x1_0000;

// It is above every such number.
const NO_KEY: u64 = 0xffff_ffff_ffff_ffff;

// How many tasks there are, and a list for each of their numbers. The slack is T - D: the wait of a job at its deadline.
// The ranks stand first: the code of a slot then goes through all lists by one index, and behind them it took up to 1.4 times as long.
#[derive(Clone, Copy)]
pub struct Columns {
    pub rank: Ranks,
    pub count: usize,
    pub period: Numbers,
    pub cost: Numbers,
    pub slack: Numbers,
    pub ghost few: { count ≤ task_limit },
}

impl Columns {
    ghost use Rattle.model.specs.Notation.{bits};
    ghost use Rattle.slots.specs.Slot.{is_late, put_all, wait_released, left_released};
    ghost use Rattle.slots.specs.Serve.{Served};

    // The open jobs at their deadline, as a set of bits.
    pub fn late_set(&self, wait: &Numbers, left: &Numbers) -> u32
        ensures { result ≡ bits (is_late wait.now left.now self.now.slack self.now.count) task_limit }
    {
        crate::members(self.count, |i| 0 < left[i] && wait[i] == self.slack[i])
    }

    // The jobs of a set of tasks are closed.
    pub fn close_all(&self, left: &mut Numbers, set: u32)
        ensures { left.new ≡ put_all left.old set 0 self.now.count }
    {
        crate::put_all(left, set, 0, self.count)
    }

    // The slot, in one pass up to the first job at its deadline, where it says none: releases, the choice, and the slot given to the owner.
    pub fn serve(&self, wait: &mut Numbers, left: &mut Numbers) -> Option<u32>
        ensures { Served wait.old left.old self.now.period self.now.cost self.now.slack
            self.now.rank self.now.count wait.new left.new result }
    {
        let mut owner = NO_TASK;
        let mut least = NO_KEY;
        let mut rest = 0;
        for i in 0..self.count {
            if 0 < left[i] {
                if wait[i] == self.slack[i] {
                    return None;
                }
            }
            let (now, open) = self.renew(wait, left, i);
            if 0 < open {
                let key = key_of(now.saturating_sub(self.slack[i]), self.rank[i]);
                if key < least {
                    least = key;
                    owner = i as u32;
                    rest = open - 1;
                }
            }
        }
        if owner < NO_TASK {
            left[owner as usize] = rest;
        }
        Some(owner)
    }

    // One task in a slot: the release, if its wait is 0, and then the wait one lower. It tells the wait and the slots left in between.
    fn renew(&self, wait: &mut Numbers, left: &mut Numbers, i: usize) -> (u32, u32)
        requires { i < task_limit }
        ensures { (result.0 ≡ wait_released wait.old self.now.period i)
            × (result.1 ≡ left_released wait.old left.old self.now.cost i)
            × (wait.new ≡ set wait.old i (result.0 - 1)) × (left.new ≡ set left.old i result.1) }
    {
        let before = wait[i];
        if before == 0 {
            let next = self.period[i];
            let fresh = self.cost[i];
            wait[i] = next.saturating_sub(1);
            left[i] = fresh;
            (next, fresh)
        } else {
            wait[i] = before - 1;
            (before, left[i])
        }
    }
}

fn key_of(due: u32, rank: u16) -> u64
    ensures { (result ≡ due * 2 ^ 16 + rank) × (due < 2 ^ 32) × (rank < 2 ^ 16) }
{
    u64::from(due) * RANKS + u64::from(rank)
}
