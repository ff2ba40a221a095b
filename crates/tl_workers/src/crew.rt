// Threads that stay, and help with one batch after another.

ghost use Rattle.std.specs.Fn.{FnOnceReturns};

use crate::help::Help;
use std::sync::{Condvar, Mutex, Wait};
use std::thread;
use std::thread::Threads;

// Who is there, and who is wanted.
#[derive(Drop)]
struct Roll {
    // How many threads stay.
    members: usize,
    // How many members may be at work: each batch under way wants so many workers beside its own thread.
    wanted: usize,
    // How many members are at work.
    at_work: usize,
    // Whether a member watches when help pays.
    is_watched: bool,
    is_dismissed: bool,
}

/// Threads that stay, and help with one batch after another. Engines that come one after another share a crew, so that a member that
/// waits for work holds no engine.
#[derive(Drop)]
pub struct Crew {
    roll: Mutex<Roll>,
    // Notified when a member may be wanted, and when all are dismissed.
    called: Condvar,
    // What the crew knows of the calls of the batches under way.
    help: Help,
}

impl Crew {
    // A crew that nobody has joined.
    pub(crate) fn new() -> Crew {
        Crew {
            roll: Mutex::new(Roll {
                members: 0,
                wanted: 0,
                at_work: 0,
                is_watched: false,
                is_dismissed: false,
            }),
            called: Condvar::new(),
            help: Help::new(),
        }
    }

    // What it knows of the calls of the batches under way.
    pub(crate) fn help(&self) -> &Help {
        &self.help
    }

    // A batch begins that wants so many more workers. False if nobody stays: then it has to start them.
    pub(crate) fn call(&self, rt: &impl Wait, workers: usize) -> bool {
        let mut roll = self.roll.lock(rt);
        if roll.members == 0 {
            return false;
        }
        if roll.wanted == 0 {
            self.help.begin();
        }
        roll.wanted = roll.wanted.saturating_add(workers);
        let is_watched = roll.is_watched;
        drop(roll);
        // Whoever watches finds this batch too.
        if !is_watched {
            self.called.notify_one();
        }
        true
    }

    // A batch that wanted so many workers is over. Whoever watches sees that by itself.
    pub(crate) fn release(&self, rt: &impl Wait, workers: usize) {
        let mut roll = self.roll.lock(rt);
        roll.wanted = roll.wanted.saturating_sub(workers);
        if roll.wanted == 0 {
            self.help.rest();
        }
    }

    /// Does the work while so many threads stay as members. `assists` runs calls that are ready as long as that pays, and says whether
    /// there was one. A member that can't be started is left out.
    pub fn with_members<R, A, T, F>(&self, rt: &R, members: usize, assists: &A, work: F) -> T
    where
        R: Threads + Wait + Sync,
        A: Fn() -> bool + Sync,
        F: FnOnce() -> T,
        requires assists { A.IsAlwaysCallable assists.now }
        requires work { F.IsAlwaysCallable work }
        ensures { FnOnceReturns F.FnOnce work tt result }
    {
        thread::scope(
            thread::scope_env(),
            rt,
            |scope| -> T
                requires assists { A.IsAlwaysCallable assists.now }
                requires work { F.IsAlwaysCallable work }
                ensures { FnOnceReturns F.FnOnce work tt result }
            {
                for _ in 0..members {
                    let started = scope.spawn(
                        move ||
                            requires { A.IsAlwaysCallable assists.now }
                        { self.stay(rt, assists) },
                    );
                    if started.is_ok() {
                        self.join(rt);
                    }
                }
                let done = work();
                self.dismiss(rt);
                done
            },
        )
    }

    // Has this thread help with batches until the crew is dismissed.
    fn stay<A: Fn() -> bool>(&self, rt: &impl Wait, assists: &A)
        requires { A.IsAlwaysCallable assists.now }
    {
        for _ in rt.forever() {
            if !self.is_wanted(rt) {
                return;
            }
            let has_helped = assists();
            self.leave_work(rt);
            if !has_helped {
                self.help.pause(rt);
            }
        }
        unreachable!()
    }

    // Ends the waiting of all members, now and later. Those at work end their calls first.
    fn dismiss(&self, rt: &impl Wait) {
        let mut roll = self.roll.lock(rt);
        roll.is_dismissed = true;
        roll.members = 0;
        drop(roll);
        self.help.end();
        self.called.notify_all();
    }

    // Whether a member that is at work goes on.
    pub(crate) fn goes_on(&self, rt: &impl Wait) -> bool {
        if !self.help.pays() {
            return false;
        }
        let roll = self.roll.lock(rt);
        roll.at_work <= roll.wanted
    }

    fn join(&self, rt: &impl Wait) {
        let mut roll = self.roll.lock(rt);
        if !roll.is_dismissed {
            roll.members = roll.members.saturating_add(1);
        }
    }

    fn leave_work(&self, rt: &impl Wait) {
        let mut roll = self.roll.lock(rt);
        roll.at_work = roll.at_work.saturating_sub(1);
    }

    // Waits until one more member is to be at work, and counts it. False once the crew is dismissed.
    fn is_wanted(&self, rt: &impl Wait) -> bool {
        let mut roll = self.roll.lock(rt);
        for _ in rt.forever() {
            if roll.is_dismissed {
                return false;
            }
            if roll.is_watched || roll.at_work >= roll.wanted {
                roll = self.called.wait(rt, roll);
            } else {
                roll.is_watched = true;
                drop(roll);
                let pays = self.help.is_wanted(rt);
                roll = self.roll.lock(rt);
                roll.is_watched = false;
                if pays && roll.at_work < roll.wanted {
                    roll.at_work += 1;
                    drop(roll);
                    // The next one may be wanted too.
                    self.called.notify_one();
                    return true;
                }
            }
        }
        unreachable!()
    }
}
