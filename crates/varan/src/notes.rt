// What an operator is told on standard error while a live run goes on: comments of its transcript.

use crate::patience::Patience;
use nv_calls::Event;
use nv_driver::{Comment, Commented, Ending, comment_line};
use nv_replay::Standing;
use nv_workers::{Gate, VersionNumber};
use std::alloc::Global;
use std::io::{Stderr, Write};

/// What the words of a line ask for while a live run goes on.
#[derive(Clone, Copy, Debug, PartialEq, Eq)]
pub struct Wishes {
    pub commented: Commented,
    /// Milliseconds after which a follower is let go, if there is a limit.
    pub patience: Option<u32>,
}

/// Comments on standard error, each by one write where the system takes it whole, so that those of several versions don't mix; and how long a follower
/// may hold the leader.
#[derive(Drop)]
pub struct Notes<'a> {
    alloc: Global,
    stderr: Stderr,
    commented: Commented,
    patience: Option<Patience<'a>>,
}

impl<'a> Notes<'a> {
    pub fn make(rt: &'a HostRuntime, wishes: Wishes) -> Notes<'a> {
        Notes {
            alloc: rt.alloc(),
            stderr: rt.stderr(),
            commented: wishes.commented,
            patience: wishes.patience.map(|millis| Patience::make(rt, millis)),
        }
    }

    /// Tells how a live run ended, where a stream of it failed.
    pub fn tell_ending(&self, ending: Ending) {
        self.tell(Some(Comment::Stopped { ending }));
    }

    // A comment that can't be made or written is left out: the run goes on without it.
    fn tell(&self, comment: Option<Comment<'_>>) {
        let Some(comment) = comment else {
            return;
        };
        if let Some(line) = comment_line(self.alloc, &comment) {
            let mut stderr = &self.stderr;
            let _wrote = stderr.write_all(line.written());
        }
    }
}

impl Gate for Notes<'_> {
    fn at_rewrite(&self, version: VersionNumber, event: &Event, rewrites: u64) {
        self.tell(self.commented.at_rewrite(version.0, event, rewrites));
    }

    fn before_publish(&self, version: VersionNumber, stamp: u32) {
        if let Some(patience) = &self.patience {
            patience.at_publish(version, stamp);
        }
    }

    fn after_take(&self, version: VersionNumber, stamp: u32) {
        if let Some(patience) = &self.patience {
            patience.at_pass(version, stamp);
        }
    }

    fn at_wait(&self, _version: VersionNumber) {
        if let Some(patience) = &self.patience {
            patience.at_wait();
        }
    }

    fn lets_go(&self, version: VersionNumber, passed: u32) -> bool {
        let Some(patience) = &self.patience else {
            return false;
        };
        let Some(behind) = patience.behind(version, passed) else {
            return false;
        };
        let version = version.0;
        self.tell(Some(Comment::LetGo { version, behind }));
        true
    }

    fn after_publish(&self, _version: VersionNumber, event: &Event) {
        self.tell(self.commented.at_event(event));
        self.tell(self.commented.at_made(event.stamp));
    }

    fn at_lead(&self, version: VersionNumber, stamp: u32) {
        self.tell(self.commented.at_lead(version.0, stamp));
    }

    fn at_end(&self, version: VersionNumber, standing: &Standing) {
        self.tell(self.commented.at_end(version.0, standing));
    }
}
