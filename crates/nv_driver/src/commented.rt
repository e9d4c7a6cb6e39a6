// What of a live run is commented on.
ghost use Rattle.std.specs.Prelude.{◌≡◌, option_map};
ghost use Rattle.nv_calls.specs.Calls.{entry};
ghost use Rattle.nv_driver.specs.Comments.{comment_view, end_note, event_note, lead_note, made_at, made_note, rewrite_note, tells_rewrite};

use crate::comments::Comment;
use nv_calls::Event;
use nv_replay::Standing;

// A rule may decide at each event of a run that lasts: the operator is told the first time, and then ever more rarely.
const TOLD_REWRITES: [u64; 10] = [
    1,
    10,
    100,
    1_000,
    10_000,
    100_000,
    1_000_000,
    10_000_000,
    100_000_000,
    1_000_000_000,
];

/// What of a run is commented on.
#[derive(Clone, Copy, Debug, PartialEq, Eq)]
pub enum Commented {
    /// Nothing: the report of a run has it all.
    Nothing,
    /// Who ended and who leads on, that a rule decides, and that nine tenths of the most calls of the run are made.
    Ends { most: u32 },
    /// Each event as well, and each decision of a rule.
    Events { most: u32 },
}

// An operator has to know before the last call, with which the run ends.
fn made_at(most: u32, stamp: u32) -> Option<Comment<'static>>
    ensures { option_map comment_view result ≡ made_at most stamp }
{
    let calls = most - most / 10;
    if u64::from(stamp) + 1 == u64::from(calls) {
        Some(Comment::Made { calls, most })
    } else {
        None
    }
}

impl Commented {
    fn tells_rewrite(self, rewrites: u64) -> bool
        ensures { result ≡ tells_rewrite self rewrites }
    {
        match self {
            Commented::Nothing => false,
            Commented::Ends { .. } => TOLD_REWRITES.contains(&rewrites),
            Commented::Events { .. } => true,
        }
    }

    /// The comment on a rule's decision for a version at an event, by which there are so many.
    pub fn at_rewrite<'a>(
        self,
        version: u32,
        event: &'a Event,
        rewrites: u64,
    ) -> Option<Comment<'a>>
        ensures { option_map comment_view result ≡ rewrite_note self version (entry event.now) rewrites }
    {
        if self.tells_rewrite(rewrites) {
            Some(Comment::Rewrites {
                version,
                rewrites,
                event,
            })
        } else {
            None
        }
    }

    /// The comment that most of the calls are made, after the event with this stamp.
    pub fn at_made(self, stamp: u32) -> Option<Comment<'static>>
        ensures { option_map comment_view result ≡ made_note self stamp }
    {
        match self {
            Commented::Nothing => None,
            Commented::Ends { most } | Commented::Events { most } => made_at(most, stamp),
        }
    }

    /// The comment on an event that was served.
    pub fn at_event<'a>(self, event: &'a Event) -> Option<Comment<'a>>
        ensures { option_map comment_view result ≡ event_note self (entry event.now) }
    {
        match self {
            Commented::Nothing | Commented::Ends { .. } => None,
            Commented::Events { .. } => Some(Comment::Served { event }),
        }
    }

    /// The comment that a version leads from the event with this stamp on.
    pub fn at_lead(self, version: u32, stamp: u32) -> Option<Comment<'static>>
        ensures { option_map comment_view result ≡ lead_note self version stamp }
    {
        match self {
            Commented::Nothing => None,
            Commented::Ends { .. } | Commented::Events { .. } => {
                Some(Comment::Leads { version, stamp })
            }
        }
    }

    /// The comment on a version that has ended.
    pub fn at_end(self, version: u32, standing: &Standing) -> Option<Comment<'static>>
        ensures { option_map comment_view result ≡ end_note self version standing.now }
    {
        match (self, standing.fate) {
            (Commented::Nothing, _) | (_, None) => None,
            (_, Some(fate)) => Some(Comment::Ended {
                version,
                fate,
                seen: standing.seen,
            }),
        }
    }
}
