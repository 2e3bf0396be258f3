ghost use Rattle.std.specs.Prelude.{◌≡◌};
ghost use Rattle.exh_walk.specs.EventProgress.{hop_outcome, progress_with};

use exh_calls::Reply;
use exh_notice::Notice;
use exh_prefix::PageNo;
use exh_ward::Hop;

/// What an event came to.
#[derive(Clone, Copy, Debug, PartialEq, Eq)]
pub enum Outcome {
    /// The request stands at a page of a ward.
    Begun {
        ward: u8,
        page: PageNo,
    },
    /// The hop left the request without an answer, in its ward: it goes on at another page, or waits for a split.
    Hopped {
        ward: u8,
        hop: Hop,
    },
    /// The hop answered the request in its ward, after so many moves. They are at most the bound: the moves that its
    /// page was from the answer when it was begun, and the changes in its ward since.
    Replied {
        ward: u8,
        reply: Reply,
        moves: u64,
        bound: u64,
    },
    /// The split or merge issued this notice.
    Changed(Notice),
    /// The copy took this notice.
    Taken(Notice),
    /// The table is kept under this number, from 1 on.
    Sent(u32),
    /// The copy joined the sent table.
    Joined,
    /// The copy is back at the start table.
    Restarted,
}

impl Outcome {
    /// What a hop in a ward comes to, of a request that has made so many moves of at most so many.
    pub fn of_hop(ward: u8, hop: &Hop, moves: u64, bound: u64) -> Outcome
        ensures { result ≡ hop_outcome ward (progress_with hop.now moves bound) }
    {
        match hop {
            Hop::Done(reply) => Outcome::Replied {
                ward,
                reply: *reply,
                moves,
                bound,
            },
            _ => Outcome::Hopped { ward, hop: *hop },
        }
    }
}
