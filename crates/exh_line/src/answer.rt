ghost use Rattle.std.specs.Prelude.{◌≡◌};
ghost use Rattle.exh_walk.specs.declared.event.Event.{Event as EventType};
ghost use Rattle.exh_line.specs.LineAnswer.{copy_in, hop_answer, outcome_answer, request_in, table_in};
ghost use Rattle.exh_line.specs.LineStart.{short_event};

use crate::{Moves, Refusal, ShortStep, Told};
use exh_calls::Reply;
use exh_notice::Notice;
use exh_prefix::PageNo;
use exh_walk::{Event, Outcome};
use exh_ward::Hop;

/// What a line of a script is answered, unless it asks for a view. Each variant is one printed line.
#[derive(Clone, Copy)]
pub enum Answer {
    /// `rN at W/P`: the request stands at a page of a ward.
    Begun { name: u32, ward: u8, page: PageNo },
    /// `rN is V`, `rN none`, `rN new`, `rN was V`, `rN full`, `rN swapped` or `rN differs V`: the request is answered.
    /// Where its moves are told, ` moves M of B` stands behind it.
    Replied { name: u32, reply: Reply, told: Told },
    /// `rN moved W/P`: the request goes on at another page.
    Moved { name: u32, ward: u8, page: PageNo },
    /// `rN split`: the request waits for a split.
    MustSplit { name: u32 },
    /// `rN stray`: the request stands where no key of its kind is.
    Stray { name: u32 },
    /// `notice W/I prefix P number N split right R`, or with `merge` at its end: a page was split or merged.
    Changed(Notice),
    /// `copy C took W/I`: the copy took a ward's notice.
    Taken { copy: u32, ward: u8, index: u64 },
    /// `table T`: a copy's table was sent.
    Sent { table: u32 },
    /// `copy C joined T`: the copy joined a sent table.
    Joined { copy: u32, table: u32 },
    /// `copy C restarted`: the copy has lost what it was told.
    Restarted { copy: u32 },
    /// `refused N`: the line changed nothing.
    Refused(Refusal),
}

// The request, the copy and the sent table that an event names, 0 where it names none.
#[derive(Clone, Copy)]
struct Named {
    request: u32,
    copy: u32,
    table: u32,
}

impl Answer {
    /// What an event's line is answered where it isn't refused. A reply may tell the moves of its request.
    pub fn of_outcome(event: &Event, outcome: &Outcome, tells_moves: bool) -> Answer
        ensures { result ≡ outcome_answer tells_moves event.now outcome.now }
    {
        let named = Named {
            request: request_in(event),
            copy: copy_in(event),
            table: table_in(event),
        };
        Answer::of_named(named, outcome, tells_moves)
    }

    /// The same of a step without a call.
    pub(crate) fn of_short(step: ShortStep, outcome: &Outcome, tells_moves: bool) -> Answer
        ensures { result ≡ outcome_answer tells_moves (short_event step) outcome.now }
    {
        let (request, copy) = match step {
            ShortStep::Hop { name } => (name, 0),
            ShortStep::Split { .. } => (0, 0),
            ShortStep::Deliver { copy, .. } => (0, copy),
        };
        let named = Named {
            request,
            copy,
            table: 0,
        };
        Answer::of_named(named, outcome, tells_moves)
    }

    // The same of whatever event names these.
    fn of_named(named: Named, outcome: &Outcome, tells_moves: bool) -> Answer
        ensures { (event : EventType) → request_in event ≡ named.request → copy_in event ≡ named.copy → table_in event ≡ named.table → result ≡ outcome_answer tells_moves event outcome.now }
    {
        match outcome {
            Outcome::Begun { ward, page } => Answer::Begun {
                name: named.request,
                ward: *ward,
                page: *page,
            },
            Outcome::Hopped { ward, hop } => Answer::of_hop(named.request, *ward, hop),
            Outcome::Replied {
                reply,
                moves,
                bound,
                ..
            } => Answer::Replied {
                name: named.request,
                reply: *reply,
                told: tells_moves.then_some(Moves {
                    made: *moves,
                    bound: *bound,
                }),
            },
            Outcome::Changed(notice) => Answer::Changed(*notice),
            Outcome::Taken(notice) => Answer::Taken {
                copy: named.copy,
                ward: notice.ward,
                index: notice.index,
            },
            Outcome::Sent(table) => Answer::Sent { table: *table },
            Outcome::Joined => Answer::Joined {
                copy: named.copy,
                table: named.table,
            },
            Outcome::Restarted => Answer::Restarted { copy: named.copy },
        }
    }

    // What a hop in a ward is answered, which tells no moves.
    fn of_hop(name: u32, ward: u8, hop: &Hop) -> Answer
        ensures { result ≡ hop_answer name ward hop.now }
    {
        match hop {
            Hop::Done(reply) => Answer::Replied {
                name,
                reply: *reply,
                told: None,
            },
            Hop::Moved(page) => Answer::Moved {
                name,
                ward,
                page: *page,
            },
            Hop::MustSplit => Answer::MustSplit { name },
            Hop::Stray => Answer::Stray { name },
        }
    }
}

// The request that an event's line names, 0 where it names none.
fn request_in(event: &Event) -> u32
    ensures { result ≡ request_in event.now }
{
    match event {
        Event::Begin { name, .. } | Event::Hop { name } => *name,
        _ => 0,
    }
}

// The copy, 0 where it names none.
fn copy_in(event: &Event) -> u32
    ensures { result ≡ copy_in event.now }
{
    match event {
        Event::Deliver { copy, .. } | Event::Combine { copy, .. } | Event::Restart { copy } =>
            *copy,
        _ => 0,
    }
}

// The sent table, 0 where it names none.
fn table_in(event: &Event) -> u32
    ensures { result ≡ table_in event.now }
{
    match event {
        Event::Combine { table, .. } => *table,
        _ => 0,
    }
}
