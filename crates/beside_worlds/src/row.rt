//! Events of a file of one ward, each with what it comes to.

use exh_fixtures::{Difference, Part, Said, merge, prefix, split};
use exh_notice::Notice;
use exh_prefix::PageNo;
use exh_ward::{Call, Hop, Reply, WardFault};
use exh_world::{Event, Outcome, StepFault, Turn};
use std::alloc::AllocError;

/// A change of the ward: its index, the bits of its prefix, its number there, and the right page of a split.
#[derive(Clone, Copy)]
pub(crate) struct Change(
    pub(crate) u64,
    pub(crate) &'static str,
    pub(crate) u32,
    pub(crate) Option<PageNo>,
);

impl Change {
    fn notice(&self) -> Result<Notice, Difference> {
        let Change(index, bits, number, right) = *self;
        let prefix = prefix(bits)?;
        Ok(match right {
            Some(right) => split(index, prefix, number, right),
            None => merge(index, prefix, number),
        })
    }
}

/// An event, and what it comes to.
#[derive(Clone, Copy)]
pub(crate) enum Row {
    /// A request of this name is begun at a copy, which names the page.
    Begin(u32, u32, Said<'static>, PageNo),
    /// A hop leads a request on to a page.
    Moved(u32, PageNo),
    /// A hop finds that the page is to be split first.
    MustSplit(u32),
    /// A hop answers a request, after so many moves of at most so many.
    Done(u32, Said<'static>, u64, u64),
    /// A page is split.
    Split(PageNo, Change),
    /// A page is merged.
    Merge(PageNo, Change),
    /// A split of a page is refused.
    NoSplit(PageNo, WardFault),
    /// A merge of a page is refused.
    NoMerge(PageNo, WardFault),
    /// A copy takes a notice.
    Taken(u32, Change),
    /// A copy's table is sent, under a number.
    Sent(u32, u32),
    /// A copy joins the table of a number.
    Joined(u32, u32),
    /// A copy restarts.
    Restarted(u32),
}

impl Row {
    /// Puts the event behind others, with what it comes to. Where a key, a value or a prefix is too long it is another
    /// event, and comes to something else.
    pub(crate) fn push_turn(&self, turns: &mut Vec<Turn>) -> Result<(), AllocError> {
        let call = self.call();
        let event = self.told_event(call);
        let hop = self.hop();
        let reply = self.reply();
        let result = self.told_result(hop, reply);
        turns.reserve(1)?;
        turns.push_reserved(Turn { event, result });
        Ok(())
    }

    /// At least how many calls of pages the event makes, each of which may be refused: a begun request knows how far
    /// its page is, so one page is looked at; a hop looks at its page, and an answer that changes it is written; a split
    /// looks at the page, and writes; a merge looks at both, and writes; a refused one looks. A copy's event makes none.
    pub(crate) fn least_calls(&self) -> u32 {
        match self {
            Row::Begin(..) | Row::Moved(..) | Row::MustSplit(_) | Row::NoSplit(..) => 1,
            Row::Done(_, said, ..) => 1 + u32::from(is_written(said)),
            Row::Split(..) | Row::NoMerge(..) => 2,
            Row::Merge(..) => 3,
            Row::Taken(..) | Row::Sent(..) | Row::Joined(..) | Row::Restarted(_) => 0,
        }
    }

    fn call(&self) -> Option<Call> {
        match self {
            Row::Begin(_, _, said, _) => call_of(said).ok(),
            _ => None,
        }
    }

    fn reply(&self) -> Option<Reply> {
        match self {
            Row::Done(_, said, ..) => said.reply().ok(),
            _ => None,
        }
    }

    // The hop that leaves a request without an answer.
    fn hop(&self) -> Option<Hop> {
        match self {
            Row::Moved(_, page) => Some(Hop::Moved(*page)),
            Row::MustSplit(_) => Some(Hop::MustSplit),
            _ => None,
        }
    }

    fn told_event(&self, call: Option<Call>) -> Event {
        match self.event(call) {
            Ok(event) => event,
            Err(_) => Event::Hop { name: 0 },
        }
    }

    fn told_result(&self, hop: Option<Hop>, reply: Option<Reply>) -> Result<Outcome, StepFault> {
        match self.result(hop, reply) {
            Ok(result) => result,
            Err(_) => Err(StepFault::NoWard),
        }
    }

    fn event(&self, call: Option<Call>) -> Result<Event, Difference> {
        Ok(match *self {
            Row::Begin(name, copy, ..) => Event::Begin {
                name,
                client: 1,
                copy,
                call: call.ok_or(Difference::Apart(Part::Run))?,
            },
            Row::Moved(name, _) | Row::MustSplit(name) | Row::Done(name, ..) => Event::Hop { name },
            Row::Split(page, _) | Row::NoSplit(page, _) => Event::Split { ward: 0, page },
            Row::Merge(page, _) | Row::NoMerge(page, _) => Event::Merge { ward: 0, page },
            Row::Taken(copy, Change(index, ..)) => Event::Deliver {
                copy,
                ward: 0,
                index,
            },
            Row::Sent(copy, _) => Event::Send { copy },
            Row::Joined(copy, table) => Event::Combine { copy, table },
            Row::Restarted(copy) => Event::Restart { copy },
        })
    }

    fn result(
        &self,
        hop: Option<Hop>,
        reply: Option<Reply>,
    ) -> Result<Result<Outcome, StepFault>, Difference> {
        Ok(Ok(match self {
            Row::Begin(.., page) => Outcome::Begun {
                ward: 0,
                page: *page,
            },
            Row::Moved(..) | Row::MustSplit(_) => Outcome::Hopped {
                ward: 0,
                hop: hop.ok_or(Difference::Apart(Part::Run))?,
            },
            Row::Done(_, _, moves, bound) => Outcome::Replied {
                ward: 0,
                reply: reply.ok_or(Difference::Apart(Part::Run))?,
                moves: *moves,
                bound: *bound,
            },
            Row::Split(_, change) | Row::Merge(_, change) => Outcome::Changed(change.notice()?),
            Row::NoSplit(_, fault) | Row::NoMerge(_, fault) => {
                return Ok(Err(StepFault::Ward(*fault)));
            }
            Row::Taken(_, change) => Outcome::Taken(change.notice()?),
            Row::Sent(_, number) => Outcome::Sent(*number),
            Row::Joined(..) => Outcome::Joined,
            Row::Restarted(_) => Outcome::Restarted,
        }))
    }
}

fn call_of(said: &Said<'_>) -> Result<Call, Difference> {
    said.asked().call()
}

// Whether a call changes its page.
fn is_written(said: &Said<'_>) -> bool {
    matches!(
        said,
        Said::New(..) | Said::Changed(..) | Said::Was(..) | Said::Swapped(..)
    )
}
