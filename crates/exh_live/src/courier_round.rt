ghost use Rattle.std.specs.Prelude.{◌≡◌, ◌+◌, ◌^◌, ◌<◌, ◌≤◌, ◌↔◌, ℕ, [], ◌++◌, length, map, List, IsTrue, IfOk, OnOk, OnErr};
ghost use Rattle.exh_notice.specs.declared.notice.Notice.{Notice as NoticeValue};
ghost use Rattle.exh_copy.specs.declared.addition.Addition.TheVariants.{Take};
ghost use Rattle.exh_live.specs.Rounds.{AreCarried, AreSomeWardsNotices, Follows, HadSoMany, IsRefusedRound, PushesBatch, PushesFromTo, TakesAll, TakesFirst};

use crate::lock::yield_and_lock;
use crate::tallied_ward::TURN_LIMIT;
use crate::{Cursors, Identity, LiveFile};
use exh_copy::{CopyWriter, Start};
use exh_keyer::Keyer;
use exh_notice::Notice;
use exh_stores::Pages;
use std::alloc::AllocError;
use std::sync::Wait;

impl<P: Pages + Drop, K: Keyer, F: Identity> LiveFile<P, K, F> {
    /// One round of a courier to a copy of the directory, from its cursors, one for each ward of the file:
    /// it copies the notices after each, ward by ward, as many as the ward has at the first turn of its
    /// lock, which is left after 256 notices; then the copy takes them all, with no lock held; then all
    /// that is pending is published; and then the cursors move to the last of them. Where a notice isn't of
    /// that ward with the next index, none from it on is taken of that ward. It answers how many it took.
    /// Where memory is refused, an `AllocError`, it publishes nothing and moves no cursor, and what it has
    /// taken is pending: to take that once more changes nothing. It may wait for callers, and for readers
    /// of the copy.
    pub fn courier_round<R: Wait, S: Start>(
        &self,
        rt: &R,
        copy: &mut CopyWriter<S>,
        cursors: &mut Cursors,
    ) -> Result<u64, AllocError>
        requires { length cursors.old ≡ 2 ^ self.now.ward_bits }
        ensures carried { IfOk result (λ count. (notices : List NoticeValue) × AreCarried 0 cursors.old notices cursors.new × (count ≡ length notices) × (copy.new ≡ record copy.old { published = copy.old.published ++ copy.old.pending ++ map Take notices; pending = [] }) × AreSomeWardsNotices K.pseudokey_of notices) }
        ensures cursors { length cursors.new ≡ length cursors.old }
        ensures name { copy.new.name ≡ copy.old.name }
        ensures err { OnErr result (IsRefusedRound K.pseudokey_of copy.old cursors.old copy.new cursors.new) }
    {
        let (notices, lasts) = self.notices_after(rt, cursors.of_wards.as_slice())?;
        take_all(copy, notices.as_slice())?;
        copy.publish(rt)?;
        cursors.of_wards = lasts;
        Ok(notices.len() as u64)
    }

    // The notices after a cursor in each ward, ward by ward, and the cursors behind them.
    fn notices_after<R: Wait>(
        &self,
        rt: &R,
        cursors: &[u64],
    ) -> Result<(Vec<Notice>, Vec<u64>), AllocError>
        requires { length cursors.now ≡ 2 ^ self.now.ward_bits }
        ensures carried { IfOk result (λ found. AreCarried 0 cursors.now found.0.items found.1.items) }
        ensures wards { IfOk result (λ found. AreSomeWardsNotices K.pseudokey_of found.0.items) }
    {
        let mut notices = Vec::new(self.alloc);
        let mut lasts = Vec::new(self.alloc);
        for number in 0..1u8 << self.settings.ward_bits {
            let cursor = cursors[usize::from(number)];
            lasts.push(self.push_of_ward(rt, number, cursor, &mut notices)?)?;
        }
        Ok((notices, lasts))
    }

    // Pushes the notices of one ward after a cursor, as many as it has at the first turn of its lock, and
    // answers the index of the last, or the cursor where there is none.
    fn push_of_ward<R: Wait>(
        &self,
        rt: &R,
        number: u8,
        cursor: u64,
        notices: &mut Vec<Notice>,
    ) -> Result<u64, AllocError>
        requires { number < 2 ^ self.now.ward_bits }
        ensures pushed { IfOk result (PushesFromTo number notices.old.items cursor notices.new.items) }
        ensures wards { OnOk result (AreSomeWardsNotices K.pseudokey_of notices.old.items → AreSomeWardsNotices K.pseudokey_of notices.new.items) }
        ensures few { IfOk result (λ last. (count : ℕ) × HadSoMany K.pseudokey_of cursor count × (last ≤ cursor + count)) }
    {
        let ward = &self.wards[usize::from(number)];
        let mut batch = Vec::new(self.alloc);
        let mut last = cursor;
        let count = yield_and_lock(ward, rt).count_above(cursor);
        let mut left = count;
        while 0 < left {
            batch.clear();
            yield_and_lock(ward, rt).hand_out(last, &mut batch)?;
            let most = left.min(TURN_LIMIT);
            last = push_next(notices, number, last, &batch[..batch.len().min(most)])?;
            left -= most;
        }
        Ok(last)
    }
}

// Pushes notices of the ward of this number in order, as long as each has the index after the last, from a
// cursor on, and answers the index of the last one, or the cursor where there is none.
fn push_next(
    notices: &mut Vec<Notice>,
    number: u8,
    cursor: u64,
    batch: &[Notice],
) -> Result<u64, AllocError>
    ensures { IfOk result (PushesBatch number batch.now notices.old.items cursor notices.new.items) }
{
    let mut last = cursor;
    for notice in batch {
        if !is_next(notice, number, last) {
            break;
        }
        notices.push(*notice)?;
        last = notice.index;
    }
    Ok(last)
}

// Takes notices in order, of which none is published. Where memory is refused, some first ones are taken.
fn take_all<S: Start>(copy: &mut CopyWriter<S>, notices: &[Notice]) -> Result<(), AllocError>
    ensures ok { OnOk result (TakesAll copy.old notices.now copy.new) }
    ensures err { OnErr result (TakesFirst copy.old notices.now copy.new) }
{
    for notice in notices {
        copy.take(notice)?;
    }
    Ok(())
}

// Whether a notice is of the ward of this number, with the index after a cursor.
fn is_next(notice: &Notice, ward: u8, cursor: u64) -> bool
    ensures { IsTrue result ↔ Follows ward cursor notice.now }
{
    notice.ward == ward && notice.index > cursor && notice.index - cursor == 1
}
