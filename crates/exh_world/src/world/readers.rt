ghost use Rattle.std.specs.Prelude.{◌≡◌, ◌≤◌, ℕ, slice_get, Some, None, IfOk, IfErr, OnOk};
ghost use Rattle.std.specs.Map.Iter.{ShowsInOrder, deref_pair};
ghost use Rattle.exh_array.specs.Pointers.{HasArrayOf};
ghost use Rattle.exh_legal.specs.Pages.{IsAt};
ghost use Rattle.exh_page.specs.declared.page.Page.{Page};
ghost use Rattle.exh_page.specs.PageHead.{head_of};
ghost use Rattle.exh_ward.specs.WardState.{WardState};
ghost use Rattle.exh_ward.specs.WardFault.{PageRefused};
ghost use Rattle.exh_prefix.specs.declared.prefix.TheConstants.{WARD_BITS_LIMIT};
ghost use Rattle.exh_world.specs.Sound.{IsSoundWorld};
ghost use Rattle.exh_world.specs.Step.{IsChangeRefused, LeavesRefused};
ghost use Rattle.exh_world.specs.World.{numbered};
ghost use Rattle.exh_world.specs.declared.request.Request.{Request as RequestType};

use super::World;
use super::place::place_of;
use crate::Requests;
use exh_array::Directory;
use exh_keyer::Keyer;
use exh_page::PageHead;
use exh_prefix::PageNo;
use exh_stores::Pages;
use exh_walk::StepFault;

impl<P: Pages + Drop, K: Keyer> World<P, K> {
    /// The file is cut into 2^this many wards, by so many leading bits of pseudokeys, 0 to 4. It takes
    /// no memory.
    pub fn ward_bits(&self) -> u8
        ensures bits { result ≡ self.now.ward_bits }
        ensures most { result ≤ WARD_BITS_LIMIT }
    {
        self.ward_bits
    }

    /// A copy, whose array is of its table at the world's ward bits. Copies are numbered from 1 on. It
    /// takes no memory. Refused: `NoCopy`.
    pub fn copy(&self, number: u32) -> Result<&Directory, StepFault>
        ensures copy { IfOk result (λ copy. numbered self.now.copies number ≡ Some copy.now.table) }
        ensures array { IfOk result (λ copy. HasArrayOf self.now.ward_bits copy.now) }
        ensures refused { IfErr result (λ fault. (fault ≡ StepFault.NoCopy) × (numbered self.now.copies number ≡ None)) }
    {
        let Some(at) = place_of(self.copies.count(), number) else {
            return Err(StepFault::NoCopy);
        };
        Ok(self.copies.copy(at))
    }

    /// The requests in flight with their names, in the order begun. It takes no memory.
    pub fn in_flight(&self) -> Requests<'_>
        ensures rest { result ≡ self.now.in_flight }
        ensures runs { ShowsInOrder (deref_pair {K = ℕ} {X = RequestType}) }
    {
        self.in_flight.iter()
    }

    /// What a line that shows the page of this number in a ward names: all of it but its records, with their count. Both
    /// are numbered from 0 on. Refused in this order: `NoWard`, `NoPage`; at any point `Memory` and `Page`. The world
    /// stays as it was, but that at `Page` the ward has counted it.
    pub fn page_line(&mut self, ward: u32, page: PageNo) -> Result<PageHead, StepFault>
        ensures head { IfOk result (λ head. (state : WardState K) × (slice_get self.old.wards ward ≡ Some state) × (content : Page) × IsAt state.pages page content × (head ≡ head_of content)) }
        ensures ok { OnOk result (self.new ≡ self.old) }
        ensures refused { IfErr result (λ fault. LeavesRefused (λ number. number ≡ ward) (IsChangeRefused self.old (λ state. PageRefused state.pages) ward page) self.old fault self.new) }
        ensures sound { IsSoundWorld K.pseudokey_of self.new }
    {
        let Some(state) = self.wards.get_mut(ward as usize) else {
            return Err(StepFault::NoWard);
        };
        Ok(state.head(page)?)
    }
}
