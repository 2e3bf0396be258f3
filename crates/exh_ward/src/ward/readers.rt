ghost use Rattle.std.specs.Prelude.{◌≡◌, ◌-◌, ◌^◌, ◌<◌, ◌≤◌, ℕ, [], length, IfOk, IfErr, OnOk, OnErr};
ghost use Rattle.exh_prefix.specs.Prefix.{Begins};
ghost use Rattle.exh_prefix.specs.declared.prefix.TheConstants.{LIMIT};
ghost use Rattle.exh_page.specs.declared.page.Page.{Page};
ghost use Rattle.exh_page.specs.declared.page.TheConstants.{CAP_LIMIT};
ghost use Rattle.exh_stores.specs.PageStore.{IfPage};
ghost use Rattle.exh_stores.specs.Block.{sealed};
ghost use Rattle.exh_stores.specs.PageImage.{IsHeld, content_of};
ghost use Rattle.exh_page.specs.PageHead.{head_of};
ghost use Rattle.exh_legal.specs.LegalLaws.{NamesHome};
ghost use Rattle.exh_legal.specs.Pages.{IsAt};
ghost use Rattle.exh_page.specs.FileSettings.{AreInRange};
ghost use Rattle.exh_ward.specs.WardFault.{PageRefused, CountsFailures};
ghost use Rattle.exh_ward.specs.WardState.{IsSoundWard, IsUnchanged, notices_above, own_prefix};

use super::Ward;
use crate::WardFault;
use exh_calls::{Base, Journal};
use exh_keyer::Keyer;
use exh_legal::{Table, pages_are_few, walks_name_homes};
use exh_notice::Notice;
use exh_page::{FileSettings, Key, Page, PageHead};
use exh_prefix::PageNo;
use exh_stores::{BLOCK_LEN, Pages};

impl<P: Pages + Drop, K: Keyer> Ward<P, K> {
    /// The notices whose index is above `n`, in order: what a caller whose last index is `n` lacks.
    /// It takes no memory.
    pub fn notices_after(&self, n: u64) -> &[Notice]
        ensures notices { result.now ≡ notices_above n self.now.notices }
        ensures sound { IsSoundWard K.pseudokey_of self.now }
    {
        // The start table tells of the changes before the first notice.
        let known = n.saturating_sub(self.told);
        if known < self.notices.len() as u64 {
            &self.notices[known as usize..]
        } else {
            &[]
        }
    }

    /// What the ward tells of its pages: the table of its start table and its notices. It takes no
    /// memory.
    pub fn table(&self) -> &Table
        ensures table { result.now ≡ self.now.table }
        ensures sound { IsSoundWard K.pseudokey_of self.now }
        ensures walks { (pseudokey : ℕ) → pseudokey < 2 ^ 64 → Begins (own_prefix self.now) pseudokey → NamesHome (own_prefix self.now) self.now.start self.now.notices self.now.table self.now.pages pseudokey }
    {
        walks_name_homes();
        &self.table
    }

    /// The table that the ward began with. It takes no memory.
    pub fn start(&self) -> &Table
        ensures { result.now ≡ self.now.start }
    {
        &self.start
    }

    /// The most records that a page of the ward may hold. It takes no memory.
    pub fn cap(&self) -> usize
        ensures { result ≡ self.now.cap }
    {
        self.cap
    }

    /// The logarithm of how many wards the file is cut into. It takes no memory.
    pub fn ward_bits(&self) -> u8
        ensures { result ≡ self.now.ward_bits }
    {
        self.ward_bits
    }

    /// The ward's number: the leading bits of its pseudokeys. It takes no memory.
    pub fn number(&self) -> u8
        ensures { result ≡ self.now.number }
    {
        self.number
    }

    /// The keyer of the ward. It takes no memory.
    pub fn keyer(&self) -> K
        ensures { result ≡ self.now.keyer }
    {
        self.keyer
    }

    /// The settings of the file that the ward is of. It takes no memory.
    pub fn settings(&self) -> FileSettings<K>
        ensures settings { result ≡ record { cap = self.now.cap; ward_bits = self.now.ward_bits; keyer = self.now.keyer } }
        ensures range { AreInRange result }
    {
        FileSettings {
            cap: self.cap as u8,
            ward_bits: self.ward_bits,
            keyer: self.keyer,
        }
    }

    /// How many pages the ward has. It takes no memory.
    pub fn page_count(&self) -> PageNo
        ensures count { result ≡ length self.now.pages }
        ensures limit { result ≤ 2 ^ (LIMIT - self.now.ward_bits) }
    {
        pages_are_few();
        self.store.count()
    }

    /// A page equal to the one of this number. Refused: `NoPage`; at any point `Memory` and `Page`.
    /// Then the ward is as before.
    pub fn page(&mut self, number: PageNo) -> Result<Page, WardFault>
        ensures page { IfOk result (λ page. IsAt self.old.pages number page) }
        ensures refused { IfErr result (PageRefused self.old.pages number) }
        ensures ok { IfOk result (λ _. self.new ≡ self.old) }
        ensures err { OnErr result (IsUnchanged self.old self.new) }
        ensures failures { CountsFailures result self.old.failures self.new.failures }
        ensures sound { IsSoundWard K.pseudokey_of self.new }
    {
        if number >= self.store.count() {
            return Err(WardFault::NoPage);
        }
        Ok(self.store.get(number)?)
    }

    /// All of the page of this number but its records. Refused: `NoPage`; at any point `Memory` and
    /// `Page`. Then the ward is as before.
    pub fn head(&mut self, number: PageNo) -> Result<PageHead, WardFault>
        ensures head { IfOk result (λ head. (page : Page) × IsAt self.old.pages number page × (head ≡ head_of page)) }
        ensures refused { IfErr result (PageRefused self.old.pages number) }
        ensures ok { IfOk result (λ _. self.new ≡ self.old) }
        ensures err { OnErr result (IsUnchanged self.old self.new) }
        ensures failures { CountsFailures result self.old.failures self.new.failures }
        ensures sound { IsSoundWard K.pseudokey_of self.new }
    {
        if number >= self.store.count() {
            return Err(WardFault::NoPage);
        }
        Ok(self.store.head(number)?)
    }

    /// Writes the block that the page of this number has in a page file of the version that is written.
    /// Its digest isn't made again where the store has it. Refused: `NoPage`; at any point `Memory` and
    /// `Page`. Then the ward is as before.
    pub fn block(&mut self, number: PageNo, out: &mut [u8; BLOCK_LEN]) -> Result<(), WardFault>
        requires cap { self.old.cap ≤ CAP_LIMIT }
        ensures block { OnOk result (IfPage self.old.pages number (λ page. (out.new ≡ sealed (content_of page)) × IsHeld page)) }
        ensures refused { IfErr result (PageRefused self.old.pages number) }
        ensures ok { OnOk result (self.new ≡ self.old) }
        ensures err { OnErr result (IsUnchanged self.old self.new) }
        ensures failures { CountsFailures result self.old.failures self.new.failures }
        ensures sound { IsSoundWard K.pseudokey_of self.new }
    {
        if number >= self.store.count() {
            return Err(WardFault::NoPage);
        }
        Ok(self.store.block(number, out)?)
    }

    /// The pseudokey that the ward's keyer makes of a key. It takes no memory.
    pub fn pseudokey(&self, key: &Key) -> u64
        ensures { result ≡ K.pseudokey_of self.now.keyer key.now }
    {
        self.keyer.pseudo(key.as_bytes())
    }

    /// The calls that were answered, in order, with their callers and replies: a history from the
    /// base, which leaves the map of the pages. It takes no memory.
    pub fn journal(&self) -> &Journal
        ensures entries { result.now.entries ≡ self.now.journal }
        ensures sound { IsSoundWard K.pseudokey_of self.now }
    {
        &self.journal
    }

    /// The map that the history begins with. It takes no memory.
    pub fn base(&self) -> &Base
        ensures { result.now ≡ self.now.base }
    {
        &self.base
    }
}
