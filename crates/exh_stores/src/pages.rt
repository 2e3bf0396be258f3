ghost use Rattle.std.specs.Prelude.{◌≡◌, ◌≢◌, ℕ, ◌-◌, ◌^◌, ◌<◌, ◌≤◌, List, [], ◌∷◌, ◌++◌, length, remove, slice_get, slice_set, Some, IfOk, OnOk, OnErr};
ghost use Rattle.exh_codec.specs.Halves.{left_half, right_half, sent_to, union};
ghost use Rattle.exh_codec.specs.Lookup.{HasPseudokey, IsLookup};
ghost use Rattle.exh_codec.specs.Page.{IsDivisible, IsLive, records_of, with_records};
ghost use Rattle.exh_codec.specs.Records.{IsRising, with_record};
ghost use Rattle.exh_codec.specs.Search.{IsSpot, IsStood};
ghost use Rattle.exh_codec.specs.declared.Page.{Page};
ghost use Rattle.exh_codec.specs.PageLimits.{CAP_LIMIT};
ghost use Rattle.exh_codec.specs.Block.{sealed};
ghost use Rattle.exh_codec.specs.PageImage.{IsHeld, content_of};
ghost use Rattle.exh_stores.specs.PageStore.{IfPage, HasHead, CountsFaults, TakesTheSame};

use crate::PagesFault;
use crate::stored_page::StoredPage;
use exh_codec::{BLOCK_LEN, Key, Lookup, Page, PageHead, PageNo, Prefix, Spot, Value};

/// A store of pages, numbered from 0 on in the order in which they came. Each call
/// that answers a `Result` may be refused: `PagesFault::Page` where a page couldn't be reached, which
/// the store counts as a failure, else `PagesFault::Memory`. Its pages are then as before.
///
/// A store has `count`, `failures`, `get`, `set`, `set_two` and `grow_and_set`, by which the calls with a body are made, and
/// lends pages by `fetched` and `find`: its own, or the one that `PageAtHand` keeps, which gives `fetch` and `reach` too.
/// A call that is made so gets whole pages, which takes memory for them.
pub trait Pages {
    /// The pages, by their numbers.
    ghost pages: { Self → List Page };

    /// The pages that may be handed in, which are always the same.
    ghost takes: { Self → Page → Type 0 };

    /// How many calls have answered a page fault. It never falls.
    ghost failures: { Self → ℕ };

    /// The pages that are at hand, by their numbers.
    ghost at_hand: { Self → ℕ → Type 0 };

    /// The pages that are within reach, by their numbers.
    ghost in_reach: { Self → ℕ → Type 0 };

    /// How many pages there are. It takes no memory.
    fn count(&self) -> PageNo
        ensures { result ≡ length (pages self.now) };

    /// How often a page couldn't be reached. It takes no memory.
    fn failures(&self) -> u64
        ensures { result ≡ failures self.now };

    /// A page equal to the one of this number.
    fn get(&mut self, number: PageNo) -> Result<Page, PagesFault>
        requires { number < length (pages self.old) }
        ensures page { IfOk result (λ page. slice_get (pages self.old) number ≡ Some page) }
        ensures pages { pages self.new ≡ pages self.old }
        ensures failures { CountsFaults result (failures self.old) (failures self.new) }
        ensures takes { TakesTheSame takes self.old self.new };

    /// All of the page of this number but its records. A store whose own it is takes no memory for it.
    fn head(&mut self, number: PageNo) -> Result<PageHead, PagesFault>
        requires { number < length (pages self.old) }
        ensures head { IfOk result (HasHead (pages self.old) number) }
        ensures pages { pages self.new ≡ pages self.old }
        ensures failures { CountsFaults result (failures self.old) (failures self.new) }
        ensures takes { TakesTheSame takes self.old self.new }
    {
        Ok(self.get(number)?.head())
    }

    /// Writes the block that the page of this number has in a page file of the version that is written,
    /// with its digest, which isn't made again where the store has it. A store whose own it is takes no memory for it.
    fn block(&mut self, number: PageNo, out: &mut [u8; BLOCK_LEN]) -> Result<(), PagesFault>
        requires there { number < length (pages self.old) }
        requires few { IfPage (pages self.old) number (λ page. length (records_of page) ≤ CAP_LIMIT) }
        ensures block { OnOk result (IfPage (pages self.old) number (λ page. (out.new ≡ sealed (content_of page)) × IsHeld page)) }
        ensures pages { pages self.new ≡ pages self.old }
        ensures failures { CountsFaults result (failures self.old) (failures self.new) }
        ensures takes { TakesTheSame takes self.old self.new }
    {
        let page = self.get(number)?;
        StoredPage::new(page).block(out);
        Ok(())
    }

    /// Gets the page of this number at hand.
    fn fetch(&mut self, number: PageNo) -> Result<(), PagesFault>
        requires { number < length (pages self.old) }
        ensures at_hand { OnOk result (at_hand self.new number) }
        ensures pages { pages self.new ≡ pages self.old }
        ensures failures { CountsFaults result (failures self.old) (failures self.new) }
        ensures takes { TakesTheSame takes self.old self.new };

    /// The page of this number, which is at hand, to be read in place. It takes no memory.
    fn fetched(&self, number: PageNo) -> &Page
        requires { at_hand self.now number }
        ensures { slice_get (pages self.now) number ≡ Some result.now };

    /// Gets the page of this number within reach. It takes no memory.
    fn reach(&mut self, number: PageNo) -> Result<(), PagesFault>
        requires { number < length (pages self.old) }
        ensures in_reach { OnOk result (in_reach self.new number) }
        ensures pages { pages self.new ≡ pages self.old }
        ensures failures { CountsFaults result (failures self.old) (failures self.new) }
        ensures takes { TakesTheSame takes self.old self.new };

    /// What the page of this number, which is within reach, has for a key. No other record of the page is
    /// of the key. It takes no memory.
    fn find(&self, number: PageNo, pseudokey: u64, key: &Key) -> Lookup<'_>
        requires within { in_reach self.now number }
        requires hashed { IfPage (pages self.now) number (HasPseudokey pseudokey key.now) }
        ensures { (page : Page) × (slice_get (pages self.now) number ≡ Some page) × IsLookup (pseudokey, key.now) page result };

    /// Puts a record of a key into a live page in place: over the record that stands at a spot, where the
    /// page has one, else where it belongs. The page with the record is one that the store takes.
    fn put_at(
        &mut self,
        number: PageNo,
        stood: Option<Spot>,
        pseudokey: u64,
        key: &Key,
        value: &Value,
    ) -> Result<(), PagesFault>
        requires there { number < length (pages self.old) }
        requires live { IfPage (pages self.old) number IsLive }
        requires stood { IfPage (pages self.old) number (λ page. IsStood (pseudokey, key.now) (records_of page) stood) }
        requires taken { IfPage (pages self.old) number (λ page. takes self.old (with_records (with_record (record { pseudokey = pseudokey; key = key.now; value = value.now }) (records_of page)) page)) }
        ensures ok { OnOk result (IfPage (pages self.old) number (λ page. pages self.new ≡ slice_set (pages self.old) number (with_records (with_record (record { pseudokey = pseudokey; key = key.now; value = value.now }) (records_of page)) page))) }
        ensures err { OnErr result (pages self.new ≡ pages self.old) }
        ensures failures { CountsFaults result (failures self.old) (failures self.new) }
        ensures takes { TakesTheSame takes self.old self.new }
    {
        let mut page = self.get(number)?;
        page.put_at(stood, pseudokey, key, value)?;
        self.set(number, page)
    }

    /// Takes the record of a spot out of a live page in place. The page without it is one that the
    /// store takes.
    fn remove_at(&mut self, number: PageNo, spot: Spot) -> Result<(), PagesFault>
        requires there { number < length (pages self.old) }
        requires live { IfPage (pages self.old) number IsLive }
        requires spot { IfPage (pages self.old) number (λ page. (spot.index < length (records_of page)) × IsSpot (records_of page) spot) }
        requires taken { IfPage (pages self.old) number (λ page. takes self.old (with_records (remove (records_of page) spot.index) page)) }
        ensures ok { OnOk result (IfPage (pages self.old) number (λ page. pages self.new ≡ slice_set (pages self.old) number (with_records (remove (records_of page) spot.index) page))) }
        ensures err { OnErr result (pages self.new ≡ pages self.old) }
        ensures failures { CountsFaults result (failures self.old) (failures self.new) }
        ensures takes { TakesTheSame takes self.old self.new }
    {
        let mut page = self.get(number)?;
        page.remove_at(spot);
        self.set(number, page)
    }

    /// Puts a page in place of the one of this number.
    fn set(&mut self, number: PageNo, page: Page) -> Result<(), PagesFault>
        requires there { number < length (pages self.old) }
        requires taken { takes self.old page }
        ensures ok { OnOk result (pages self.new ≡ slice_set (pages self.old) number page) }
        ensures err { OnErr result (pages self.new ≡ pages self.old) }
        ensures failures { CountsFaults result (failures self.old) (failures self.new) }
        ensures takes { TakesTheSame takes self.old self.new };

    /// Puts two pages in place of those of two numbers, both or neither.
    fn set_two(
        &mut self,
        number: PageNo,
        page: Page,
        other: PageNo,
        twin: Page,
    ) -> Result<(), PagesFault>
        requires there { number < length (pages self.old) }
        requires other_there { other < length (pages self.old) }
        requires apart { number ≢ other }
        requires taken { takes self.old page }
        requires twin_taken { takes self.old twin }
        ensures ok { OnOk result (pages self.new ≡ slice_set (slice_set (pages self.old) number page) other twin) }
        ensures err { OnErr result (pages self.new ≡ pages self.old) }
        ensures failures { CountsFaults result (failures self.old) (failures self.new) }
        ensures takes { TakesTheSame takes self.old self.new };

    /// Adds a page, whose number is the count so far, and puts another in place of the one of this
    /// number, both or neither. The greatest number of 32 bits is no page's.
    fn grow_and_set(&mut self, new: Page, number: PageNo, page: Page) -> Result<(), PagesFault>
        requires there { number < length (pages self.old) }
        requires room { length (pages self.old) < 2 ^ 32 - 1 }
        requires new_taken { takes self.old new }
        requires taken { takes self.old page }
        ensures ok { OnOk result (pages self.new ≡ slice_set (pages self.old) number page ++ new ∷ []) }
        ensures err { OnErr result (pages self.new ≡ pages self.old) }
        ensures failures { CountsFaults result (failures self.old) (failures self.new) }
        ensures takes { TakesTheSame takes self.old self.new };

    /// Splits a live page whose prefix is shorter than `LIMIT`: it keeps its left half, and the page of
    /// number `right`, to which it links from then on, becomes its right half. Both change, or neither.
    fn split_into(&mut self, number: PageNo, right: PageNo) -> Result<(), PagesFault>
        requires there { number < length (pages self.old) }
        requires right_there { right < length (pages self.old) }
        requires apart { number ≢ right }
        requires divisible { IfPage (pages self.old) number IsDivisible }
        requires taken { IfPage (pages self.old) number (λ page. takes self.old (left_half right page)) }
        requires right_taken { IfPage (pages self.old) number (λ page. takes self.old (right_half page)) }
        ensures ok { OnOk result (IfPage (pages self.old) number (λ page. pages self.new ≡ slice_set (slice_set (pages self.old) number (left_half right page)) right (right_half page))) }
        ensures err { OnErr result (pages self.new ≡ pages self.old) }
        ensures failures { CountsFaults result (failures self.old) (failures self.new) }
        ensures takes { TakesTheSame takes self.old self.new }
    {
        let page = self.get(number)?;
        let (left, twin) = (page.left_half(right)?, page.right_half()?);
        self.set_two(number, left, right, twin)
    }

    /// Splits such a page into itself and a new one, the right half, whose number is the count so far. The
    /// greatest number of 32 bits is no page's.
    fn split_off(&mut self, number: PageNo) -> Result<(), PagesFault>
        requires there { number < length (pages self.old) }
        requires room { length (pages self.old) < 2 ^ 32 - 1 }
        requires divisible { IfPage (pages self.old) number IsDivisible }
        requires taken { IfPage (pages self.old) number (λ page. takes self.old (left_half (length (pages self.old)) page)) }
        requires right_taken { IfPage (pages self.old) number (λ page. takes self.old (right_half page)) }
        ensures ok { OnOk result (IfPage (pages self.old) number (λ page. pages self.new ≡ slice_set (pages self.old) number (left_half (length (pages self.old)) page) ++ right_half page ∷ [])) }
        ensures err { OnErr result (pages self.new ≡ pages self.old) }
        ensures failures { CountsFaults result (failures self.old) (failures self.new) }
        ensures takes { TakesTheSame takes self.old self.new }
    {
        let page = self.get(number)?;
        let (left, right) = (page.left_half(self.count())?, page.right_half()?);
        self.grow_and_set(right, number, left)
    }

    /// Merges two live pages, the halves of a parent: the left one, of this number, becomes the parent's
    /// page, with the records of both and the right link of its buddy, which sends callers on to it from
    /// then on. Both change, or neither.
    fn merge(&mut self, parent: Prefix, number: PageNo, buddy: PageNo) -> Result<(), PagesFault>
        requires there { number < length (pages self.old) }
        requires buddy_there { buddy < length (pages self.old) }
        requires apart { number ≢ buddy }
        requires live { IfPage (pages self.old) number IsLive }
        requires buddy_live { IfPage (pages self.old) buddy IsLive }
        requires rising { IfPage (pages self.old) number (λ page. IfPage (pages self.old) buddy (λ other. IsRising (records_of page ++ records_of other))) }
        requires taken { IfPage (pages self.old) number (λ page. IfPage (pages self.old) buddy (λ other. takes self.old (union parent page other))) }
        requires sent_taken { IfPage (pages self.old) buddy (λ other. takes self.old (sent_to number other)) }
        ensures ok { OnOk result (IfPage (pages self.old) number (λ page. IfPage (pages self.old) buddy (λ other. pages self.new ≡ slice_set (slice_set (pages self.old) number (union parent page other)) buddy (sent_to number other)))) }
        ensures err { OnErr result (pages self.new ≡ pages self.old) }
        ensures failures { CountsFaults result (failures self.old) (failures self.new) }
        ensures takes { TakesTheSame takes self.old self.new }
    {
        let page = self.get(number)?;
        let other = self.get(buddy)?;
        let union = page.union(parent, &other)?;
        let sent = other.sent_to(number);
        self.set_two(number, union, buddy, sent)
    }
}
