ghost use Rattle.std.specs.Prelude.{◌≡◌, ◌<◌, ◌≤◌, length, remove, take, OnOk, OnErr};
ghost use Rattle.exh_codec.specs.PageLimits.{CAP_LIMIT};
ghost use Rattle.exh_codec.specs.Page.{IsLive, records_of, with_records};
ghost use Rattle.exh_codec.specs.Records.{with_record};
ghost use Rattle.exh_codec.specs.Search.{IsSpot, IsStood};
ghost use Rattle.exh_codec.specs.declared.block.TheConstants.{CONTENT_LEN};
ghost use Rattle.exh_codec.specs.Block.{sealed};
ghost use Rattle.exh_codec.specs.PageImage.{IsHeld, content_of, page_digest};

use exh_codec::{BLOCK_LEN, DIGEST_LEN, Key, Page, Spot, Value, digest_of, lay_over, put_digest};
use std::alloc::AllocError;
use std::marker::Model;

/// A page in memory, and the digest of its block, where that is known.
#[derive(Drop)]
pub(crate) struct StoredPage {
    page: Page,
    digest: Option<[u8; DIGEST_LEN]>,
}

impl Model for StoredPage {
    ghost use Rattle.exh_codec.specs.declared.Page.{Page};
    ghost use Rattle.exh_stores.specs.Digests.{IsKnownOf};

    ghost Value = { Page };

    ghost view = { λ a. a.page };

    ghost invariant = { λ a. IsKnownOf a.page a.digest };
}

impl StoredPage {
    /// A page whose digest isn't known.
    pub(crate) fn new(page: Page) -> StoredPage
        ensures { result ≡ page }
    {
        StoredPage { page, digest: None }
    }

    /// A page with the digest of its block.
    pub(crate) fn with_digest(page: Page, digest: [u8; DIGEST_LEN]) -> StoredPage
        requires { digest ≡ page_digest page }
        ensures { result ≡ page }
    {
        StoredPage {
            page,
            digest: Some(digest),
        }
    }

    /// The page, to be read in place.
    pub(crate) fn page(&self) -> &Page
        ensures { result.now ≡ self.now }
    {
        &self.page
    }

    /// Puts a record of a key into the page in place, which is live: over the record that stands at a spot,
    /// if it has one. Where memory is refused, an `AllocError`, the page is as before.
    pub(crate) fn put_at(
        &mut self,
        stood: Option<Spot>,
        pseudokey: u64,
        key: &Key,
        value: &Value,
    ) -> Result<(), AllocError>
        requires live { IsLive self.old }
        requires stood { IsStood (pseudokey, key.now) (records_of self.old) stood }
        ensures ok { OnOk result (self.new ≡ with_records (with_record (record { pseudokey = pseudokey; key = key.now; value = value.now }) (records_of self.old)) self.old) }
        ensures err { OnErr result (self.new ≡ self.old) }
    {
        self.digest = None;
        self.page.put_at(stood, pseudokey, key, value)
    }

    /// Takes the record of a spot out of the page in place, which is live.
    pub(crate) fn remove_at(&mut self, spot: Spot)
        requires live { IsLive self.old }
        requires there { spot.index < length (records_of self.old) }
        requires spot { IsSpot (records_of self.old) spot }
        ensures { self.new ≡ with_records (remove (records_of self.old) spot.index) self.old }
    {
        self.digest = None;
        self.page.remove_at(spot);
    }

    /// Writes the page's block, whose digest is made here where it isn't known, and known from then on.
    pub(crate) fn block(&mut self, out: &mut [u8; BLOCK_LEN])
        requires { length (records_of self.old) ≤ CAP_LIMIT }
        ensures page { self.new ≡ self.old }
        ensures block { out.new ≡ sealed (content_of self.old) }
        // The types of a page hold no others.
        ensures in_range { IsHeld self.old }
    {
        lay_over(out, &self.page);
        let digest = self.digest_by(out);
        self.digest = Some(digest);
        put_digest(out, &digest);
    }

    // The digest of the page's block, in which its content stands.
    fn digest_by(&self, block: &[u8; BLOCK_LEN]) -> [u8; DIGEST_LEN]
        requires { take CONTENT_LEN block.now ≡ content_of self.now }
        ensures { result ≡ page_digest self.now }
    {
        match self.digest {
            Some(digest) => digest,
            None => digest_of(block),
        }
    }
}
