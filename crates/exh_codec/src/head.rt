ghost use Rattle.std.specs.Prelude.{◌≡◌, ℕ, List, length, slice_index, IfSome, IfNone};

use crate::kind::Kind;
use byteorder::{BigEndian, ByteOrder};
use exh_page::{Page, PageHead, PageNo};

/// How many bytes of an image stand before its records.
pub const HEAD_LEN: usize = 16;

/// Where the bytes of a prefix or low bound begin.
pub(crate) const LOW_START: usize = 8;

/// The link that an image of a page without a right link has.
pub(crate) const NO_LINK: PageNo = PageNo::MAX;

/// What the first bytes of an image say.
#[derive(Clone, Copy)]
pub(crate) struct Head {
    pub kind: Kind,
    /// The length of the prefix, 0 for a forwarding page.
    pub prefix_len: u8,
    /// How many records there are, 0 for a forwarding page.
    pub count: u8,
    /// The right link's page, or all bits set for none; the target of a forwarding page.
    pub link: PageNo,
    /// The low bound.
    pub low: u64,
}

impl Head {
    ghost use Rattle.std.specs.Prelude.{◌≡◌, ◌≤◌, ◌<◌, ◌^◌, ℕ, List, length, slice_index, IfSome, IfNone};
    ghost use Rattle.exh_codec.specs.declared.head.TheConstants.{HEAD_LEN};
    ghost use Rattle.exh_codec.specs.declared.kind.Kind.{Kind};
    ghost use Rattle.exh_codec.specs.Head.{page_kind_byte, head_of, head_bytes, head_with, IsReadHead};
    ghost use Rattle.exh_page.specs.PrefixLimits.{LIMIT};
    ghost use Rattle.exh_page.specs.declared.page.TheConstants.{CAP_LIMIT};
    ghost use Rattle.exh_page.specs.Page.{records_of};
    ghost use Rattle.exh_page.specs.PageHead.{count_in};

    /// The head of a page's image.
    pub(crate) fn of(page: &Page) -> Head
        requires { length (records_of page.now) ≤ CAP_LIMIT }
        ensures head { result ≡ head_of page.now }
        ensures prefix { result.prefix_len ≤ LIMIT }
        ensures link { result.link < 2 ^ 32 }
    {
        match page {
            Page::Live {
                prefix,
                right,
                records,
            } => Head {
                kind: Kind::Live,
                prefix_len: prefix.len(),
                count: records.len() as u8,
                link: right.unwrap_or(NO_LINK),
                low: prefix.low(),
            },
            Page::Forward { low, target } => Head {
                kind: Kind::Forward,
                prefix_len: 0,
                count: 0,
                link: *target,
                low: *low,
            },
        }
    }

    /// The head of the image of a page that has this one.
    pub(crate) fn with(head: &PageHead) -> Head
        requires { count_in head.now ≤ CAP_LIMIT }
        ensures { result ≡ head_with head.now }
    {
        match head {
            PageHead::Live {
                prefix,
                right,
                count,
            } => Head {
                kind: Kind::Live,
                prefix_len: prefix.len(),
                count: *count as u8,
                link: right.unwrap_or(NO_LINK),
                low: prefix.low(),
            },
            PageHead::Forward { low, target } => Head {
                kind: Kind::Forward,
                prefix_len: 0,
                count: 0,
                link: *target,
                low: *low,
            },
        }
    }

    /// The first bytes of the image.
    #[tactic(auto, unfolding(crate::specs::Head::head_bytes))]
    pub(crate) fn to_bytes(self) -> [u8; HEAD_LEN]
        ensures { result ≡ head_bytes self }
    {
        let mut bytes = [0; HEAD_LEN];
        bytes[0] = self.kind.to_byte();
        bytes[1] = self.prefix_len;
        bytes[2] = self.count;
        BigEndian::write_u32(&mut bytes[4..], self.link);
        BigEndian::write_u64(&mut bytes[8..], self.low);
        bytes
    }

    /// What the first bytes of an image say, `None` where its kind is none.
    pub(crate) fn from_bytes(bytes: &[u8]) -> Option<Head>
        requires { HEAD_LEN ≤ length bytes.now }
        ensures some { IfSome result (IsReadHead bytes.now) }
        ensures none { IfNone result ((kind : Kind) → slice_index bytes.now 0 ≡ page_kind_byte kind → ⊥) }
    {
        let kind = Kind::from_byte(bytes[0])?;
        Some(Head {
            kind,
            prefix_len: bytes[1],
            count: bytes[2],
            link: BigEndian::read_u32(&bytes[4..]),
            low: BigEndian::read_u64(&bytes[8..]),
        })
    }
}
