//! A store of pages of which one call fails: the call of each kind is refused where its turn has come, and else done.

ghost use Rattle.std.specs.Prelude.{◌≡◌, ◌<◌, [], length, IfSome};
ghost use Rattle.exh_page.specs.Page.{records_of, IsDivisible, IsLive};
ghost use Rattle.exh_page.specs.Place.{place_of};
ghost use Rattle.exh_page.specs.Records.{IsRising};
ghost use Rattle.exh_page.specs.Search.{IsStood};
ghost use Rattle.exh_stores.specs.PageStore.{IfPage};

use exh_codec::BLOCK_LEN;
use exh_frames::{FailingPages, Pages, PagesCall, PagesFault, PlainPages};
use exh_page::{Key, Page, Record, Records, Spot, Value};
use exh_prefix::{PageNo, Prefix};
use std::alloc::Global;

// A record of the key `k`.
fn record(value: &[u8]) -> Option<Record> {
    Some(Record {
        pseudokey: 3 << 62,
        key: Key::from_bytes(b"k").ok()?,
        value: Value::from_bytes(value).ok()?,
    })
}

fn live(alloc: Global, len: u8, bits: u64, right: Option<PageNo>) -> Option<Page>
    ensures live { IfSome result IsLive }
    ensures bare { IfSome result (λ page. records_of page ≡ []) }
{
    Some(Page::Live {
        prefix: Prefix::new(len, bits)?,
        right,
        records: Records::new(alloc),
    })
}

// Pages of the prefixes 0 and 1, the first with a record of the key `k`.
fn two_pages(alloc: Global) -> Option<PlainPages>
    ensures two { IfSome result (λ store. length store ≡ 2) }
    ensures first_live { IfSome result (λ store. IfPage store 0 IsLive) }
    ensures divisible { IfSome result (λ store. IfPage store 0 IsDivisible) }
    ensures rising { IfSome result (λ store. IfPage store 0 (λ page. IsRising (records_of page))) }
    ensures live { IfSome result (λ store. IfPage store 1 IsLive) }
    ensures bare { IfSome result (λ store. IfPage store 1 (λ page. records_of page ≡ [])) }
{
    let mut records = Records::new(alloc);
    records.put(record(b"a")?).ok()?;
    let left = Page::Live {
        prefix: Prefix::new(1, 0)?,
        right: Some(1),
        records,
    };
    let right = live(alloc, 1, 1 << 63, None)?;
    let mut store = PlainPages::new(alloc, live(alloc, 0, 0, None)?).ok()?;
    store.grow_and_set(right, 0, left).ok()?;
    Some(store)
}

fn forward(low: u64) -> Page {
    Page::Forward { low, target: 1 }
}

// Where a record stands in the first page, if it does.
fn spot_of(store: &mut PlainPages, item: &Record) -> Option<Option<Spot>>
    requires { 0 < length store.old }
    ensures spot { IfSome result (λ spot. IfPage store.old 0 (λ page. IsStood (place_of item.now) (records_of page) spot)) }
    ensures pages { store.new ≡ store.old }
{
    store.fetch(0).ok()?;
    Some(store.fetched(0).look_up(item.pseudokey, &item.key).spot)
}

// The answer to one call of a kind.
fn answer(
    store: &mut FailingPages<PlainPages>,
    call: PagesCall,
    item: &Record,
    spot: Option<Spot>,
) -> Option<PagesFault>
    requires two { length (store.old).inner ≡ 2 }
    requires first_live { IfPage (store.old).inner 0 IsLive }
    requires divisible { IfPage (store.old).inner 0 IsDivisible }
    requires rising { IfPage (store.old).inner 0 (λ page. IsRising (records_of page)) }
    requires live { IfPage (store.old).inner 1 IsLive }
    requires bare { IfPage (store.old).inner 1 (λ page. records_of page ≡ []) }
    requires stood { IfPage (store.old).inner 0 (λ page. IsStood (place_of item.now) (records_of page) spot) }
{
    match call {
        PagesCall::Get => store.get(0).err(),
        PagesCall::Head => store.head(0).err(),
        PagesCall::Block => store.block(1, &mut [0; BLOCK_LEN]).err(),
        PagesCall::Fetch => store.fetch(0).err(),
        PagesCall::Reach => store.reach(0).err(),
        PagesCall::Put => store
            .put_at(0, spot, item.pseudokey, &item.key, &item.value)
            .err(),
        PagesCall::Remove => store.remove_at(0, spot?).err(),
        PagesCall::Set => store.set(0, forward(0)).err(),
        PagesCall::SetTwo => store.set_two(0, forward(0), 1, forward(1)).err(),
        PagesCall::GrowAndSet => store.grow_and_set(forward(2), 0, forward(0)).err(),
        PagesCall::SplitInto => store.split_into(0, 1).err(),
        PagesCall::SplitOff => store.split_off(0).err(),
        PagesCall::Merge => store.merge(Prefix::new(0, 0)?, 1, 0).err(),
    }
}

// The answer to a call of a kind where the call of a place fails, the call that failed, and how many did.
type Answers = (Option<PagesFault>, Option<PagesCall>, u64);

fn answers(alloc: Global, call: PagesCall, at: u64) -> Option<Answers> {
    let item = record(b"a")?;
    let mut pages = two_pages(alloc)?;
    let spot = spot_of(&mut pages, &item)?;
    let mut store = FailingPages::new(pages, at);
    let answer = answer(&mut store, call, &item, spot);
    Some((answer, store.failed(), store.failures()))
}

const CALLS: [PagesCall; 13] = [
    PagesCall::Get,
    PagesCall::Head,
    PagesCall::Block,
    PagesCall::Fetch,
    PagesCall::Reach,
    PagesCall::Put,
    PagesCall::Remove,
    PagesCall::Set,
    PagesCall::SetTwo,
    PagesCall::GrowAndSet,
    PagesCall::SplitInto,
    PagesCall::SplitOff,
    PagesCall::Merge,
];

fn wrong_call(alloc: Global) -> Option<PagesCall> {
    for call in CALLS {
        let failed = (Some(PagesFault::Page), Some(call), 1);
        if answers(alloc, call, 0) != Some((None, None, 0))
            || answers(alloc, call, 1) != Some(failed)
            || answers(alloc, call, 2) != Some((None, None, 0))
        {
            return Some(call);
        }
    }
    None
}

// Whether of a failing store over one the store inside fails first, and then its own call, and both are counted.
fn both_fail(alloc: Global) -> Option<bool> {
    let inner = FailingPages::new(two_pages(alloc)?, 1);
    let mut store = FailingPages::new(inner, 2);
    let first = store.head(0).err();
    let second = store.head(0).err();
    let is_refused = first == Some(PagesFault::Page) && second == Some(PagesFault::Page);
    Some(is_refused && store.head(0).is_ok() && store.failures() == 2)
}

// Each kind of call is refused where its turn has come, and else done.
#[test]
fn the_call_of_a_place_fails(rt: HostRuntime) {
    assert_eq!(rt; wrong_call(rt.alloc()), None);
}

// A store that fails is over any store, and counts that one's failures too.
#[test]
fn a_store_over_a_failing_one_fails(rt: HostRuntime) {
    assert_eq!(rt; both_fail(rt.alloc()), Some(true));
}
