//! A page file used as a map: it is opened or made, pairs are put into it, got and swapped, and it is committed. A program
//! of one's own may begin as a copy of this one.
#![tactic(auto)]

use exhash::{Store, StoreError, Swap, USUAL};

// The page file.
const PATH: &str = "people.exh";

fn main(rt: HostRuntime) -> Result<(), StoreError> {
    let mut store = Store::open_or_create(&rt, PATH, USUAL)?;
    store.put(b"ann", b"red")?;
    store.put(b"bob", b"blue")?;
    if store.swap(b"bob", b"blue", b"green")? == Swap::Swapped {
        println!(rt; "bob was blue")?;
    }
    if let Some(value) = store.get(b"bob")? {
        let text = std::str::from_utf8(value.as_bytes()).unwrap_or("no text");
        println!(rt; "bob is {text}")?;
    }
    store.commit()?;
    for (_, value) in store.pairs()?.iter() {
        let text = std::str::from_utf8(value.as_bytes()).unwrap_or("no text");
        println!(rt; "{text}")?;
    }
    Ok(())
}
