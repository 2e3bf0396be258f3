//! A store as an import sees it.
ghost use Rattle.std.specs.Prelude.{◌≡◌};
ghost use Rattle.exh_transfer.specs.Imports.{HasRefusal, gives_pair, rests_open, saves_pairs};

use crate::progress::Progress;
use exh_import::{Added, ImportedStore, Refused};
use exh_run::{Put, Run, Store, StoreError, tell_refused};
use std::thread::sleep;
use std::time::Duration;

// For so many milliseconds others are let at the file between two commits.
const REST: u64 = 10;

/// A store into which pairs are put, how many of them, and why it refused a call, if it did.
#[derive(Drop)]
pub(crate) struct PairStore<'a, 'r> {
    run: &'a Run<'r>,
    // `None` where it wasn't opened again.
    store: Option<Store<'r>>,
    refusal: Option<StoreError>,
    // Pairs that are committed, and those that were put since the last commit.
    pub(crate) committed: u64,
    unsaved: u64,
    progress: Progress,
}

impl<'a, 'r> PairStore<'a, 'r> {
    /// Of a store into which nothing is put yet.
    pub(crate) fn new(run: &'a Run<'r>, store: Store<'r>) -> PairStore<'a, 'r> {
        PairStore {
            run,
            store: Some(store),
            refusal: None,
            committed: 0,
            unsaved: 0,
            progress: Progress::new(run.rt),
        }
    }

    /// Why it refused a call, if it did.
    pub(crate) fn refusal(self) -> Option<StoreError> {
        self.refusal
    }

    // Keeps why a call is refused.
    fn refuse(&mut self, fault: StoreError) -> Refused
        ensures refused { HasRefusal self.new.refusal }
    {
        self.refusal = Some(fault);
        Refused
    }

    // Counts the pairs that are committed now.
    fn count(&mut self)
        ensures store { self.new.store ≡ self.old.store }
    {
        self.committed = self.committed.saturating_add(self.unsaved);
        self.unsaved = 0;
    }
}

// The store's one map takes the pair as the map machine says, and a commit keeps the map. Behind a rest it is what others left.
impl ImportedStore for PairStore<'_, '_> {
    ghost gives = { gives_pair };

    ghost saves = { saves_pairs };

    ghost rests = { rests_open };

    ghost refused = { λ old new. HasRefusal new.refusal };

    fn put(&mut self, key: &[u8], value: &[u8]) -> Result<Added, Refused> {
        let Some(store) = &mut self.store else {
            return Err(self.refuse(StoreError::Vanished));
        };
        match store.put(key, value) {
            Ok(Put::Full) => Ok(Added::Full),
            Ok(Put::New | Put::Was(_)) => {
                self.unsaved = self.unsaved.saturating_add(1);
                Ok(Added::Put)
            }
            Err(fault) => Err(self.refuse(fault)),
        }
    }

    fn commit(&mut self) -> Result<(), Refused> {
        let Some(store) = &mut self.store else {
            return Err(self.refuse(StoreError::Vanished));
        };
        match store.commit() {
            Ok(()) => {
                self.count();
                Ok(())
            }
            Err(fault @ StoreError::Unsynchronized(_)) => {
                tell_refused(self.run.rt, self.run.path, &fault);
                self.count();
                Ok(())
            }
            Err(fault @ StoreError::Unheld(_)) => {
                self.count();
                Err(self.refuse(fault))
            }
            Err(fault) => Err(self.refuse(fault)),
        }
    }

    fn rest(&mut self) -> Result<(), Refused> {
        self.store = None;
        self.progress.tell(self.run, self.committed);
        sleep(self.run.rt, Duration::from_millis(REST));
        match Store::open_within(self.run.rt, self.run.path, self.run.seconds) {
            Ok(store) => {
                self.store = Some(store);
                Ok(())
            }
            Err(fault) => Err(self.refuse(fault)),
        }
    }
}
