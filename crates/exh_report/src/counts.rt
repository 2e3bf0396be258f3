ghost use Rattle.std.specs.Prelude.{◌≡◌, ◌+◌, ◌<◌, ◌^◌, length, map};
ghost use Rattle.exh_format.specs.FileParts.{pages_in};
ghost use Rattle.exh_report.specs.Counts.{forward_count, live_count, record_count};

use exh_page::Page;

/// How many pages of each kind, and how many records, some pages have.
#[derive(Clone, Copy)]
pub(crate) struct Counts {
    pub pages: u64,
    pub live: u64,
    pub forward: u64,
    pub records: u64,
}

impl Counts {
    // Of the pages of all wards.
    pub(crate) fn of_wards(wards: &[Vec<Page>]) -> Counts
        requires pages { length (pages_in wards.now) < 2 ^ 64 }
        requires records { record_count (pages_in wards.now) < 2 ^ 64 }
        ensures pages { result.pages ≡ length (pages_in wards.now) }
        ensures live { result.live ≡ live_count (pages_in wards.now) }
        ensures forward { result.forward ≡ forward_count (pages_in wards.now) }
        ensures records { result.records ≡ record_count (pages_in wards.now) }
    {
        let mut counts = Counts {
            pages: 0,
            live: 0,
            forward: 0,
            records: 0,
        };
        for ward in wards {
            counts.add(ward);
        }
        counts
    }

    // Adds those of some pages.
    fn add(&mut self, pages: &[Page])
        requires pages { self.old.pages + length pages.now < 2 ^ 64 }
        requires live { self.old.live + live_count pages.now < 2 ^ 64 }
        requires forward { self.old.forward + forward_count pages.now < 2 ^ 64 }
        requires records { self.old.records + record_count pages.now < 2 ^ 64 }
        ensures pages { self.new.pages ≡ self.old.pages + length pages.now }
        ensures live { self.new.live ≡ self.old.live + live_count pages.now }
        ensures forward { self.new.forward ≡ self.old.forward + forward_count pages.now }
        ensures records { self.new.records ≡ self.old.records + record_count pages.now }
    {
        self.pages += pages.len() as u64;
        for page in pages {
            match page {
                Page::Live { records, .. } => {
                    self.live += 1;
                    self.records += records.len() as u64;
                }
                Page::Forward { .. } => self.forward += 1,
            }
        }
    }
}
