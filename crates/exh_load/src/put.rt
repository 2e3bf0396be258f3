ghost use Rattle.std.specs.Prelude.{◌≡◌, IfOk, IfErr, OnOk, OnErr};
ghost use Rattle.exh_prefix.specs.Prefix.{Begins};
ghost use Rattle.exh_calls.specs.declared.call.Call.TheVariants.{Put};
ghost use Rattle.exh_ward.specs.WardFault.{CountsFailures, IsStoreFault};
ghost use Rattle.exh_ward.specs.WardState.{IsSoundWard, own_prefix};
ghost use Rattle.exh_file.specs.WardChange.{AreSplitsAtMost, IsChanged, IsFullAt, IsSplitAway};
ghost use Rattle.exh_load.specs.Put.{IsDirectoryOf};

use exh_array::Directory;
use exh_calls::{Call, Reply};
use exh_file::CHANGER;
use exh_keyer::Keyer;
use exh_legal::walks_name_homes;
use exh_page::{Key, Value};
use exh_prefix::{LIMIT, PageNo};
use exh_stores::Pages;
use exh_ward::{Hop, Ward, WardFault};

/// Puts a pair into the ward that covers its key, whose pseudokey is given, by a directory that was told
/// of all the ward's notices: at the page that it names, which is split as long as it is full for the
/// key. Nothing is merged. `Memory` and `Page` may come at any point: then there are splits alone, and the
/// directory may lack the last one's notice.
pub fn put_pair<P: Pages + Drop, K: Keyer>(
    ward: &mut Ward<P, K>,
    directory: &mut Directory,
    key: Key,
    value: Value,
    pseudokey: u64,
) -> Result<Reply, WardFault>
    requires hashed { pseudokey ≡ K.pseudokey_of ward.old.keyer key }
    requires covered { Begins (own_prefix ward.old) pseudokey }
    requires told { IsDirectoryOf ward.old directory.old }
    ensures put { IfOk result (λ reply. IsChanged K.pseudokey_of ward.old (Put key value) reply ward.new) }
    ensures told { OnOk result (IsDirectoryOf ward.new directory.new) }
    ensures err { OnErr result (AreSplitsAtMost ward.old ward.new) }
    ensures fault { IfErr result IsStoreFault }
    ensures failures { CountsFailures result ward.old.failures ward.new.failures }
    ensures sound { IsSoundWard K.pseudokey_of ward.new }
{
    walks_name_homes();
    let call = Call::Put { key, value };
    'turns: for turn in 0..LIMIT + 1 {
        let at = directory.walk(pseudokey);
        match ward.hop_hashed(at, CHANGER, &call, pseudokey)? {
            Hop::Done(reply) => return Ok(reply),
            Hop::MustSplit => split_told(ward, directory, at)?,
            Hop::Moved(_) | Hop::Stray => unreachable!(),
        }
    }
    unreachable!()
}

// Splits a page that is full and shorter than `LIMIT`, and tells the directory.
fn split_told<P: Pages + Drop, K: Keyer>(
    ward: &mut Ward<P, K>,
    directory: &mut Directory,
    at: PageNo,
) -> Result<(), WardFault>
    requires full { IsFullAt ward.old at }
    requires told { IsDirectoryOf ward.old directory.old }
    ensures split { OnOk result (IsSplitAway ward.old at ward.new) }
    ensures told { OnOk result (IsDirectoryOf ward.new directory.new) }
    ensures err { OnErr result (AreSplitsAtMost ward.old ward.new) }
    ensures fault { IfErr result IsStoreFault }
    ensures failures { CountsFailures result ward.old.failures ward.new.failures }
    ensures sound { IsSoundWard K.pseudokey_of ward.new }
{
    let notice = ward.split(at)?;
    directory.take(&notice)?;
    Ok(())
}
