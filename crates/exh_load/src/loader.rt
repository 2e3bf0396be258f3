ghost use Rattle.std.specs.Prelude.{◌≡◌, ◌+◌, ◌<◌, ◌≤◌, ◌^◌, ℕ, length, IfOk, IfErr, OnErr, OnOk};
ghost use Rattle.exh_page.specs.declared.page.TheConstants.{CAP_LIMIT};
ghost use Rattle.exh_prefix.specs.declared.prefix.TheConstants.{WARD_BITS_LIMIT};
ghost use Rattle.exh_array.specs.Pointers.{DirectoryState};
ghost use Rattle.exh_calls.specs.declared.call.Call.TheVariants.{Put};
ghost use Rattle.exh_file.specs.FileChange.{ChangesOneMap};
ghost use Rattle.exh_file.specs.Opened.{settings_in};
ghost use Rattle.exh_ward.specs.WardFault.{CountsFailures, IsStoreFault};
ghost use Rattle.exh_ward.specs.declared.ward_fault.WardFault.TheVariants.{Page as OutOfReach};
ghost use Rattle.exh_keyer.specs.Pseudokey.{any_pseudokey};
ghost use Rattle.exh_prefix.specs.Prefix.{Begins};
ghost use Rattle.exh_ward.specs.WardState.{IsSoundWard, own_prefix};
ghost use Rattle.exh_load.specs.Load.{empty_loading, new_count, record_count};
ghost use Rattle.exh_load.specs.LoadFault.{FallsNowhere, HasCountedIn};
ghost use Rattle.exh_load.specs.Put.{IsDirectoryOf};
ghost use Rattle.exh_load.specs.Loading.{after_pair, loading_of, pair_reply};
ghost use Rattle.exh_load.specs.Loader.{AreEach, AreSplitsAnew, HasSplitsIn, IsAnsweredAnew, IsDirectoryAt, IsEmptyDirectory, IsEmptyLoader, IsLoading, IsPutIn, file_in};

use crate::history::renew_history;
use crate::put_pair;
use exh_array::Directory;
use exh_calls::Reply;
use exh_file::Opened;
use exh_keyer::{AnyKeyer, Keyer};
use exh_page::{FileSettings, Key, Value};
use exh_prefix::ward_number;
use exh_stores::{Pages, StoreMaker};
use exh_table::Table;
use exh_ward::{Ward, WardFault, new_wards};
use std::alloc::{AllocError, Global};
use std::marker::Model;

/// The wards of a file that pairs are put into, and a directory of each.
#[derive(Drop)]
pub struct Loader<P: Pages + Drop> {
    settings: FileSettings<AnyKeyer>,
    wards: Vec<Ward<P, AnyKeyer>>,
    directories: Vec<Directory>,
}

impl<P: Pages + Drop> Model for Loader<P> {
    ghost use Rattle.std.specs.Coded.{codes};
    ghost use Rattle.exh_page.specs.KeyMap.{coded_key_map};
    ghost use Rattle.exh_table.specs.Table.{coded_table};
    ghost use Rattle.exh_file.specs.Opened.{AreWardsOf, in_file};
    ghost use Rattle.exh_load.specs.Loader.{LoaderState};

    ghost Value = { LoaderState };

    ghost coded = { Prim.hlevel (codes, coded_key_map, coded_table) };

    ghost view = { λ a. record { cap = a.settings.cap; ward_bits = a.settings.ward_bits; keyer = a.settings.keyer; wards = a.wards.items; directories = a.directories.items } };

    ghost invariant = { λ a. AreWardsOf (in_file a.settings a.wards.items) };
}

impl<P: Pages + Drop> Loader<P> {
    /// The loader of a new file of these settings, over stores that the maker makes: each ward has one
    /// page of no record. An `AllocError` where memory is refused.
    pub fn new<M: StoreMaker<P, AnyKeyer>>(
        alloc: Global,
        maker: &M,
        settings: FileSettings<AnyKeyer>,
    ) -> Result<Loader<P>, AllocError>
        requires some { 1 ≤ settings.cap }
        requires most { settings.cap ≤ CAP_LIMIT }
        requires bits { settings.ward_bits ≤ WARD_BITS_LIMIT }
        ensures empty { IfOk result (IsEmptyLoader settings) }
        ensures loading { IfOk result IsLoading }
        ensures none { IfOk result (λ loader. loading_of loader ≡ empty_loading settings.cap settings.ward_bits settings.keyer) }
    {
        let wards = new_wards(alloc, maker, settings)?;
        let directories = new_directories(alloc, settings.ward_bits)?;
        Ok(Loader {
            settings,
            wards,
            directories,
        })
    }

    /// The loader of the wards of a file: each has a directory of its table. An `AllocError` where memory is refused.
    pub fn over(alloc: Global, opened: Opened<P>) -> Result<Loader<P>, AllocError>
        ensures file { IfOk result (λ loader. file_in loader ≡ opened) }
        ensures loading { IfOk result IsLoading }
    {
        let settings = opened.settings();
        let wards = opened.into_wards();
        let directories = directories_of(alloc, settings.ward_bits, &wards)?;
        Ok(Loader {
            settings,
            wards,
            directories,
        })
    }

    /// Puts a pair into the ward of its key, and splits pages where they are full for it, as `put_pair`
    /// does. The key is hashed once. Where the ward's journal has outgrown its base, its history begins anew first, so that
    /// no journal grows with the text. `Memory` and `Page` may come at any point, `Page` where the store of the key's ward
    /// has counted it: the history and splits that were made stay made, and no more pairs can be put then, since a
    /// directory may lack a notice.
    pub fn put(&mut self, key: Key, value: Value) -> Result<Reply, WardFault>
        requires { IsLoading self.old }
        ensures put { IfOk result (λ reply. IsPutIn (file_in self.old) key value reply (file_in self.new)) }
        ensures one { IfOk result (λ reply. ChangesOneMap (file_in self.old) (Put key value) reply (file_in self.new)) }
        ensures reply { IfOk result (λ reply. reply ≡ pair_reply (loading_of self.old) key value) }
        ensures maps { OnOk result (loading_of self.new ≡ after_pair (loading_of self.old) key value) }
        ensures records { IfOk result (λ reply. new_count reply + record_count (loading_of self.old) ≡ record_count (loading_of self.new)) }
        ensures loading { OnOk result (IsLoading self.new) }
        ensures err { OnErr result (HasSplitsIn self.old key self.new) }
        ensures fault { IfErr result IsStoreFault }
        ensures counted { IfErr result (λ fault. fault ≡ OutOfReach → HasCountedIn P.failures (file_in self.old) key (file_in self.new)) }
        ensures falls { OnOk result (FallsNowhere (file_in self.old) (file_in self.new)) }
    {
        let pseudokey = self.settings.keyer.pseudo(key.as_bytes());
        let at = usize::from(ward_number(self.settings.ward_bits, pseudokey));
        let ward = &mut self.wards[at];
        let directory = &mut self.directories[at];
        let reply = put_counted(ward, directory, key, value, pseudokey)?;
        Ok(reply)
    }

    /// The settings of the file.
    pub fn settings(&self) -> FileSettings<AnyKeyer>
        ensures { result ≡ settings_in (file_in self.now) }
    {
        self.settings
    }

    /// The file of the wards. It takes no memory.
    pub fn into_opened(self) -> Opened<P>
        ensures { result ≡ file_in self }
    {
        Opened::new(self.settings, self.wards)
    }
}

// Puts a pair into a ward as `put_anew` does. A page out of reach is one that the ward's store has counted.
fn put_counted<P: Pages + Drop>(
    ward: &mut Ward<P, AnyKeyer>,
    directory: &mut Directory,
    key: Key,
    value: Value,
    pseudokey: u64,
) -> Result<Reply, WardFault>
    requires hashed { pseudokey ≡ any_pseudokey ward.old.keyer key }
    requires covered { Begins (own_prefix ward.old) pseudokey }
    requires told { IsDirectoryOf ward.old directory.old }
    ensures put { IfOk result (λ reply. IsAnsweredAnew any_pseudokey ward.old (Put key value) reply ward.new) }
    ensures told { OnOk result (IsDirectoryOf ward.new directory.new) }
    ensures err { OnErr result (AreSplitsAnew ward.old ward.new) }
    ensures fault { IfErr result IsStoreFault }
    ensures sound { IsSoundWard any_pseudokey ward.new }
    ensures failures { OnOk result (ward.new.failures ≡ ward.old.failures) }
    ensures counted { IfErr result (λ fault. fault ≡ OutOfReach → (ward.old.failures < ward.new.failures) × ((store : P) × (P.failures store ≡ ward.new.failures))) }
{
    let put = put_anew(ward, directory, key, value, pseudokey);
    ward.failures();
    put
}

// Puts a pair into a ward as `put_pair` does, once its history has begun anew where its journal has outgrown its base.
fn put_anew<P: Pages + Drop>(
    ward: &mut Ward<P, AnyKeyer>,
    directory: &mut Directory,
    key: Key,
    value: Value,
    pseudokey: u64,
) -> Result<Reply, WardFault>
    requires hashed { pseudokey ≡ any_pseudokey ward.old.keyer key }
    requires covered { Begins (own_prefix ward.old) pseudokey }
    requires told { IsDirectoryOf ward.old directory.old }
    ensures put { IfOk result (λ reply. IsAnsweredAnew any_pseudokey ward.old (Put key value) reply ward.new) }
    ensures told { OnOk result (IsDirectoryOf ward.new directory.new) }
    ensures err { OnErr result (AreSplitsAnew ward.old ward.new) }
    ensures fault { IfErr result IsStoreFault }
    ensures sound { IsSoundWard any_pseudokey ward.new }
    ensures failures { CountsFailures result ward.old.failures ward.new.failures }
{
    renew_history(ward)?;
    put_pair(ward, directory, key, value, pseudokey)
}

// A directory of no entry for each ward.
fn new_directories(alloc: Global, ward_bits: u8) -> Result<Vec<Directory>, AllocError>
    requires { ward_bits ≤ WARD_BITS_LIMIT }
    ensures { IfOk result (λ directories. AreEach (λ (number : ℕ) (directory : DirectoryState). IsEmptyDirectory ward_bits directory) (2 ^ ward_bits) directories.items) }
{
    let mut directories = Vec::new(alloc);
    for _number in 0..1u8 << ward_bits {
        directories.push(Directory::new(alloc, ward_bits)?)?;
    }
    Ok(directories)
}

// A directory of the table of each ward.
fn directories_of<P: Pages + Drop>(
    alloc: Global,
    ward_bits: u8,
    wards: &[Ward<P, AnyKeyer>],
) -> Result<Vec<Directory>, AllocError>
    requires { ward_bits ≤ WARD_BITS_LIMIT }
    ensures { IfOk result (λ directories. AreEach (IsDirectoryAt ward_bits wards.now) (length wards.now) directories.items) }
{
    let mut directories = Vec::new(alloc);
    for ward in wards {
        directories.push(directory_of(alloc, ward_bits, ward.table())?)?;
    }
    Ok(directories)
}

// A directory of a table, in a file of so many ward bits.
fn directory_of(alloc: Global, ward_bits: u8, table: &Table) -> Result<Directory, AllocError>
    requires { ward_bits ≤ WARD_BITS_LIMIT }
    ensures table { IfOk result (λ directory. directory.table ≡ table.now) }
    ensures bits { IfOk result (λ directory. directory.pointers.ward_bits ≡ ward_bits) }
{
    let mut directory = Directory::new(alloc, ward_bits)?;
    directory.join_in(table)?;
    Ok(directory)
}
