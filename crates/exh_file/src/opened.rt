ghost use Rattle.std.specs.Prelude.{◌≡◌, ◌↔◌, IfErr, IfOk, IsTrue};
ghost use Rattle.exh_file.specs.Opened.{AreWardsOf, IsWardOf, OpenedState, in_file, settings_in};
ghost use Rattle.exh_file.specs.Saved.{header_of};

use crate::header::header_of;
use exh_format::Header;
use exh_keyer::AnyKeyer;
use exh_page::FileSettings;
use exh_stores::Pages;
use exh_ward::Ward;
use std::marker::Model;

/// The wards of a page file: one for each number, in order, each of the file's settings.
#[derive(Drop)]
pub struct Opened<P: Pages + Drop> {
    pub(crate) settings: FileSettings<AnyKeyer>,
    pub(crate) wards: Vec<Ward<P, AnyKeyer>>,
}

impl<P: Pages + Drop> Model for Opened<P> {
    ghost use Rattle.std.specs.Coded.{codes};
    ghost use Rattle.exh_page.specs.KeyMap.{coded_key_map};
    ghost use Rattle.exh_table.specs.Table.{coded_table};
    ghost use Rattle.exh_file.specs.Opened.{AreWardsOf, OpenedState, in_file};

    ghost Value = { OpenedState };

    ghost coded = { Prim.hlevel (codes, coded_key_map, coded_table) };

    ghost view = { λ a. in_file a.settings a.wards.items };

    ghost invariant = { λ a. AreWardsOf (in_file a.settings a.wards.items) };
}

impl<P: Pages + Drop> Opened<P> {
    /// The wards of a file of these settings: one for each number, in order, each of the same settings.
    /// It takes no memory.
    pub fn new(settings: FileSettings<AnyKeyer>, wards: Vec<Ward<P, AnyKeyer>>) -> Opened<P>
        requires { AreWardsOf (in_file settings wards.items) }
        ensures { result ≡ in_file settings wards.items }
    {
        Opened { settings, wards }
    }

    /// The wards of a file of these settings, as `new`, where they are that, which is tested: one for each
    /// number, in order, each of the same settings, which are in their ranges; else the wards as they were.
    /// So wards that a live file gave when it was closed are saved. It takes no memory.
    pub fn from_wards(
        settings: FileSettings<AnyKeyer>,
        wards: Vec<Ward<P, AnyKeyer>>,
    ) -> Result<Opened<P>, Vec<Ward<P, AnyKeyer>>>
        ensures opened { IfOk result (λ opened. opened ≡ in_file settings wards.items) }
        ensures each { IfOk result (λ opened. AreWardsOf opened) }
        ensures back { IfErr result (λ back. back.items ≡ wards.items) }
        ensures refused { IfErr result (λ _. AreWardsOf (in_file settings wards.items) → ⊥) }
    {
        if are_wards_of(settings, &wards) {
            Ok(Opened::new(settings, wards))
        } else {
            Err(wards)
        }
    }

    /// The settings of the file. It takes no memory.
    pub fn settings(&self) -> FileSettings<AnyKeyer>
        ensures { result ≡ settings_in self.now }
    {
        self.settings
    }

    /// The most records of a page. It takes no memory.
    pub fn cap(&self) -> usize
        ensures { result ≡ self.now.cap }
    {
        self.settings.cap as usize
    }

    /// The logarithm of how many wards there are. It takes no memory.
    pub fn ward_bits(&self) -> u8
        ensures { result ≡ self.now.ward_bits }
    {
        self.settings.ward_bits
    }

    /// The keyer of all wards. It takes no memory.
    pub fn keyer(&self) -> AnyKeyer
        ensures { result ≡ self.now.keyer }
    {
        self.settings.keyer
    }

    /// The header of the page file that is written of the wards as they stand, which tells how many pages and entries
    /// that has. It takes no memory.
    pub fn header(&self) -> Header
        ensures { result ≡ header_of self.now }
    {
        header_of(self.settings, &self.wards)
    }

    /// The wards, in the order of their numbers. It takes no memory.
    pub fn wards(&self) -> &[Ward<P, AnyKeyer>]
        ensures wards { result.now ≡ self.now.wards }
        ensures each { AreWardsOf self.now }
    {
        &self.wards
    }

    /// The wards alone, in the order of their numbers. It takes no memory.
    pub fn into_wards(self) -> Vec<Ward<P, AnyKeyer>>
        ensures wards { result.items ≡ self.wards }
        ensures each { AreWardsOf self }
    {
        self.wards
    }
}

// Whether wards are those of a file of these settings.
fn are_wards_of<P: Pages + Drop>(
    settings: FileSettings<AnyKeyer>,
    wards: &[Ward<P, AnyKeyer>],
) -> bool
    ensures { IsTrue result ↔ AreWardsOf (in_file settings wards.now) }
{
    if !settings.are_in_range() || wards.len() != 1 << settings.ward_bits {
        return false;
    }
    for number in 0..wards.len() {
        if !is_ward_of(settings, number, &wards[number]) {
            return false;
        }
    }
    true
}

// Whether a ward is that of a number in a file of these settings.
fn is_ward_of<P: Pages + Drop>(
    settings: FileSettings<AnyKeyer>,
    number: usize,
    ward: &Ward<P, AnyKeyer>,
) -> bool
    ensures { (opened : OpenedState) → opened.cap ≡ settings.cap → opened.ward_bits ≡ settings.ward_bits → opened.keyer ≡ settings.keyer → IsTrue result ↔ IsWardOf opened number ward.now }
{
    ward.cap() == settings.cap as usize
        && ward.ward_bits() == settings.ward_bits
        && usize::from(ward.number()) == number
        && ward.keyer() == settings.keyer
}
