ghost use Rattle.std.specs.Prelude.{◌≡◌, ◌≢◌, length, take, IfErr, IfOk, OnErr, OnOk};
ghost use Rattle.std.specs.Io.KnownBytes.{Appends};
ghost use Rattle.exh_stream.specs.Output.{AppendsBeginning};
ghost use Rattle.exh_file.specs.declared.placing.Form.TheVariants.{Placed, Plain};
ghost use Rattle.exh_placing.specs.PlacedFile.{lows_of, placed_bytes};
ghost use Rattle.exh_file.specs.Draft.{IsAnew, IsDraftLeft, IsDraftSaving, IsDraftedSo, IsGrown, IsSaving, bytes_as, bytes_in};
ghost use Rattle.exh_file.specs.Opened.{AreWardsOf, in_file};
ghost use Rattle.exh_file.specs.Placing.{HavePages, IsPlacedSaving, IsPlacingOf, IsWardOrder, ordered_pages, placed_file};
ghost use Rattle.exh_file.specs.SaveFault.{CountsSaveFailures};
ghost use Rattle.exh_file.specs.Saved.{AreSound, AreUnchanged, HasCountedOf, failures_in};

use crate::placed_saving::write_placed;
use crate::placing::{Form, Placing, Stamps};
use crate::placing_making::{new_order, order_grown, placing_in};
use crate::{DraftFault, Opened, SaveFault, write_file};
use exh_keyer::AnyKeyer;
use exh_page::FileSettings;
use exh_placing::PageAt;
use exh_stores::Pages;
use exh_stream::Output;
use exh_ward::Ward;
use std::alloc::Global;
use std::io::Write;
use std::marker::Model;

/// Wards that are to be written, and the form in which they are.
#[derive(Drop)]
pub struct Draft<P: Pages + Drop> {
    opened: Opened<P>,
    form: Form,
}

impl<P: Pages + Drop> Model for Draft<P> {
    ghost use Rattle.std.specs.Coded.{codes};
    ghost use Rattle.exh_page.specs.KeyMap.{coded_key_map};
    ghost use Rattle.exh_table.specs.Table.{coded_table};
    ghost use Rattle.exh_file.specs.Draft.{DraftState, Suits};

    ghost Value = { DraftState };

    ghost coded = { Prim.hlevel (codes, coded_key_map, coded_table) };

    ghost view = { λ a. record { opened = a.opened; form = a.form } };

    ghost invariant = { λ a. Suits a.opened a.form };
}

impl<P: Pages + Drop> Draft<P> {
    /// Of wards that are written in the version that is written, as `write_file` does. It takes no memory.
    pub fn plain(opened: Opened<P>) -> Draft<P>
        ensures { result ≡ record { opened = opened; form = Plain } }
    {
        Draft {
            opened,
            form: Form::Plain,
        }
    }

    /// Of wards that are written as a file of version 3 that is made anew, with these stamps: the wards' pages 0, and behind
    /// them the others, ward by ward. It takes memory for a cell and some bytes a page.
    ///
    /// `Page`: a page is out of reach, which a store has counted. `Memory`: a growth was refused. Then the wards are gone.
    pub fn anew(alloc: Global, opened: Opened<P>, stamps: Stamps) -> Result<Draft<P>, DraftFault>
        ensures ok { IfOk result (IsAnew opened stamps) }
        ensures places { IfErr result (λ fault. fault ≢ DraftFault.Places) }
        ensures counted { IfErr result (λ fault. fault ≡ DraftFault.Page → HasCountedOf P.failures opened.wards) }
    {
        let settings = opened.settings();
        let wards = opened.into_wards();
        let order = new_order(alloc, settings, &wards)?;
        drafted(alloc, settings, wards, order, &[], stamps)
    }

    /// Of wards that are written as a file of version 3 with these stamps, some of whose pages have had places in a file,
    /// where they had these low bounds: those in their places, and behind them the others, ward by ward. It takes memory
    /// for a cell and some bytes a page.
    ///
    /// `Places`: the wards haven't these pages. `Page`: a page is out of reach, which a store has counted. `Memory`: a
    /// growth was refused. Then the wards are gone.
    pub fn grown(
        alloc: Global,
        opened: Opened<P>,
        lows: &[u64],
        stamps: Stamps,
    ) -> Result<Draft<P>, DraftFault>
        ensures ok { IfOk result (IsGrown opened lows.now stamps) }
        ensures places { IfErr result (λ fault. fault ≡ DraftFault.Places → ¬ HavePages opened.ward_bits opened.wards lows.now) }
        ensures counted { IfErr result (λ fault. fault ≡ DraftFault.Page → HasCountedOf P.failures opened.wards) }
    {
        let settings = opened.settings();
        let wards = opened.into_wards();
        match order_grown(alloc, settings, &wards, lows)? {
            Some(order) => drafted(alloc, settings, wards, order, lows, stamps),
            None => Err(DraftFault::Places),
        }
    }

    /// The wards alone. It takes no memory.
    pub fn into_opened(self) -> Opened<P>
        ensures { result ≡ self.opened }
    {
        self.opened
    }

    /// Writes the wards to a writer as their page file in this form, and gives the draft back, after a fault too. What was
    /// written whole is a legal page file that has the same pages and tables. The writer isn't flushed. It takes no memory of
    /// its own.
    ///
    /// `Write`: the writer failed or took no bytes. `Page`: a page is out of reach. `Memory`: a growth was refused. Then
    /// a beginning of the file went out.
    pub fn write_to<W: Write>(self, writer: &mut W) -> (Result<(), SaveFault>, Draft<P>)
        ensures ok { OnOk result.0 (Appends (W.contents writer.old) (W.contents writer.new) (bytes_in self)) }
        ensures saves { OnOk result.0 (IsDraftSaving self (bytes_in self)) }
        ensures err { OnErr result.0 (AppendsBeginning (W.contents writer.old) (W.contents writer.new) (bytes_in self)) }
        ensures left { IsDraftLeft self result.1 }
        ensures failures { CountsSaveFailures result.0 (failures_in self.opened.wards) (failures_in result.1.opened.wards) }
    {
        let Draft { opened, form } = self;
        match form {
            Form::Plain => write_plain_draft(opened, writer),
            Form::Placed(placing) => write_placed_draft(opened, placing, writer),
        }
    }
}

// Writes wards in the version that is written.
fn write_plain_draft<P: Pages + Drop, W: Write>(
    mut opened: Opened<P>,
    writer: &mut W,
) -> (Result<(), SaveFault>, Draft<P>)
    ensures ok { OnOk result.0 (Appends (W.contents writer.old) (W.contents writer.new) (bytes_as opened Plain)) }
    ensures saves { OnOk result.0 (IsSaving opened Plain (bytes_as opened Plain)) }
    ensures err { OnErr result.0 (AppendsBeginning (W.contents writer.old) (W.contents writer.new) (bytes_as opened Plain)) }
    ensures left { IsDraftLeft (record { opened = opened; form = Plain }) result.1 }
    ensures failures { CountsSaveFailures result.0 (failures_in opened.wards) (failures_in result.1.opened.wards) }
{
    let written = write_file(writer, &mut opened);
    (written, Draft::plain(opened))
}

// Writes wards in version 3.
fn write_placed_draft<P: Pages + Drop, W: Write>(
    opened: Opened<P>,
    placing: Placing,
    writer: &mut W,
) -> (Result<(), SaveFault>, Draft<P>)
    requires { IsPlacingOf opened placing }
    ensures ok { OnOk result.0 (Appends (W.contents writer.old) (W.contents writer.new) (bytes_as opened (Placed placing))) }
    ensures saves { OnOk result.0 (IsSaving opened (Placed placing) (bytes_as opened (Placed placing))) }
    ensures err { OnErr result.0 (AppendsBeginning (W.contents writer.old) (W.contents writer.new) (bytes_as opened (Placed placing))) }
    ensures left { IsDraftLeft (record { opened = opened; form = Placed placing }) result.1 }
    ensures failures { CountsSaveFailures result.0 (failures_in opened.wards) (failures_in result.1.opened.wards) }
{
    let settings = opened.settings();
    let mut wards = opened.into_wards();
    let written = write_placed_to(writer, settings, &placing, &mut wards);
    let left = Draft {
        opened: Opened::new(settings, wards),
        form: Form::Placed(placing),
    };
    (written, left)
}

// Writes them to a writer.
fn write_placed_to<P: Pages + Drop, W: Write>(
    writer: &mut W,
    settings: FileSettings<AnyKeyer>,
    placing: &Placing,
    wards: &mut [Ward<P, AnyKeyer>],
) -> Result<(), SaveFault>
    requires wards { AreWardsOf (in_file settings wards.old) }
    requires placing { IsPlacingOf (in_file settings wards.old) placing.now }
    ensures ok { OnOk result (Appends (W.contents writer.old) (W.contents writer.new) (placed_bytes (placed_file (in_file settings wards.old) placing.now))) }
    ensures saves { OnOk result (IsPlacedSaving (in_file settings wards.old) placing.now (placed_bytes (placed_file (in_file settings wards.old) placing.now))) }
    ensures err { OnErr result (AppendsBeginning (W.contents writer.old) (W.contents writer.new) (placed_bytes (placed_file (in_file settings wards.old) placing.now))) }
    ensures wards { AreUnchanged wards.old wards.new }
    ensures failures { CountsSaveFailures result (failures_in wards.old) (failures_in wards.new) }
{
    write_placed(settings, placing, wards, &mut Output::new(writer))
}

// The draft of wards in an order of their pages, the first of which have these low bounds, with these stamps.
fn drafted<P: Pages + Drop>(
    alloc: Global,
    settings: FileSettings<AnyKeyer>,
    mut wards: Vec<Ward<P, AnyKeyer>>,
    order: Vec<PageAt>,
    lows: &[u64],
    stamps: Stamps,
) -> Result<Draft<P>, DraftFault>
    requires wards { AreWardsOf (in_file settings wards.items) }
    requires sound { AreSound wards.items }
    requires order { IsWardOrder wards.items order.items }
    ensures ok { IfOk result (IsDraftedSo (in_file settings wards.items) order.items lows.now stamps) }
    ensures places { IfErr result (λ fault. fault ≡ DraftFault.Places → take (length lows.now) (lows_of (ordered_pages wards.items order.items)) ≢ lows.now) }
    ensures counted { IfErr result (λ fault. fault ≡ DraftFault.Page → HasCountedOf P.failures wards.items) }
{
    match placing_in(alloc, settings, &mut wards, order, lows, stamps)? {
        Some(placing) => Ok(Draft {
            opened: Opened::new(settings, wards),
            form: Form::Placed(placing),
        }),
        None => Err(DraftFault::Places),
    }
}
