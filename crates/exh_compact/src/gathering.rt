//! What is counted of the pages of wards.
ghost use Rattle.std.specs.Prelude.{◌≡◌, ◌∷◌, [], ◌++◌, ◌≤◌, ◌^◌, length, map, IfErr, IfOk, OnOk};
ghost use Rattle.exhash.specs.Opened.{AreWardsOf, in_file};
ghost use Rattle.exh_keyer.specs.declared.any_keyer.AnyKeyer.{AnyKeyer as AnyKeyerType};
ghost use Rattle.exh_page.specs.declared.page.TheConstants.{CAP_LIMIT};
ghost use Rattle.exh_page.specs.declared.file_settings.FileSettings.{FileSettings};
ghost use Rattle.exh_compact.specs.Reach.{AreLeft, IsWardLeft};
ghost use Rattle.exh_compact.specs.Shape.{shape_of};
ghost use Rattle.exh_compact.specs.Stats.{shapes_in, ward_counts_of};

use crate::{PageShape, WardCounts};
use exh_keyer::AnyKeyer;
use exh_stores::Pages;
use exh_ward::{Ward, WardFault};
use std::alloc::{AllocError, Global};

/// What is counted of the pages of all wards, ward by ward, and of each ward.
#[derive(Drop)]
pub(crate) struct WardShapes {
    pub shapes: Vec<PageShape>,
    pub wards: Vec<WardCounts>,
}

/// Gathers it of the wards of a file. It takes memory for some bytes a page.
///
/// `Memory`: a growth was refused. `Page`: a page is out of reach, which its ward has counted.
pub(crate) fn gathered<P: Pages + Drop>(
    alloc: Global,
    wards: &mut Vec<Ward<P, AnyKeyer>>,
) -> Result<WardShapes, WardFault>
    requires { (settings : FileSettings AnyKeyerType) × AreWardsOf (in_file settings wards.old.items) }
    ensures shapes { IfOk result (λ gathered. gathered.shapes.items ≡ shapes_in wards.old.items) }
    ensures wards { IfOk result (λ gathered. gathered.wards.items ≡ map (λ ward. ward_counts_of (map shape_of ward.pages)) wards.old.items) }
    ensures few { IfOk result (λ gathered. length gathered.shapes.items ≤ 2 ^ 24) }
    ensures same { OnOk result (wards.new.items ≡ wards.old.items) }
    ensures err { IfErr result (AreLeft wards.old.items wards.new.items) }
{
    let mut shapes = Vec::new(alloc);
    let mut counts = Vec::new(alloc);
    'wards: for number in 0..wards.len() {
        let own = shapes_in(alloc, &mut wards[number])?;
        push_counts(&mut counts, WardCounts::of(&own))?;
        shapes.extend_from_slice(&own)?;
    }
    Ok(WardShapes {
        shapes,
        wards: counts,
    })
}

// What is counted of the pages of a ward, page by page.
fn shapes_in<P: Pages + Drop>(
    alloc: Global,
    ward: &mut Ward<P, AnyKeyer>,
) -> Result<Vec<PageShape>, WardFault>
    requires { ward.old.cap ≤ CAP_LIMIT }
    ensures shapes { IfOk result (λ shapes. shapes.items ≡ map shape_of ward.old.pages) }
    ensures few { IfOk result (λ shapes. length shapes.items ≤ 2 ^ 20) }
    ensures same { OnOk result (ward.new ≡ ward.old) }
    ensures err { IfErr result (IsWardLeft ward.old ward.new) }
{
    let mut shapes = Vec::new(alloc);
    'pages: for number in 0..ward.page_count() {
        let page = ward.page(number)?;
        push_shape(&mut shapes, PageShape::of(&page))?;
    }
    Ok(shapes)
}

// Puts what is counted of a page behind others.
fn push_shape(shapes: &mut Vec<PageShape>, shape: PageShape) -> Result<(), AllocError>
    ensures { OnOk result (shapes.new.items ≡ shapes.old.items ++ shape ∷ []) }
{
    shapes.push(shape)?;
    Ok(())
}

// Puts what is counted of a ward behind others.
fn push_counts(counts: &mut Vec<WardCounts>, one: WardCounts) -> Result<(), AllocError>
    ensures { OnOk result (counts.new.items ≡ counts.old.items ++ one ∷ []) }
{
    counts.push(one)?;
    Ok(())
}
