ghost use Rattle.std.specs.Prelude.{◌≡◌, ◌≢◌, Contains, IfSome, IfNone};
ghost use Rattle.exh_notice.specs.declared.notice.Notice.{Notice as NoticeValue};
ghost use Rattle.exh_world.specs.WorldKept.{HaveIndexesInTurn};

use exh_notice::Notice;

/// The notice of an index, among notices whose indexes follow on one another; `None` where there is
/// none.
pub(crate) fn notice_of(notices: &[Notice], index: u64) -> Option<Notice>
    requires { HaveIndexesInTurn notices.now }
    ensures some { IfSome result (λ notice. Contains notices.now notice × (notice.index ≡ index)) }
    ensures none { IfNone result ((notice : NoticeValue) → Contains notices.now notice → notice.index ≢ index) }
{
    let first = notices.first()?.index;
    let place = index.checked_sub(first)?;
    notices.get(place as usize).copied()
}
