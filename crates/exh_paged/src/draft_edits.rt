//! The blocks of a file that differ from those that a draft writes.
ghost use Rattle.std.specs.Prelude.{◌≡◌, ◌≢◌, ◌↔◌, ℕ, List, IsTrue, IfErr, IfOk, IfSome, OnOk};
ghost use Rattle.exh_commit.specs.FilePages.{Leaves};
ghost use Rattle.exh_commit.specs.PagedFile.{IsHonest, IsReady, bytes_in, files_in, known_in, state_in};
ghost use Rattle.exh_commit.specs.declared.DifferingFault.TheVariants.{Shorter};
ghost use Rattle.exh_file.specs.Draft.{DraftState, IsDraftSaving, bytes_in as draft_bytes};
ghost use Rattle.exh_paged.specs.SaveFilesFault.{IsCause, IsOfContent, IsSaved};
ghost use Rattle.exh_paged.specs.Saving.{AreEditsToDraft};
ghost use Rattle.exh_paged.specs.declared.save_files_fault.SaveFilesFault.TheVariants.{Content, Draft as Unwritten};

use crate::SaveFilesFault;
use exh_commit::{Asked, Before, BlockEdit, Differing, DifferingFault, PagedFile, Truthful};
use exh_file::{Draft, SaveFault};
use exh_stores::Pages;
use std::alloc::Global;

// Why nothing was made of a draft that wasn't written: where the writer failed, it tells why. That too little was written is
// no reason then.
fn cause_of(fault: SaveFault, made: Result<Vec<BlockEdit>, DifferingFault>) -> SaveFilesFault
    ensures writer { IfErr made (λ cause. cause ≢ Shorter → fault ≡ SaveFault.Write → result ≡ Content cause) }
    ensures draft { OnOk made (result ≡ Unwritten fault) }
    ensures content { (draft : DraftState) (bytes : List ℕ) → IsOfContent draft bytes result }
    ensures refused { (stamp : ℕ) (bytes : List ℕ) → IsCause stamp bytes result }
    ensures unsaved { IsSaved result → ⊥ }
{
    match made {
        Err(cause) if matches!(fault, SaveFault::Write) && !is_shorter(&cause) => {
            SaveFilesFault::Content(cause)
        }
        _ => SaveFilesFault::Draft(fault),
    }
}

// Whether too little was written.
fn is_shorter(fault: &DifferingFault) -> bool
    ensures { IsTrue result ↔ (fault.now ≡ Shorter) }
{
    matches!(fault, DifferingFault::Shorter)
}

/// The edits after which a file has what a draft writes, and the file as it was. It takes memory for the edits.
///
/// `Draft`: the wards couldn't be written. `Content`: they couldn't be compared with the file, or are shorter than it.
pub(crate) fn edits_to<D: Truthful + Drop, P: Pages + Drop, K: Before>(
    alloc: Global,
    file: PagedFile<D>,
    draft: Draft<P>,
) -> (Result<Vec<BlockEdit>, SaveFilesFault>, PagedFile<D>)
    requires is_ready { IsReady file }
    requires ready { K.is_ready ≡ (state_in file).is_ready }
    requires clean { K.is_clean ≡ (state_in file).is_clean }
    requires bytes { K.bytes ≡ bytes_in file }
    ensures made { IfOk result.0 (λ edits. AreEditsToDraft (known_in D.Truthful.is_truthful file) draft edits.items) }
    ensures legal { OnOk result.0 (IsDraftSaving draft (draft_bytes draft)) }
    ensures refused { (stamp : ℕ) (bytes : List ℕ) → IfErr result.0 (IsCause stamp bytes) }
    ensures content { IfErr result.0 (λ fault. IfSome (known_in D.Truthful.is_truthful file) (λ bytes. IsOfContent draft bytes fault)) }
    ensures unsaved { IfErr result.0 (λ fault. IsSaved fault → ⊥) }
    ensures ready { IsReady result.1 }
    ensures honest { IsHonest result.1 → IsHonest file }
    ensures bytes { bytes_in result.1 ≡ bytes_in file }
    ensures crash { Leaves D.Disk (files_in result.1) (λ bytes. bytes ≡ bytes_in file) }
{
    let mut writer = Differing::new(alloc, Asked::<D, K>::new(file));
    let (written, _) = draft.write_to(&mut writer);
    let (made, asked) = writer.finish();
    let file = asked.into_file();
    match written {
        Ok(()) => match made {
            Ok(edits) => (Ok(edits), file),
            Err(fault) => (Err(SaveFilesFault::Content(fault)), file),
        },
        Err(fault) => (Err(cause_of(fault, made)), file),
    }
}
