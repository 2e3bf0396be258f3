//! The calls that a save makes of the system.
ghost use Rattle.std.specs.Prelude.{◌≡◌, ◌≢◌, ℕ, Bool, IfErr, IfNone, IfOk, List, OnErr, OnOk, Option, false, string_bytes, true};
ghost use Rattle.std.specs.IoError.{error_kind};
ghost use Rattle.std.specs.declared.io.ErrorKind.TheVariants.{NotFound};
ghost use Rattle.exh_saving.specs.declared.found.Found.{Found};
ghost use Rattle.exh_saving.specs.Answer.{Answer, Begins, Fails, Gives, IsRegular, Leads, Named, Owned, Permits, Runs, Stays, Strange, Unnamed};
ghost use Rattle.exh_saving.specs.Found.{IsSame};
ghost use Rattle.exh_saving.specs.declared.stage.Stage.{Stage};
ghost use Rattle.exh_saving.specs.declared.stage.Stage.TheVariants.{Confirmed, Dressed, Empty, Left, Linked, Made, OwnLeft, Placed, Restricted, Settled, Synchronized, Unlinkable, Written};
ghost use Rattle.exh_saving.specs.History.{History, SameBut, kept, placed, placed_if};
ghost use Rattle.exh_saving.specs.Stage.{asked, is_emptiable, is_fillable, is_ours, linked, locked};

use crate::{Found, Head, Runner};
use std::alloc::Global;
use std::io;
use std::io::Write;

/// What a save asks of the system, call by call. Each fails as the system does, and a file is then as far as before, and
/// what stands at a path is what stood there.
pub trait Disk {
    /// A file that is open, and once it is locked stays so until it is dropped.
    type File: Drop;

    /// Such a file while bytes are written to it.
    type Writer: Write + Drop;

    /// A file that is held open, so that its number can't come again, to be read or locked.
    type Opened: Drop;

    /// The lock of such a file, which one run has at a time. It lasts until this and the opened file are dropped.
    type Held: Drop;

    /// What is no regular file, and is written as it stands: so no file is written in place.
    type Device: Write + Drop;

    /// How far a file is.
    ghost stage: { Self.File → Stage };

    /// Whether a file was found to have this name, and no other, when it was asked last.
    ghost bears: { Self.File → List ℕ → Type 0 };

    /// The bytes of a file that was emptied, and those that a file has, where a model says what files have.
    ghost unwritten: { Option (List ℕ) };

    ghost holds: { Self.File → Option (List ℕ) };

    /// Whether a locked file was found at this path, unchanged, when it was looked at last.
    ghost stands: { Self.Held → List ℕ → Bool };

    /// What has stood at each path, where a model says that, and nobody else changes it meanwhile. Under a name that a
    /// file was made or taken with anything may stand from then on.
    ghost history: { Self → List ℕ → Option History };

    /// Which path without links a path may lead to.
    ghost leads: { List ℕ → List ℕ → Type 0 };

    /// What the disk may answer, and what an opened file may be by now.
    ghost answers: { Answer → Type 0 };

    ghost finds: { Self.Opened → Found → Type 0 };

    /// For whom the program runs.
    fn runner(&mut self) -> io::Result<Runner>
        ensures runner { IfOk result (λ runner. answers (Runs runner)) }
        ensures fails { IfErr result (λ error. answers (Fails error)) }
        ensures crash { history self.new ≡ history self.old };

    /// The path of what a path leads to, without links.
    fn whole_path(&mut self, alloc: Global, path: &str) -> io::Result<String>
        ensures whole { IfOk result (λ whole. leads path.now (string_bytes whole)) }
        ensures fails { IfErr result (λ error. answers (Fails error)) }
        ensures crash { history self.new ≡ history self.old };

    /// What a path leads to.
    fn ask(&mut self, path: &str) -> io::Result<Found>
        ensures found { IfOk result (λ found. answers (Leads path.now found)) }
        ensures fails { IfErr result (λ error. answers (Fails error)) }
        ensures crash { history self.new ≡ history self.old };

    /// What has a name, a link itself.
    fn ask_name(&mut self, name: &str) -> io::Result<Found>
        ensures found { IfOk result (λ found. answers (Named name.now found)) }
        ensures none { IfErr result (λ error. error_kind error ≡ NotFound → answers (Unnamed name.now)) }
        ensures fails { IfErr result (λ error. answers (Fails error)) }
        ensures crash { history self.new ≡ history self.old };

    /// The first bytes of a file that can be read and written, zeros behind its end.
    fn head(&mut self, path: &str) -> io::Result<Head>
        ensures begins { IfOk result (λ head. answers (Begins path.now head)) }
        ensures fails { IfErr result (λ error. answers (Fails error)) }
        ensures crash { history self.new ≡ history self.old };

    /// Opens the regular file at a path, to lock it.
    fn open_old(&mut self, path: &str) -> io::Result<Self::Opened>
        ensures fails { IfErr result (λ error. answers (Fails error)) }
        ensures crash { history self.new ≡ history self.old };

    /// What an opened file is by now.
    fn ask_opened(&mut self, opened: &Self::Opened) -> io::Result<Found>
        ensures found { IfOk result (finds opened.now) }
        ensures fails { IfErr result (λ error. answers (Fails error)) }
        ensures crash { history self.new ≡ history self.old };

    /// Takes the lock of an opened file, and doesn't wait for it.
    fn hold(&mut self, opened: &Self::Opened) -> io::Result<Self::Held>
        ensures stands { IfOk result (λ held. (path : List ℕ) → stands held path ≡ false) }
        ensures fails { IfErr result (λ error. answers (Fails error)) }
        ensures crash { history self.new ≡ history self.old };

    /// Whether a locked file has the name of a path, as it was.
    fn confirm_old(&mut self, held: &mut Self::Held, path: &str, was: &Found) -> io::Result<bool>
        ensures stands { IfOk result (λ is_there. stands held.new path.now ≡ is_there) }
        ensures stays { IfOk result (λ is_there. is_there ≡ true → answers (Stays path.now was.now)) }
        ensures gone { IfOk result (λ is_there. is_there ≡ false → answers (Strange path.now)) }
        ensures fails { IfErr result (λ error. answers (Fails error)) }
        ensures crash { history self.new ≡ history self.old };

    /// Takes away a name beside a path that is another one of the locked file at the path.
    fn unname_old(&mut self, held: &Self::Held, name: &str, path: &str) -> io::Result<()>
        requires beside { name.now ≢ path.now }
        requires same { (there : Found) × (found : Found) × answers (Named path.now there) × answers (Named name.now found) × IsSame found there }
        ensures fails { IfErr result (λ error. answers (Fails error)) }
        ensures crash { SameBut name.now (history self.old) (history self.new) };

    /// Opens what is no regular file, to write to it as it stands; `None` where a regular file is there by now.
    fn open(&mut self, path: &str) -> io::Result<Option<Self::Device>>
        ensures regular { IfOk result (λ device. IfNone device (answers (IsRegular path.now))) }
        ensures fails { IfErr result (λ error. answers (Fails error)) }
        ensures crash { history self.new ≡ history self.old };

    /// Waits until what was written to a device is there.
    fn synchronize_device(&mut self, device: &mut Self::Device) -> io::Result<()>
        ensures fails { IfErr result (λ error. answers (Fails error)) }
        ensures crash { history self.new ≡ history self.old };

    /// Makes a file where nothing has the name, with these permissions or the part of them that is usual.
    fn make(&mut self, name: &str, mode: u32) -> io::Result<Self::File>
        ensures stage { IfOk result (λ file. stage file ≡ Made) }
        ensures owned { OnOk result (answers (Owned name.now)) }
        ensures fails { IfErr result (λ error. answers (Fails error)) }
        ensures crash { SameBut name.now (history self.old) (history self.new) };

    /// Opens the file of a name beside a path as it stands.
    fn take(&mut self, name: &str, path: &str) -> io::Result<Self::File>
        requires { name.now ≢ path.now }
        ensures stage { IfOk result (λ file. stage file ≡ Left) }
        ensures fails { IfErr result (λ error. answers (Fails error)) }
        ensures crash { SameBut name.now (history self.old) (history self.new) };

    /// Takes the lock of a file, which one save has at a time.
    fn lock(&mut self, file: &mut Self::File) -> io::Result<()>
        ensures ok { OnOk result (stage file.new ≡ locked (stage file.old)) }
        ensures err { OnErr result (stage file.new ≡ stage file.old) }
        ensures fails { IfErr result (λ error. answers (Fails error)) }
        ensures crash { history self.new ≡ history self.old };

    /// Whether a file is the one of this name, and has no other.
    fn confirm(&mut self, file: &mut Self::File, name: &str) -> io::Result<bool>
        ensures ok { IfOk result (λ is_own. stage file.new ≡ asked (stage file.old) is_own) }
        ensures bears { IfOk result (λ is_own. is_own ≡ true → bears file.new name.now) }
        ensures owned { IfOk result (λ is_own. is_own ≡ true → answers (Owned name.now)) }
        ensures other { IfOk result (λ is_own. is_own ≡ false → answers (Strange name.now)) }
        ensures err { OnErr result (stage file.new ≡ stage file.old) }
        ensures fails { IfErr result (λ error. answers (Fails error)) }
        ensures bytes { holds file.new ≡ holds file.old }
        ensures crash { history self.new ≡ history self.old };

    /// Leaves a file to its owner alone.
    fn restrict(&mut self, file: &mut Self::File) -> io::Result<()>
        requires { stage file.old ≡ OwnLeft }
        ensures ok { OnOk result (stage file.new ≡ Restricted) }
        ensures err { OnErr result (stage file.new ≡ stage file.old) }
        ensures fails { IfErr result (λ error. answers (Fails error)) }
        ensures crash { history self.new ≡ history self.old };

    /// Takes away what a file has.
    fn empty(&mut self, file: &mut Self::File) -> io::Result<()>
        requires { is_emptiable (stage file.old) ≡ true }
        ensures ok { OnOk result (stage file.new ≡ Empty) }
        ensures err { OnErr result (stage file.new ≡ stage file.old) }
        ensures fails { IfErr result (λ error. answers (Fails error)) }
        ensures bytes { OnOk result (holds file.new ≡ unwritten) }
        ensures crash { history self.new ≡ history self.old };

    /// Gives a file an owner and a group, those that are named.
    fn give(
        &mut self,
        file: &mut Self::File,
        owner: Option<u32>,
        group: Option<u32>,
    ) -> io::Result<()>
        requires { stage file.old ≡ Empty }
        ensures given { OnOk result (answers (Gives owner group)) }
        ensures stage { stage file.new ≡ stage file.old }
        ensures fails { IfErr result (λ error. answers (Fails error)) }
        ensures bytes { holds file.new ≡ holds file.old }
        ensures crash { history self.new ≡ history self.old };

    /// Sets the permissions of a file to which nothing was written.
    fn permit(&mut self, file: &mut Self::File, mode: u32) -> io::Result<()>
        requires { stage file.old ≡ Empty }
        ensures ok { OnOk result (stage file.new ≡ Dressed) }
        ensures permitted { OnOk result (answers (Permits mode)) }
        ensures err { OnErr result (stage file.new ≡ stage file.old) }
        ensures fails { IfErr result (λ error. answers (Fails error)) }
        ensures bytes { holds file.new ≡ holds file.old }
        ensures crash { history self.new ≡ history self.old };

    /// Hands out a file to be written to, behind what was written. In place of its first bytes there are those of `UNFINISHED`
    /// until it gets its path.
    fn begin_writing(&mut self, file: Self::File) -> Self::Writer
        requires { is_fillable (stage file) ≡ true }
        ensures bytes { Self.Writer.contents result ≡ holds file }
        ensures crash { history self.new ≡ history self.old };

    /// Takes back what was written to.
    fn end_writing(&mut self, writer: Self::Writer) -> Self::File
        ensures stage { stage result ≡ Written }
        ensures bytes { holds result ≡ Self.Writer.contents writer }
        ensures crash { history self.new ≡ history self.old };

    /// Waits until all of a file is on the disk.
    fn synchronize(&mut self, file: &mut Self::File) -> io::Result<()>
        requires { is_fillable (stage file.old) ≡ true }
        ensures ok { OnOk result (stage file.new ≡ Synchronized) }
        ensures err { OnErr result (stage file.new ≡ stage file.old) }
        ensures fails { IfErr result (λ error. answers (Fails error)) }
        ensures bytes { holds file.new ≡ holds file.old }
        ensures crash { history self.new ≡ history self.old };

    /// Gives a file, with its first bytes, the path of another, which is locked.
    fn rename(
        &mut self,
        file: &mut Self::File,
        name: &str,
        path: &str,
        held: &Self::Held,
    ) -> io::Result<()>
        requires stage { stage file.old ≡ Confirmed }
        requires name { bears file.old name.now }
        requires beside { name.now ≢ path.now }
        requires held { stands held.now path.now ≡ true }
        ensures ok { OnOk result (stage file.new ≡ Placed) }
        ensures err { OnErr result (stage file.new ≡ stage file.old) }
        ensures fails { IfErr result (λ error. answers (Fails error)) }
        ensures bytes { holds file.new ≡ holds file.old }
        ensures placed { OnOk result (history self.new path.now ≡ placed (history self.old path.now) (holds file.old)) }
        ensures crash { OnErr result (history self.new path.now ≡ history self.old path.now) };

    /// Gives a file, with its first bytes, a path that nothing has, beside its name; `false` where the system has no links for
    /// it.
    fn link(&mut self, file: &mut Self::File, name: &str, path: &str) -> io::Result<bool>
        requires stage { stage file.old ≡ Confirmed }
        requires name { bears file.old name.now }
        requires beside { name.now ≢ path.now }
        ensures ok { IfOk result (λ is_linked. stage file.new ≡ linked is_linked) }
        ensures bears { OnOk result (bears file.new name.now) }
        ensures err { OnErr result (stage file.new ≡ stage file.old) }
        ensures fails { IfErr result (λ error. answers (Fails error)) }
        ensures bytes { holds file.new ≡ holds file.old }
        ensures placed { IfOk result (λ is_linked. history self.new path.now ≡ placed_if is_linked (history self.old path.now) (holds file.old)) }
        ensures crash { OnErr result (history self.new path.now ≡ history self.old path.now) };

    /// Takes away the name of a file that has its path too.
    fn unname(&mut self, file: &mut Self::File, name: &str) -> io::Result<()>
        requires stage { stage file.old ≡ Linked }
        requires name { bears file.old name.now }
        ensures stage { stage file.new ≡ Placed }
        ensures fails { IfErr result (λ error. answers (Fails error)) }
        ensures bytes { holds file.new ≡ holds file.old }
        ensures crash { SameBut name.now (history self.old) (history self.new) };

    /// Gives a file that can't be linked a path that nothing had when it was looked at last.
    fn rename_new(&mut self, file: &mut Self::File, name: &str, path: &str) -> io::Result<()>
        requires stage { stage file.old ≡ Unlinkable }
        requires name { bears file.old name.now }
        requires beside { name.now ≢ path.now }
        ensures ok { OnOk result (stage file.new ≡ Placed) }
        ensures err { OnErr result (stage file.new ≡ stage file.old) }
        ensures fails { IfErr result (λ error. answers (Fails error)) }
        ensures bytes { holds file.new ≡ holds file.old }
        ensures placed { OnOk result (history self.new path.now ≡ placed (history self.old path.now) (holds file.old)) }
        ensures crash { OnErr result (history self.new path.now ≡ history self.old path.now) };

    /// Waits until the names of the folder that a path's file is in are on the disk, that of a file which has the path.
    fn synchronize_folder(&mut self, file: &mut Self::File, path: &str) -> io::Result<()>
        requires { stage file.old ≡ Placed }
        ensures stage { stage file.new ≡ Settled }
        ensures fails { IfErr result (λ error. answers (Fails error)) }
        ensures bytes { holds file.new ≡ holds file.old }
        ensures kept { OnOk result (history self.new path.now ≡ kept (history self.old path.now)) }
        ensures crash { OnErr result (history self.new path.now ≡ history self.old path.now) };

    /// Takes away the name of a file that this save made or has the lock of.
    fn remove(&mut self, file: &Self::File, name: &str) -> io::Result<()>
        requires stage { is_ours (stage file.now) ≡ true }
        requires name { answers (Owned name.now) }
        ensures gone { OnOk result (answers (Unnamed name.now)) }
        ensures fails { IfErr result (λ error. answers (Fails error)) }
        ensures crash { SameBut name.now (history self.old) (history self.new) };
}
