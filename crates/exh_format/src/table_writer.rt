ghost use Rattle.std.specs.Prelude.{◌≡◌, ◌<◌, ◌≤◌, ◌↔◌, [], ◌∷◌, length, OnOk, OnErr, IsErr, IsTrue};
ghost use Rattle.std.specs.Io.KnownBytes.{Appends};
ghost use Rattle.exh_prefix.specs.declared.prefix.TheConstants.{LIMIT};
ghost use Rattle.exh_prefix.specs.Layout.{written_version};
ghost use Rattle.exh_stream.specs.Output.{AppendsBeginning, SameWriter, Takes, TakesBeginning, WriterUntouched, held, pending, writer_failed};
ghost use Rattle.exh_codec.specs.declared.block.TheConstants.{CONTENT_LEN};
ghost use Rattle.exh_codec.specs.Block.{sealed};
ghost use Rattle.exh_codec.specs.PageImage.{padded};
ghost use Rattle.exh_format.specs.TableImage.{IsFileEntry};
ghost use Rattle.exh_format.specs.Writing.{TakesEntries, TakesEntriesBeginning, on_its_way, unsent, waiting_images};

use crate::FileEntry;
use crate::waiting_images::WaitingImages;
use exh_stream::{Output, WriteFault};
use std::io::Write;

/// The table of a page file of the version that is written, on its way to an output. Its entries come in rising order
/// of their prefixes, and wait until they fill a block; [`finish`](TableWriter::finish) ends the file. It takes no
/// memory.
#[derive(Drop)]
pub struct TableWriter {
    /// The images of the entries whose block isn't full yet.
    images: WaitingImages,
}

impl TableWriter {
    /// A table of which nothing is on its way.
    pub fn new() -> TableWriter
        ensures { waiting_images result ≡ [] }
    {
        TableWriter {
            images: WaitingImages::new(),
        }
    }

    /// Takes the next entry. Entries wait until they fill a block, which is then written when another comes. On an
    /// `Err` the writer failed, now or before, and got a beginning of what it was due.
    pub fn write_entry<W: Write>(
        &mut self,
        output: &mut Output<'_, W>,
        item: &FileEntry,
    ) -> Result<(), WriteFault>
        requires { length item.now.prefix < LIMIT }
        ensures same_writer { SameWriter output.old output.new }
        ensures ok { OnOk result (TakesEntries W.contents written_version (on_its_way output.old self.old) (on_its_way output.new self.new) (item.now ∷ [])) }
        // The types of an entry hold no others.
        ensures valid { IsFileEntry written_version item.now }
        ensures err { OnErr result (TakesEntriesBeginning W.contents written_version (on_its_way output.old self.old) (on_its_way output.new self.new) (item.now ∷ [])) }
        ensures failed { IsErr result ↔ IsTrue (writer_failed output.new) }
        ensures closed { IsTrue (writer_failed output.old) → IsErr result × WriterUntouched output.old output.new }
    {
        let image = item.to_image();
        if self.images.is_full() {
            self.write_images(output)?;
        } else {
            // An output that has failed says so.
            output.push(&[])?;
        }
        self.images.push(&image);
        Ok(())
    }

    /// Writes the entries that still wait and all that is on its way, and doesn't flush the writer. On
    /// an `Err` the writer failed, now or before, and got a beginning of that.
    pub fn finish<W: Write>(&mut self, output: &mut Output<'_, W>) -> Result<(), WriteFault>
        ensures same_writer { SameWriter output.old output.new }
        ensures ok { OnOk result (Appends (held W.contents output.old) (held W.contents output.new) (unsent (on_its_way output.old self.old))) }
        ensures none { OnOk result (waiting_images self.new ≡ []) }
        ensures empty { OnOk result (pending output.new ≡ []) }
        // One block holds them.
        ensures few { length (waiting_images self.old) ≤ CONTENT_LEN }
        ensures err { OnErr result (AppendsBeginning (held W.contents output.old) (held W.contents output.new) (unsent (on_its_way output.old self.old))) }
        ensures failed { IsErr result ↔ IsTrue (writer_failed output.new) }
        ensures closed { IsTrue (writer_failed output.old) → IsErr result × WriterUntouched output.old output.new }
    {
        if !self.images.is_empty() {
            self.write_images(output)?;
        }
        output.finish()
    }

    // Writes the entries that wait, in a block of their own.
    fn write_images<W: Write>(&mut self, output: &mut Output<'_, W>) -> Result<(), WriteFault>
        ensures same_writer { SameWriter output.old output.new }
        ensures ok { OnOk result (Takes W.contents output.old output.new (sealed (padded CONTENT_LEN (waiting_images self.old)))) }
        ensures none { OnOk result (waiting_images self.new ≡ []) }
        ensures err { OnErr result (TakesBeginning W.contents output.old output.new (sealed (padded CONTENT_LEN (waiting_images self.old)))) }
        ensures failed { IsErr result ↔ IsTrue (writer_failed output.new) }
        ensures closed { IsTrue (writer_failed output.old) → IsErr result × WriterUntouched output.old output.new }
    {
        output.push(&self.images.to_block())?;
        self.images.clear();
        Ok(())
    }
}
