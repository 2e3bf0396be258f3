ghost use Rattle.std.specs.Prelude.{◌≡◌, ◌<◌, length, IfOk, IfErr, Ok};
ghost use Rattle.exh_prefix.specs.Layout.{layout, written_version};
ghost use Rattle.exh_prefix.specs.Version.{Version as AnyVersion, Fits};
ghost use Rattle.exh_notice.specs.declared.notice.Notice.{Notice as NoticeValue};
ghost use Rattle.exh_notice.specs.NoticeImages.{notice_image, IsNoticeImage, FailsFirst};

use crate::{ENTRY_IMAGE_LEN, Entry, Notice, NoticeFault};
use byteorder::{BigEndian, ByteOrder};
use exh_prefix::{Version, WRITTEN};

/// How many bytes the image of a notice has.
pub const NOTICE_IMAGE_LEN: usize = 24;

impl Notice {
    /// The image of the notice, its entry's and then its index, in each version of the page file in
    /// which a notice may have such a prefix. It takes no memory.
    pub fn to_image(&self) -> [u8; NOTICE_IMAGE_LEN]
        ensures { (version : AnyVersion) → Fits 4 version → length self.now.prefix < version.limit → result ≡ notice_image version self.now }
    {
        let mut image = [0; NOTICE_IMAGE_LEN];
        image[..ENTRY_IMAGE_LEN].copy_from_slice(&self.entry().to_image(self.ward, self.prefix));
        BigEndian::write_u64(&mut image[ENTRY_IMAGE_LEN..], self.index);
        image
    }

    /// The notice that has this image in the version of the page file that is written: a `NoticeFault`
    /// as `Entry::from_image` gives it for the first 16 bytes. It takes no memory.
    pub fn from_image(image: &[u8; NOTICE_IMAGE_LEN]) -> Result<Notice, NoticeFault>
        ensures ok { IfOk result (λ notice. IsNoticeImage written_version notice image.now) }
        ensures every { (notice : NoticeValue) → IsNoticeImage written_version notice image.now → result ≡ Ok notice }
        ensures err { IfErr result (λ fault. FailsFirst written_version fault image.now) }
    {
        Notice::from_image_of(WRITTEN, image)
    }

    /// The notice that has this image in a version of the page file: a `NoticeFault` as
    /// `Entry::from_image_of` gives it for the first 16 bytes. It takes no memory.
    pub fn from_image_of(
        version: Version,
        image: &[u8; NOTICE_IMAGE_LEN],
    ) -> Result<Notice, NoticeFault>
        ensures ok { IfOk result (λ notice. IsNoticeImage (layout version) notice image.now) }
        ensures every { (notice : NoticeValue) → IsNoticeImage (layout version) notice image.now → result ≡ Ok notice }
        ensures err { IfErr result (λ fault. FailsFirst (layout version) fault image.now) }
    {
        let (front, back) = image.split_first_chunk::<ENTRY_IMAGE_LEN>().unwrap();
        let (ward, prefix, entry) = Entry::from_image_of(version, front)?;
        Ok(Notice {
            ward,
            index: BigEndian::read_u64(back),
            prefix,
            number: entry.number,
            kind: entry.kind,
        })
    }
}
