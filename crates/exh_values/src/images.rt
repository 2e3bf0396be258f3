//! The image of a page in a store of images, byte by byte.
ghost use Rattle.std.specs.Prelude.{◌≡◌, length};

use exh_codec::encode_page;
use exh_frames::FramedPages;
use exh_keyer::PlainKeyer;
use exh_stores::Pages;
use exh_ward::first_page;
use std::alloc::Global;
use std::test::Fail;

// What the image of the first page of ward 1 of two begins with, from docs/FORMATS.md; behind it stand zeros, up to the
// digest.
const HEAD: [u8; 16] = [1, 1, 0, 0, 255, 255, 255, 255, 128, 0, 0, 0, 0, 0, 0, 0];

const CONTENT_LEN: usize = 4064;

// Whether a store has that page alone, as the image by hand, and as that which is made of the page by itself.
fn has_first_page(alloc: Global, store: &FramedPages<PlainKeyer>) -> bool
    requires { length store.now.pages ≡ 1 }
{
    let image = store.image(0);
    store.count() == 1
        && image.starts_with(&HEAD)
        && image[HEAD.len()..CONTENT_LEN].iter().all(|byte| *byte == 0)
        && image == encode_page(&PlainKeyer, &first_page(alloc, 1, 1))
}

#[test]
fn image_of_a_first_page(rt: HostRuntime) -> Result<(), Fail> {
    let store = FramedPages::new(rt.alloc(), first_page(rt.alloc(), 1, 1), PlainKeyer, 1)?;
    assert!(rt; has_first_page(rt.alloc(), &store));
    Ok(())
}
