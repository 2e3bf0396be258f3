use exh_codec::BLOCK_LEN;

/// A block of a file that is to have other content, or is to stand behind the last one.
#[derive(Clone, Copy)]
pub struct BlockEdit {
    /// Where the block stands, the file's first block being at 0.
    pub place: u32,
    pub block: [u8; BLOCK_LEN],
}
