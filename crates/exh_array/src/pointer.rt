use exh_prefix::PageNo;

/// What stands in the array for a list of leading bits: where the walks of their pseudokeys stop.
#[derive(Clone, Copy, Debug, PartialEq, Eq)]
pub struct Pointer {
    /// The leaf's page.
    pub page: PageNo,
    /// The length of the leaf's prefix, in bits (Fagin et al. 1979).
    pub local_depth: u8,
}
