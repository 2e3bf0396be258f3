ghost use Rattle.std.specs.Prelude.{◌≡◌, ℕ, IfSome, IfNone};

/// The kinds of a page, with their bytes in an image.
#[derive(Clone, Copy)]
pub(crate) enum Kind {
    Live = 1,
    Forward = 2,
}

impl Kind {
    ghost use Rattle.std.specs.Prelude.{◌≡◌, ℕ, IfSome, IfNone};
    ghost use Rattle.exh_codec.specs.declared.kind.Kind.{Kind};
    ghost use Rattle.exh_codec.specs.Head.{page_kind_byte};

    /// The kind of a byte, `None` where it is that of no kind.
    pub(crate) fn from_byte(byte: u8) -> Option<Kind>
        ensures some { IfSome result (λ kind. byte ≡ page_kind_byte kind) }
        ensures none { IfNone result ((kind : Kind) → byte ≡ page_kind_byte kind → ⊥) }
    {
        match byte {
            1 => Some(Kind::Live),
            2 => Some(Kind::Forward),
            _ => None,
        }
    }

    /// The kind's byte.
    pub(crate) fn to_byte(self) -> u8
        ensures { result ≡ page_kind_byte self }
    {
        self as u8
    }
}
