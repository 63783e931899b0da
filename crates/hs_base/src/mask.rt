ghost use Rattle.std.specs.Prelude.{◌≡◌};
ghost use Rattle.hs_base.specs.Masks.{join_of};

/// The masking state of a thread (`Control.Exception`: `MaskingState`), from the least masked to the most.
#[derive(Clone, Copy, Debug, PartialEq, Eq)]
pub enum Mask {
    /// `Unmasked`.
    Unmasked,
    /// `MaskedInterruptible`.
    Masked,
    /// `MaskedUninterruptible`.
    Uninterruptible,
}

impl Mask {
    /// The later of the two in the order of the variants.
    pub fn join(self, other: Mask) -> Mask
        ensures { result ≡ join_of self other }
    {
        match (self, other) {
            (Mask::Unmasked, later) => later,
            (later, Mask::Unmasked) => later,
            (Mask::Masked, Mask::Masked) => Mask::Masked,
            (_, _) => Mask::Uninterruptible,
        }
    }
}
