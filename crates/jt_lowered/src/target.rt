//! What names mean.

/// What a name means at a place.
#[derive(Clone, Copy, Debug, PartialEq, Eq)]
pub enum Target {
    /// The variable in this slot.
    Slot(usize),
    /// The constant of this number.
    Constant(usize),
    /// `nothing`, the constant of the language.
    Nothing,
}
