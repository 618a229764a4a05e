//! What a member's day comes to.
use quantities::Paise;

#[derive(Clone, Copy, Default)]
pub struct Due {
    /// The sum of the block charges.
    pub base: Paise,
    /// What long runs add.
    pub surcharge: Paise,
}
