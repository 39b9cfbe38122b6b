//! The limits of a model, and what items count.

/// One more than the equations that a model may have.
pub const MANY_EQUATIONS: usize = 65_537;

/// One more than the tokens that a model may have.
pub const MANY_TOKENS: usize = 4_194_305;

/// How many equations items have, without pairs of connects, and how many tokens; neither above one more than its limit.
#[derive(Clone, Copy)]
pub struct Size {
    pub equations: usize,
    pub tokens: usize,
}
