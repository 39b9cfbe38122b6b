//! Types that share their name with a call of this crate.

use crate::ratio::Ratio;

/// A start that was moved: a fraction with a sign. `negative` is true only below 0.
#[derive(Clone, Copy)]
pub struct Moved {
    pub start: Ratio,
    pub negative: bool,
}
