use tree_step::{ClockNow, Entry};

/// What a share of a model keeps for all moments: which base partitions it has, and the unclocked uses that wait for them. No
/// equation of theirs asks for a name that uses of other shares reach.
#[derive(Drop)]
pub struct ShareUses<'share> {
    /// For each class of the model the place of its base partition in the share. One of another share has a place behind all.
    pub classes: &'share [u32],
    /// For each name of the model the place of the base partition whose equations reach it, where one of the share does.
    pub owners: &'share [Option<u32>],
    /// The unclocked uses of the share, in their order.
    pub waiting: &'share [Entry],
    /// What is shown of no clock: that it ticks.
    pub always: &'share [ClockNow],
    /// The numbers of all names, which are also the places of their cells.
    pub numbers: &'share [u32],
    /// The places of the cells of the base partitions.
    pub places: &'share [u32],
}
