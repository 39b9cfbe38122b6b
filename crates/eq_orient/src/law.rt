ghost use Rattle.eq_orient.specs.Solving.{SolvesLaw, UnreadLaw};
ghost use Rattle.eq_orient.specs.Spine.{SpineLaw};

/// What does not read a name does not depend on it.
pub fn unread_law()
    ensures { UnreadLaw }
{}

/// An equation has at most one side on which a name can be solved for.
pub fn spine_law()
    ensures { SpineLaw }
{}

/// An equation solved for a name has one answer.
pub fn solves_law()
    ensures { SolvesLaw }
{}
