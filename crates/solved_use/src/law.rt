ghost use Rattle.solved_use.specs.Solving.{SolvingLaw};

/// A use that counts can be solved over views that show what its equation asks for, and does over the row what the
/// solution tells.
pub fn solving_law()
    ensures { SolvingLaw }
{}
