ghost use Rattle.undone_side.specs.Undone.{KnownLaw, UndoneLaw};

/// Where the side of an equation that is solved for a name has a value, this is the solution.
pub fn undone_law()
    ensures { UndoneLaw }
{}

/// The side of an equation that is solved for a name has the type of the name, and asks for what the equation asks for, but
/// not for the name.
pub fn known_law()
    ensures { KnownLaw }
{}
