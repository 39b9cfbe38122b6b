ghost use Rattle.side_theory.specs.Counted.{CountedLaw, OnwardLaw};
ghost use Rattle.side_theory.specs.Kept.{SetLaw, KeepsLaw};
ghost use Rattle.side_theory.specs.Runs.{RunLaw};
ghost use Rattle.side_theory.specs.SetOn.{SetOnLaw};
ghost use Rattle.side_theory.specs.Sides.{SideLaw};
ghost use Rattle.side_theory.specs.Stretches.{StretchLaw};
ghost use Rattle.side_theory.specs.Typed.{TypedLaw};

/// A use of an equation `name = side` or `side = name` does over a row what its side answers there.
pub fn side_law()
    ensures { SideLaw }
{}

/// Equations evaluated one after the other, each over the views with the values before it, take their uses.
pub fn stretch_law()
    ensures { StretchLaw }
{}

/// The side of a use that counts has a value of its name's type, or fails.
pub fn typed_law()
    ensures { TypedLaw }
{}

/// In a free order the uses of a stretch count, each where those before it have values.
pub fn counted_law()
    ensures { CountedLaw }
{}

/// A stretch whose lines all have values leaves a row from which the next one of the base partition begins.
pub fn onward_law()
    ensures { OnwardLaw }
{}

/// Over cells that hold a row a run of the code of a stretch takes its uses, or tells the first that fails.
pub fn run_law()
    ensures { RunLaw }
{}

/// Cells that are set for a moment hold what an equation of a class that ticks can read.
pub fn set_law()
    ensures { SetLaw }
{}

/// Cells that were set at a moment keep the last values before the next one.
pub fn keeps_law()
    ensures { KeepsLaw }
{}

/// Cells that were set over a row are so over the row that a run of a stretch left.
pub fn set_on_law()
    ensures { SetOnLaw }
{}
