ghost use Rattle.moment_theory.specs.PieceLaws.{AlikeLaw, DivisionLaw, GroupLaw, GroupTickLaw, GroupUseLaw, OrderedLaw, PartitionsLaw, PieceUseLaw, PiecesLaw, RenamedEquationLaw, RenamedLaw, SoundLaw, TurnLaw, UnheldLaw};
ghost use Rattle.moment_theory.specs.Laws.{TakenLaw, OrderLaw, NextLaw, StopLaw, FaultLaw, MetLaw, OnlyLaw, OneFaultLaw, WholeLaw, OneRunLaw};

/// Uses taken in a free order over the inputs give exactly the given values.
pub fn taken_law()
    ensures { TakenLaw }
{}

/// Whatever free order is taken, the values are the same.
pub fn order_law()
    ensures { OrderLaw }
{}

/// Where each site and each use has a value, what meets the model before a moment goes on, alone.
pub fn next_law()
    ensures { NextLaw }
{}

/// Where something fails over the given values, nothing meets the model up to the moment.
pub fn stop_law()
    ensures { StopLaw }
{}

/// What fails first where nothing failed before is the first fault.
pub fn fault_law()
    ensures { FaultLaw }
{}

/// What meets a model before a moment of the run is alone in that, and nothing failed.
pub fn met_law()
    ensures { MetLaw }
{}

/// Two assignments that meet a model up to a moment have the same values.
pub fn only_law()
    ensures { OnlyLaw }
{}

/// A run has at most one first fault.
pub fn one_fault_law()
    ensures { OneFaultLaw }
{}

/// A run that an assignment meets up to its last moment has no first fault.
pub fn whole_law()
    ensures { WholeLaw }
{}

/// What a run puts on out and err is one, whether it ends well or with a fault.
pub fn one_run_law()
    ensures { OneRunLaw }
{}

/// The order of a moment is a free order: pure uses, then those of each base partition, then the other unclocked ones.
pub fn division_law()
    ensures { DivisionLaw }
{}

/// Uses of names on which the conditions of sites rest, and no clock, may be taken first.
pub fn unheld_law()
    ensures { UnheldLaw }
{}

/// The uses of two base partitions need nothing of each other.
pub fn partitions_law()
    ensures { PartitionsLaw }
{}

/// Pieces of the uses that need nothing of each other give the same side by side as one behind the other.
pub fn pieces_law()
    ensures { PiecesLaw }
{}

/// When a class ticks rests on the names that its clock waits for.
pub fn group_tick_law()
    ensures { GroupTickLaw }
{}

/// What an expression gives rests on the names that it asks for, at the moment and at those before it.
pub fn group_law()
    ensures { GroupLaw }
{}

/// An expression with other numbers for its names means the same, seen through the renaming.
pub fn renamed_law()
    ensures { RenamedLaw }
{}

/// The inputs are a sound row, and uses taken in a free order leave a sound row sound.
pub fn sound_law()
    ensures { SoundLaw }
{}

/// A use gives, and fails, alike over rows that agree on what it needs.
pub fn alike_law()
    ensures { AlikeLaw }
{}

/// A renamed equation is met, solvable and evaluated beside its name as the equation is, seen through the renaming.
pub fn renamed_equation_law()
    ensures { RenamedEquationLaw }
{}

/// What a use gives, or how it fails, at its turn in a free order is what it does over the last row.
pub fn turn_law()
    ensures { TurnLaw }
{}

/// What a use gives, or how it fails, over the row of its piece is what it does over the row of all pieces.
pub fn piece_use_law()
    ensures { PieceUseLaw }
{}

/// A use within a group gives, or has no solution, alike under two assignments that agree on the group.
pub fn group_use_law()
    ensures { GroupUseLaw }
{}

/// A runnable setting with an order has a free order: that of the moment.
pub fn ordered_law()
    ensures { OrderedLaw }
{}
