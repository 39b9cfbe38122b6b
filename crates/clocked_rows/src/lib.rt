//! Worked models: an assignment that meets each, its trace, and a changed one that does not meet it.
//!
//! Each function here is a law about the meaning of flat models; its body does nothing.
#![tactic(auto)]

ghost use Rattle.clocked_rows.specs.ConvertedAside as converted_aside;
ghost use Rattle.clocked_rows.specs.Counter as counter;
ghost use Rattle.clocked_rows.specs.EventClock as event_clock;
ghost use Rattle.clocked_rows.specs.FreeName as free_name;
ghost use Rattle.clocked_rows.specs.HeldFault as held_fault;
ghost use Rattle.clocked_rows.specs.Interval as interval;
ghost use Rattle.clocked_rows.specs.NoClock as no_clock;
ghost use Rattle.clocked_rows.specs.NoNumber as no_number;
ghost use Rattle.clocked_rows.specs.Overflow as overflow;
ghost use Rattle.clocked_rows.specs.Sampling as sampling;
ghost use Rattle.clocked_rows.specs.ShiftAndHold as shift_and_hold;
ghost use Rattle.clocked_rows.specs.ShiftedEvent as shifted_event;
ghost use Rattle.clocked_rows.specs.SitesApart as sites_apart;
ghost use Rattle.clocked_rows.specs.TwoBases as two_bases;
ghost use Rattle.clocked_rows.specs.TwoEquations as two_equations;
ghost use Rattle.clocked_rows.specs.TwoSites as two_sites;
ghost use Rattle.clocked_rows.specs.Undone as undone;
ghost use Rattle.clocked_rows.specs.UnknownClock as unknown_clock;

/// A counter on a clock of half a second is 1, 2 and 3 at the instants 0, 1/2 and 1, and does not stand still.
#[tactic(auto, using(crate::proofs::Counter::instants, crate::proofs::Counter::met, crate::proofs::Counter::printed, crate::proofs::Counter::other_refused))]
pub fn counter_counts()
    ensures instants { counter.HasInstants }
    ensures meets { counter.IsMet }
    ensures text { counter.IsPrinted }
    ensures changed_cell { counter.IsOtherRefused }
{}

/// A sample of an input that steps from 5 to 7 at the instant 1 is 5 there, the left limit, and not 7.
#[tactic(auto, using(crate::proofs::Sampling::instants, crate::proofs::Sampling::met, crate::proofs::Sampling::printed, crate::proofs::Sampling::other_refused, crate::proofs::Sampling::other_input_refused))]
pub fn sample_takes_left_limit()
    ensures instants { sampling.HasInstants }
    ensures meets { sampling.IsMet }
    ensures text { sampling.IsPrinted }
    ensures changed_cell { sampling.IsOtherRefused }
    ensures changed_input { sampling.IsOtherInputRefused }
{}

/// A name on a clock of half a second reads by `noClock` the last value of a counter on a clock of a third of a
/// second, at the instant 1 that of the same instant.
#[tactic(auto, using(crate::proofs::NoClock::instants, crate::proofs::NoClock::met, crate::proofs::NoClock::printed, crate::proofs::NoClock::other_refused))]
pub fn clocks_meet_through_no_clock()
    ensures instants { no_clock.HasInstants }
    ensures meets { no_clock.IsMet }
    ensures text { no_clock.IsPrinted }
    ensures changed_cell { no_clock.IsOtherRefused }
{}

/// A shifted name has its argument's value half an interval later, and a hold is the start of what it holds until
/// then.
#[tactic(auto, using(crate::proofs::ShiftAndHold::instants, crate::proofs::ShiftAndHold::met, crate::proofs::ShiftAndHold::printed, crate::proofs::ShiftAndHold::other_refused))]
pub fn shift_and_hold_start()
    ensures instants { shift_and_hold.HasInstants }
    ensures meets { shift_and_hold.IsMet }
    ensures text { shift_and_hold.IsPrinted }
    ensures changed_cell { shift_and_hold.IsOtherRefused }
{}

/// A counter that starts one below the greatest Integer is this Integer at the instant 0, and at 1/2 its equation is
/// the first fault: the value does not fit.
#[tactic(auto, using(crate::proofs::Overflow::fault, crate::proofs::Overflow::printed, crate::proofs::Overflow::met_by_none))]
pub fn counter_outgrows()
    ensures fault { overflow.IsFault }
    ensures text { overflow.IsPrinted }
    ensures met_by_none { overflow.IsMetByNone }
{}

/// An event clock ticks where its condition becomes true, not where it stays so, and a subsample of it by 2 at every
/// second of these ticks.
#[tactic(auto, using(crate::proofs::EventClock::instants, crate::proofs::EventClock::met, crate::proofs::EventClock::printed, crate::proofs::EventClock::other_refused, crate::proofs::EventClock::count))]
pub fn event_clock_ticks_at_rises()
    ensures instants { event_clock.HasInstants }
    ensures meets { event_clock.IsMet }
    ensures text { event_clock.IsPrinted }
    ensures changed_cell { event_clock.IsOtherRefused }
    ensures plan { event_clock.HasCount }
{}

/// The interval of a periodic clock is its period, at the first tick too, and only the first tick is the first.
#[tactic(auto, using(crate::proofs::Interval::instants, crate::proofs::Interval::met, crate::proofs::Interval::printed, crate::proofs::Interval::other_refused))]
pub fn interval_is_the_period()
    ensures instants { interval.HasInstants }
    ensures meets { interval.IsMet }
    ensures text { interval.IsPrinted }
    ensures changed_cell { interval.IsOtherRefused }
{}

/// No Integer of 64 bits is one above the greatest, so `x - 1 = 9223372036854775807` is the first fault where it counts
/// first.
#[tactic(auto, using(crate::proofs::NoNumber::fault, crate::proofs::NoNumber::line, crate::proofs::NoNumber::printed, crate::proofs::NoNumber::met_by_none))]
pub fn no_number_is_too_large()
    ensures fault { no_number.IsFault }
    ensures line { no_number.IsLine }
    ensures text { no_number.IsPrinted }
    ensures met_by_none { no_number.IsMetByNone }
{}

/// A name behind two signs is undone by both: `10 - (x + 3) = previous(x)` gives 7, 0 and 7.
#[tactic(auto, using(crate::proofs::Undone::instants, crate::proofs::Undone::met, crate::proofs::Undone::printed, crate::proofs::Undone::other_refused))]
pub fn two_signs_are_undone()
    ensures instants { undone.HasInstants }
    ensures meets { undone.IsMet }
    ensures text { undone.IsPrinted }
    ensures changed_cell { undone.IsOtherRefused }
{}

/// An Integer that no equation binds may have any value of its type, which a Boolean and 2^63 are not, and only names
/// of the model have values.
#[tactic(auto, using(crate::proofs::FreeName::met, crate::proofs::FreeName::other_type_refused, crate::proofs::FreeName::too_large_refused, crate::proofs::FreeName::stranger_refused))]
pub fn free_name_has_its_type()
    ensures meets { free_name.IsMet }
    ensures changed_type { free_name.IsOtherTypeRefused }
    ensures changed_size { free_name.IsTooLargeRefused }
    ensures changed_stranger { free_name.IsStrangerRefused }
{}

/// An event clock with a factor of 3 and a shift of 1 ticks at the second rise, and the interval of an event clock is
/// the time since its tick before, 0 at the first.
#[tactic(auto, using(crate::proofs::ShiftedEvent::instants, crate::proofs::ShiftedEvent::met, crate::proofs::ShiftedEvent::printed, crate::proofs::ShiftedEvent::other_refused))]
pub fn shifted_event_clock_ticks_later()
    ensures instants { shifted_event.HasInstants }
    ensures meets { shifted_event.IsMet }
    ensures text { shifted_event.IsPrinted }
    ensures changed_cell { shifted_event.IsOtherRefused }
{}

/// Of two conditions that divide by 0 at the same instant the first is the fault, whatever equations there are.
pub fn first_of_two_sites_fails()
    ensures meets { two_sites.IsMetBefore }
    ensures fault { two_sites.IsFirst }
    ensures changed_fault { two_sites.IsSecondNotFirst }
    ensures line { two_sites.IsLine }
    ensures text { two_sites.IsPrinted }
    ensures met_by_none { two_sites.IsMetByNone }
{}

/// A condition that reads a name without a value does not fail, it is not known whether its clock ticks, and a hold of
/// a name of this clock does not count.
pub fn unknown_clock_fails_nothing()
    ensures fault { unknown_clock.IsFirst }
    ensures held { unknown_clock.IsHeldUnknown }
    ensures line { unknown_clock.IsLine }
{}

/// A name that ticks and fails has no last value: the hold of it, which stands before it in flat order, does not fail.
pub fn hold_waits_for_its_name()
    ensures meets { held_fault.IsMetBefore }
    ensures fault { held_fault.IsFirst }
    ensures line { held_fault.IsLine }
{}

/// Event clocks of two conditions share no instant: of two names that are each a conversion of the other, neither is
/// read by the other's equation, and each equation reaches its own.
pub fn event_clocks_of_two_sites_are_apart()
    ensures uses { sites_apart.HasUses }
    ensures unread { sites_apart.IsOtherUnread }
{}

/// An equation in which a name stands bare and under a conversion is not solved for it, though a value meets it.
pub fn converted_name_is_not_solved_for()
    ensures unsolvable { converted_aside.IsUnsolvable }
    ensures uses { converted_aside.HasUses }
    ensures meets { converted_aside.IsMet }
{}

/// Of two equations that fail at the same instant the first is the fault.
pub fn first_of_two_equations_fails()
    ensures fault { two_equations.IsFault }
    ensures changed_fault { two_equations.IsSecondNotFirst }
    ensures line { two_equations.IsLine }
    ensures text { two_equations.IsPrinted }
    ensures met_by_none { two_equations.IsMetByNone }
{}

/// Two clocks of half and of a third of a second, with nothing between them, tick together at the instant 1, where the
/// equation of the second divides by 0: it is the first fault, and the instants before are printed.
pub fn second_partition_fails()
    ensures instants { two_bases.HasInstants }
    ensures fault { two_bases.IsFault }
    ensures line { two_bases.IsLine }
    ensures text { two_bases.IsPrinted }
    ensures met_by_none { two_bases.IsMetByNone }
{}
