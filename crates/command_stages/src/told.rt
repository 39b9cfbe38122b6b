//! How the ends of the layers are told: each broken rule by its code and its place.
use crate::codes::{name_code, order_code, table_code, type_code};
use crate::end::End;
use base_partition::ClassEnd;
use eq_order::OrderEnd;
use flat_answer::FlattenEnd;
use flat_model::Place;
use flat_types::TypeEnd;
use input_table::TableEnd;
use std::alloc::AllocError;
use tick_plan::PlanEnd;
use trace_print::Code;

impl<'a> From<AllocError> for End<'a> {
    ghost use Rattle.std.specs.Prelude.{◌≡◌};
    ghost use Rattle.command_stages.specs.declared.end.End.TheVariants.{NoMemory};

    ghost from_gives = { λ _ end. end ≡ NoMemory };

    fn from(_error: AllocError) -> End<'a> {
        End::NoMemory
    }
}

impl<'a> From<sync_values::NoMemory> for End<'a> {
    ghost use Rattle.std.specs.Prelude.{◌≡◌};
    ghost use Rattle.command_stages.specs.declared.end.End.TheVariants.{NoMemory};

    ghost from_gives = { λ _ end. end ≡ NoMemory };

    fn from(_error: sync_values::NoMemory) -> End<'a> {
        End::NoMemory
    }
}

impl<'a> From<FlattenEnd> for End<'a> {
    ghost use Rattle.std.specs.Prelude.{◌≡◌};
    ghost use Rattle.command_stages.specs.Ends.{of_names};

    ghost from_gives = { λ error end. end ≡ of_names error };

    fn from(error: FlattenEnd) -> End<'a> {
        match error {
            FlattenEnd::Fault { code, place } => End::Refused {
                code: name_code(code),
                place,
            },
            FlattenEnd::NoMemory => End::NoMemory,
        }
    }
}

impl<'a> From<TypeEnd> for End<'a> {
    ghost use Rattle.std.specs.Prelude.{◌≡◌};
    ghost use Rattle.command_stages.specs.Ends.{of_types};

    ghost from_gives = { λ error end. end ≡ of_types error };

    fn from(error: TypeEnd) -> End<'a> {
        match error {
            TypeEnd::Fault { code, equation } => End::Refused {
                code: type_code(code),
                place: Place::Equation(equation),
            },
            TypeEnd::NoMemory => End::NoMemory,
        }
    }
}

impl<'a> From<ClassEnd> for End<'a> {
    ghost use Rattle.std.specs.Prelude.{◌≡◌};
    ghost use Rattle.command_stages.specs.Ends.{of_classes};

    ghost from_gives = { λ error end. end ≡ of_classes error };

    fn from(error: ClassEnd) -> End<'a> {
        match error {
            ClassEnd::Mixed { place } => End::Refused {
                code: Code::C1,
                place,
            },
            ClassEnd::BaseMixed { equation } => End::Refused {
                code: Code::C7,
                place: Place::Equation(equation),
            },
            ClassEnd::NoMemory => End::NoMemory,
        }
    }
}

impl<'a> From<OrderEnd> for End<'a> {
    ghost use Rattle.std.specs.Prelude.{◌≡◌};
    ghost use Rattle.command_stages.specs.Ends.{of_order};

    ghost from_gives = { λ error end. end ≡ of_order error };

    fn from(error: OrderEnd) -> End<'a> {
        match error {
            OrderEnd::Fault { code, place } => End::Refused {
                code: order_code(code),
                place,
            },
            OrderEnd::NoMemory => End::NoMemory,
        }
    }
}

impl<'a> From<TableEnd> for End<'a> {
    ghost use Rattle.std.specs.Prelude.{◌≡◌};
    ghost use Rattle.command_stages.specs.Ends.{of_table};

    ghost from_gives = { λ error end. end ≡ of_table error };

    fn from(error: TableEnd) -> End<'a> {
        match error {
            TableEnd::Fault { code, place } => End::Refused {
                code: table_code(code),
                place,
            },
            TableEnd::NoMemory => End::NoMemory,
        }
    }
}

impl<'a> From<PlanEnd> for End<'a> {
    ghost use Rattle.std.specs.Prelude.{◌≡◌};
    ghost use Rattle.command_stages.specs.Ends.{of_plan};

    ghost from_gives = { λ error end. end ≡ of_plan error };

    fn from(error: PlanEnd) -> End<'a> {
        match error {
            PlanEnd::TooMany { .. } => End::Refused {
                code: Code::P1,
                place: Place::Plan,
            },
            PlanEnd::NoMemory => End::NoMemory,
        }
    }
}
