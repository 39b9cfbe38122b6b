//! Clockings and refusals as they are printed.
use base_partition::ClassEnd;
use clock_check::CheckEnd;
use clock_terms::Classes;
use flat_model::{Clock, Clocking, FlatName, Place};
use std::alloc::{AllocError, Global};
use sub_clock_solve::SolveEnd;
use sync_values::Text;

fn spelled(text: &Text) -> &str {
    std::str::from_utf8(text.as_bytes()).unwrap_or("?")
}

fn place_text(alloc: Global, place: &Place) -> Result<String, AllocError> {
    match place {
        Place::Name(name) => {
            let name = spelled(name);
            format!(in alloc; "{name}")
        }
        Place::Equation(number) => {
            let number = u64::from(*number) + 1;
            format!(in alloc; "equation {number}")
        }
        _ => format!(in alloc; "another place"),
    }
}

fn refusal(alloc: Global, code: &str, place: &Place) -> Result<String, AllocError> {
    let place = place_text(alloc, place)?;
    format!(in alloc; "refused {code} at {place}")
}

fn at_equation(alloc: Global, code: &str, equation: u32) -> Result<String, AllocError> {
    refusal(alloc, code, &Place::Equation(equation))
}

fn at_class(
    alloc: Global,
    code: &str,
    classes: &Classes,
    class: u32,
) -> Result<String, AllocError> {
    match classes.places.as_slice().get(class as usize) {
        Some(place) => refusal(alloc, code, place),
        None => format!(in alloc; "refused {code} at no class"),
    }
}

/// The refusal of a model without classes.
pub(crate) fn class_refusal(alloc: Global, end: &ClassEnd) -> Result<String, AllocError> {
    match end {
        ClassEnd::Mixed { place } => refusal(alloc, "C1", place),
        ClassEnd::BaseMixed { equation } => at_equation(alloc, "C7", *equation),
        ClassEnd::NoMemory => Err(AllocError),
    }
}

/// The refusal of a model whose clocks are not found.
pub(crate) fn solve_refusal(
    alloc: Global,
    classes: &Classes,
    end: SolveEnd,
) -> Result<String, AllocError> {
    match end {
        SolveEnd::Unknown { class } => at_class(alloc, "C2", classes, class),
        SolveEnd::TooFine { class } => at_class(alloc, "C3", classes, class),
        SolveEnd::Conflict { equation } => at_equation(alloc, "C4", equation),
        SolveEnd::NoMemory => Err(AllocError),
    }
}

/// The refusal of a model whose clocks make no clocking.
pub(crate) fn check_refusal(
    alloc: Global,
    classes: &Classes,
    end: CheckEnd,
) -> Result<String, AllocError> {
    match end {
        CheckEnd::Factor { equation } => at_equation(alloc, "C5", equation),
        CheckEnd::EarlyStart { class } => at_class(alloc, "C6", classes, class),
        CheckEnd::NotOnEvent { class } => at_class(alloc, "C8", classes, class),
        CheckEnd::EventFactor { class } => at_class(alloc, "C9", classes, class),
        CheckEnd::HoldInCondition { equation } => at_equation(alloc, "C10", equation),
        CheckEnd::NoMemory => Err(AllocError),
    }
}

fn clock_text(alloc: Global, clock: Clock) -> Result<String, AllocError> {
    match clock {
        Clock::Periodic { period, start } => format!(in alloc; "every {period} from {start}"),
        Clock::Event {
            site,
            factor,
            shift,
        } => {
            let site = u64::from(site) + 1;
            format!(in alloc; "event {site} factor {factor} shift {shift}")
        }
    }
}

fn class_text(
    alloc: Global,
    clocks: &[Clock],
    class: Option<&Option<u32>>,
) -> Result<String, AllocError> {
    match class {
        Some(Some(class)) => match clocks.get(*class as usize) {
            Some(clock) => clock_text(alloc, *clock),
            None => format!(in alloc; "without a clock"),
        },
        Some(None) => format!(in alloc; "unclocked"),
        None => format!(in alloc; "without a class"),
    }
}

/// Each name with its clock.
pub(crate) fn clocks_text(
    alloc: Global,
    names: &[FlatName],
    clocking: &Clocking,
) -> Result<String, AllocError> {
    let mut text = String::new(alloc);
    let clocks = clocking.clocks.as_slice();
    for (number, name) in names.iter().enumerate() {
        if 0 < number {
            text.push_str(" / ")?;
        }
        text.push_str(spelled(&name.text))?;
        text.push_str(" ")?;
        let class = clocking.of_name.as_slice().get(number);
        text.push_str(class_text(alloc, clocks, class)?.as_str())?;
    }
    Ok(text)
}

fn add_classes(
    alloc: Global,
    text: &mut String,
    classes: &[Option<u32>],
) -> Result<(), AllocError> {
    for class in classes {
        match class {
            Some(class) => {
                let class = *class;
                text.push_str(format!(in alloc; " {class}")?.as_str())?;
            }
            None => text.push_str(" -")?,
        }
    }
    Ok(())
}

/// The classes of names and equations, `-` for unclocked, the base partition of each class, and the number of sites.
pub(crate) fn parts_text(alloc: Global, clocking: &Clocking) -> Result<String, AllocError> {
    let mut text = String::new(alloc);
    text.push_str("names")?;
    add_classes(alloc, &mut text, clocking.of_name.as_slice())?;
    text.push_str(", equations")?;
    add_classes(alloc, &mut text, clocking.of_equation.as_slice())?;
    text.push_str(", partitions")?;
    for partition in clocking.partitions.as_slice() {
        let partition = *partition;
        text.push_str(format!(in alloc; " {partition}")?.as_str())?;
    }
    let sites = clocking.sites.len();
    text.push_str(format!(in alloc; ", sites {sites}")?.as_str())?;
    Ok(text)
}
