//! The classes of a model, or the first rule of classes that it breaks.
ghost use Rattle.std.specs.Prelude.{◌≡◌, ◌<◌, length, IfOk, Some, slice_get};
ghost use Rattle.clock_terms.specs.Said.{AreTermsOf};
ghost use Rattle.base_partition.specs.Classified.{Classifies};

use crate::group::divide;
use crate::kinds::ClassEnd;
use crate::marking::mixed;
use crate::source::mixed_base;
use clock_terms::{Classes, Terms};
use flat_model::{FlatModel, Place};
use std::alloc::{AllocError, Global};
use sync_values::Text;

/// The same place once more.
fn copied(alloc: Global, place: &Place) -> Result<Place, AllocError>
    ensures { IfOk result (λ copy. copy ≡ place.now) }
{
    Ok(match place {
        Place::At { line, column } => Place::At {
            line: *line,
            column: *column,
        },
        Place::Equation(number) => Place::Equation(*number),
        Place::Name(text) => Place::Name(Text::from_bytes(alloc, text.as_bytes())?),
        Place::Cell { row, column } => Place::Cell {
            row: *row,
            column: *column,
        },
        Place::Model => Place::Model,
        Place::Table => Place::Table,
        Place::Plan => Place::Plan,
    })
}

fn place_at(alloc: Global, places: &[Place], class: usize) -> Result<Place, AllocError>
    requires { class < length places.now }
    ensures { IfOk result (λ place. slice_get places.now class ≡ Some place) }
{
    copied(alloc, &places[class])
}

/// The classes of names and nodes with their marks, places and base partitions; or the least class that is marked as
/// clocked and as unclocked; or else the least equation of a second constructor that is not inferred in a base
/// partition with an event constructor.
///
/// Source: MLS 3.6, chapter 16, "Clock Partitioning" and "Base-Clock Partitioning", in this project's profile.
pub fn classes(alloc: Global, flat: &FlatModel, terms: &Terms) -> Result<Classes, ClassEnd>
    requires { AreTermsOf flat.now terms.now }
    ensures { Classifies flat.now result }
{
    let grouped = divide(alloc, flat, terms)?;
    let classes = grouped.classes;
    if let Some(class) = mixed(classes.clocked.as_slice(), grouped.unclocked.as_slice()) {
        let place = place_at(alloc, classes.places.as_slice(), class)?;
        return Err(ClassEnd::Mixed { place });
    }
    let constructors = terms.constructors.as_slice();
    if let Some(equation) = mixed_base(alloc, &classes, grouped.bases, constructors)? {
        return Err(ClassEnd::BaseMixed { equation });
    }
    Ok(classes)
}
