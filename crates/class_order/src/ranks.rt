//! The reached classes by the places of their names.
ghost use Rattle.std.specs.Prelude.{◌≡◌, ◌<◌, ◌++◌, IfOk, OnOk, All, length, map, slice_get};
ghost use Rattle.mo_order.specs.Graphs.{graph_of};
ghost use Rattle.class_scopes.specs.Reached.{AreReached};
ghost use Rattle.class_order.specs.private.Ranks as meaning;

use class_scopes::{File, Named, TypeName};
use mo_parser::Element;
use std::alloc::{AllocError, Global};

/// A class by its number in the file, with the place of its name.
#[derive(Clone, Copy)]
pub struct Placed {
    pub place: u32,
    pub class: usize,
}

/// The place of the name of a class.
pub fn name_at(file: &File<'_>, class: usize) -> u32
    ensures { result ≡ meaning.name_at file.now.classes.now class }
{
    match file.classes.get(class) {
        Some(class) => class.name.at,
        None => 0,
    }
}

/// The reached classes with the places of their names.
fn places_of(alloc: Global, named: &Named<'_>) -> Result<Vec<Placed>, AllocError>
    ensures { IfOk result (λ placed. placed.items ≡ map (meaning.placed named.now.file.classes.now) named.now.reached.items) }
{
    let mut placed = Vec::new(alloc);
    for class in named.reached.as_slice() {
        placed.push(Placed {
            place: name_at(&named.file, *class),
            class: *class,
        })?;
    }
    Ok(placed)
}

/// The reached classes by the places of their names.
pub fn by_place(alloc: Global, named: &Named<'_>) -> Result<Vec<Placed>, AllocError>
    ensures { IfOk result (λ placed. meaning.AreByPlace named.now.file.classes.now named.now.reached.items placed.items) }
{
    let mut placed = places_of(alloc, named)?;
    placed.sort_by_key(|entry| entry.place)?;
    Ok(placed)
}

/// For each class of a file its rank among the placed ones; 0 for others.
pub fn ranks_of(alloc: Global, classes: usize, placed: &[Placed]) -> Result<Vec<usize>, AllocError>
    requires { (i : _) (entry : _) → slice_get placed.now i ≡ Some entry → entry.class < classes }
    ensures { IfOk result (λ ranks. meaning.AreRanks placed.now (length placed.now) ranks.items) }
{
    let mut ranks = vec![in alloc; 0; classes]?;
    for (rank, entry) in placed.iter().enumerate() {
        ranks[entry.class] = rank;
    }
    Ok(ranks)
}

/// The rank of a class.
fn rank_of(ranks: &[usize], class: usize) -> usize
    ensures { result ≡ meaning.rank_of ranks.now class }
{
    match ranks.get(class) {
        Some(rank) => *rank,
        None => 0,
    }
}

/// Adds the rank of the class that a component is of.
fn add_part(
    file: &File<'_>,
    ranks: &[usize],
    element: &Element,
    parts: &mut Vec<usize>,
) -> Result<(), AllocError>
    ensures { OnOk result (parts.new.items ≡ parts.old.items ++ meaning.part_in file.now.text.now file.now.classes.now ranks.now element.now) }
{
    match file.type_of(&element.base) {
        Some(TypeName::Class(part)) => {
            parts.push(rank_of(ranks, part))?;
            Ok(())
        }
        _ => Ok(()),
    }
}

/// The ranks of the classes that the components of a class are of.
fn parts_of(
    alloc: Global,
    file: &File<'_>,
    ranks: &[usize],
    class: usize,
) -> Result<Vec<usize>, AllocError>
    ensures { IfOk result (λ parts. parts.items ≡ meaning.parts_of file.now.text.now file.now.classes.now ranks.now class) }
{
    let mut parts = Vec::new(alloc);
    for element in file.elements_of(class) {
        add_part(file, ranks, element, &mut parts)?;
    }
    Ok(parts)
}

/// For each rank those of the classes that components of the class are of.
pub fn part_graph(
    alloc: Global,
    file: &File<'_>,
    placed: &[Placed],
    ranks: &[usize],
) -> Result<Vec<Vec<usize>>, AllocError>
    ensures { IfOk result (λ graph. graph_of graph.items ≡ meaning.part_graph file.now.text.now file.now.classes.now ranks.now placed.now) }
{
    let mut graph = Vec::new(alloc);
    for entry in placed {
        let parts = parts_of(alloc, file, ranks, entry.class)?;
        graph.push(parts)?;
    }
    Ok(graph)
}
