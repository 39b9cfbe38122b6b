//! The instances of a class, and what they have that counts.
ghost use Rattle.std.specs.Prelude.{◌≡◌, IfOk, OnOk, map, filter};
ghost use Rattle.mo_order.specs.Marks.{is_marked};
ghost use Rattle.class_scopes.specs.declared.type_name.TypeName.TheVariants.{Class};
ghost use Rattle.class_scopes.specs.Types.{type_of};
ghost use Rattle.class_order.specs.Content.{AreFilled};
ghost use Rattle.flat_instances.specs.Instances as instances;
ghost use Rattle.flat_instances.specs.Kept as kept;
ghost use Rattle.flat_instances.specs.private.Walks as walks;
ghost use Rattle.filled_instances.specs.Counting as counting;
ghost use Rattle.filled_instances.specs.private.Counted as counted;

use class_scopes::{File, TypeName};
use flat_instances::{Item, Modifiers, inside, variable};
use mo_parser::Element;
use std::alloc::{AllocError, Global};
use sync_values::Text;

/// One more than the levels of components, for the equations of the last of them.
const LEVELS: usize = 33;

/// Whether a class is marked.
fn is_marked(marks: &[bool], class: usize) -> bool
    ensures { result ≡ is_marked marks.now class }
{
    match marks.get(class) {
        Some(mark) => *mark,
        None => false,
    }
}

/// A walk over the instances of a file that have something in them: `own` marks the classes with equations of their own,
/// `marks` those that have something at any depth.
#[derive(Clone, Copy)]
struct Walk<'a, 'm> {
    alloc: Global,
    file: &'a File<'a>,
    own: &'m [bool],
    marks: &'m [bool],
}

impl<'a, 'm> Walk<'a, 'm> {
    /// Adds a variable.
    fn declare(
        &self,
        scope: &[u8],
        modifiers: &Modifiers<'a>,
        element: &'a Element,
        type_name: TypeName,
        found: &mut Vec<Item<'a>>,
    ) -> Result<(), AllocError>
        ensures { OnOk result (walks.AddsAlong self.now.file.now.text.now self.now.file.now.classes.now scope.now modifiers.now (walks.declared self.now.file.now.text.now self.now.file.now.classes.now scope.now element.now type_name) found.old.items found.new.items) }
    {
        let declared = variable(self.alloc, self.file, scope, modifiers, element, type_name)?;
        found.push(Item::Declared(declared))?;
        Ok(())
    }

    /// Adds the equations of a class that has some.
    fn own_equations(
        &self,
        scope: &[u8],
        class: usize,
        found: &mut Vec<Item<'a>>,
    ) -> Result<(), AllocError>
        ensures { OnOk result (walks.Adds self.now.file.now.text.now self.now.file.now.classes.now found.old.items (counted.own_items self.now.own.now scope.now class) found.new.items) }
    {
        if is_marked(self.own, class) {
            found.push(Item::Own(Text::from_bytes(self.alloc, scope)?, class))?;
            Ok(())
        } else {
            Ok(())
        }
    }

    /// What a component has that counts.
    #[cycle(walk)]
    fn component(
        &self,
        levels: usize,
        scope: &[u8],
        modifiers: &Modifiers<'a>,
        element: &'a Element,
        found: &mut Vec<Item<'a>>,
    ) -> Result<(), AllocError>
        requires { counted.AreFilledIn self.now.file.now.text.now self.now.file.now.classes.now self.now.own.now self.now.marks.now element.now }
        ensures { OnOk result (walks.AddsAlong self.now.file.now.text.now self.now.file.now.classes.now scope.now modifiers.now (counted.component_counts self.now.file.now.text.now self.now.file.now.classes.now self.now.own.now levels scope.now element.now) found.old.items found.new.items) }
    {
        match self.file.type_of(&element.base) {
            Some(TypeName::Simple(kind)) => {
                self.declare(scope, modifiers, element, TypeName::Simple(kind), found)
            }
            Some(TypeName::Class(class)) => {
                if self.file.short_of(class).is_some() {
                    self.declare(scope, modifiers, element, TypeName::Class(class), found)
                } else if is_marked(self.marks, class) {
                    let (inner, modifiers) = inside(
                        self.alloc, self.file, scope, modifiers, element,
                    )?;
                    self.items(levels, inner.as_slice(), &modifiers, class, found)
                } else {
                    Ok(())
                }
            }
            _ => Ok(()),
        }
    }

    /// All that counts of what an instance of a class has, in flat order, down to so many levels.
    #[cycle(walk)]
    fn items(
        &self,
        levels: usize,
        scope: &[u8],
        modifiers: &Modifiers<'a>,
        class: usize,
        found: &mut Vec<Item<'a>>,
    ) -> Result<(), AllocError>
        requires { AreFilled self.now.file.now.text.now self.now.file.now.classes.now class self.now.own.now self.now.marks.now }
        ensures { OnOk result (walks.AddsAlong self.now.file.now.text.now self.now.file.now.classes.now scope.now modifiers.now (counted.class_counts self.now.file.now.text.now self.now.file.now.classes.now self.now.own.now levels scope.now class) found.old.items found.new.items) }
    {
        if levels == 0 {
            return Ok(());
        }
        for element in self.file.elements_of(class) {
            self.component(levels - 1, scope, modifiers, element, found)?;
        }
        self.own_equations(scope, class, found)
    }
}

/// What the instances of a class have that counts, in flat order: the variables of 32 levels of components, and the equations
/// of the classes that have some of their own, which `own` marks. `marks` are those of `class_order::filled` for the same
/// class; no instance without anything in it is walked. Memory that is refused is the only error.
pub fn filled_instances<'a>(
    alloc: Global,
    file: &'a File<'a>,
    class: usize,
    own: &[bool],
    marks: &[bool],
) -> Result<Vec<Item<'a>>, AllocError>
    requires { AreFilled file.now.text.now file.now.classes.now class own.now marks.now }
    ensures { IfOk result (λ found. map (kept.seen file.now.text.now file.now.classes.now) found.items ≡ filter (counting.counts own.now) (instances.instances file.now.text.now file.now.classes.now class)) }
{
    let walk = Walk {
        alloc,
        file,
        own,
        marks,
    };
    let modifiers = Modifiers::none(alloc);
    let mut found = Vec::new(alloc);
    walk.items(LEVELS, b"".as_slice(), &modifiers, class, &mut found)?;
    Ok(found)
}
