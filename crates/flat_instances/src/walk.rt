//! The instances of a class, and what they have.
ghost use Rattle.std.specs.Prelude.{◌≡◌, IfOk, OnOk, map};
ghost use Rattle.flat_instances.specs.Instances as instances;
ghost use Rattle.flat_instances.specs.Kept as kept;
ghost use Rattle.flat_instances.specs.private.Walks as walks;

use crate::component::{inside, variable};
use crate::item::Item;
use crate::modifiers::Modifiers;
use class_scopes::{File, TypeName};
use mo_parser::Element;
use std::alloc::{AllocError, Global};
use sync_values::Text;

/// One more than the levels of components, for the equations of the last of them.
const LEVELS: usize = 33;

/// A walk over the instances of a file.
#[derive(Clone, Copy)]
struct Walk<'a> {
    alloc: Global,
    file: &'a File<'a>,
}

impl<'a> Walk<'a> {
    /// Adds a variable.
    fn declare(
        &self,
        scope: &[u8],
        modifiers: &Modifiers<'a>,
        element: &'a Element,
        type_name: TypeName,
        found: &mut Vec<Item<'a>>,
    ) -> Result<(), AllocError>
        ensures { OnOk result (walks.AddsAlong self.now.file.now.text.now self.now.file.now.classes.now scope.now modifiers.now (walks.declared self.now.file.now.text.now self.now.file.now.classes.now scope.now element.now type_name) found.old.items found.new.items) }
    {
        let declared = variable(self.alloc, self.file, scope, modifiers, element, type_name)?;
        found.push(Item::Declared(declared))?;
        Ok(())
    }

    /// What a component has.
    #[cycle(walk)]
    fn component(
        &self,
        levels: usize,
        scope: &[u8],
        modifiers: &Modifiers<'a>,
        element: &'a Element,
        found: &mut Vec<Item<'a>>,
    ) -> Result<(), AllocError>
        ensures { OnOk result (walks.AddsAlong self.now.file.now.text.now self.now.file.now.classes.now scope.now modifiers.now (walks.component_items self.now.file.now.text.now self.now.file.now.classes.now levels scope.now element.now) found.old.items found.new.items) }
    {
        match self.file.type_of(&element.base) {
            Some(TypeName::Simple(kind)) => {
                self.declare(scope, modifiers, element, TypeName::Simple(kind), found)
            }
            Some(TypeName::Class(class)) => {
                if self.file.short_of(class).is_some() {
                    self.declare(scope, modifiers, element, TypeName::Class(class), found)
                } else {
                    let (inner, modifiers) = inside(
                        self.alloc, self.file, scope, modifiers, element,
                    )?;
                    self.items(levels, inner.as_slice(), &modifiers, class, found)
                }
            }
            _ => Ok(()),
        }
    }

    /// All that an instance of a class has, in flat order, down to so many levels.
    #[cycle(walk)]
    fn items(
        &self,
        levels: usize,
        scope: &[u8],
        modifiers: &Modifiers<'a>,
        class: usize,
        found: &mut Vec<Item<'a>>,
    ) -> Result<(), AllocError>
        ensures { OnOk result (walks.AddsAlong self.now.file.now.text.now self.now.file.now.classes.now scope.now modifiers.now (walks.class_items self.now.file.now.text.now self.now.file.now.classes.now levels scope.now class) found.old.items found.new.items) }
    {
        if levels == 0 {
            return Ok(());
        }
        for element in self.file.elements_of(class) {
            self.component(levels - 1, scope, modifiers, element, found)?;
        }
        found.push(Item::Own(Text::from_bytes(self.alloc, scope)?, class))?;
        Ok(())
    }
}

/// All that the instances of a class have, in flat order: the components of 32 levels, and the equations of the last of them.
/// Memory that is refused is the only error.
pub fn instances<'a>(
    alloc: Global,
    file: &'a File<'a>,
    class: usize,
) -> Result<Vec<Item<'a>>, AllocError>
    ensures { IfOk result (λ found. map (kept.seen file.now.text.now file.now.classes.now) found.items ≡ instances.instances file.now.text.now file.now.classes.now class) }
{
    let walk = Walk { alloc, file };
    let modifiers = Modifiers::none(alloc);
    let mut found = Vec::new(alloc);
    walk.items(LEVELS, b"".as_slice(), &modifiers, class, &mut found)?;
    Ok(found)
}
