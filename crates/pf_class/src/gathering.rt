//! Items of a list as they are gathered. Names that follow each other are one item, so that many of them are one look into a set.
ghost use Rattle.std.specs.Prelude.{◌≡◌, [], ◌∷◌, ◌++◌, IfOk, OnOk};
ghost use Rattle.pf_base.specs.Text.Names.{folded};
ghost use Rattle.pf_class.specs.Clauses.Lists.{SaysAs, gathered_items, names_item};

use crate::item::{Item, Pattern};
use crate::names::Names;
use pf_base::{List, NoMemory};
use std::alloc::Global;
use std::mem;

/// The items that were gathered, and the names after them, all of which exclude or none does.
#[derive(Drop)]
pub(crate) struct Gathered {
    items: List<Item>,
    names: Names,
    excludes: bool,
}

// Adds an item of names, if there are any.
fn push_names(items: &mut List<Item>, names: Names, excludes: bool) -> Result<(), NoMemory>
    ensures { OnOk result (SaysAs items.new (items.old ++ names_item excludes names ∷ [])) }
{
    if names.is_empty() {
        return Ok(());
    }
    items.push(Item {
        pattern: Pattern::Names(names),
        excludes,
    })
}

impl Gathered {
    /// Nothing. It takes no memory.
    pub(crate) fn new(alloc: Global) -> Gathered
        ensures { SaysAs (gathered_items result) [] }
    {
        Gathered {
            items: List::new(alloc),
            names: Names::new(alloc),
            excludes: false,
        }
    }

    // The names that were gathered become an item, where those that come do not exclude as they do.
    fn turn(&mut self, alloc: Global, excludes: bool) -> Result<(), NoMemory>
        ensures says { OnOk result (SaysAs (gathered_items self.new) (gathered_items self.old)) }
        ensures excludes { OnOk result (self.new.excludes ≡ excludes) }
    {
        if self.excludes == excludes {
            return Ok(());
        }
        let names = mem::replace(&mut self.names, Names::new(alloc));
        push_names(&mut self.items, names, self.excludes)?;
        self.excludes = excludes;
        Ok(())
    }

    /// Adds an item of a name, which excludes or not.
    pub(crate) fn push_name(
        &mut self,
        alloc: Global,
        name: &[u8],
        excludes: bool,
    ) -> Result<(), NoMemory>
        ensures { OnOk result (SaysAs (gathered_items self.new) (gathered_items self.old ++ names_item excludes (folded name.now ∷ []) ∷ [])) }
    {
        self.turn(alloc, excludes)?;
        self.names.add(alloc, name)
    }

    /// Adds an item.
    pub(crate) fn push(&mut self, alloc: Global, item: Item) -> Result<(), NoMemory>
        ensures { OnOk result (SaysAs (gathered_items self.new) (gathered_items self.old ++ item ∷ [])) }
    {
        let names = mem::replace(&mut self.names, Names::new(alloc));
        push_names(&mut self.items, names, self.excludes)?;
        self.items.push(item)
    }

    /// All that was gathered.
    pub(crate) fn finish(self) -> Result<List<Item>, NoMemory>
        ensures { IfOk result (λ items. SaysAs items (gathered_items self)) }
    {
        let Gathered {
            mut items,
            names,
            excludes,
        } = self;
        push_names(&mut items, names, excludes)?;
        Ok(items)
    }
}
