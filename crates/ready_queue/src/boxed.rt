// Items on the heap, and maps of them.
ghost use Rattle.std.specs.Prelude.{◌≡◌, IfOk, OnOk, OnErr};
ghost use Rattle.std.specs.BTreeMap.{IsOrdered, get_by, insert_entry, is_at};
ghost use Rattle.std.specs.Map.{remove_entry};
ghost use Rattle.std.specs.Option.{option_copied};
ghost use Rattle.std.specs.Ordering.{nat_cmp};

use kinds::Item;
use lists::Memory;
use std::alloc::Global;
use std::collections::BTreeMap;
use std::marker::Model;

/// An item on the heap, so that a map of items holds a pointer for each. Contracts see the item.
#[derive(Drop)]
pub(crate) struct BoxedItem {
    item: Box<Item>,
}

impl Model for BoxedItem {
    ghost use Rattle.std.specs.Prelude.{box_value};
    ghost use Rattle.kinds.specs.declared.store.Item.{Item};

    ghost Value = { Item };

    ghost view = { λ k. box_value k.item };
}

impl BoxedItem {
    pub(crate) fn new(alloc: Global, item: Item) -> Result<Self, Memory>
        ensures { IfOk result (λ boxed. boxed ≡ item) }
    {
        let item = Box::new(alloc, item)?;
        Ok(BoxedItem { item })
    }

    pub(crate) fn item(&self) -> &Item
        ensures { result.now ≡ self.now }
    {
        &self.item
    }

    pub(crate) fn into_item(self) -> Item
        ensures { result ≡ self }
    {
        Box::into_inner(self.item)
    }
}

/// An item comes under a number.
pub(crate) fn put_at(
    items: &mut BTreeMap<u64, BoxedItem>,
    alloc: Global,
    number: u64,
    item: Item,
) -> Result<(), Memory>
    ensures entries { OnOk result
        (items.new.entries ≡ insert_entry nat_cmp items.old.entries number item) }
    ensures ordered { OnOk result (IsOrdered nat_cmp items.new) }
    ensures err { OnErr result (items.new.entries ≡ items.old.entries) }
{
    let boxed = BoxedItem::new(alloc, item)?;
    items.insert(number, boxed)?;
    Ok(())
}

pub(crate) fn find_at(items: &BTreeMap<u64, BoxedItem>, number: u64) -> Option<&Item>
    ensures value { option_copied result ≡ get_by (nat_cmp number) items.now }
{
    match items.get(&number) {
        Some(boxed) => Some(boxed.item()),
        None => None,
    }
}

pub(crate) fn take_at(items: &mut BTreeMap<u64, BoxedItem>, number: u64) -> Option<Item>
    ensures value { result ≡ get_by (nat_cmp number) items.old }
    ensures entries { items.new.entries ≡ remove_entry (is_at (nat_cmp number)) items.old.entries }
    ensures ordered { IsOrdered nat_cmp items.new }
{
    match items.remove(&number) {
        Some(boxed) => Some(boxed.into_item()),
        None => None,
    }
}
