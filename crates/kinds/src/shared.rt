// Values that their copies share.
ghost use Rattle.std.specs.Prelude.{◌≡◌, [], IfOk};

use lists::{Items, Memory};
use std::alloc::{AllocError, Global};
use std::cmp::Ordering;
use std::marker::Model;
use std::rc::Rc;

/// A value on the heap that its copies share. Contracts see the value.
#[derive(Drop)]
pub struct Shared<T: Drop> {
    value: Rc<T>,
}

impl<T: Drop> Model for Shared<T> {
    ghost Value = { T };

    ghost view = { λ s. s.value.value };
}

impl<T: Drop> Shared<T> {
    pub fn new(alloc: Global, value: T) -> Result<Self, Memory>
        ensures { IfOk result (λ shared. shared ≡ value) }
    {
        let value = Rc::new(alloc, value)?;
        Ok(Shared { value })
    }

    pub fn get(&self) -> &T
        ensures { result.now ≡ self.now }
    {
        self.value.as_ref()
    }
}

/// One more owner of the same value, which takes no memory.
impl<T: Drop> Clone for Shared<T> {
    ghost use Rattle.std.specs.Prelude.{◌≡◌};

    ghost is_clone = { λ shared copy. copy ≡ shared };

    fn clone(&self) -> Result<Self, AllocError> {
        let value = self.value.clone()?;
        Ok(Shared { value })
    }
}

/// The values are compared.
impl<T: PartialEq + Drop> PartialEq for Shared<T> {
    ghost eq = { T.eq };

    ghost laws = { T.laws };

    fn eq(&self, other: &Self) -> bool {
        self.get() == other.get()
    }
}

impl<T: Eq + Drop> Eq for Shared<T> {
    ghost laws = { T.Eq.laws };
}

/// In the order of the values.
impl<T: PartialOrd + Drop> PartialOrd for Shared<T> {
    ghost partial_cmp = { T.partial_cmp };

    ghost laws = { T.PartialOrd.laws };

    fn partial_cmp(&self, other: &Self) -> Option<Ordering> {
        self.get().partial_cmp(other.get())
    }
}

impl<T: Ord + Drop> Ord for Shared<T> {
    ghost cmp = { T.cmp };

    ghost total = { T.total };

    ghost matches_partial_cmp = { T.matches_partial_cmp };

    ghost matches_eq = { T.matches_eq };

    fn cmp(&self, other: &Self) -> Ordering {
        self.get().cmp(other.get())
    }
}

/// A list that its copies share, and that takes no memory where it is empty. Contracts see the items.
#[derive(Drop)]
pub struct SharedItems<T: Drop> {
    items: Option<Shared<Items<T>>>,
}

impl<T: Drop> Model for SharedItems<T> {
    ghost use Rattle.std.specs.Prelude.{List};
    ghost use Rattle.kinds.specs.Shared.{items_in};

    ghost Value = { List T };

    ghost view = { λ l. items_in l.items };
}

impl<T: Drop> SharedItems<T> {
    pub fn new(alloc: Global, items: Items<T>) -> Result<Self, Memory>
        ensures { IfOk result (λ shared. shared ≡ items) }
    {
        if items.is_empty() {
            return Ok(SharedItems { items: None });
        }
        let items = Shared::new(alloc, items)?;
        Ok(SharedItems { items: Some(items) })
    }

    pub fn as_slice(&self) -> &[T]
        ensures { result.now ≡ self.now }
    {
        match &self.items {
            Some(items) => items.get().as_slice(),
            None => &[],
        }
    }
}

/// One more owner of the same items, which takes no memory.
impl<T: Drop> Clone for SharedItems<T> {
    ghost use Rattle.std.specs.Prelude.{◌≡◌};

    ghost is_clone = { λ shared copy. copy ≡ shared };

    fn clone(&self) -> Result<Self, AllocError> {
        match &self.items {
            Some(items) => Ok(SharedItems {
                items: Some(items.clone()?),
            }),
            None => Ok(SharedItems { items: None }),
        }
    }
}

/// By index.
impl<T: PartialEq + Drop> PartialEq for SharedItems<T> {
    ghost use Rattle.std.specs.Cmp.Lexicographic.{pointwise};
    ghost use Rattle.std.specs.Cmp.Lexicographic.{lists_per};

    ghost eq = { pointwise T.eq };

    ghost laws = { lists_per T.laws };

    fn eq(&self, other: &Self) -> bool {
        self.as_slice() == other.as_slice()
    }
}

impl<T: Eq + Drop> Eq for SharedItems<T> {
    ghost use Rattle.std.specs.Cmp.Lexicographic.{lists_equiv};

    ghost laws = { lists_equiv T.Eq.laws };
}

/// In the order of dictionaries, item by item.
impl<T: PartialOrd + Drop> PartialOrd for SharedItems<T> {
    ghost use Rattle.std.specs.Cmp.Lexicographic.{slice_partial_cmp, lists_po};

    ghost partial_cmp = { λ v w. slice_partial_cmp T.partial_cmp v w };

    ghost laws = { lists_po T.PartialOrd.laws };

    fn partial_cmp(&self, other: &Self) -> Option<Ordering> {
        self.as_slice().partial_cmp(&other.as_slice())
    }
}

impl<T: Ord + Drop> Ord for SharedItems<T> {
    ghost use Rattle.std.specs.Cmp.Lexicographic.{slice_cmp, lists_total, lists_agrees, lists_ties};

    ghost cmp = { λ v w. slice_cmp T.cmp v w };

    ghost total = { lists_total T.total };

    ghost matches_partial_cmp = { λ v w. lists_agrees T.matches_partial_cmp v w };

    ghost matches_eq = { λ v w. lists_ties T.cmp T.matches_eq v w };

    fn cmp(&self, other: &Self) -> Ordering {
        self.as_slice().cmp(&other.as_slice())
    }
}
