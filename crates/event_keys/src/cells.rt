// The cells of a run, and that of its throttle.
ghost use Rattle.std.specs.Prelude.{◌≡◌, IfOk};
ghost use Rattle.std.specs.Option.{option_copied};
ghost use Rattle.kinds.specs.Cells.{has_cell, is_cell};
ghost use Rattle.event_keys.specs.Cells.{cell_of, cell_with, cells_of, lesser_at, lowered, start_of, throttle_cell, with_limit};

use crate::ReadEvent;
use expr::Expr;
use kinds::{Cell, CellLimit, CellLimits, Function, Limit, Scope, Shared, Throttle};
use lists::{Bytes, Items, Memory};
use std::alloc::Global;

impl<'a> ReadEvent<'a> {
    /// The concurrency cells of a run that the event begins, each once with its lesser limit.
    pub fn cells_of(&self, alloc: Global, function: &Function) -> Result<CellLimits, Memory>
        ensures { IfOk result (λ cells. cells ≡ cells_of function.now self.now) }
    {
        let cells = self.limits_of(alloc, function)?;
        CellLimits::new(alloc, cells)
    }

    fn limits_of(&self, alloc: Global, function: &Function) -> Result<Items<CellLimit>, Memory>
        ensures { IfOk result (λ cells. cells ≡ cells_of function.now self.now) }
    {
        let mut cells = Items::with_room(alloc, function.limits.len())?;
        for limit in function.limits.as_slice() {
            let cell = self.cell_of(alloc, &function.id, limit)?;
            let added = CellLimit {
                cell,
                limit: limit.limit,
            };
            cells = with_limit(alloc, cells, added)?;
        }
        Ok(cells)
    }

    fn cell_of(&self, alloc: Global, function: &Bytes, limit: &Limit) -> Result<Cell, Memory>
        ensures { IfOk result (λ cell. cell ≡ cell_of function.now self.now limit.now) }
    {
        let value = self.key_value(alloc, limit.key.as_ref())?;
        cell_with(limit.scope, function, limit.place, value)
    }

    /// The cell of the function's throttle in which the start of the run counts, where it has one.
    pub fn start_of(
        &self,
        alloc: Global,
        function: &Function,
    ) -> Result<Option<Shared<Cell>>, Memory>
        ensures { IfOk result (λ cell. cell ≡ start_of function.now self.now) }
    {
        match &function.throttle {
            Some(throttle) => {
                let cell = self.throttle_cell(alloc, &function.id, throttle)?;
                Ok(Some(Shared::new(alloc, cell)?))
            }
            None => Ok(None),
        }
    }

    fn throttle_cell(
        &self,
        alloc: Global,
        function: &Bytes,
        throttle: &Throttle,
    ) -> Result<Cell, Memory>
        ensures { IfOk result (λ cell. cell ≡ throttle_cell function.now self.now throttle.now) }
    {
        let value = self.key_value(alloc, throttle.key.as_ref())?;
        Ok(Cell::Throttle {
            function: function.clone()?,
            limit: throttle.limit,
            period: throttle.period,
            burst: throttle.burst,
            key: text_of(alloc, throttle.key.as_ref())?,
            value,
        })
    }
}

fn text_of(alloc: Global, key: Option<&Expr>) -> Result<Option<Bytes>, Memory>
    ensures { IfOk result (λ text. text ≡ option_copied key.entry) }
{
    match key {
        Some(expr) => Ok(Some(Bytes::from_slice(alloc, expr.text())?)),
        None => Ok(None),
    }
}

fn cell_with(scope: Scope, function: &Bytes, place: u8, value: Bytes) -> Result<Cell, Memory>
    ensures { IfOk result (λ cell. cell ≡ cell_with scope function.now place value) }
{
    match scope {
        Scope::Own => Ok(Cell::Own {
            function: function.clone()?,
            place,
            value,
        }),
        Scope::Env => Ok(Cell::Env { value }),
        Scope::Account => Ok(Cell::Account { value }),
    }
}

// A cell stands once, with the lesser limit.
fn with_limit(
    alloc: Global,
    cells: Items<CellLimit>,
    added: CellLimit,
) -> Result<Items<CellLimit>, Memory>
    ensures { IfOk result (λ all. all ≡ with_limit cells added) }
{
    if has_cell(&added.cell, cells.as_slice()) {
        return lowered(alloc, cells, &added);
    }
    let mut all = cells;
    all.push(added)?;
    Ok(all)
}

fn has_cell(cell: &Cell, limits: &[CellLimit]) -> bool
    ensures { result ≡ has_cell cell.now limits.now }
{
    limits.iter().any(|l| cell.cmp(&l.cell).is_eq())
}

fn lowered(
    alloc: Global,
    cells: Items<CellLimit>,
    added: &CellLimit,
) -> Result<Items<CellLimit>, Memory>
    ensures { IfOk result (λ all. all ≡ lowered added.now cells) }
{
    let mut all = Items::with_room(alloc, cells.len())?;
    for other in cells {
        all.push(lesser_at(added, other))?;
    }
    Ok(all)
}

fn lesser_at(added: &CellLimit, other: CellLimit) -> CellLimit
    ensures { result ≡ lesser_at added.now other }
{
    if added.cell.cmp(&other.cell).is_eq() {
        CellLimit {
            cell: other.cell,
            limit: added.limit.min(other.limit),
        }
    } else {
        other
    }
}
