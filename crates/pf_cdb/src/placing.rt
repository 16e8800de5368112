//! Tables that are filled.
ghost use Rattle.std.specs.Prelude.{◌≡◌, ◌<◌, length, count_by, IfOk};
ghost use Rattle.pf_cdb.specs.Held.{is_used};
ghost use Rattle.pf_cdb.specs.Written.{filled, put};

use crate::layout::{Slot, slots_for, tried_slot};
use pf_base::NoMemory;
use std::alloc::Global;

// A slot that names no record.
const EMPTY: Slot = Slot { hash: 0, at: 0 };

// Puts a slot in the place of the first empty one that its hash tries.
fn place(slots: &mut [Slot], slot: Slot)
    requires { count_by is_used slots.old < length slots.old }
    ensures { slots.new ≡ put slots.old slot }
{
    for step in 0..slots.len() {
        let i = tried_slot(slot.hash, step, slots.len());
        if slots[i].at == 0 {
            slots[i] = slot;
            return;
        }
    }
    unreachable!()
}

/// The table for some slots.
pub(crate) fn fill(alloc: Global, placed: &[Slot]) -> Result<Vec<Slot>, NoMemory>
    ensures { IfOk result (λ table. table.items ≡ filled placed.now) }
{
    let mut slots = vec![in alloc; EMPTY; slots_for(placed.len())]?;
    for slot in placed {
        place(slots.as_mut_slice(), *slot);
    }
    Ok(slots)
}
