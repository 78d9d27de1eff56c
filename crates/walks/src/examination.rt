// Whether the tree under a root is whole.
ghost use Rattle.std.specs.Prelude.{◌≡◌, ◌≤◌, length, replicate};
ghost use Rattle.slots.specs.declared.slot.Slot.TheVariants.{Empty};
ghost use Rattle.trees.specs.Holding.{all};
ghost use Rattle.trees.specs.Trees.{StoredNode, Whole};
ghost use Rattle.walks.specs.Findings.{Tells};

use crate::cursor::height_of;
use crate::flaw::Flaw;
use crate::sweep::{enter, visit_levels};
use devices::Device;
use slots::{Slot, empty};

// Goes down the tree with a table of what was seen of it, which it empties first.
fn sweep_tree<D: Device>(device: &D, root: D::Kind, seen: &mut [Slot<D::Kind>]) -> Result<(), Flaw>
    ensures { Tells D.Kind.Key.WIDE (D.contents device.now) (D.Kind.Key.bytes root) (length seen.old) result }
{
    empty(seen);
    let level = height_of(device, root);
    if level == 0 {
        return Err(Flaw::NoRoot);
    }
    enter(seen, root)?;
    visit_levels(device, level, seen)
}

// Examines the tree under a root, and looks at each of its nodes once. The table should have a slot for each record; it is emptied
// first, and left empty.
pub fn examine<D: Device>(
    device: &D,
    root: D::Kind,
    table: &mut [Slot<D::Kind>],
) -> Result<(), Flaw>
    ensures tells { Tells D.Kind.Key.WIDE (D.contents device.now) (D.Kind.Key.bytes root) (length table.old) result }
    ensures absent { (StoredNode (D.contents device.now) (D.Kind.Key.bytes root) → ⊥) → result ≡ Err Flaw.NoRoot }
    ensures whole { length (all (D.contents device.now)) ≤ length table.old → Whole D.Kind.Key.WIDE (D.contents device.now) (D.Kind.Key.bytes root) → result ≡ Ok tt }
    ensures emptied { table.new ≡ replicate (length table.old) Empty }
{
    let told = sweep_tree(device, root, table);
    empty(table);
    told
}
