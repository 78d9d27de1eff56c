// The exact table: it owns the slots that hold the keys it learned.
ghost use Rattle.std.specs.Prelude.{◌≡◌, ◌≤◌, length};
ghost use Rattle.slots.specs.Walks.{keys_of};
ghost use Rattle.slots.specs.Tables.{filled};

use live::Intake;
use slots::Slot;

#[derive(Drop)]
pub struct ExactTable<K> {
    pub(crate) slots: Vec<Slot<K>>,
    pub(crate) intake: Intake,
    // No more keys are held than were learned, and there are as many slots as it can learn keys.
    ghost space: { (filled (keys_of slots.items) ≤ intake.count) × (intake.capacity ≡ length slots.items) },
}
