// Keeping sheets and dropping them.
ghost use Rattle.std.specs.Prelude.{◌≡◌, ◌*◌, ◌≤◌, [], length, replicate, Ok, nat_lt};
ghost use Rattle.slots.specs.declared.slot.Slot.TheVariants.{Empty};
ghost use Rattle.trees.specs.Trees.{Whole};
ghost use Rattle.store.specs.Model.{model};
ghost use Rattle.store.specs.Keeping.{tree_answer, spelt, entry_answer, keep_answer, after_keep, keep_table, named_entry, drop_entry, drop_answer, after_drop};

use crate::state::Store;
use catalogue::{Name, Sheet, is_nameable};
use devices::Device;
use records::{Cause, Refusal};
use slots::Slot;
use walks::examine;

// Whether a table has fewer than 63 slots for each container.
fn is_short(slots: usize, containers: usize) -> bool
    ensures { result ≡ nat_lt slots (63 * containers) }
{
    slots / 63 < containers
}

// Refuses a root that is no stored node, or whose tree is not whole. The table has a slot for each record; it is left empty.
fn examine_tree<D: Device>(
    device: &D,
    root: D::Kind,
    table: &mut [Slot<D::Kind>],
) -> Result<(), Refusal>
    requires { 63 * length (D.contents device.now) ≤ length table.old }
    ensures answer { result ≡ tree_answer D.Kind.Key.WIDE (D.contents device.now) (D.Kind.Key.bytes root) }
    ensures emptied { table.new ≡ replicate (length table.old) Empty }
{
    Ok(examine(device, root, table)?)
}

// A sheet of which no reading is out.
fn new_sheet<F>(name: Name, root: F) -> Sheet<F>
    ensures { result ≡ record { name = name; root = root; readings = 0 } }
{
    Sheet {
        name,
        root,
        readings: 0,
    }
}

impl<D: Device> Store<D> {
    // The entry and the name that a new sheet gets, with a table of so many slots for its examination.
    fn entry_for(&self, name: &[u8], slots: usize) -> Result<(usize, Name), Refusal>
        ensures { spelt result ≡ entry_answer D.Kind.Key.WIDE (model D.Device D.Kind.Key.bytes self.now) name.now [] slots }
    {
        self.check_idle()?;
        let kept = Name::of(name).ok_or(Cause::BadName)?;
        if self.catalogue.entry_of(name).is_some() {
            return Err(Refusal::from(Cause::NameKept));
        }
        let entry = self.catalogue.vacant_entry().ok_or(Cause::TooManySheets)?;
        if is_short(slots, self.device.count()) {
            return Err(Refusal::from(Cause::TooShort));
        }
        Ok((entry, kept))
    }

    // Keeps the tree under a root by a name. The table has 63 slots for each container; a call that comes to examine the tree empties it.
    pub fn keep(
        &mut self,
        name: &[u8],
        root: D::Kind,
        table: &mut [Slot<D::Kind>],
    ) -> Result<(), Refusal>
        ensures answer { result ≡ keep_answer D.Kind.Key.WIDE (model D.Device D.Kind.Key.bytes self.old) name.now (D.Kind.Key.bytes root) (length table.old) }
        ensures after { model D.Device D.Kind.Key.bytes self.new ≡ after_keep D.Kind.Key.WIDE (model D.Device D.Kind.Key.bytes self.old) name.now (D.Kind.Key.bytes root) (length table.old) }
        ensures table { table.new ≡ keep_table (model D.Device D.Kind.Key.bytes self.old) name.now table.old }
        ensures whole { result ≡ Ok tt → Whole D.Kind.Key.WIDE (D.Device.contents self.old.device) (D.Kind.Key.bytes root) }
    {
        let (entry, name) = self.entry_for(name, table.len())?;
        examine_tree(&self.device, root, table)?;
        self.catalogue.put(entry, Some(new_sheet(name, root)));
        Ok(())
    }

    // The entry of the sheet of a name.
    pub(crate) fn entry_of(&self, name: &[u8]) -> Result<usize, Refusal>
        ensures { result ≡ named_entry (model D.Device D.Kind.Key.bytes self.now) name.now }
    {
        if !is_nameable(name) {
            return Err(Refusal::from(Cause::BadName));
        }
        self.catalogue
            .entry_of(name)
            .ok_or(Refusal::from(Cause::NameNotKept))
    }

    // The entry of a sheet that may be dropped.
    fn entry_to_drop(&self, name: &[u8]) -> Result<usize, Refusal>
        ensures { result ≡ drop_entry (model D.Device D.Kind.Key.bytes self.now) name.now }
    {
        self.check_idle()?;
        let entry = self.entry_of(name)?;
        if self.catalogue.readings(entry) != 0 {
            return Err(Refusal::from(Cause::SheetInUse));
        }
        Ok(entry)
    }

    // Drops the sheet of a name, if no reading of it is out.
    pub fn drop_sheet(&mut self, name: &[u8]) -> Result<(), Refusal>
        ensures answer { result ≡ drop_answer (model D.Device D.Kind.Key.bytes self.old) name.now }
        ensures after { model D.Device D.Kind.Key.bytes self.new ≡ after_drop (model D.Device D.Kind.Key.bytes self.old) name.now }
    {
        let entry = self.entry_to_drop(name)?;
        self.catalogue.put(entry, None);
        Ok(())
    }
}
