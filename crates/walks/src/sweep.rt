// Down the levels of a tree, with the nodes to visit in a table: each node is looked at once, however many paths lead to it.
ghost use Rattle.std.specs.Prelude.{◌≡◌, ℕ, ◌-◌, ◌≤◌, true, false, List, [], ◌∷◌, ◌++◌, map, if◌then◌else◌, None};
ghost use Rattle.records.specs.Records.{first_place};
ghost use Rattle.devices.specs.Questions.{records_of};
ghost use Rattle.slots.specs.Walks.{keys_of};
ghost use Rattle.trees.specs.Holding.{record_of, standing};
ghost use Rattle.trees.specs.Trees.{StoredUnder, payload_of, stands};
ghost use Rattle.walks.specs.Sweeps.{Enters, Admits, AdmitsAll, Moves};

use crate::children::payload_at;
use crate::flaw::Flaw;
use devices::Device;
use keys::Key;
use records::{MOST_BYTES, Place};
use slots::{Probe, Slot, insert, lookup};

// Puts a node's fingerprint into the table, unless it is there already.
pub(crate) fn enter<K: Key>(table: &mut [Slot<K>], node: K) -> Result<(), Flaw>
    ensures { Enters K.Key.bytes node (keys_of table.old) (keys_of table.new) result }
{
    match insert(table, node) {
        Probe::Full => Err(Flaw::TableFull),
        _ => Ok(()),
    }
}

// The first place of a fingerprint that is stored at a level.
fn place_at_level<D: Device>(device: &D, node: D::Kind, level: u8) -> Option<Place>
    ensures { result ≡ (if stands (record_of (D.contents device.now) (D.Kind.Key.bytes node)) level then first_place (D.contents device.now) (D.Kind.Key.bytes node) else None) }
{
    let place = device.first_place(node)?;
    device
        .level(place)
        .is_ok_and(|stored| stored == level)
        .then_some(place)
}

// The nodes of a level, which is not 0, on a device.
#[derive(Drop)]
struct Nodes<'a, D> {
    device: &'a D,
    level: u8,
    ghost high: { 1 ≤ level },
}

impl<'a, D: Device> Nodes<'a, D> {
    // Whether a child is stored at the level just below.
    fn is_above(&self, child: D::Kind) -> bool
        ensures under { result ≡ true → StoredUnder (D.contents self.now.device.now) self.now.level (D.Kind.Key.bytes child) }
        ensures lacks { result ≡ false → StoredUnder (D.contents self.now.device.now) self.now.level (D.Kind.Key.bytes child) → ⊥ }
    {
        place_at_level(self.device, child, self.level - 1).is_some()
    }

    // Enters a child of the node at a place; it must be stored at the level just below.
    fn admit_child(
        &self,
        place: Place,
        child: D::Kind,
        table: &mut [Slot<D::Kind>],
    ) -> Result<(), Flaw>
        ensures { Admits D.Kind.Key.bytes (D.contents self.now.device.now) place self.now.level child (keys_of table.old) (keys_of table.new) result }
    {
        if !self.is_above(child) {
            return Err(Flaw::Broken(place));
        }
        enter(table, child)
    }

    // Enters each child that the payload of the node at a place lists.
    fn admit_pieces(
        &self,
        place: Place,
        payload: &[u8],
        table: &mut [Slot<D::Kind>],
    ) -> Result<(), Flaw>
        ensures { AdmitsAll D.Kind.Key.bytes D.Kind.Key.WIDE (D.contents self.now.device.now) place self.now.level payload.now (keys_of table.old) (keys_of table.new) result }
    {
        for piece in payload.chunks_exact(D::Kind::WIDE) {
            let Some(child) = D::Kind::read(piece) else {
                continue;
            };
            self.admit_child(place, child, table)?;
        }
        Ok(())
    }

    // Enters each child of the node at a place.
    fn admit_children(&self, place: Place, table: &mut [Slot<D::Kind>]) -> Result<(), Flaw>
        ensures { AdmitsAll D.Kind.Key.bytes D.Kind.Key.WIDE (D.contents self.now.device.now) place self.now.level (payload_of (standing (D.contents self.now.device.now) place)) (keys_of table.old) (keys_of table.new) result }
    {
        let mut buffer = [0; MOST_BYTES];
        self.admit_pieces(place, payload_at(self.device, place, &mut buffer), table)
    }

    // Visits a node: if it is held and stored at this level, its children are entered.
    fn visit_node(&self, node: D::Kind, table: &mut [Slot<D::Kind>]) -> Result<(), Flaw>
        ensures { (done : List (List ℕ)) → Moves D.Kind.Key.bytes D.Kind.Key.WIDE (D.contents self.now.device.now) self.now.level done (keys_of table.old) self.now.level (D.Kind.Key.bytes node ∷ done) (keys_of table.new) result }
    {
        if !lookup(table, table.len(), node) {
            return Ok(());
        }
        let Some(place) = place_at_level(self.device, node, self.level) else {
            return Ok(());
        };
        self.admit_children(place, table)
    }

    // Visits the nodes of a container.
    fn visit_container(&self, container: usize, table: &mut [Slot<D::Kind>]) -> Result<(), Flaw>
        ensures { (done : List (List ℕ)) → Moves D.Kind.Key.bytes D.Kind.Key.WIDE (D.contents self.now.device.now) self.now.level done (keys_of table.old) self.now.level (map (λ x. x.fingerprint) (records_of (D.contents self.now.device.now) container) ++ done) (keys_of table.new) result }
    {
        // By number: a device is asked by place.
        for index in 0..self.device.records(container).unwrap_or(0) {
            let Ok(node) = self.device.fingerprint(Place { container, index }) else {
                continue;
            };
            self.visit_node(node, table)?;
        }
        Ok(())
    }

    // Visits the nodes of all containers, in rising order.
    fn visit(&self, table: &mut [Slot<D::Kind>]) -> Result<(), Flaw>
        ensures { Moves D.Kind.Key.bytes D.Kind.Key.WIDE (D.contents self.now.device.now) self.now.level [] (keys_of table.old) (self.now.level - 1) [] (keys_of table.new) result }
    {
        // A loop, since a proof knows nothing of what a closure has changed, here the table.
        for container in 0..self.device.count() {
            self.visit_container(container, table)?;
        }
        Ok(())
    }
}

// Visits the levels from one down to 1.
pub(crate) fn visit_levels<D: Device>(
    device: &D,
    top: u8,
    table: &mut [Slot<D::Kind>],
) -> Result<(), Flaw>
    ensures { Moves D.Kind.Key.bytes D.Kind.Key.WIDE (D.contents device.now) top [] (keys_of table.old) 0 [] (keys_of table.new) result }
{
    for level in (1..=top).rev() {
        Nodes { device, level }.visit(table)?;
    }
    Ok(())
}
