// Putting records.
ghost use Rattle.std.specs.Prelude.{◌≡◌, ◌&&◌, true, length, nat_le, is_some};
ghost use Rattle.records.specs.Records.{rec_of};
ghost use Rattle.records.specs.Shapes.{shaped};
ghost use Rattle.store.specs.Model.{model};
ghost use Rattle.store.specs.Putting.{new_answer, after_new, put_answer, after_put};

use crate::state::Store;
use crate::tokens::Stored;
use devices::Device;
use keys::Fingerprint;
use placing::store_record;
use presence::{Presence, presence_of};
use records::{Cause, Record, Refusal, is_shaped};

// Whether a level and a payload have the shape of a node.
fn is_node<F: Fingerprint>(level: u8, payload: &[u8]) -> bool
    ensures { result ≡ (nat_le 1 level && shaped F.Key.WIDE level (length payload.now)) }
{
    level >= 1 && is_shaped::<F>(level, payload)
}

impl<D: Device> Store<D> {
    // Stores a record that is not stored yet, in a store that is admitted.
    fn put_new(&mut self, added: Record<'_, D::Kind>) -> Result<Stored<D::Kind>, Refusal>
        requires { is_some self.old.filling ≡ true }
        ensures answer { result ≡ new_answer (model D.Device D.Kind.Key.bytes self.old) (rec_of D.Kind.Key.bytes added.entry) added.entry.fingerprint }
        ensures after { model D.Device D.Kind.Key.bytes self.new ≡ after_new (model D.Device D.Kind.Key.bytes self.old) (rec_of D.Kind.Key.bytes added.entry) }
    {
        let fingerprint = added.fingerprint;
        let filling = self.filling.as_mut().unwrap();
        store_record(&mut self.device, filling, 1, added).ok_or(Cause::StoreFull)?;
        Ok(Stored {
            fingerprint,
            is_new: true,
        })
    }

    // Puts a record; `fits` tells whether it has the shape that the call asks for.
    fn put(&mut self, fits: bool, added: Record<'_, D::Kind>) -> Result<Stored<D::Kind>, Refusal>
        ensures answer { result ≡ put_answer (model D.Device D.Kind.Key.bytes self.old) fits (rec_of D.Kind.Key.bytes added.entry) added.entry.fingerprint }
        ensures after { model D.Device D.Kind.Key.bytes self.new ≡ after_put (model D.Device D.Kind.Key.bytes self.old) fits (rec_of D.Kind.Key.bytes added.entry) }
    {
        self.check_idle()?;
        if !fits {
            return Err(Refusal::from(Cause::Shape));
        }
        // A copy part by part, since a record of a kind that is a parameter can't be used again after it was copied whole.
        match presence_of(&self.device, Record { ..added }) {
            Presence::Absent => self.put_new(added),
            Presence::Same => Ok(Stored {
                fingerprint: added.fingerprint,
                is_new: false,
            }),
            Presence::Other => Err(Refusal::from(Cause::Collision)),
        }
    }

    // Puts a strip, of 1 to 1,024 bytes.
    pub fn put_strip(&mut self, payload: &[u8]) -> Result<Stored<D::Kind>, Refusal>
        ensures answer { result ≡ put_answer (model D.Device D.Kind.Key.bytes self.old) (shaped D.Kind.Key.WIDE 0 (length payload.now)) (record { level = 0; fingerprint = D.Kind.Key.bytes (D.Kind.Fingerprint.naming 0 payload.now); payload = payload.now }) (D.Kind.Fingerprint.naming 0 payload.now) }
        ensures after { model D.Device D.Kind.Key.bytes self.new ≡ after_put (model D.Device D.Kind.Key.bytes self.old) (shaped D.Kind.Key.WIDE 0 (length payload.now)) (record { level = 0; fingerprint = D.Kind.Key.bytes (D.Kind.Fingerprint.naming 0 payload.now); payload = payload.now }) }
    {
        let fits = is_shaped::<D::Kind>(0, payload);
        self.put(fits, Record::of(0, payload))
    }

    // Puts a node of level 1 to 6, whose payload is the fingerprints of its 1 to 64 children.
    pub fn put_node(&mut self, level: u8, payload: &[u8]) -> Result<Stored<D::Kind>, Refusal>
        ensures answer { result ≡ put_answer (model D.Device D.Kind.Key.bytes self.old) (nat_le 1 level && shaped D.Kind.Key.WIDE level (length payload.now)) (record { level = level; fingerprint = D.Kind.Key.bytes (D.Kind.Fingerprint.naming level payload.now); payload = payload.now }) (D.Kind.Fingerprint.naming level payload.now) }
        ensures after { model D.Device D.Kind.Key.bytes self.new ≡ after_put (model D.Device D.Kind.Key.bytes self.old) (nat_le 1 level && shaped D.Kind.Key.WIDE level (length payload.now)) (record { level = level; fingerprint = D.Kind.Key.bytes (D.Kind.Fingerprint.naming level payload.now); payload = payload.now }) }
    {
        let fits = is_node::<D::Kind>(level, payload);
        self.put(fits, Record::of(level, payload))
    }
}
