// Making a store, and admitting what its device holds.
ghost use Rattle.std.specs.Prelude.{◌≡◌, [], ◌∷◌};
ghost use Rattle.store.specs.States.{fresh};
ghost use Rattle.store.specs.Model.{model};
ghost use Rattle.store.specs.Refusing.{tested, shut, busy};
ghost use Rattle.store.specs.Admitting.{admit_answer, after_admit};

use crate::state::Store;
use admission::examine_device;
use catalogue::Catalogue;
use devices::Device;
use placing::Filling;
use records::{Cause, Refusal};

impl<D: Device> Store<D> {
    // A store over a device of any contents, shut and without sheets. Two stores have different numbers as long as a token of either is out.
    pub fn new(device: D, number: u32) -> Self
        ensures { model D.Device D.Kind.Key.bytes result ≡ fresh (D.Device.contents device) number }
    {
        Store {
            device,
            number,
            filling: None,
            catalogue: Catalogue::new(),
            marking: false,
        }
    }

    // The device, where the store is no longer wanted.
    pub fn into_device(self) -> D
        ensures { result ≡ self.device }
    {
        // Each field is named, since `..` doesn't take apart what can't be let go.
        let Store {
            device,
            number: _,
            filling: _,
            catalogue: _,
            marking: _,
        } = self;
        device
    }

    // Opens the store, if its device passes the examination.
    pub fn admit(&mut self) -> Result<(), Refusal>
        ensures answer { result ≡ admit_answer D.Kind.Key.WIDE (λ l p. D.Kind.Key.bytes (D.Kind.Fingerprint.naming l p)) (model D.Device D.Kind.Key.bytes self.old) }
        ensures after { model D.Device D.Kind.Key.bytes self.new ≡ after_admit D.Kind.Key.WIDE (λ l p. D.Kind.Key.bytes (D.Kind.Fingerprint.naming l p)) (model D.Device D.Kind.Key.bytes self.old) }
    {
        if self.filling.is_some() {
            return Err(Refusal::from(Cause::AlreadyAdmitted));
        }
        examine_device(&self.device)?;
        self.filling = Some(Filling {
            current: None,
            last: self.device.count().saturating_sub(1),
        });
        Ok(())
    }

    // Refuses what only an admitted store does.
    pub(crate) fn check_admitted(&self) -> Result<(), Refusal>
        ensures { result ≡ tested (shut (model D.Device D.Kind.Key.bytes self.now) ∷ []) }
    {
        if self.filling.is_none() {
            return Err(Refusal::from(Cause::Shut));
        }
        Ok(())
    }

    // Refuses what an admitted store does only while no marking is open.
    pub(crate) fn check_idle(&self) -> Result<(), Refusal>
        ensures { result ≡ tested (shut (model D.Device D.Kind.Key.bytes self.now) ∷ busy (model D.Device D.Kind.Key.bytes self.now) ∷ []) }
    {
        self.check_admitted()?;
        if self.marking {
            return Err(Refusal::from(Cause::MarkingOpen));
        }
        Ok(())
    }
}
