// A store: a device, and what is kept in it.
use catalogue::Catalogue;
use devices::Device;
use placing::Filling;

pub struct Store<D: Device> {
    pub(crate) device: D,
    // Tells its tokens from those of other stores.
    pub(crate) number: u32,
    // Which container takes new records; none while the store is shut.
    pub(crate) filling: Option<Filling>,
    pub(crate) catalogue: Catalogue<D::Kind>,
    // Whether a marking is open; no value goes with it.
    pub(crate) marking: bool,
}
