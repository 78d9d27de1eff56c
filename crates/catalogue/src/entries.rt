// The catalogue: 64 entries, each empty or with a sheet, in an array, since no call of a store may allocate.
ghost use Rattle.std.specs.Prelude.{◌≡◌, All, length};
ghost use Rattle.catalogue.specs.Sheets.{Counted};

use crate::sheet::Sheet;

// A byte counts the readings of each sheet that are out.
#[derive(Drop)]
pub struct Catalogue<F> {
    pub(crate) entries: [Option<Sheet<F>>; 64],
    ghost long: { length entries ≡ 64 },
    ghost counted: { All Counted entries },
}
