// The fingerprint that is FNV-1a of the level byte and then the payload.
ghost use Rattle.std.specs.Prelude.{◌^◌, ◌<◌};

#[derive(Clone, Copy, Debug, PartialEq, Eq)]
pub struct Fnv {
    pub number: u64,
    ghost fits: { number < 2 ^ 64 },
}
