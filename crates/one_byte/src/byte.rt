// A fingerprint of one byte.
ghost use Rattle.std.specs.Prelude.{◌<◌};

#[derive(Clone, Copy, Debug, PartialEq, Eq)]
pub struct OneByte {
    pub value: u8,
    ghost fits: { value < 256 },
}
