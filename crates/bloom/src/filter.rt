// The filter owns its bytes.
ghost use Rattle.std.specs.Prelude.{◌≡◌};

use live::Intake;

#[derive(Drop)]
pub struct BloomFilter {
    pub(crate) bytes: Vec<u8>,
    pub(crate) intake: Intake,
    ghost learns: { intake.capacity ≡ 2016 },
}
