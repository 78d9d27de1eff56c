// A level and a container, which marking looks up together.
ghost use Rattle.std.specs.Prelude.{◌<◌};

#[derive(Clone, Copy, Debug, PartialEq, Eq)]
pub struct Pair {
    pub level: u8,
    pub container: u8,
    ghost fits: { (level < 256) × (container < 256) },
}
