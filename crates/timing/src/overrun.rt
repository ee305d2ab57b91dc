//! How far a list passes its limits.
ghost use Rattle.std.specs.Prelude.{◌<◌};

/// The greatest time by which a job of a list passes its limit, and the number of the first job that passes it by so much.
#[derive(Clone, Copy, PartialEq, Eq, Debug)]
pub struct Overrun {
    pub by: u64,
    pub cause: u16,
    ghost some: { 0 < by },
}
