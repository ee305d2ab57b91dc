//! Records that have a number.
ghost use Rattle.std.specs.Prelude.{◌≡◌, ℕ};

/// A record of a job, which has the job's number.
pub trait Numbered: Copy {
    ghost number: { Self → ℕ };

    fn number(&self) -> u16
        ensures { result ≡ number self.now };
}
