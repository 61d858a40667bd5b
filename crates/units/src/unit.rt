//! A unit that is either at rest or running.
ghost use Rattle.std.specs.Prelude.{◌≡◌};
ghost use Rattle.units.specs.Which.{runs};

/// A unit, at rest as R or running as S.
#[derive(Drop)]
pub enum Unit<R, S> {
    Resting(R),
    Running(S),
}

impl<R, S> Unit<R, S> {
    /// Whether it runs.
    pub fn is_running(&self) -> bool
        ensures { result ≡ runs self.now }
    {
        match self {
            Unit::Resting(_) => false,
            Unit::Running(_) => true,
        }
    }
}
