/// What is stepped at a moment, with what all pieces read.
pub trait Step<S> {
    /// It may be stepped so.
    ghost can_step: { Self → S → Type 0 };

    /// What a step leaves of it.
    ghost steps: { Self → S → Self → Type 0 };

    /// Steps it.
    fn step(&mut self, scene: &S)
        requires { can_step self.old scene.now }
        ensures { steps self.old scene.entry.now self.new };
}

/// A piece, with the number by which it passes the gate.
#[derive(Drop)]
pub struct Slot<T> {
    pub piece: T,
    pub number: u32,
    /// Whether it is stepped at the moment.
    pub counts: bool,
}
