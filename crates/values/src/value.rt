//! What is read from the value of a field.
ghost use Rattle.std.specs.Prelude.{ℕ, List};
ghost use Rattle.values.specs.Reads.{ReadsBy};

/// What the value of a field says.
pub trait Value: Sized {
    // How it is written.
    ghost text: { Self → List ℕ };

    /// What is written so.
    fn read(value: &[u8]) -> Option<Self>
        ensures { ReadsBy text value.now result };
}
