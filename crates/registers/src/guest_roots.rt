//! The guest's root register.
ghost use Rattle.std.specs.Prelude.{◌≡◌, true};
ghost use Rattle.registers.specs.Registers.{is_guest_root};

/// A guest root register that keeps its layout.
#[derive(Clone, Copy)]
pub struct GuestRoot {
    pub register: u64,
    ghost layout: { is_guest_root register ≡ true },
}
