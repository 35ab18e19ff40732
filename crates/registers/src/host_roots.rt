//! The host's root register.
ghost use Rattle.std.specs.Prelude.{◌≡◌, true};
ghost use Rattle.registers.specs.Registers.{is_host_root};

/// A host root register that keeps its layout.
#[derive(Clone, Copy)]
pub struct HostRoot {
    pub register: u64,
    ghost layout: { is_host_root register ≡ true },
}
