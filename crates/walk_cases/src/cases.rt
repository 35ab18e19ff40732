//! The tables. Written by model/walk_cases.py: to change it, change that and run it.
mod addresses;
mod entries;
mod levels;
mod rights;

use crate::scenarios::Holder;
use crate::scenarios::Holder::{Either, GuestOnly, Neither};
use access::{Access, Kind, Mode};
pub use addresses::ADDRESSES;
pub use entries::ENTRIES;
pub use levels::LEVELS;
pub use rights::RIGHTS;

// The ways to make an access: kind, mode, SUM and MXR. The address is that of the case.
const LOAD_S: Access = Access {
    kind: Kind::Load,
    mode: Mode::Supervisor,
    sum: false,
    mxr: false,
    address: 0,
};

const LOAD_S_MXR: Access = Access {
    kind: Kind::Load,
    mode: Mode::Supervisor,
    sum: false,
    mxr: true,
    address: 0,
};

const LOAD_S_SUM: Access = Access {
    kind: Kind::Load,
    mode: Mode::Supervisor,
    sum: true,
    mxr: false,
    address: 0,
};

const LOAD_S_SUM_MXR: Access = Access {
    kind: Kind::Load,
    mode: Mode::Supervisor,
    sum: true,
    mxr: true,
    address: 0,
};

const LOAD_U: Access = Access {
    kind: Kind::Load,
    mode: Mode::User,
    sum: false,
    mxr: false,
    address: 0,
};

const LOAD_U_MXR: Access = Access {
    kind: Kind::Load,
    mode: Mode::User,
    sum: false,
    mxr: true,
    address: 0,
};

const LOAD_U_SUM: Access = Access {
    kind: Kind::Load,
    mode: Mode::User,
    sum: true,
    mxr: false,
    address: 0,
};

const LOAD_U_SUM_MXR: Access = Access {
    kind: Kind::Load,
    mode: Mode::User,
    sum: true,
    mxr: true,
    address: 0,
};

const STORE_S: Access = Access {
    kind: Kind::Store,
    mode: Mode::Supervisor,
    sum: false,
    mxr: false,
    address: 0,
};

const STORE_S_MXR: Access = Access {
    kind: Kind::Store,
    mode: Mode::Supervisor,
    sum: false,
    mxr: true,
    address: 0,
};

const STORE_S_SUM: Access = Access {
    kind: Kind::Store,
    mode: Mode::Supervisor,
    sum: true,
    mxr: false,
    address: 0,
};

const STORE_S_SUM_MXR: Access = Access {
    kind: Kind::Store,
    mode: Mode::Supervisor,
    sum: true,
    mxr: true,
    address: 0,
};

const STORE_U: Access = Access {
    kind: Kind::Store,
    mode: Mode::User,
    sum: false,
    mxr: false,
    address: 0,
};

const STORE_U_MXR: Access = Access {
    kind: Kind::Store,
    mode: Mode::User,
    sum: false,
    mxr: true,
    address: 0,
};

const STORE_U_SUM: Access = Access {
    kind: Kind::Store,
    mode: Mode::User,
    sum: true,
    mxr: false,
    address: 0,
};

const STORE_U_SUM_MXR: Access = Access {
    kind: Kind::Store,
    mode: Mode::User,
    sum: true,
    mxr: true,
    address: 0,
};

const FETCH_S: Access = Access {
    kind: Kind::Fetch,
    mode: Mode::Supervisor,
    sum: false,
    mxr: false,
    address: 0,
};

const FETCH_S_MXR: Access = Access {
    kind: Kind::Fetch,
    mode: Mode::Supervisor,
    sum: false,
    mxr: true,
    address: 0,
};

const FETCH_S_SUM: Access = Access {
    kind: Kind::Fetch,
    mode: Mode::Supervisor,
    sum: true,
    mxr: false,
    address: 0,
};

const FETCH_S_SUM_MXR: Access = Access {
    kind: Kind::Fetch,
    mode: Mode::Supervisor,
    sum: true,
    mxr: true,
    address: 0,
};

const FETCH_U: Access = Access {
    kind: Kind::Fetch,
    mode: Mode::User,
    sum: false,
    mxr: false,
    address: 0,
};

const FETCH_U_MXR: Access = Access {
    kind: Kind::Fetch,
    mode: Mode::User,
    sum: false,
    mxr: true,
    address: 0,
};

const FETCH_U_SUM: Access = Access {
    kind: Kind::Fetch,
    mode: Mode::User,
    sum: true,
    mxr: false,
    address: 0,
};

const FETCH_U_SUM_MXR: Access = Access {
    kind: Kind::Fetch,
    mode: Mode::User,
    sum: true,
    mxr: true,
    address: 0,
};

/// The words of the deep memory that are not zero, each after its address.
pub static DEEP: [(u64, u64); 15] = [
    (0xc008, 1),
    (0x28, 0x1001),
    (0x4048, 0x20df),
    (0xd010, 0x401),
    (0x1030, 0x1401),
    (0x5050, 0x24df),
    (0xe018, 0x801),
    (0x2038, 0x1801),
    (0x6058, 0x28df),
    (0xf020, 0xc01),
    (0x3040, 0x1c01),
    (0x7060, 0x2cdf),
    (0x8008, 0x2020302801),
    (0x9010, 0x4030382c01),
    (0xa018, 0x60404030cf),
];

/// Root registers, and whose root each may be.
pub static REGISTERS: [(u64, Holder); 69] = [
    (0, Either),
    (1, Neither),
    (2, Neither),
    (4, Neither),
    (0x1000, Neither),
    (0x80000000000, Neither),
    (0x100000000000, Neither),
    (0x800000000000, Neither),
    (0x1000000000000, Neither),
    (0x800000000000000, Neither),
    (0x1000000000000000, Neither),
    (0x1000000000000004, Neither),
    (0x2000000000000000, Neither),
    (0x2000000000000004, Neither),
    (0x3000000000000000, Neither),
    (0x3000000000000004, Neither),
    (0x4000000000000000, Neither),
    (0x4000000000000004, Neither),
    (0x5000000000000000, Neither),
    (0x5000000000000004, Neither),
    (0x6000000000000000, Neither),
    (0x6000000000000004, Neither),
    (0x7000000000000000, Neither),
    (0x7000000000000004, Neither),
    (0x8000000000000000, Either),
    (0x8000000000000001, GuestOnly),
    (0x8000000000000002, GuestOnly),
    (0x8000000000000003, GuestOnly),
    (0x8000000000000004, Either),
    (0x8000000000000008, Either),
    (0x8000000000001000, Either),
    (0x8000080000000000, Either),
    (0x80000ffffffffffc, Either),
    (0x80000fffffffffff, GuestOnly),
    (0x8000100000000000, GuestOnly),
    (0x8000200000000000, GuestOnly),
    (0x8000400000000000, GuestOnly),
    (0x8000800000000000, GuestOnly),
    (0x8000f00000000000, GuestOnly),
    (0x8000ffffffffffff, GuestOnly),
    (0x8001000000000000, Neither),
    (0x8001100000000000, Neither),
    (0x8002000000000000, Neither),
    (0x8004000000000000, Neither),
    (0x8008000000000000, Neither),
    (0x8010000000000000, Neither),
    (0x8020000000000000, Neither),
    (0x8040000000000000, Neither),
    (0x8080000000000000, Neither),
    (0x8100000000000000, Neither),
    (0x8200000000000000, Neither),
    (0x8400000000000000, Neither),
    (0x8800000000000000, Neither),
    (0x8ffff00000000000, Neither),
    (0x9000000000000000, Neither),
    (0x9000000000000004, Neither),
    (0xa000000000000000, Neither),
    (0xa000000000000004, Neither),
    (0xb000000000000000, Neither),
    (0xb000000000000004, Neither),
    (0xc000000000000000, Neither),
    (0xc000000000000004, Neither),
    (0xd000000000000000, Neither),
    (0xd000000000000004, Neither),
    (0xe000000000000000, Neither),
    (0xe000000000000004, Neither),
    (0xf000000000000000, Neither),
    (0xf000000000000004, Neither),
    (0xffffffffffffffff, Neither),
];
