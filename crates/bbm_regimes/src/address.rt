//! Pages and places: the addresses of translation tables and of their descriptors.

ghost use Rattle.std.specs.Prelude.{◌≡◌, ℕ, ◌+◌, ◌-◌, ◌*◌, ◌/◌, ◌%◌, ◌^◌, ◌<◌, ◌↔◌, IsSome, IfSome};
ghost use Rattle.bbm_regimes.specs.declared.address.TheConstants.{PAGE_BYTES};

use std::marker::Model;

/// The bytes of a page. Source: Arm ARM (DDI 0487), "VMSAv8-64 descriptor formats", the 4 KiB granule.
pub const PAGE_BYTES: u64 = 4096;

/// The number of descriptors of a page, which is that of its places. Source: Arm ARM (DDI 0487), "VMSAv8-64 descriptor
/// formats", 8-byte descriptors and the 4 KiB granule.
pub const PLACES: u64 = 512;

/// The first address of a page: a multiple of 4096 below 2^48. Source: Arm ARM (DDI 0487),
/// "VMSAv8-64 descriptor formats", the 4 KiB granule with 48-bit addresses.
#[derive(Clone, Copy, Debug, PartialEq, Eq)]
pub struct Page {
    addr: u64,
}

impl Model for Page {
    ghost Value = { ℕ };

    ghost view = { λ p. p.addr };

    ghost invariant = { (λ p. (p.addr < 2 ^ 48) × (p.addr % PAGE_BYTES ≡ 0)) };

    ghost inverse = { λ n. record { addr = n } };
}

/// The address of a descriptor: a multiple of 8 below 2^48. Source: Arm ARM (DDI 0487), "VMSAv8-64
/// descriptor formats", 8-byte descriptors with 48-bit addresses.
#[derive(Clone, Copy, Debug, PartialEq, Eq)]
pub struct Place {
    addr: u64,
}

impl Model for Place {
    ghost Value = { ℕ };

    ghost view = { λ p. p.addr };

    ghost invariant = { (λ p. (p.addr < 2 ^ 48) × (p.addr % 8 ≡ 0)) };

    ghost inverse = { λ n. record { addr = n } };
}

impl Page {
    /// The page at this address, in bytes; None exactly where the address is no multiple of 4096 below
    /// 2^48.
    pub fn new(addr: u64) -> Option<Page>
        ensures is_one { IsSome result ↔ ((addr < 2 ^ 48) × (addr % PAGE_BYTES ≡ 0)) }
        ensures value { IfSome result (λ page. page ≡ addr) }
    {
        if addr < 1 << 48 && addr % PAGE_BYTES == 0 {
            Some(Page { addr })
        } else {
            None
        }
    }

    /// The address of the page, in bytes.
    pub fn get(self) -> u64
        ensures value { result ≡ self }
        ensures below { self < 2 ^ 48 }
        ensures aligned { self % PAGE_BYTES ≡ 0 }
    {
        self.addr
    }

    /// The page that is so many pages behind this one.
    pub fn behind(self, count: u8) -> Page
        requires { self + PAGE_BYTES * count < 2 ^ 48 }
        ensures { result ≡ self + PAGE_BYTES * count }
    {
        Page {
            addr: self.addr + PAGE_BYTES * u64::from(count),
        }
    }
}

impl Place {
    /// The place at this address, in bytes; None exactly where the address is no multiple of 8 below
    /// 2^48.
    pub fn new(addr: u64) -> Option<Place>
        ensures is_one { IsSome result ↔ ((addr < 2 ^ 48) × (addr % 8 ≡ 0)) }
        ensures value { IfSome result (λ place. place ≡ addr) }
    {
        if addr < 1 << 48 && addr % 8 == 0 {
            Some(Place { addr })
        } else {
            None
        }
    }

    /// The address of the place, in bytes.
    pub fn get(self) -> u64
        ensures value { result ≡ self }
        ensures below { self < 2 ^ 48 }
        ensures aligned { self % 8 ≡ 0 }
    {
        self.addr
    }

    /// The page that the place lies in.
    pub fn page(self) -> Page
        ensures { result ≡ self / PAGE_BYTES * PAGE_BYTES }
    {
        Page {
            addr: self.addr / PAGE_BYTES * PAGE_BYTES,
        }
    }

    /// The number of the descriptor in its page, 0 to 511.
    pub fn index(self) -> u16
        ensures value { result ≡ self % PAGE_BYTES / 8 }
        ensures below { result < PLACES }
    {
        (self.addr % PAGE_BYTES / 8) as u16
    }
}
