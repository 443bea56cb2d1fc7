//! The bits of the registers that are kept bit by bit.

ghost use Rattle.std.specs.Prelude.{⊤, ◌≡◌, [], ◌∷◌, codes, if◌then◌else◌};

use bitflags::{Flag, Flags, bitflag_items};

/// ISTAT, interrupt status. A bit without a name reads 0.
#[derive(Clone, Copy)]
pub struct Istat(u8);

bitflag_items! {
    impl Istat: u8 {
        /// The host has signalled the chip.
        const SIGP = 0x20;
        /// The chip is connected to a target.
        const CON = 0x08;
        /// INTFLY was executed.
        const INTF = 0x04;
        /// A bit of SIST0 or SIST1 was set.
        const SIP = 0x02;
        /// A bit of DSTAT was set.
        const DIP = 0x01;
    }
}

impl Flags for Istat {
    type Bits = u8;

    ghost exact = { ⊤ };

    ghost table = { (codes "SIGP", 0x20) ∷ (codes "CON", 0x08) ∷ (codes "INTF", 0x04) ∷ (codes "SIP", 0x02) ∷ (codes "DIP", 0x01) ∷ [] };

    ghost set_of = { λ f. f.0 };

    fn flags<'a>() -> &'a [Flag<Istat>] {
        Istat::FLAGS
    }

    fn bits(&self) -> u8 {
        self.0
    }

    fn from_bits_retain(bits: u8) -> Istat {
        Istat(bits)
    }
}

/// DSTAT, the stops of the instruction machine. A bit without a name reads 0.
#[derive(Clone, Copy)]
pub struct Dstat(u8);

bitflag_items! {
    impl Dstat: u8 {
        /// Bus fault: an access outside host memory.
        const BF = 0x20;
        /// INT was executed.
        const SIR = 0x04;
        /// Illegal instruction.
        const IID = 0x01;
    }
}

impl Flags for Dstat {
    type Bits = u8;

    ghost exact = { ⊤ };

    ghost table = { (codes "BF", 0x20) ∷ (codes "SIR", 0x04) ∷ (codes "IID", 0x01) ∷ [] };

    ghost set_of = { λ f. f.0 };

    fn flags<'a>() -> &'a [Flag<Dstat>] {
        Dstat::FLAGS
    }

    fn bits(&self) -> u8 {
        self.0
    }

    fn from_bits_retain(bits: u8) -> Dstat {
        Dstat(bits)
    }
}

/// SIST0, the stops of the SCSI bus. A bit without a name reads 0.
#[derive(Clone, Copy)]
pub struct Sist0(u8);

bitflag_items! {
    impl Sist0: u8 {
        /// Phase mismatch.
        const MA = 0x80;
        /// Unexpected disconnect.
        const UDC = 0x04;
        /// Bus reset.
        const RST = 0x02;
    }
}

impl Flags for Sist0 {
    type Bits = u8;

    ghost exact = { ⊤ };

    ghost table = { (codes "MA", 0x80) ∷ (codes "UDC", 0x04) ∷ (codes "RST", 0x02) ∷ [] };

    ghost set_of = { λ f. f.0 };

    fn flags<'a>() -> &'a [Flag<Sist0>] {
        Sist0::FLAGS
    }

    fn bits(&self) -> u8 {
        self.0
    }

    fn from_bits_retain(bits: u8) -> Sist0 {
        Sist0(bits)
    }
}

/// SIST1, further stops of the SCSI bus. A bit without a name reads 0.
#[derive(Clone, Copy)]
pub struct Sist1(u8);

bitflag_items! {
    impl Sist1: u8 {
        /// Selection timed out.
        const STO = 0x04;
    }
}

impl Flags for Sist1 {
    type Bits = u8;

    ghost exact = { ⊤ };

    ghost table = { (codes "STO", 0x04) ∷ [] };

    ghost set_of = { λ f. f.0 };

    fn flags<'a>() -> &'a [Flag<Sist1>] {
        Sist1::FLAGS
    }

    fn bits(&self) -> u8 {
        self.0
    }

    fn from_bits_retain(bits: u8) -> Sist1 {
        Sist1(bits)
    }
}

/// CTEST2, of which this chip has one bit.
#[derive(Clone, Copy)]
pub struct Ctest2(u8);

bitflag_items! {
    impl Ctest2: u8 {
        /// ISTAT's SIGP, which a read of this register clears.
        const SIGP = 0x40;
    }
}

impl Flags for Ctest2 {
    type Bits = u8;

    ghost exact = { ⊤ };

    ghost table = { (codes "SIGP", 0x40) ∷ [] };

    ghost set_of = { λ f. f.0 };

    fn flags<'a>() -> &'a [Flag<Ctest2>] {
        Ctest2::FLAGS
    }

    fn bits(&self) -> u8 {
        self.0
    }

    fn from_bits_retain(bits: u8) -> Ctest2 {
        Ctest2(bits)
    }
}

/// The flag where it is on, else none.
pub fn flag_if<F: Flags>(flag: F, on: bool) -> F
    ensures { F.exact → F.set_of result ≡ (if on then F.set_of flag else 0) }
{
    if on { flag } else { F::empty() }
}
