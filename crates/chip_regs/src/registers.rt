//! The registers, and what stops the chip.

ghost use Rattle.std.specs.Prelude.{◌≡◌, ◌↔◌, ◌<◌, IsTrue, IsNone, Some, false};
ghost use Rattle.chip_regs.specs.Registers.{byte_at, written, after_read, with_byte, is_place, cleared, is_stopped, cause_of, stop_with, without_stops, istat_byte, dstat_byte, sist0_byte, with_istat, with_dstat, with_sist0, with_sist1};

use crate::bits::{Ctest2, Dstat, Istat, Sist0, Sist1, flag_if};
use bitflags::Flags;

/// Why the chip stopped, in the order in which causes count where several bits are set.
#[derive(Clone, Copy, Debug, PartialEq, Eq)]
pub enum Cause {
    /// INT, with its vector.
    Sir(u32),
    /// Illegal instruction.
    Iid,
    /// Access outside host memory.
    Bf,
    /// Phase mismatch.
    Ma,
    /// Unexpected disconnect.
    Udc,
    /// Bus reset.
    Rst,
    /// Selection timed out.
    Sto,
}

/// The registers by name. A bit of ISTAT, DSTAT, SIST0 and SIST1 is a `bool`.
#[derive(Clone, Copy, Debug, PartialEq, Eq)]
pub struct Regs {
    pub scntl0: u8,
    pub scntl1: u8,
    /// Synchronous and clock factors, from byte 3 of a table's selection word.
    pub scntl3: u8,
    /// Synchronous transfer, from byte 1 of a table's selection word.
    pub sxfer: u8,
    /// The selected target, from byte 2 of a table's selection word.
    pub sdid: u8,
    /// The first byte of a message or status.
    pub sfbr: u8,
    /// 0x80 + the target that reselected.
    pub ssid: u8,
    /// Address of the table that offsets are counted from.
    pub dsa: u32,
    /// Where RETURN leads.
    pub temp: u32,
    /// Count of bytes that are left, of 24 bits.
    pub dbc: u32,
    /// Top byte of the instruction.
    pub dcmd: u8,
    /// Address of the next byte.
    pub dnad: u32,
    /// Address of the next instruction.
    pub dsp: u32,
    /// Second word of the instruction.
    pub dsps: u32,
    pub scratcha: u32,
    pub scratchb: u32,
    /// ISTAT: the host has signalled the chip.
    pub sigp: bool,
    /// ISTAT: the chip is connected to a target.
    pub con: bool,
    /// ISTAT: INTFLY was executed.
    pub intf: bool,
    /// ISTAT: a bit of SIST0 or SIST1 was set.
    pub sip: bool,
    /// ISTAT: a bit of DSTAT was set.
    pub dip: bool,
    /// DSTAT: access outside host memory.
    pub bf: bool,
    /// DSTAT: INT.
    pub sir: bool,
    /// DSTAT: illegal instruction.
    pub iid: bool,
    /// SIST0: phase mismatch.
    pub ma: bool,
    /// SIST0: unexpected disconnect.
    pub udc: bool,
    /// SIST0: bus reset.
    pub rst: bool,
    /// SIST1: selection timed out.
    pub sto: bool,
}

// The word with its byte `k` changed, the lowest first.
fn patched(word: u32, k: usize, b: u8) -> u32
    requires { k < 4 }
    ensures { result ≡ with_byte word k b }
{
    let mut bytes = word.to_le_bytes();
    bytes[k] = b;
    u32::from_le_bytes(bytes)
}

impl Regs {
    /// Every register 0.
    pub fn new() -> Self
        ensures { result ≡ cleared }
    {
        Regs {
            scntl0: 0,
            scntl1: 0,
            scntl3: 0,
            sxfer: 0,
            sdid: 0,
            sfbr: 0,
            ssid: 0,
            dsa: 0,
            temp: 0,
            dbc: 0,
            dcmd: 0,
            dnad: 0,
            dsp: 0,
            dsps: 0,
            scratcha: 0,
            scratchb: 0,
            sigp: false,
            con: false,
            intf: false,
            sip: false,
            dip: false,
            bf: false,
            sir: false,
            iid: false,
            ma: false,
            udc: false,
            rst: false,
            sto: false,
        }
    }

    fn istat(&self) -> Istat
        ensures { result.0 ≡ istat_byte self.now }
    {
        flag_if(Istat::SIGP, self.sigp)
            .union(flag_if(Istat::CON, self.con))
            .union(flag_if(Istat::INTF, self.intf))
            .union(flag_if(Istat::SIP, self.sip))
            .union(flag_if(Istat::DIP, self.dip))
    }

    fn dstat(&self) -> Dstat
        ensures { result.0 ≡ dstat_byte self.now }
    {
        flag_if(Dstat::BF, self.bf)
            .union(flag_if(Dstat::SIR, self.sir))
            .union(flag_if(Dstat::IID, self.iid))
    }

    fn sist0(&self) -> Sist0
        ensures { result.0 ≡ sist0_byte self.now }
    {
        flag_if(Sist0::MA, self.ma)
            .union(flag_if(Sist0::UDC, self.udc))
            .union(flag_if(Sist0::RST, self.rst))
    }

    fn set_istat(&mut self, bits: Istat)
        ensures { self.new ≡ with_istat bits.0 self.old }
    {
        self.sigp = bits.contains(Istat::SIGP);
        self.con = bits.contains(Istat::CON);
        self.intf = bits.contains(Istat::INTF);
        self.sip = bits.contains(Istat::SIP);
        self.dip = bits.contains(Istat::DIP);
    }

    fn set_dstat(&mut self, bits: Dstat)
        ensures { self.new ≡ with_dstat bits.0 self.old }
    {
        self.bf = bits.contains(Dstat::BF);
        self.sir = bits.contains(Dstat::SIR);
        self.iid = bits.contains(Dstat::IID);
    }

    fn set_sist0(&mut self, bits: Sist0)
        ensures { self.new ≡ with_sist0 bits.0 self.old }
    {
        self.ma = bits.contains(Sist0::MA);
        self.udc = bits.contains(Sist0::UDC);
        self.rst = bits.contains(Sist0::RST);
    }

    fn set_sist1(&mut self, bits: Sist1)
        ensures { self.new ≡ with_sist1 bits.0 self.old }
    {
        self.sto = bits.contains(Sist1::STO);
    }

    /// The byte at a place of the table, without the effect that a read of CTEST2 has.
    #[tactic(auto, unfolding(crate::specs::Registers::byte_at))]
    pub fn byte(&self, place: u8) -> u8
        requires { IsTrue (is_place place) }
        ensures { result ≡ byte_at place self.now }
    {
        match place {
            0x00 => self.scntl0,
            0x01 => self.scntl1,
            0x03 => self.scntl3,
            0x05 => self.sxfer,
            0x06 => self.sdid,
            0x08 => self.sfbr,
            0x0a => self.ssid,
            0x0c => self.dstat().bits(),
            0x10..=0x13 => self.dsa.to_le_bytes()[(place - 0x10) as usize],
            0x14 => self.istat().bits(),
            0x1a => flag_if(Ctest2::SIGP, self.sigp).bits(),
            0x1c..=0x1f => self.temp.to_le_bytes()[(place - 0x1c) as usize],
            0x24..=0x26 => self.dbc.to_le_bytes()[(place - 0x24) as usize],
            0x27 => self.dcmd,
            0x28..=0x2b => self.dnad.to_le_bytes()[(place - 0x28) as usize],
            0x2c..=0x2f => self.dsp.to_le_bytes()[(place - 0x2c) as usize],
            0x30..=0x33 => self.dsps.to_le_bytes()[(place - 0x30) as usize],
            0x34..=0x37 => self.scratcha.to_le_bytes()[(place - 0x34) as usize],
            0x42 => self.sist0().bits(),
            0x43 => flag_if(Sist1::STO, self.sto).bits(),
            0x5c..=0x5f => self.scratchb.to_le_bytes()[(place - 0x5c) as usize],
            _ => unreachable!(),
        }
    }

    /// Reads the byte at a place of the table. CTEST2 gives 0x40 where SIGP was set, else 0, and clears SIGP; a read
    /// of any other register changes nothing.
    pub fn read(&mut self, place: u8) -> u8
        requires { IsTrue (is_place place) }
        ensures byte { result ≡ byte_at place self.old }
        ensures after { self.new ≡ after_read place self.old }
    {
        let byte = self.byte(place);
        if place == 0x1a {
            self.sigp = false;
        }
        byte
    }

    /// Writes the byte at a place of the table. Every other byte stays, but that CTEST2 shows the SIGP that a write of
    /// ISTAT leaves. A bit without a name isn't kept, and CTEST2 isn't written.
    #[tactic(auto, unfolding(crate::specs::Registers::written))]
    pub fn write(&mut self, place: u8, b: u8)
        requires { IsTrue (is_place place) }
        ensures { self.new ≡ written place b self.old }
    {
        match place {
            0x00 => self.scntl0 = b,
            0x01 => self.scntl1 = b,
            0x03 => self.scntl3 = b,
            0x05 => self.sxfer = b,
            0x06 => self.sdid = b,
            0x08 => self.sfbr = b,
            0x0a => self.ssid = b,
            0x0c => self.set_dstat(Dstat::from_bits_retain(b)),
            0x10..=0x13 => self.dsa = patched(self.dsa, (place - 0x10) as usize, b),
            0x14 => self.set_istat(Istat::from_bits_retain(b)),
            0x1a => {}
            0x1c..=0x1f => self.temp = patched(self.temp, (place - 0x1c) as usize, b),
            0x24..=0x26 => self.dbc = patched(self.dbc, (place - 0x24) as usize, b),
            0x27 => self.dcmd = b,
            0x28..=0x2b => self.dnad = patched(self.dnad, (place - 0x28) as usize, b),
            0x2c..=0x2f => self.dsp = patched(self.dsp, (place - 0x2c) as usize, b),
            0x30..=0x33 => self.dsps = patched(self.dsps, (place - 0x30) as usize, b),
            0x34..=0x37 => self.scratcha = patched(self.scratcha, (place - 0x34) as usize, b),
            0x42 => self.set_sist0(Sist0::from_bits_retain(b)),
            0x43 => self.set_sist1(Sist1::from_bits_retain(b)),
            0x5c..=0x5f => self.scratchb = patched(self.scratchb, (place - 0x5c) as usize, b),
            _ => unreachable!(),
        }
    }

    /// Whether the chip is stopped: whether a bit of DSTAT, SIST0 or SIST1 is set.
    pub fn is_stopped(&self) -> bool
        ensures { result ≡ is_stopped self.now }
    {
        self.sir || self.iid || self.bf || self.ma || self.udc || self.rst || self.sto
    }

    /// The cause of the stop: of those whose bits are set the first in the order of `Cause`. `None` exactly where
    /// the chip isn't stopped. `Sir` carries DSPS.
    pub fn stop_cause(&self) -> Option<Cause>
        ensures cause { result ≡ cause_of self.now }
        ensures running { IsNone result ↔ (is_stopped self.now ≡ false) }
    {
        if self.sir {
            Some(Cause::Sir(self.dsps))
        } else if self.iid {
            Some(Cause::Iid)
        } else if self.bf {
            Some(Cause::Bf)
        } else if self.ma {
            Some(Cause::Ma)
        } else if self.udc {
            Some(Cause::Udc)
        } else if self.rst {
            Some(Cause::Rst)
        } else if self.sto {
            Some(Cause::Sto)
        } else {
            None
        }
    }

    /// Stops the chip for a cause, whose bit is set. A vector goes to DSPS.
    pub fn stop(&mut self, cause: Cause)
        ensures stopped { self.new ≡ stop_with cause self.old }
        ensures cause { is_stopped self.old ≡ false → cause_of self.new ≡ Some cause }
    {
        match cause {
            Cause::Sir(vector) => {
                self.sir = true;
                self.dip = true;
                self.dsps = vector;
            }
            Cause::Iid => {
                self.iid = true;
                self.dip = true;
            }
            Cause::Bf => {
                self.bf = true;
                self.dip = true;
            }
            Cause::Ma => {
                self.ma = true;
                self.sip = true;
            }
            Cause::Udc => {
                self.udc = true;
                self.sip = true;
            }
            Cause::Rst => {
                self.rst = true;
                self.sip = true;
            }
            Cause::Sto => {
                self.sto = true;
                self.sip = true;
            }
        }
    }

    /// Clears every stop bit, and with them SIP and DIP.
    pub fn clear_stops(&mut self)
        ensures stops { self.new ≡ without_stops self.old }
        ensures running { is_stopped self.new ≡ false }
    {
        self.sir = false;
        self.iid = false;
        self.bf = false;
        self.ma = false;
        self.udc = false;
        self.rst = false;
        self.sto = false;
        self.sip = false;
        self.dip = false;
    }
}
