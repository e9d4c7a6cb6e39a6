// The registers of a thread.
ghost use Rattle.std.specs.Prelude.{◌≡◌, ◌%◌, ◌<◌, slice_index, Some, None};
ghost use Rattle.nv_machine.specs.Registers.{fresh_registers, written};

use std::marker::Model;

/// The 32 registers, of which register 0 is 0, the program counter (the manual's section 2.1) and the reservation (section 8.2).
#[derive(Debug, Drop)]
pub struct Regs {
    x: [u32; 32],
    /// The address of the next instruction, a multiple of 4.
    pub pc: u32,
    reserved: Option<u32>,
}

impl Model for Regs {
    ghost use Rattle.std.specs.Prelude.{◌≡◌, ◌%◌, slice_index};
    ghost use Rattle.nv_machine.specs.Registers.{Registers};

    ghost Value = { Registers };

    ghost view = { λ r. record { x = r.x; pc = r.pc; reserved = r.reserved } };

    ghost invariant = { λ r. (slice_index r.x 0 ≡ 0) × (r.pc % 4 ≡ 0) };
}

impl Regs {
    /// All registers are 0, and nothing is reserved.
    pub fn new(pc: u32) -> Regs
        requires { pc % 4 ≡ 0 }
        ensures { result ≡ fresh_registers pc }
    {
        Regs {
            x: [0; 32],
            pc,
            reserved: None,
        }
    }

    /// The same registers once more.
    pub fn copy(&self) -> Regs
        ensures { result ≡ self.now }
    {
        Regs {
            x: self.x,
            pc: self.pc,
            reserved: self.reserved,
        }
    }

    /// What the register holds.
    pub fn get(&self, n: u8) -> u32
        requires { n < 32 }
        ensures { result ≡ slice_index self.now.x n }
    {
        self.x[n as usize]
    }

    /// Gives the register a value. Register 0 stays 0.
    pub fn set(&mut self, n: u8, value: u32)
        requires { n < 32 }
        ensures { self.new ≡ record self.old { x = written self.old.x n value } }
    {
        if n != 0 {
            self.x[n as usize] = value;
        }
    }

    /// The address that the last LR.W reserved, if its reservation hasn't ended.
    pub fn reserved(&self) -> Option<u32>
        ensures { result ≡ self.now.reserved }
    {
        self.reserved
    }

    /// Reserves an address, and no other.
    pub(crate) fn reserve(&mut self, address: u32)
        ensures { self.new ≡ record self.old { reserved = Some address } }
    {
        self.reserved = Some(address);
    }

    /// Ends the reservation, if there is one.
    pub fn release(&mut self)
        ensures { self.new ≡ record self.old { reserved = None } }
    {
        self.reserved = None;
    }
}
