ghost use Rattle.std.specs.Prelude.{◌≡◌, slice_index, replicate};

use rv_model::{REGISTER_COUNT, Register};

/// The registers x0 to x31. x0 holds 0 for good ("Programmers' Model for Base Integer ISA").
#[derive(Clone, Copy, Debug, PartialEq, Eq)]
pub struct Registers {
    /// The values, by register number.
    pub x: [u32; REGISTER_COUNT],
    pub ghost zero: { slice_index x 0 ≡ 0 },
}

impl Registers {
    ghost use Rattle.rv_model.specs.Exec.{register_value, with_register};

    /// All registers 0.
    pub fn new() -> Registers
        ensures { result.x ≡ replicate REGISTER_COUNT 0 }
    {
        Registers {
            x: [0; REGISTER_COUNT],
        }
    }

    /// The value of `register`; 0 for x0.
    pub fn get(&self, register: Register) -> u32
        ensures { result ≡ register_value self.now.x register.number }
    {
        self.x[register.number as usize]
    }

    /// Writes `value` to `register`. A write to x0 does nothing.
    pub fn set(&mut self, register: Register, value: u32)
        ensures { self.new.x ≡ with_register self.old.x register.number value }
    {
        if register.number != 0 {
            self.x[register.number as usize] = value;
        }
    }
}
