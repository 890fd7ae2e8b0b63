ghost use Rattle.std.specs.Prelude.{◌≡◌, ◌<◌, ◌^◌, IfOk, OnOk, IfErr, OnErr, Ok, Err};
ghost use Rattle.rv_model.specs.Exec.{Access};

use rv_model::{AccessSize, Stop};

/// The memory of a process, as its instructions see it. Each refusal is the cause for which the
/// process stops, and changes nothing.
pub trait Memory {
    // What memories of this kind are seen as.
    ghost Space: { Type 0 };

    // What they answer.
    ghost access: { Access Self.Space };

    // What this memory is seen as.
    ghost holds: { Self → Self.Space };

    // What else there is of it, which no access changes.
    ghost Rest: { Type 0 };

    ghost rest: { Self → Self.Rest };

    /// The instruction word at `pc`.
    fn fetch(&self, pc: u32) -> Result<u32, Stop>
        ensures { result ≡ access.fetch (holds self.now) pc };

    /// The number in the `size` bytes from `address` on, little-endian.
    fn load(&self, address: u32, size: AccessSize) -> Result<u32, Stop>
        ensures value { result ≡ access.load (holds self.now) address size.bytes }
        ensures fits { IfOk result (λ n. n < 256 ^ size.bytes) };

    /// Stores the lowest `size` bytes of `value` from `address` on, little-endian.
    fn store(&mut self, address: u32, size: AccessSize, value: u32) -> Result<(), Stop>
        ensures stored { OnOk result
            (access.store (holds self.old) address size.bytes value ≡ Ok (holds self.new)) }
        ensures refused { IfErr result
            (λ cause. access.store (holds self.old) address size.bytes value ≡ Err cause) }
        ensures unchanged { OnErr result (holds self.new ≡ holds self.old) }
        ensures rest { rest self.new ≡ rest self.old };
}
