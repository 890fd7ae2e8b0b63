ghost use Rattle.std.specs.Prelude.{◌≡◌, ◌≤◌, ◌+◌, ◌-◌, ◌*◌, ◌/◌, ◌%◌, ◌++◌, ◌==◌, ◌&&◌, ℕ, [], IfOk, IfSome, length, drop, replicate, Some, None, if◌then◌else◌};
ghost use Rattle.rv_model.specs.declared.limits.TheConstants.{PRIVATE_START, PRIVATE_SIZE, IMAGE_ROOM};
ghost use Rattle.rv_model.specs.Private.{private_size, is_private, checked_access, with_loaded_bytes};

use crate::Memory;
use rv_model::{
    AccessSize, NoMemory, PRIVATE_SIZE, PRIVATE_START, Stop, number_at, put_number, word_at,
};
use std::alloc::Global;
use std::marker::Model;

/// The bits of an offset that are 0 within the memory.
const OUTSIDE: u32 = !(PRIVATE_SIZE - 1);

/// The private memory of a process that used no window: `PRIVATE_SIZE` bytes from `PRIVATE_START`
/// on. A load or store whose address isn't a multiple of its size is refused as `Misaligned`, and
/// any other one outside these addresses as `Unmapped`. A fetch outside them, or not at a multiple
/// of 4, is refused as `Fetch`. Contracts see the memory as the list of its bytes.
#[derive(Drop)]
pub struct PrivateMemory {
    bytes: Vec<u8>,
}

impl Model for PrivateMemory {
    ghost use Rattle.std.specs.Prelude.{◌≡◌, List, ℕ, vec_len};
    ghost use Rattle.rv_model.specs.declared.limits.TheConstants.{PRIVATE_SIZE};

    ghost Value = { List ℕ };

    ghost view = { λ memory. memory.bytes.items };

    ghost invariant = { λ memory. vec_len memory.bytes ≡ PRIVATE_SIZE };
}

impl PrivateMemory {
    /// Memory of zeros. `NoMemory` may come at any time.
    #[tactic(auto, using(rv_model::proofs::PrivateSize::private_size_lem))]
    pub fn new(alloc: Global) -> Result<PrivateMemory, NoMemory>
        ensures { IfOk result (λ memory. memory ≡ replicate private_size 0) }
    {
        let bytes = vec![in alloc; 0; size()]?;
        Ok(PrivateMemory { bytes })
    }

    /// Makes the first bytes those of `loaded`, which are `IMAGE_ROOM` at most, and all others 0.
    /// Each byte is written once.
    #[tactic(auto, unfolding(rv_model::specs::Private::private_size))]
    pub fn load_image(&mut self, loaded: &[u8])
        requires { length loaded.now ≤ IMAGE_ROOM }
        ensures { self.new ≡ with_loaded_bytes loaded.now }
    {
        overwrite(self.bytes.as_mut_slice(), loaded);
    }

    /// The same, where the memory holds zeros alone: only the bytes of `loaded` are written.
    #[tactic(auto, using(crate::proofs::Zeros::loaded_into_zeros))]
    pub fn load_into_zeros(&mut self, loaded: &[u8])
        requires zeros { self.old ≡ with_loaded_bytes [] }
        requires room { length loaded.now ≤ IMAGE_ROOM }
        ensures { self.new ≡ with_loaded_bytes loaded.now }
    {
        overwrite_front(self.bytes.as_mut_slice(), loaded);
    }

    /// All the bytes, that at `PRIVATE_START` first.
    pub fn bytes(&self) -> &[u8]
        ensures value { result.now ≡ self.now }
        ensures len { length result.now ≡ PRIVATE_SIZE }
    {
        self.bytes.as_slice()
    }
}

/// How many bytes private memory has, as a number that proofs don't compute with.
#[tactic(auto, unfolding(rv_model::specs::Private::private_size))]
fn size() -> usize
    ensures { result ≡ private_size }
{
    PRIVATE_SIZE as usize
}

/// Makes the first bytes those of `front`, and leaves all others as they are.
fn overwrite_front(bytes: &mut [u8], front: &[u8])
    requires { length front.now ≤ length bytes.old }
    ensures { bytes.new ≡ front.now ++ drop (length front.now) bytes.old }
{
    let (start, _) = bytes.split_at_mut(front.len());
    start.copy_from_slice(front);
}

/// Makes the first bytes those of `front`, and all others 0.
fn overwrite(bytes: &mut [u8], front: &[u8])
    requires { length front.now ≤ length bytes.old }
    ensures { bytes.new ≡ front.now ++ replicate (length bytes.old - length front.now) 0 }
{
    let (start, rest) = bytes.split_at_mut(front.len());
    start.copy_from_slice(front);
    rest.fill(0);
}

impl Memory for PrivateMemory {
    ghost use Rattle.std.specs.Prelude.{List, ℕ};
    ghost use Rattle.rv_model.specs.Private.{private_access};

    ghost Space = { List ℕ };

    ghost access = { private_access };

    ghost holds = { λ bytes. bytes };

    ghost Rest = { Unit {0} };

    ghost rest = { λ bytes. tt };

    fn fetch(&self, pc: u32) -> Result<u32, Stop> {
        match offset_of(pc, AccessSize::word()) {
            Some(offset) => Ok(word_at(self.bytes.as_slice(), offset)),
            None => Err(Stop::Fetch(pc)),
        }
    }

    fn load(&self, address: u32, size: AccessSize) -> Result<u32, Stop> {
        let offset = place(address, size)?;
        Ok(number_at(self.bytes.as_slice(), offset, size))
    }

    fn store(&mut self, address: u32, size: AccessSize, value: u32) -> Result<(), Stop> {
        let offset = place(address, size)?;
        put_number(self.bytes.as_mut_slice(), offset, size, value);
        Ok(())
    }
}

/// The offset of a private address that is a multiple of `size`, and None for another address. One
/// comparison tells.
#[tactic(auto, using(crate::proofs::Places::place_lemmas))]
#[inline]
fn offset_of(address: u32, size: AccessSize) -> Option<usize>
    ensures value { result
        ≡ (if address % size.bytes == 0 && is_private address
        then Some (address - PRIVATE_START) else None) }
    ensures within { IfSome result (λ offset. offset + size.bytes ≤ PRIVATE_SIZE) }
{
    let offset = address.wrapping_sub(PRIVATE_START);
    if fault_bits(offset, size) == 0 {
        Some(offset as usize)
    } else {
        None
    }
}

/// The bits of an offset that keep an access of `size` bytes from it: those that lead out of the
/// memory, and those below the size.
#[tactic(auto, using(crate::proofs::Places::masked))]
#[inline]
fn fault_bits(offset: u32, size: AccessSize) -> u32
    ensures { result ≡ offset / PRIVATE_SIZE * PRIVATE_SIZE + offset % size.bytes }
{
    offset & (OUTSIDE + (size.bytes - 1))
}

/// The offset at which an access of `size` bytes at `address` is made, or the cause for which it
/// isn't.
#[inline]
fn place(address: u32, size: AccessSize) -> Result<usize, Stop>
    ensures value { result ≡ checked_access address size.bytes (λ offset. offset) }
    ensures within { IfOk result (λ offset. offset + size.bytes ≤ PRIVATE_SIZE) }
{
    match offset_of(address, size) {
        Some(offset) => Ok(offset),
        None if address & (size.bytes - 1) != 0 => Err(Stop::Misaligned(address)),
        None => Err(Stop::Unmapped(address)),
    }
}
