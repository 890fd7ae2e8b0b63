ghost use Rattle.std.specs.Prelude.{◌≡◌, ◌<◌, ◌+◌, ◌^◌, ◌%◌, ◌==◌, ◌&&◌, length, nat_lt, nat_le, if◌then◌else◌, IfOk, OnOk, IfErr, OnErr, Some, None, Ok, Err, List, ℕ, option_map};
ghost use Rattle.ce_model.specs.Limits.{window_base};
ghost use Rattle.ce_model.specs.Space.{window_of, offset_of, load_result, store_result, process_access};
ghost use Rattle.xm_owner.specs.Holdings.{Mapping, block_held_at};
ghost use Rattle.rk_process.specs.OwnStates.{windows_of, space_of, rest_of};
ghost use Rattle.rk_process.specs.Windows.{number_in_window, stored_block, window_at_address, stored_windows};

use ce_model::{WINDOW_BASE, WINDOW_SIZE};
use rv_model::{AccessSize, Stop};
use rv_step::{Memory, PrivateMemory};
use xm_block::Block;
use xm_owner::HeldBlocks;

/// Whose windows an access looks at: the process of this id, and how many windows it has used.
#[derive(Clone, Copy)]
pub(crate) struct Windows {
    pub pid: u32,
    pub used_count: u32,
}

/// The window of an address, and the offset in it, where it is one that was used.
#[tactic(auto, unfolding(ce_model::specs::Limits::window_base, ce_model::specs::Limits::window_size))]
fn used_window(address: u32, used_count: u32) -> Option<(u32, u32)>
    ensures { result ≡ (if nat_le window_base address && nat_lt (window_of address) used_count
        then Some (window_of address, offset_of address) else None) }
{
    let from_base = address.checked_sub(WINDOW_BASE)?;
    let window = from_base / WINDOW_SIZE;
    if window < used_count {
        Some((window, from_base % WINDOW_SIZE))
    } else {
        None
    }
}

/// The same, with what it tells of the blocks that a process holds.
fn window_at(address: u32, used_count: u32) -> Option<(u32, u32)>
    ensures place { result ≡ (if nat_le window_base address && nat_lt (window_of address) used_count
        then Some (window_of address, offset_of address) else None) }
    ensures found { (mappings : List Mapping) (pid : ℕ)
        → window_at_address (windows_of mappings pid used_count) address
        ≡ option_map (λ place. block_held_at mappings pid place.0) result }
{
    used_window(address, used_count)
}

/// Whether `size` bytes from `offset` on lie within the block.
fn is_within_block(block: &Block, offset: u32, size: AccessSize) -> bool
    ensures { result ≡ nat_le (offset + size.bytes) (length block.now.bytes) }
{
    u64::from(offset) + u64::from(size.bytes) <= u64::from(block.length())
}

/// The number that a load at an address above private memory finds, or why it stops the process.
fn load_in_window(
    held_blocks: &HeldBlocks,
    windows: Windows,
    address: u32,
    size: AccessSize,
) -> Result<u32, Stop>
    ensures value { result ≡ number_in_window
        (window_at_address (windows_of held_blocks.now.mappings windows.pid windows.used_count)
        address)
        address size.bytes }
    ensures fits { IfOk result (λ n. n < 256 ^ size.bytes) }
{
    match window_at(address, windows.used_count) {
        None => Err(Stop::Unmapped(address)),
        Some((window, offset)) => match held_blocks.get(windows.pid, window) {
            None => Err(Stop::Gone(address)),
            Some(block) if is_within_block(block, offset, size) => Ok(block.load(offset, size)),
            Some(_) => Err(Stop::PastEnd(address)),
        },
    }
}

/// Stores a number into the block at an offset, or says why it stops the process.
fn store_in_block(
    block: &mut Block,
    address: u32,
    offset: u32,
    size: AccessSize,
    value: u32,
) -> Result<(), Stop>
    requires { offset ≡ offset_of address }
    ensures stored { OnOk result
        (stored_block (Some (Some block.old)) address size.bytes value ≡ Ok block.new) }
    ensures refused { IfErr result
        (λ cause. stored_block (Some (Some block.old)) address size.bytes value ≡ Err cause) }
    ensures unchanged { OnErr result (block.new ≡ block.old) }
{
    if !is_within_block(block, offset, size) {
        return Err(Stop::PastEnd(address));
    }
    block.store(offset, size, value);
    Ok(())
}

/// Stores a number at an address above private memory, or says why it stops the process.
fn store_in_window(
    held_blocks: &mut HeldBlocks,
    windows: Windows,
    address: u32,
    size: AccessSize,
    value: u32,
) -> Result<(), Stop>
    ensures stored { OnOk result
        (stored_windows (windows_of held_blocks.old.mappings windows.pid windows.used_count)
        address size.bytes value
        ≡ Ok (windows_of held_blocks.new.mappings windows.pid windows.used_count)) }
    ensures refused { IfErr result (λ cause.
        stored_windows (windows_of held_blocks.old.mappings windows.pid windows.used_count)
        address size.bytes value
        ≡ Err cause) }
    ensures unchanged { OnErr result (held_blocks.new ≡ held_blocks.old) }
    ensures rest { rest_of windows.pid windows.used_count held_blocks.new
        ≡ rest_of windows.pid windows.used_count held_blocks.old }
{
    match window_at(address, windows.used_count) {
        None => Err(Stop::Unmapped(address)),
        Some((window, offset)) => match held_blocks.get_mut(windows.pid, window) {
            None => Err(Stop::Gone(address)),
            Some(block) => store_in_block(block, address, offset, size, value),
        },
    }
}

/// The number that a load finds which private memory refused for this cause, or why it stops the
/// process.
#[inline(never)]
fn load_elsewhere(
    held_blocks: &HeldBlocks,
    windows: &Windows,
    address: u32,
    size: AccessSize,
    cause: Stop,
) -> Result<u32, Stop>
    ensures value { result ≡ (if address % size.bytes == 0
        then number_in_window (window_at_address
        (windows_of held_blocks.now.mappings windows.now.pid windows.now.used_count) address)
        address size.bytes
        else Err cause) }
    ensures fits { IfOk result (λ n. n < 256 ^ size.bytes) }
{
    if address.is_multiple_of(size.bytes) {
        load_in_window(held_blocks, *windows, address, size)
    } else {
        Err(cause)
    }
}

/// Makes a store that private memory refused for this cause, or says why it stops the process.
#[inline(never)]
fn store_elsewhere(
    held_blocks: &mut HeldBlocks,
    windows: &Windows,
    address: u32,
    size: AccessSize,
    value: u32,
    cause: Stop,
) -> Result<(), Stop>
    ensures stored { OnOk result ((if address % size.bytes == 0
        then stored_windows
        (windows_of held_blocks.old.mappings windows.now.pid windows.now.used_count)
        address size.bytes value else Err cause)
        ≡ Ok (windows_of held_blocks.new.mappings windows.now.pid windows.now.used_count)) }
    ensures refused { IfErr result (λ because. (if address % size.bytes == 0
        then stored_windows
        (windows_of held_blocks.old.mappings windows.now.pid windows.now.used_count)
        address size.bytes value else Err cause)
        ≡ Err because) }
    ensures unchanged { OnErr result (held_blocks.new ≡ held_blocks.old) }
    ensures rest { rest_of windows.now.pid windows.now.used_count held_blocks.new
        ≡ rest_of windows.now.pid windows.now.used_count held_blocks.old }
{
    if address.is_multiple_of(size.bytes) {
        store_in_window(held_blocks, *windows, address, size, value)
    } else {
        Err(cause)
    }
}

/// The number in the bytes at an address, of which there are `size`, or why the load stops the
/// process.
#[inline]
pub(crate) fn load_at(
    private: &PrivateMemory,
    held_blocks: &HeldBlocks,
    windows: &Windows,
    address: u32,
    size: AccessSize,
) -> Result<u32, Stop>
    ensures value { result ≡ load_result
        (space_of private.now held_blocks.now.mappings windows.now.pid windows.now.used_count)
        address size.bytes }
    ensures fits { IfOk result (λ n. n < 256 ^ size.bytes) }
{
    match private.load(address, size) {
        Ok(number) => Ok(number),
        Err(cause) => load_elsewhere(held_blocks, windows, address, size, cause),
    }
}

/// The memory of a process while it runs: its private bytes, and its node's blocks with its windows
/// among them.
#[derive(Drop)]
pub(crate) struct ProcessMemory {
    pub private: PrivateMemory,
    pub held_blocks: HeldBlocks,
    pub windows: Windows,
}

impl Memory for ProcessMemory {
    ghost use Rattle.ce_model.specs.Space.{Space, process_access};
    ghost use Rattle.rk_process.specs.OwnStates.{ProcessRest, space_of, rest_of};

    ghost Space = { Space };

    ghost access = { process_access };

    ghost holds = { λ memory. space_of memory.private memory.held_blocks.mappings memory.windows.pid
        memory.windows.used_count };

    ghost Rest = { ProcessRest };

    ghost rest = { λ memory.
        rest_of memory.windows.pid memory.windows.used_count memory.held_blocks };

    #[inline]
    fn fetch(&self, pc: u32) -> Result<u32, Stop> {
        self.private.fetch(pc)
    }

    #[inline]
    fn load(&self, address: u32, size: AccessSize) -> Result<u32, Stop> {
        load_at(
            &self.private,
            &self.held_blocks,
            &self.windows,
            address,
            size,
        )
    }

    #[inline]
    fn store(&mut self, address: u32, size: AccessSize, value: u32) -> Result<(), Stop> {
        match self.private.store(address, size, value) {
            Ok(()) => Ok(()),
            Err(cause) => {
                store_elsewhere(
                    &mut self.held_blocks,
                    &self.windows,
                    address,
                    size,
                    value,
                    cause,
                )
            }
        }
    }
}
