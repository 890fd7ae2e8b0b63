ghost use Rattle.std.specs.Prelude.{◌≡◌, ◌<◌, ◌≤◌, ◌+◌, ◌^◌, [], length, take, replicate, IfOk};
ghost use Rattle.rv_model.specs.LittleEndian.{number_at, with_number_at};
ghost use Rattle.ce_model.specs.Limits.{block_room};

use ce_model::{BLOCK_ROOM, BlockId, NoMemory};
use rv_model::{AccessSize, number_at, put_number};
use std::alloc::Global;
use std::marker::Model;

/// A block of message memory: a name that it keeps for good, and the bytes that it holds now,
/// `BLOCK_ROOM` at most. There is one block of a name, so it isn't `Clone`. Contracts see its name
/// and its bytes.
#[derive(Drop)]
pub struct Block {
    id: BlockId,
    length: u32,
    room: Vec<u8>,
}

impl Model for Block {
    ghost use Rattle.std.specs.Prelude.{◌≡◌, ◌≤◌, take, vec_len};
    ghost use Rattle.ce_model.specs.Blocks as model;
    ghost use Rattle.ce_model.specs.Limits.{block_room};

    ghost Value = { model.Block };

    ghost view = { λ block. record { id = block.id; bytes = take block.length block.room.items } };

    ghost invariant = { λ block. (block.length ≤ block_room) × (vec_len block.room ≡ block_room) };
}

impl Block {
    /// The block of this name, of length 0. `NoMemory` may come at any time.
    pub fn new(alloc: Global, id: BlockId) -> Result<Block, NoMemory>
        ensures { IfOk result (λ block. block ≡ record { id = id; bytes = [] }) }
    {
        let room = vec![in alloc; 0; room()]?;
        Ok(Block {
            id,
            length: 0,
            room,
        })
    }

    /// The block's name.
    pub fn id(&self) -> BlockId
        ensures { result ≡ self.now.id }
    {
        self.id
    }

    /// How many bytes it holds now, `BLOCK_ROOM` at most.
    pub fn length(&self) -> u32
        ensures value { result ≡ length self.now.bytes }
        ensures within { result ≤ block_room }
    {
        self.length
    }

    /// The bytes that it holds now.
    pub fn bytes(&self) -> &[u8]
        ensures value { result.now ≡ self.now.bytes }
        ensures within { length result.now ≤ block_room }
    {
        &self.room[..self.length as usize]
    }

    /// Makes the block hold `length` bytes, all 0; the length is `BLOCK_ROOM` at most.
    pub fn reset(&mut self, length: u32)
        requires { length ≤ block_room }
        ensures { self.new ≡ record { id = self.old.id; bytes = replicate length 0 } }
    {
        clear(self.room.as_mut_slice(), length as usize);
        self.length = length;
    }

    /// Makes the block hold these bytes, `BLOCK_ROOM` at most.
    #[tactic(auto, unfolding(ce_model::specs::Limits::block_room))]
    pub fn fill(&mut self, bytes: &[u8])
        requires { length bytes.now ≤ block_room }
        ensures { self.new ≡ record { id = self.old.id; bytes = bytes.now } }
    {
        overwrite(self.room.as_mut_slice(), bytes);
        self.length = bytes.len() as u32;
    }

    /// Makes the block hold what another one holds.
    pub fn copy_from(&mut self, other: &Block)
        ensures { self.new ≡ record { id = self.old.id; bytes = other.now.bytes } }
    {
        self.fill(other.bytes());
    }

    /// The number in the bytes from `offset` on, of which there are `size`, little-endian. They are
    /// all within the block's length.
    pub fn load(&self, offset: u32, size: AccessSize) -> u32
        requires within { offset + size.bytes ≤ length self.now.bytes }
        ensures value { result ≡ number_at self.now.bytes offset size.bytes }
        ensures fits { result < 256 ^ size.bytes }
    {
        number_at(self.bytes(), offset as usize, size)
    }

    /// Stores the lowest bytes of `value` from `offset` on, `size` of them, little-endian. They are
    /// all within the block's length.
    pub fn store(&mut self, offset: u32, size: AccessSize, value: u32)
        requires within { offset + size.bytes ≤ length self.old.bytes }
        ensures after { self.new
            ≡ record {
              id = self.old.id;
              bytes = with_number_at self.old.bytes offset size.bytes value;
            } }
        ensures length { length self.new.bytes ≡ length self.old.bytes }
    {
        let length = self.length as usize;
        put_number_within(
            self.room.as_mut_slice(),
            length,
            offset as usize,
            size,
            value,
        );
    }
}

/// How many bytes a block has room for, as a number that proofs don't compute with.
#[tactic(auto, unfolding(ce_model::specs::Limits::block_room))]
fn room() -> usize
    ensures { result ≡ block_room }
{
    BLOCK_ROOM as usize
}

/// Makes the first `count` bytes 0.
fn clear(room: &mut [u8], count: usize)
    requires { count ≤ length room.old }
    ensures { take count room.new ≡ replicate count 0 }
{
    room[..count].fill(0);
}

/// Makes the first bytes these.
fn overwrite(room: &mut [u8], bytes: &[u8])
    requires { length bytes.now ≤ length room.old }
    ensures { take (length bytes.now) room.new ≡ bytes.now }
{
    room[..bytes.len()].copy_from_slice(bytes);
}

/// Writes a number into the first `count` bytes.
fn put_number_within(room: &mut [u8], count: usize, offset: usize, size: AccessSize, value: u32)
    requires within { offset + size.bytes ≤ count }
    requires count { count ≤ length room.old }
    ensures { take count room.new ≡ with_number_at (take count room.old) offset size.bytes value }
{
    put_number(&mut room[..count], offset, size, value);
}
