ghost use Rattle.std.specs.Prelude.{◌≡◌, ◌<◌, ◌%◌, ◌==◌, ℕ, IfOk, MatchOption, option_map, unwrap_or, [], ◌∷◌};
ghost use Rattle.iop_base.specs.Places.{phys};
ghost use Rattle.iop_base.specs.declared.blocks.TheConstants.{BLOCK_UNIT};
ghost use Rattle.iop_sysmem.specs.BlockMap.{AreBlocks, IsBlockSize, with_block, freeing, index_at, index_holding, holder};
ghost use Rattle.iop_sysmem.specs.Placing.{IsFree, HasNoFree, IsLeastFree, IsGreatestFree, IsNamedFree, ModeTakes, ModeTakesNone};
ghost use Rattle.iop_sysmem.specs.Allocating.{allocating, most_free, free_bytes};
ghost use Rattle.iop_sysmem.specs.declared.blocks.TheConstants.{KERNEL, NOWHERE};

use crate::block::Block;
use iop_base::{BLOCK_UNIT, Code, block_len};
use std::alloc::{AllocError, Global};
use std::marker::Model;

/// The kernel's block, which is never freed.
pub const KERNEL: Block = Block {
    start: 0,
    size: 0x1_0000,
};

/// What the queries answer where no block is.
pub const NOWHERE: u32 = 0xFFFF_FFFF;

/// What `free` answers where no block starts that may be freed.
pub const NO_BLOCK: Code = Code(-1);

/// The used ranges of RAM. Each is a block: its start and its size are multiples of `BLOCK_UNIT`.
/// No two meet. `KERNEL` is the first and always used.
///
/// Addresses name the same places through KUSEG, KSEG0 and KSEG1; one outside RAM is in no block.
#[derive(Drop)]
pub struct Blocks {
    pub(crate) size: u32,
    /// The blocks in the order of their starts. There is room for all that can stand.
    pub(crate) used: Vec<Block>,
}

impl Model for Blocks {
    ghost use Rattle.std.specs.Prelude.{◌<◌, ◌≤◌, ◌*◌, ◌^◌};
    ghost use Rattle.std.specs.Vec.{vec_capacity};
    ghost use Rattle.iop_base.specs.declared.blocks.TheConstants.{BLOCK_UNIT};
    ghost use Rattle.iop_sysmem.specs.BlockMap.{BlockMap, AreBlocks};

    ghost Value = { BlockMap };

    ghost view = { λ b. record { size = b.size; used = b.used.items } };

    ghost invariant = { λ b. AreBlocks (record { size = b.size; used = b.used.items })
        × (b.size < 2 ^ 32)
        × (b.size ≤ BLOCK_UNIT * vec_capacity b.used) };
}

impl Blocks {
    /// Makes the blocks of a RAM of `size` bytes, a multiple of `BLOCK_UNIT` greater than
    /// `KERNEL.size`: the kernel's alone is used. It takes all the host memory that will be needed.
    pub fn new(alloc: Global, size: u32) -> Result<Self, AllocError>
        requires units { size % BLOCK_UNIT ≡ 0 }
        requires kernel { KERNEL.size < size }
        ensures map { IfOk result (λ blocks. blocks ≡ record { size = size; used = KERNEL ∷ [] }) }
        ensures blocks { IfOk result AreBlocks }
    {
        let mut used = Vec::with_capacity(alloc, (size / BLOCK_UNIT) as usize)?;
        used.push_reserved(KERNEL);
        Ok(Blocks { size, used })
    }

    /// Finds the physical place of an address. None outside RAM. It is not `iop_ram`'s, which is
    /// for a RAM of 2 MiB or 8 MiB alone: blocks are made of any size that `new` takes.
    fn physical(&self, at: u32) -> Option<u32>
        ensures place { result ≡ phys self.now.size at }
        ensures blocks { AreBlocks self.now }
    {
        let place = at % 0x2000_0000;
        match at / 0x2000_0000 {
            0 | 4 | 5 if place < self.size => Some(place),
            _ => None,
        }
    }

    /// Finds the least place where so many bytes are free.
    fn first_free(&self, len: u32) -> Option<u32>
        ensures { MatchOption result (HasNoFree self.now len) (IsLeastFree self.now len) }
    {
        let mut start = 0;
        for &Block { start: next, size } in &self.used {
            if len <= next - start {
                return Some(start);
            }
            start = next + size;
        }
        (len <= self.size - start).then_some(start)
    }

    /// Finds the greatest place where so many bytes are free.
    fn last_free(&self, len: u32) -> Option<u32>
        requires { len % BLOCK_UNIT ≡ 0 }
        ensures { MatchOption result (HasNoFree self.now len) (IsGreatestFree self.now len) }
    {
        let mut last = None;
        let mut start = 0;
        for &Block { start: next, size } in &self.used {
            if len <= next - start {
                last = Some(next - len);
            }
            start = next + size;
        }
        if len <= self.size - start {
            last = Some(self.size - len);
        }
        last
    }

    /// Finds the place that an address names. None where so many bytes are not free there, or it is
    /// no multiple of `BLOCK_UNIT`.
    fn named_free(&self, at: u32, len: u32) -> Option<u32>
        ensures { MatchOption result ((place : ℕ) → IsNamedFree self.now len at place → ⊥)
            (IsNamedFree self.now len at) }
    {
        let place = self.physical(at)?;
        if place % BLOCK_UNIT != 0 || len > self.size - place {
            return None;
        }
        for &Block { start, size } in &self.used {
            if start < place + len && place < start + size {
                return None;
            }
        }
        Some(place)
    }

    /// Makes a free range a block.
    fn put(&mut self, place: u32, len: u32)
        requires free { IsFree self.old len place }
        requires size { IsBlockSize len }
        ensures map { self.new ≡ with_block self.old place len }
        ensures blocks { AreBlocks self.new }
    {
        let mut index = 0;
        while index < self.used.len() && self.used[index].start < place {
            index += 1;
        }
        let _ = self.used.insert(
            index,
            Block {
                start: place,
                size: len,
            },
        );
    }

    /// Finds the place that a mode takes.
    fn place_for(&self, mode: u32, len: u32, at: u32) -> Option<u32>
        requires { len % BLOCK_UNIT ≡ 0 }
        ensures { MatchOption result (ModeTakesNone self.now mode len at)
            (ModeTakes self.now mode len at) }
    {
        match mode {
            0 => self.first_free(len),
            1 => self.last_free(len),
            2 => self.named_free(at, len),
            _ => None,
        }
    }

    /// Makes a block of `block_len(size)` bytes, and answers its start. Mode 0 takes
    /// the least free place, mode 1 the greatest, mode 2 the place that the address `at` names.
    ///
    /// Answers 0, and changes nothing, exactly where the mode is not 0 to 2, the size is 0, or no
    /// place fits: in mode 2 also where the place is not a multiple of `BLOCK_UNIT`.
    pub fn alloc(&mut self, mode: u32, size: u32, at: u32) -> u32
        ensures place { result ≡ (allocating self.old mode size at).0 }
        ensures map { self.new ≡ (allocating self.old mode size at).1 }
        ensures was_blocks { AreBlocks self.old }
        ensures blocks { AreBlocks self.new }
    {
        if size == 0 || size > self.size {
            return 0;
        }
        let len = block_len(size);
        let Some(place) = self.place_for(mode, len, at) else {
            return 0;
        };
        self.put(place, len);
        place
    }

    /// Finds the index of the block that starts at a place.
    fn index_of(&self, place: u32) -> Option<usize>
        ensures { result ≡ index_at self.now place }
    {
        self.used.iter().position(|block| block.start == place)
    }

    /// Frees the block that starts at this address. `NO_BLOCK`, and no change, exactly where none
    /// starts there or it is the kernel's.
    pub fn free(&mut self, at: u32) -> Code
        ensures code { result ≡ (freeing self.old at).0 }
        ensures map { self.new ≡ (freeing self.old at).1 }
        ensures was_blocks { AreBlocks self.old }
        ensures blocks { AreBlocks self.new }
    {
        let Some(place) = self.physical(at) else {
            return NO_BLOCK;
        };
        match self.index_of(place) {
            None | Some(0) => NO_BLOCK,
            Some(index) => {
                self.used.remove(index);
                Code::OK
            }
        }
    }

    /// Tells how many bytes RAM has.
    pub fn size(&self) -> u32
        ensures value { result ≡ self.now.size }
        ensures blocks { AreBlocks self.now }
    {
        self.size
    }

    /// Tells the size in bytes of the greatest free range: 0 where none is free.
    pub fn max_free(&self) -> u32
        ensures most { result ≡ most_free self.now }
        ensures blocks { AreBlocks self.now }
    {
        let mut most = 0;
        let mut start = 0;
        for &Block { start: next, size } in &self.used {
            most = most.max(next - start);
            start = next + size;
        }
        most.max(self.size - start)
    }

    /// Counts the bytes that are free in all.
    pub fn total_free(&self) -> u32
        ensures free { result ≡ free_bytes self.now }
        ensures blocks { AreBlocks self.now }
    {
        let mut free = 0;
        let mut start = 0;
        for &Block { start: next, size } in &self.used {
            free += next - start;
            start = next + size;
        }
        free + (self.size - start)
    }

    /// Finds the index of the block that holds a place.
    fn index_holding(&self, place: u32) -> Option<usize>
        ensures { result ≡ index_holding self.now place }
    {
        self.used.iter().position(|block| block.start <= place && place - block.start < block.size)
    }

    /// Finds the block that holds the place of an address.
    fn holder(&self, at: u32) -> Option<Block>
        ensures block { result ≡ holder self.now at }
        ensures blocks { AreBlocks self.now }
    {
        let place = self.physical(at)?;
        let index = self.index_holding(place)?;
        self.used.get(index).copied()
    }

    /// Tells the start of the block that holds this address: `NOWHERE` where none does, in free
    /// memory too.
    pub fn top(&self, at: u32) -> u32
        ensures start { result
            ≡ unwrap_or (option_map (λ block. block.start) (holder self.now at)) NOWHERE }
        ensures blocks { AreBlocks self.now }
    {
        self.holder(at).map_or(NOWHERE, |block| block.start)
    }

    /// Tells the size in bytes of the block that holds this address: `NOWHERE` where none does, in
    /// free memory too.
    pub fn block_size(&self, at: u32) -> u32
        ensures size { result
            ≡ unwrap_or (option_map (λ block. block.size) (holder self.now at)) NOWHERE }
        ensures blocks { AreBlocks self.now }
    {
        self.holder(at).map_or(NOWHERE, |block| block.size)
    }
}
