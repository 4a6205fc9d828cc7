//! Memory of records that went, kept for those that come.
ghost use Rattle.std.specs.Prelude.{◌≡◌, length, IfOk, IsOk};

use std::alloc::{AllocError, Global};

/// Blocks of memory that hold no record any more, kept for the records that come.
#[derive(Debug, Drop)]
pub struct Spares {
    /// None until the first block is kept.
    blocks: Option<Vec<Vec<u8>>>,
}

impl Spares {
    /// No blocks.
    pub fn new() -> Spares {
        Spares { blocks: None }
    }

    /// The block that was kept last, with the bytes that were in it, or an empty one. Takes no memory.
    pub fn pop(&mut self, alloc: Global) -> Vec<u8> {
        match &mut self.blocks {
            Some(blocks) => blocks.pop().unwrap_or(Vec::new(alloc)),
            None => Vec::new(alloc),
        }
    }

    /// Keeps a block. Where memory is lacking for the list of blocks, the block is freed.
    #[inline(always)]
    pub fn push(&mut self, alloc: Global, block: Vec<u8>) {
        // The list stays in its place: each record has its block kept.
        let blocks = self.blocks.get_or_insert(Vec::new(alloc));
        match blocks.push(block) {
            Ok(()) | Err(_) => {}
        }
    }
}

/// The block at this length, with any bytes in it: cut where it is longer, else grown to just that.
pub fn resized(mut block: Vec<u8>, len: usize) -> Result<Vec<u8>, AllocError>
    ensures size { IfOk result (λ bytes. length bytes.items ≡ len) }
    ensures succeeds { len ≡ 0 → IsOk result }
{
    if len <= block.len() {
        block.truncate(len);
        return Ok(block);
    }
    block.reserve_exact(len - block.len())?;
    block.resize(len, 0)?;
    Ok(block)
}
