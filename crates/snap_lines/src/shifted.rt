//! Blocks that begin 48 bytes behind those of another allocator.
ghost use Rattle.std.specs.Prelude.{◌≡◌, ◌<◌, ◌^◌};
ghost use Rattle.snap_lines.specs.Frames.{note_at, frame_size, frame_token};

use std::alloc::{AllocError, Allocator};

// How far a block lies behind its frame.
const SHIFT: usize = 48;

// What a frame is aligned to, the most that `malloc` is asked for.
const UNIT: usize = 16;

// Blocks have fewer bytes.
const MOST: usize = 1 << 62;

/// An allocator over `B`, which asks `B` for a frame around each block: 48 bytes, the block, and
/// the frame's address behind it, since no pointer goes down. So a frame at 16 mod 64 has its block
/// at 0 mod 64. A block is right wherever its frame lies.
///
/// A call costs one of `B`, for 56 to 71 bytes more, and a write or read of the address.
#[derive(Clone, Copy)]
pub struct Shifted<B: Allocator> {
    inner: B,
}

impl<B: Allocator> Shifted<B> {
    /// Frames are asked for from this allocator.
    pub fn over(inner: B) -> Shifted<B> {
        Shifted { inner }
    }
}

// How far behind the start of a block the address of its frame stands.
fn note_place(size: usize) -> usize
    requires { size < 2 ^ 62 }
    ensures { result ≡ note_at size }
{
    (size + 7) / 8 * 8
}

// The bytes of the frame of a block.
fn bytes_around(size: usize) -> usize
    requires { size < 2 ^ 62 }
    ensures { result ≡ frame_size size }
{
    (note_place(size) + 71) / 16 * 16
}

unsafe impl<B: Allocator> Allocator for Shifted<B> {
    ghost dealloc_token = { λ heap. frame_token (B.dealloc_token heap.inner) };

    fn allocate(&self, size: usize, _align: usize) -> Result<*mut u8, AllocError> {
        if size >= MOST {
            return Err(AllocError);
        }
        match self.inner.allocate(bytes_around(size), UNIT) {
            Ok(frame) => unsafe {
                let block = frame.add(SHIFT);
                let note = block.add(note_place(size)) as *mut *mut u8;
                note.write(frame);
                Ok(block)
            },
            Err(error) => Err(error),
        }
    }

    unsafe fn deallocate(&self, ptr: *mut u8, size: usize, _align: usize) {
        let note = ptr.add(note_place(size)) as *mut *mut u8;
        self.inner.deallocate(note.read(), bytes_around(size), UNIT);
    }
}
