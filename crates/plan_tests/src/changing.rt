//! Files that have another size when they are read than was told of them: no more is taken than was told, and no more
//! than is there.
use crate::asserts::{is, is_text_at};
use crate::plans::shown;
use snap_io::{Failed, Shelf};
use std::alloc::Global;
use std::process::Abort;

/// What each file holds, again and again.
const LINE: &[u8] = b"get 1\n";

/// A shelf whose files have grown or shrunk since their size was told. Tells contracts nothing.
#[derive(Drop)]
struct Changing {
    told: u64,
    /// How many bytes there are when they are read.
    held: u64,
    /// The end of the bytes that were asked for.
    asked: u64,
}

impl Shelf for Changing {
    ghost use Rattle.std.specs.Prelude.{None};

    ghost files = { λ s. None };

    ghost read_faults = { λ s. 0 };

    ghost write_faults = { λ s. 0 };

    fn size(&mut self, _name: &str) -> Result<u64, Failed> {
        Ok(self.told)
    }

    fn read(&mut self, _name: &str, at: u64, into: &mut [u8]) -> Result<usize, Failed> {
        let left = self.held.saturating_sub(at);
        let count = into.len().min(left.min(40_000) as usize);
        for (place, byte) in into.iter_mut().take(count).enumerate() {
            *byte = byte_at(at, place);
        }
        self.asked = self.asked.max(at.saturating_add(into.len() as u64));
        Ok(count)
    }

    fn create(&mut self, _name: &str) -> Result<(), Failed> {
        Ok(())
    }

    fn append(&mut self, _name: &str, _bytes: &[u8]) -> Result<(), Failed> {
        Ok(())
    }
}

// The byte that stands so many bytes behind a place.
fn byte_at(at: u64, more: usize) -> u8 {
    LINE[(at % 6 + more as u64 % 6) as usize % 6]
}

// Reads a script of such a file, and tells to where bytes were asked for.
fn asked_of<R: Abort>(rt: &R, alloc: Global, told: u64, held: u64, want: &str) -> u64 {
    let mut shelf = Changing {
        told,
        held,
        asked: 0,
    };
    let found = shown(alloc, "a;", &mut shelf).expect(rt, "no memory");
    is_text_at(rt, found.as_str(), want, "a changing file");
    shelf.asked
}

// Behind the size that was told there is always more.
fn grows<R: Abort>(rt: &R, alloc: Global, told: u64, want: &str) {
    let asked = asked_of(rt, alloc, told, u64::MAX, want);
    is(rt, asked as usize, told as usize);
}

// Of the bytes that were told only so many are left: the end is found by asking for the rest, and no further.
fn shrinks<R: Abort>(rt: &R, alloc: Global, told: u64, held: u64, want: &str) {
    let asked = asked_of(rt, alloc, told, held, want);
    is(rt, asked as usize, told as usize);
}

#[test]
fn growing_files(rt: HostRuntime) {
    grows(&rt, rt.alloc(), 0, "65536 0 main");
    grows(&rt, rt.alloc(), 12, "65536 2 main");
    grows(&rt, rt.alloc(), 15, "3 script a line 3: WordCount");
    // Two pieces and more are read of so many lines.
    grows(&rt, rt.alloc(), 65_538, "65536 10923 main");
}

#[test]
fn shrunken_files(rt: HostRuntime) {
    shrinks(&rt, rt.alloc(), 18, 0, "65536 0 main");
    shrinks(&rt, rt.alloc(), 18, 12, "65536 2 main");
    shrinks(&rt, rt.alloc(), 18, 8, "3 script a line 2: UnknownWord");
    // What is left are 10,923 lines, which take more than one read.
    shrinks(&rt, rt.alloc(), 70_000, 65_538, "65536 10923 main");
}
