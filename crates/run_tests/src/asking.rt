//! A shelf that tells by a flag when it was first asked to add to a file, and a turn that holds a worker until then.
use crossbeam_utils::atomic::AtomicCell;
use snap_io::{Failed, MemShelf, Shelf, Turn};
use std::hint;

/// How often a held worker may look for the flag.
pub(crate) const LOOKS: u64 = 1_000_000_000;

/// A shelf in memory. It sets the flag before it adds to a file, also where that fails.
#[derive(Drop)]
pub(crate) struct FlagShelf<'f> {
    pub held: MemShelf,
    pub asked: &'f AtomicCell<bool>,
}

impl Shelf for FlagShelf<'_> {
    ghost use Rattle.std.specs.Prelude.{Some};
    ghost use Rattle.snap_io.specs.MemShelf.{held_files, read_faults_of, write_faults_of};

    ghost files = { λ s. Some (held_files s.held) };

    ghost read_faults = { λ s. read_faults_of s.held };

    ghost write_faults = { λ s. write_faults_of s.held };

    fn size(&mut self, name: &str) -> Result<u64, Failed> {
        self.held.size(name)
    }

    fn read(&mut self, name: &str, at: u64, into: &mut [u8]) -> Result<usize, Failed> {
        self.held.read(name, at, into)
    }

    fn create(&mut self, name: &str) -> Result<(), Failed> {
        self.held.create(name)
    }

    fn append(&mut self, name: &str, bytes: &[u8]) -> Result<(), Failed> {
        self.asked.store(true);
        self.held.append(name, bytes)
    }
}

/// Holds one worker before one of its commands until the flag is set. It doesn't wait: it looks a limited number of times,
/// and goes on.
#[derive(Drop)]
pub(crate) struct FlagTurn<'f> {
    asked: &'f AtomicCell<bool>,
    worker: u32,
    number: u64,
    looks: u64,
    saw: AtomicCell<bool>,
}

impl<'f> FlagTurn<'f> {
    pub(crate) fn new(
        asked: &'f AtomicCell<bool>,
        worker: u32,
        number: u64,
        looks: u64,
    ) -> FlagTurn<'f> {
        FlagTurn {
            asked,
            worker,
            number,
            looks,
            saw: AtomicCell::new(false),
        }
    }

    /// Whether the worker that was held saw the flag.
    pub(crate) fn saw(&self) -> bool {
        self.saw.load()
    }

    fn look(&self) {
        for _ in 0..self.looks {
            if self.asked.load() {
                self.saw.store(true);
                return;
            }
            hint::spin_loop();
        }
    }
}

impl Turn for FlagTurn<'_> {
    fn before(&self, worker: u32, number: u64) {
        if worker == self.worker && number == self.number {
            self.look();
        }
    }
}

/// Holds a worker before its third and its fifth command, each time until something was added to a file since.
#[derive(Drop)]
pub(crate) struct StepTurn<'f> {
    asked: &'f AtomicCell<bool>,
    sights: AtomicCell<u64>,
}

impl<'f> StepTurn<'f> {
    pub(crate) fn new(asked: &'f AtomicCell<bool>) -> StepTurn<'f> {
        StepTurn {
            asked,
            sights: AtomicCell::new(0),
        }
    }

    /// How often it saw that something was added.
    pub(crate) fn sights(&self) -> u64 {
        self.sights.load()
    }

    fn look(&self) {
        for _ in 0..LOOKS {
            if self.asked.load() {
                self.asked.store(false);
                self.sights.store(self.sights.load().saturating_add(1));
                return;
            }
            hint::spin_loop();
        }
    }
}

impl Turn for StepTurn<'_> {
    fn before(&self, _worker: u32, number: u64) {
        if number == 3 || number == 5 {
            self.look();
        }
    }
}
