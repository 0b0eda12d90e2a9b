//! What a thread that writes keys of its own has done, and what a clone shows of that.
//!
//! A thread's keys are its number, and each fourth from there. Its writes come in rounds of eight, and the value of a
//! put is the number of its round.
use snap_table::TableView;

/// How many threads write.
const THREADS: u64 = 4;

/// The keys that one thread alone writes, by their places from 0 on. At each turn comes the place that lies `step`
/// further, and behind the last the first; `back` times a place is its turn.
#[derive(Clone, Copy)]
pub(crate) struct Keys {
    pub(crate) who: u32,
    pub(crate) count: u64,
    pub(crate) step: u64,
    pub(crate) back: u64,
}

/// The key of a turn.
pub(crate) fn key_at(keys: Keys, turn: u64) -> u64 {
    let place = turn.wrapping_mul(keys.step).checked_rem(keys.count);
    place
        .unwrap_or(0)
        .wrapping_mul(THREADS)
        .wrapping_add(keys.who as u64)
}

fn turn_of(keys: Keys, key: u64) -> u64 {
    let turn = (key / THREADS)
        .wrapping_mul(keys.back)
        .checked_rem(keys.count);
    turn.unwrap_or(0)
}

/// How many few keys are: each round writes each of them twice.
const FEW: u64 = 4;

/// The values at a thread's few keys.
pub(crate) type Few = [Option<u64>; 4];

/// The order of a round at few keys: rising, then falling. Each step is its own way back.
pub(crate) fn few_keys(who: u32, round: u64) -> Keys {
    let step = if round / 2 % 2 == 0 { 1 } else { FEW - 1 };
    Keys {
        who,
        count: FEW,
        step,
        back: step,
    }
}

/// Whether a round at few keys puts. The others remove.
pub(crate) fn few_are_put(round: u64) -> bool {
    round % 2 == 0
}

/// The values at a thread's few keys after so many of its writes: at each key that of the last round that has written
/// it, where that put.
pub(crate) fn few_after(writes: u64) -> Few {
    let (round, done) = (writes / 8, writes % 8);
    let mut values = [None; 4];
    for (place, value) in values.iter_mut().enumerate() {
        let turn = (place as u64).wrapping_mul(few_keys(0, round).back) % FEW;
        let last = if turn < done {
            Some(round)
        } else {
            round.checked_sub(1)
        };
        *value = last.filter(|last| few_are_put(*last));
    }
    values
}

/// The values that the clone has at the few keys of each thread, where it has no other key, and its keys rise.
pub(crate) fn few_in(view: &mut TableView<'_>) -> Option<[Few; 4]> {
    let mut all = [[None; 4]; 4];
    let mut least = 0u64;
    for (key, value) in view.pairs() {
        if key < least || key >= THREADS * FEW {
            return None;
        }
        least = key.saturating_add(1);
        all[(key % THREADS) as usize][(key / THREADS) as usize] = Some(value);
    }
    Some(all)
}

/// Whether a thread had these values at its few keys between two of its writes. The greatest is its last round of puts.
pub(crate) fn few_are_between(values: Few) -> bool {
    let mut round = None;
    for value in values {
        round = round.max(value);
    }
    let Some(round) = round else {
        return true;
    };
    let first = round.saturating_mul(8);
    for more in 1..=16u64 {
        if values == few_after(first.saturating_add(more)) {
            return true;
        }
    }
    false
}

/// Turns of one thread: how many they are, the first, and what comes behind the last.
#[derive(Clone, Copy, PartialEq, Eq)]
pub(crate) struct Span {
    pub(crate) count: u64,
    pub(crate) from: u64,
    pub(crate) to: u64,
}

impl Span {
    const NONE: Span = Span {
        count: 0,
        from: u64::MAX,
        to: 0,
    };

    // With a turn more.
    fn with(self, turn: u64) -> Span {
        Span {
            count: self.count.saturating_add(1),
            from: self.from.min(turn),
            to: self.to.max(turn.saturating_add(1)),
        }
    }

    /// What is left after so many writes where each key is put once, by the turns, and then each is removed so.
    pub(crate) fn after(keys: Keys, writes: u64) -> Span {
        let from = writes.saturating_sub(keys.count);
        let to = writes.min(keys.count);
        if from == to {
            return Span::NONE;
        }
        Span {
            count: to.saturating_sub(from),
            from,
            to,
        }
    }

    /// Whether that is left between two of the thread's writes.
    pub(crate) fn is_between(self, keys: Keys) -> bool {
        let whole = self.to.saturating_sub(self.from) == self.count;
        self == Span::NONE || whole && (self.from == 0 || self.to == keys.count)
    }
}

/// The turns of each thread's many keys that the clone has, where each has the value of its turn, and the keys rise.
pub(crate) fn spans_in(view: &mut TableView<'_>) -> Option<[Span; 4]> {
    let mut spans = [Span::NONE; 4];
    let mut least = 0u64;
    for (key, value) in view.pairs() {
        let who = key % THREADS;
        let turn = turn_of(many_keys(who as u32), key);
        if key < least || value != turn / 8 {
            return None;
        }
        least = key.saturating_add(1);
        spans[who as usize] = spans[who as usize].with(turn);
    }
    Some(spans)
}

/// A thread's many keys: the first thread's rise, the second's fall, and the others' are mixed.
pub(crate) fn many_keys(who: u32) -> Keys {
    let (step, back) = match who {
        0 => (1, 1),
        1 => (2_503, 2_503),
        2 => (1_143, 2_079),
        _ => (1_049, 1_289),
    };
    Keys {
        who,
        count: 2_504,
        step,
        back,
    }
}
