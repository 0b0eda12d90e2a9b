//! The numbers of a round. Those of the comparison with other maps are the same ones for each map, whatever language it is
//! written in.

/// A bijection of 64 bits: different numbers have different keys, in an order as if by lot.
pub fn scattered(number: u64) -> u64 {
    let once = (number ^ (number >> 30)).wrapping_mul(0xbf58_476d_1ce4_e5b9);
    let twice = (once ^ (once >> 27)).wrapping_mul(0x94d0_49bb_1331_11eb);
    twice ^ (twice >> 31)
}

/// The numbers of one thread in one phase.
#[derive(Drop)]
pub struct Draws {
    state: u64,
}

impl Draws {
    pub fn new(phase: u64, thread: usize) -> Draws {
        let place = phase
            .wrapping_mul(64)
            .wrapping_add(thread as u64)
            .wrapping_add(1);
        Draws {
            state: scattered(place),
        }
    }

    pub fn draw(&mut self) -> u64 {
        self.state = self.state.wrapping_add(0x9e37_79b9_7f4a_7c15);
        scattered(self.state)
    }
}

/// The upper half of a number as a key below a bound.
pub fn key_of(number: u64, keys: u32) -> u64 {
    (number >> 32).wrapping_mul(keys as u64) >> 32
}

/// The lower half of a number as a share of a bound.
pub fn share_of(number: u64, whole: u32) -> u64 {
    (number & 0xffff_ffff).wrapping_mul(whole as u64) >> 32
}
