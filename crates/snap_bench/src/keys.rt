//! Keys, and in which order they follow one another.
use crate::draws::scattered;

/// The key of a number: different numbers have different keys, in an order as if by lot.
pub fn spread(number: u32) -> u64 {
    let key = golden(number);
    (key ^ (key >> 32)).wrapping_mul(0xbf58_476d_1ce4_e5b9)
}

// So many steps of the golden ratio of all keys: different numbers have different keys.
fn golden(number: u32) -> u64 {
    (number as u64).wrapping_mul(0x9e37_79b9_7f4a_7c15)
}

/// In which order different keys follow one another.
#[derive(Clone, Copy)]
pub enum Order {
    Rising,
    AsIfByLot,
    /// In steps of the golden ratio, after which an AVL tree stands as deep as one can.
    Golden,
    /// As if by lot, with the keys of the comparison with other maps.
    Scattered,
}

impl Order {
    pub fn name(self) -> &'static str {
        match self {
            Order::Rising => "rising",
            Order::AsIfByLot => "as if by lot",
            Order::Golden => "golden",
            Order::Scattered => "scattered",
        }
    }

    /// The key at this place of the order.
    pub fn key(self, place: u32) -> u64 {
        match self {
            Order::Rising => place as u64,
            Order::AsIfByLot => spread(place),
            Order::Golden => golden(place),
            Order::Scattered => scattered(place as u64),
        }
    }
}
