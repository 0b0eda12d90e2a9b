//! The lines of each table.
use crate::keys::Order;
use crate::rows::Row;

pub static CUTS: [Row; 4] = [
    Row::Cut(1_000),
    Row::Cut(10_000),
    Row::Cut(100_000),
    Row::Cut(1_000_000),
];

pub static COUNTS: [Row; 4] = [
    Row::Count(1),
    Row::Count(100),
    Row::Count(10_000),
    Row::Count(1_000_000),
];

pub static WAYS: [Row; 4] = [
    Row::Ways(1_000),
    Row::Ways(10_000),
    Row::Ways(100_000),
    Row::Ways(1_000_000),
];

pub static PUTS: [Row; 12] = [
    Row::Puts(1_000, Order::Rising),
    Row::Puts(1_000, Order::AsIfByLot),
    Row::Puts(1_000, Order::Golden),
    Row::Puts(10_000, Order::Rising),
    Row::Puts(10_000, Order::AsIfByLot),
    Row::Puts(10_000, Order::Golden),
    Row::Puts(100_000, Order::Rising),
    Row::Puts(100_000, Order::AsIfByLot),
    Row::Puts(100_000, Order::Golden),
    Row::Puts(1_000_000, Order::Rising),
    Row::Puts(1_000_000, Order::AsIfByLot),
    Row::Puts(1_000_000, Order::Golden),
];

pub static CALLS: [Row; 4] = [
    Row::Calls(1_000),
    Row::Calls(10_000),
    Row::Calls(100_000),
    Row::Calls(1_000_000),
];

pub static LIVING: [Row; 3] = [Row::Living(0), Row::Living(1), Row::Living(64)];

pub static HISTORY: [Row; 1] = [Row::Millions(10)];
