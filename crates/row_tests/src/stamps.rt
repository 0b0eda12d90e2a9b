//! A stamp through a row's life, the two sides, and where the words of rows stand.
use crate::asserts::{holds, is};
use snap_stamp::{Field, RowNo, Side, Stamp, word_at, words_of};

#[test]
fn a_stamp_through_a_life(rt: HostRuntime) {
    let lowering = Stamp::of(0).begin();
    is(&rt, lowering.word(), 2);
    holds(&rt, lowering.is_shrinking() && !lowering.is_unlinked());
    let lowered = Stamp::of(2).finish();
    is(&rt, lowered.word(), 4);
    is(&rt, lowered.count(), 1);
    let gone = Stamp::of(4).unlink();
    is(&rt, gone, Stamp::of(5));
    holds(&rt, gone.is_unlinked() && !gone.is_shrinking());
    holds(&rt, !Stamp::of(18_446_744_073_709_551_611).is_last());
    holds(&rt, Stamp::of(18_446_744_073_709_551_612).is_last());
}

#[test]
fn smaller_keys_are_left(rt: HostRuntime) {
    is(&rt, Side::toward(10, 5), Side::Left);
    is(&rt, Side::toward(5, 10), Side::Right);
    is(&rt, Side::Left.other(), Side::Right);
}

#[test]
fn rows_follow_the_header(rt: HostRuntime) {
    holds(&rt, RowNo::HOLDER.is_none() && !RowNo::of(3).is_none());
    is(&rt, words_of(1), 24);
    let zero = RowNo::HOLDER;
    is(&rt, word_at(zero, Field::Key), 8);
    is(&rt, word_at(zero, Field::Right), 14);
    is(&rt, word_at(zero, Field::Value), 15);
    is(&rt, word_at(RowNo::of(1), Field::Key), 16);
    is(&rt, word_at(RowNo::of(1), Field::Stamp), 18);
    is(&rt, word_at(RowNo::of(5), Field::Birth), 49);
    is(&rt, word_at(RowNo::of(5), Field::Left), 53);
}
