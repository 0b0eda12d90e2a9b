//! How deep the trees of clones are, settled and not, also where rows run out.
use crate::cases::{hold, is};

#[test]
fn clones_tell_how_deep_they_are(rt: HostRuntime) {
    let count = hold(
        &rt,
        rt.alloc(),
        64,
        b"\
        clone c\ndepth c\n~Snapped;Depth { depth: 0, pairs: 0, settled: true };|\
        put 7 7\nclone c\nremove 7\nclone d\ndepth c\ndepth d\n\
        ~New;Snapped;Old { value: 7 };Snapped;Depth { depth: 1, pairs: 1, settled: true };Depth { depth: 0, pairs: 0, settled: true };|\
        put 1 1\nput 2 2\nput 3 3\nclone c\ndepth c\n~New;New;New;Snapped;Depth { depth: 2, pairs: 3, settled: true };|\
        put 3 3\nput 1 1\nput 2 2\nclone c\ndepth c\n~New;New;New;Snapped;Depth { depth: 2, pairs: 3, settled: true };|\
        put 2 2\nput 1 1\nput 3 3\nremove 2\nclone c\ndepth c\nremove 1\nclone d\ndepth d\ndepth c\n\
        ~New;New;New;Old { value: 2 };Snapped;Depth { depth: 2, pairs: 2, settled: true };Old { value: 1 };Snapped;\
        Depth { depth: 1, pairs: 1, settled: true };Depth { depth: 2, pairs: 2, settled: true };|\
        put 7 700\nput 3 300\nremove 3\nput 18446744073709551615 1\nclone c\nput 9 900\nclone d\ndepth d\ndepth c\n\
        ~New;New;Old { value: 300 };New;Snapped;New;Snapped;Depth { depth: 2, pairs: 3, settled: true };Depth { depth: 2, pairs: 2, settled: true };|\
        put 1 1\nclone c\nput 2 2\nput 3 3\nput 4 4\nclone d\ndepth c\ndepth d\nput 5 5\ndepth d\n\
        ~New;Snapped;New;New;New;Snapped;Depth { depth: 1, pairs: 1, settled: true };Depth { depth: 3, pairs: 4, settled: true };New;\
        Depth { depth: 3, pairs: 4, settled: true };|\
        put 1 1\nput 2 2\nclone c\nuse t\nclone d\nput 5 5\ndepth c\ndepth d\nput 5 6\nuse main\ndepth d\nput 1 9\nget 1\n\
        ~New;New;Snapped;Using;Snapped;New;Depth { depth: 2, pairs: 2, settled: true };Depth { depth: 0, pairs: 0, settled: true };\
        Old { value: 5 };Using;Depth { depth: 0, pairs: 0, settled: true };Old { value: 1 };Value { value: 9 };",
    );
    is(&rt, count, 8);
}

// A removal with a copy of each row on its way, and a rotation that wants one copy more.
#[test]
fn a_tree_stays_unsettled_where_its_rotation_finds_no_row(rt: HostRuntime) {
    let refused = b"\
        put 2 2\nput 1 1\nput 3 3\nput 4 4\nclone c\nremove 1\nclone d\ndepth d\ndepth c\n\
        ~New;New;New;New;Snapped;Full;Snapped;Depth { depth: 3, pairs: 4, settled: true };Depth { depth: 3, pairs: 4, settled: true };";
    is(&rt, hold(&rt, rt.alloc(), 4, refused), 1);
    is(&rt, hold(&rt, rt.alloc(), 5, refused), 1);
    let unsettled = b"\
        put 2 2\nput 1 1\nput 3 3\nput 4 4\nclone c\nremove 1\nclone d\ndepth d\ndepth c\n\
        ~New;New;New;New;Snapped;Old { value: 1 };Snapped;Depth { depth: 3, pairs: 3, settled: false };Depth { depth: 3, pairs: 4, settled: true };";
    is(&rt, hold(&rt, rt.alloc(), 6, unsettled), 1);
    let settled = b"\
        put 2 2\nput 1 1\nput 3 3\nput 4 4\nclone c\nremove 1\nclone d\ndepth d\ndepth c\n\
        ~New;New;New;New;Snapped;Old { value: 1 };Snapped;Depth { depth: 2, pairs: 3, settled: true };Depth { depth: 3, pairs: 4, settled: true };";
    is(&rt, hold(&rt, rt.alloc(), 7, settled), 1);
}
