//! The map in a few lines, by one pass, as README shows it.
use crate::fault::Fault;
use snap_table::{SnapTable, TableView};
use std::alloc::Global;
use std::io::Print;
use std::sync::Wait;

/// Puts, clones, takes out, reads the clone, and answers how many writes there were.
pub fn in_short<R: Wait + Print>(rt: &R, alloc: Global) -> Result<u64, Fault> {
    let (table, mut passes) = SnapTable::open(alloc, 1_000, 1)?;
    let mut pass = passes.pop().unwrap();
    table.put(rt, &mut pass, 5, 50)?;
    table.put(rt, &mut pass, 7, 70)?;
    let clone = table.clone_view(rt, &mut pass);
    table.remove(rt, &mut pass, 5)?;
    tell(rt, table.get(rt, &mut pass, 5), clone)?;
    Ok(table.close(pass).writes)
}

// What the table has at 5, and what the clone has, which is given up behind it.
fn tell<R: Print>(rt: &R, now: Option<u64>, mut clone: TableView<'_>) -> Result<(), Fault> {
    println!(rt; "5 has {now:?}")?;
    for (key, value) in clone.range(0, 9) {
        println!(rt; "in the clone {key} has {value}")?;
    }
    Ok(())
}
