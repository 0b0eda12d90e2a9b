//! The end of a run: every kit is admitted, the caller's clone is made if it is wanted, and the tables are closed.
ghost use Rattle.std.specs.Prelude.{◌≡◌, ◌<◌, ◌+◌, ◌^◌, ℕ, IfOk, List, false, length, slice_index_or, true};
ghost use Rattle.snap_crew.specs.{Endings.IsEnd, Endings.IsEnding, Works.AreOfWorker};
ghost use Rattle.snap_prelude.specs.{after, Known};
ghost use Rattle.snap_service.specs.Prelude.{Admits, AdmitsAll, AreSeated, AreTables, IsCallers, IsUncut, pass_at};
ghost use Rattle.snap_text.specs.Tables.{table_text};

use snap_model::OutOfMemory;
use snap_service::{Fronts, Kit, KitReceipt, Service};
use snap_table::TableView;
use snap_text::export_text;
use std::alloc::Global;
use std::sync::Wait;

/// The closed tables, and the text of the first of them where it was wanted.
#[derive(Drop)]
pub struct Ending {
    pub fronts: Fronts,
    pub last: Option<Vec<u8>>,
}

/// Ends a run: admits every worker's kit, makes the caller's clone of the first table and writes its text if that is
/// wanted, and closes the tables. The commands of each worker fit the histories of the closed tables.
pub fn end_run<R: Wait>(
    rt: &R,
    alloc: Global,
    service: Service,
    own: Kit,
    receipts: Vec<KitReceipt>,
    last: bool,
) -> Result<Ending, OutOfMemory>
    requires tables { AreTables service }
    requires kit { AreSeated service own }
    requires uncut { IsUncut service own }
    requires receipts { (i : ℕ) (d : _) → i < length receipts.items
        → AreSeated service (slice_index_or receipts.items i d) }
    requires numbered { (i : ℕ) (d : _) → i < length receipts.items
        → AreOfWorker i (slice_index_or receipts.items i d) }
    requires every_kit { service.kits ≡ length receipts.items + 1 }
    requires uses { (pass_at own 0).view.uses < 2 ^ 48 }
    ensures { IfOk result (IsEnd service receipts.items last) }
{
    let mut own = own;
    admit_all(&service, &mut own, receipts);
    if last {
        close_with_text(rt, alloc, service, own)
    } else {
        Ok(close_plainly(service, own))
    }
}

// Admits the kits of all workers.
fn admit_all(service: &Service, own: &mut Kit, receipts: Vec<KitReceipt>)
    requires kit { AreSeated service.now own.old }
    requires uncut { IsUncut service.now own.old }
    requires receipts { (i : ℕ) (d : _) → i < length receipts.items
        → AreSeated service.now (slice_index_or receipts.items i d) }
    ensures kit { AreSeated service.now own.new }
    ensures uncut { IsUncut service.now own.new }
    ensures all { (i : ℕ) (d : _) → i < length receipts.items
        → Admits own.new (slice_index_or receipts.items i d) }
    ensures uses { (t : ℕ) → t < length own.old
        → (pass_at own.new t).view.uses ≡ (pass_at own.old t).view.uses }
{
    let mut left = receipts;
    while let Some(receipt) = left.pop() {
        service.admit(own, receipt);
    }
}

// Closes the tables without a clone of the caller's.
fn close_plainly(service: Service, own: Kit) -> Ending
    requires tables { AreTables service }
    requires kit { AreSeated service own }
    requires all { AdmitsAll own }
    requires uncut { IsUncut service own }
    ensures { IsEnding service own false result }
{
    Ending {
        fronts: service.close(own),
        last: None,
    }
}

// Writes the text of the first table by a clone of the caller's, and closes the tables.
fn close_with_text<R: Wait>(
    rt: &R,
    alloc: Global,
    service: Service,
    own: Kit,
) -> Result<Ending, OutOfMemory>
    requires tables { AreTables service }
    requires kit { AreSeated service own }
    requires all { AdmitsAll own }
    requires uncut { IsUncut service own }
    requires uses { (pass_at own 0).view.uses < 2 ^ 48 }
    ensures { IfOk result (IsEnding service own true) }
{
    let mut own = own;
    let text = final_text(rt, alloc, &service, &mut own)?;
    Ok(Ending {
        fronts: service.close(own),
        last: Some(text),
    })
}

// The text of the first table as it ended.
fn final_text<R: Wait>(
    rt: &R,
    alloc: Global,
    service: &Service,
    own: &mut Kit,
) -> Result<Vec<u8>, OutOfMemory>
    requires tables { AreTables service.now }
    requires kit { AreSeated service.now own.old }
    requires all { AdmitsAll own.old }
    requires uncut { IsUncut service.now own.old }
    requires uses { (pass_at own.old 0).view.uses < 2 ^ 48 }
    ensures text { IfOk result
        (λ text. text.items ≡ table_text (after (pass_at own.new 0).view.seen)) }
    ensures kit { AreSeated service.now own.new }
    ensures all { AdmitsAll own.new }
    ensures keeps { (other : List Known) → Admits own.old other → Admits own.new other }
    ensures callers { IsCallers service.now own.new }
{
    let view = service.final_view(rt, own);
    text_of(alloc, view)
}

// The text of a clone's pairs.
fn text_of(alloc: Global, view: TableView<'_>) -> Result<Vec<u8>, OutOfMemory>
    ensures { IfOk result (λ text. text.items ≡ table_text (after view.entry.base)) }
{
    let mut view = view;
    let mut pairs = Vec::new(alloc);
    for pair in view.pairs() {
        pairs.push(pair)?;
    }
    export_text(alloc, &pairs)
}
