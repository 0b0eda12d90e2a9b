//! The tables of a run by their names, the kits of passes for its sessions, and what is left when they close.
ghost use Rattle.std.specs.Prelude.{◌≡◌, ◌≢◌, ◌-◌, ◌<◌, ◌≤◌, ◌^◌, ◌++◌, ℕ, All, AllPairs, IfOk, List, OnOk, [], ◌∷◌, length, replicate, slice_index_or, vec_capacity};
ghost use Rattle.snap_prelude.specs.{Known};
ghost use Rattle.snap_service.specs.Kits.{Admits, AdmitsAll, AreClosed, FitsAll, IsCallers, IsFinal, IsUncut, JoinsAll, IsFrontOfWorkers};
ghost use Rattle.snap_service.specs.Courses.{fronts_of};
ghost use Rattle.snap_service.specs.States.{AreDealt, AreNewKits, AreSeated, AreTablesOf, IsSeated, nowhere, pass_at, table_place};

use snap_model::{Name, OutOfMemory};
use snap_table::{Front, Pass, SnapTable, TableView};
use snap_text::{MOST_ROWS, MOST_TABLES};
use std::alloc::Global;
use std::marker::Model;
use std::sync::Wait;

/// Tables by name. Contracts see their names, sizes and rows, and how many kits there are.
#[derive(Drop)]
pub struct Service {
    pub(crate) names: Vec<Name>,
    pub(crate) tables: Vec<SnapTable>,
    pub(crate) rows: u32,
    pub(crate) kits: u32,
}

impl Model for Service {
    ghost use Rattle.snap_service.specs.States.{Tables, AreTables};

    ghost Value = { Tables };

    ghost view = { λ s.
        record { names = s.names.items; laid = s.tables.items; rows = s.rows; kits = s.kits } };

    ghost invariant = { λ s. AreTables
        (record { names = s.names.items; laid = s.tables.items; rows = s.rows; kits = s.kits }) };
}

/// One pass of each table. Contracts see the passes in the order of the tables.
#[derive(Drop)]
pub struct Kit {
    pub(crate) passes: Vec<Pass>,
    // the space for the fronts
    pub(crate) space: Vec<Front>,
}

impl Model for Kit {
    ghost use Rattle.std.specs.Prelude.{[], ◌≡◌, ◌≤◌, length, List, vec_capacity};
    ghost use Rattle.snap_prelude.specs.{Known};

    ghost Value = { List Known };

    ghost view = { λ k. k.passes.items };

    ghost invariant = { λ k. (k.space.items ≡ [])
        × (length k.passes.items ≤ vec_capacity k.space) };
}

/// What is left of a session that ended: contracts see its passes as they were.
#[derive(Drop)]
pub struct KitReceipt {
    pub(crate) passes: Vec<Pass>,
}

impl Model for KitReceipt {
    ghost use Rattle.std.specs.Prelude.{List};
    ghost use Rattle.snap_prelude.specs.{Known};

    ghost Value = { List Known };

    ghost view = { λ k. k.passes.items };
}

/// The closed tables, in the order of the names.
#[derive(Drop)]
pub struct Fronts {
    fronts: Vec<Front>,
}

impl Model for Fronts {
    ghost use Rattle.std.specs.Prelude.{List};
    ghost use Rattle.snap_prelude.specs.{Ended};

    ghost Value = { List Ended };

    ghost view = { λ f. f.fronts.items };
}

impl Fronts {
    /// No fronts. It takes no memory.
    pub fn none(alloc: Global) -> Fronts
        ensures { result ≡ [] }
    {
        Fronts {
            fronts: Vec::new(alloc),
        }
    }

    /// The fronts, in the order of the tables.
    pub fn list(&self) -> &[Front]
        ensures { result.now ≡ self.now }
    {
        self.fronts.as_slice()
    }
}

impl Service {
    /// Opens empty tables of these different names, with so many rows each, and the kits: kit number i has pass i of
    /// each table. The space for the fronts is taken here.
    pub fn open(
        alloc: Global,
        names: &[Name],
        rows: u32,
        kits: u32,
    ) -> Result<(Service, Vec<Kit>), OutOfMemory>
        requires a_name { 1 ≤ length names.now }
        requires few_names { length names.now ≤ MOST_TABLES }
        requires different_names { AllPairs (λ a b. a ≢ b) names.now }
        requires a_row { 1 ≤ rows }
        requires few_rows { rows ≤ MOST_ROWS }
        requires a_kit { 1 ≤ kits }
        requires few_kits { kits ≤ 33 }
        ensures service { IfOk result (λ opened. AreTablesOf opened.0 names.now rows kits) }
        ensures kits { IfOk result (λ opened. AreNewKits opened.0.laid opened.1.items kits) }
        ensures seated { IfOk result (λ opened. All (AreSeated opened.0) opened.1.items) }
    {
        let mut made = empty_kits(alloc, kits, names.len())?;
        let mut tables = Vec::new(alloc);
        for _ in 0..names.len() {
            let (table, passes) = SnapTable::open(alloc, rows, kits)?;
            deal(&mut made, passes)?;
            tables.push(table)?;
        }
        let service = Service {
            names: copies(alloc, names)?,
            tables,
            rows,
            kits,
        };
        Ok((service, made))
    }

    /// Where the table of a name stands.
    pub(crate) fn place_of(&self, name: &Name) -> Option<usize>
        ensures { result ≡ table_place self.now.names name.now }
    {
        let wanted = name.text();
        self.names.iter().position(|known| known.text() == wanted)
    }

    /// Admits each pass of an ended session to the kit's pass of the same table.
    pub fn admit(&self, kit: &mut Kit, receipt: KitReceipt)
        requires kit { AreSeated self.now kit.old }
        requires receipt { AreSeated self.now receipt }
        ensures joins { JoinsAll kit.old receipt kit.new }
        ensures kit { AreSeated self.now kit.new }
        ensures admits { Admits kit.new receipt }
        ensures keeps { (other : List Known) → AreSeated self.now other → Admits kit.old other
            → Admits kit.new other }
        ensures uncut { IsUncut self.now kit.old → IsUncut self.now kit.new }
        ensures uses { (t : ℕ) → t < length kit.old
            → (pass_at kit.new t).view.uses ≡ (pass_at kit.old t).view.uses }
    {
        let _names = &self.names;
        let KitReceipt { passes } = receipt;
        admit_all(&self.tables, &mut kit.passes, passes);
    }

    /// A clone of the first table, once every other kit was admitted to this one.
    pub fn final_view<'t, R: Wait>(&'t self, rt: &R, kit: &mut Kit) -> TableView<'t>
        requires kit { AreSeated self.now kit.old }
        requires all { AdmitsAll kit.old }
        requires uncut { IsUncut self.now kit.old }
        requires uses { (pass_at kit.old 0).view.uses < 2 ^ 48 }
        ensures cut { IsFinal kit.old result kit.new }
        ensures kit { AreSeated self.now kit.new }
        ensures all { AdmitsAll kit.new }
        ensures keeps { (other : List Known) → Admits kit.old other → Admits kit.new other }
        ensures callers { IsCallers self.now kit.new }
    {
        let view = self.first_view(rt, kit);
        let _names = &self.names;
        view
    }

    fn first_view<'t, R: Wait>(&'t self, rt: &R, kit: &mut Kit) -> TableView<'t>
        requires kit { AreSeated self.now kit.old }
        requires uses { (pass_at kit.old 0).view.uses < 2 ^ 48 }
        ensures { IsFinal kit.old result kit.new }
    {
        let table = &self.tables[0];
        table.clone_view(rt, &mut kit.passes[0])
    }

    /// Closes the tables. Every other kit was admitted to this one.
    pub fn close(self, kit: Kit) -> Fronts
        requires kit { AreSeated self kit }
        requires all { AdmitsAll kit }
        ensures closed { AreClosed kit result }
        ensures fits { IsCallers self kit → FitsAll self kit result }
        ensures only { IsCallers self kit → (t : ℕ)
            → IsFrontOfWorkers (self.kits - 1) t (fronts_of result t) }
    {
        let Service {
            names: _,
            tables,
            rows: _,
            kits: _,
        } = self;
        let Kit { passes, space } = kit;
        Fronts {
            fronts: close_all(tables, passes, space),
        }
    }
}

impl Kit {
    fn add(&mut self, pass: Pass) -> Result<(), OutOfMemory>
        ensures { OnOk result (self.new ≡ self.old ++ pass ∷ []) }
    {
        let _space = &self.space;
        if self.passes.len() < self.space.capacity() {
            self.passes.push(pass)?;
            return Ok(());
        }
        Err(OutOfMemory)
    }
}

// So many kits without passes, each with space for so many fronts.
fn empty_kits(alloc: Global, kits: u32, fronts: usize) -> Result<Vec<Kit>, OutOfMemory>
    ensures { IfOk result (λ made. made.items ≡ replicate kits []) }
{
    let mut made = Vec::new(alloc);
    for _ in 0..kits {
        made.push(Kit {
            passes: Vec::new(alloc),
            space: Vec::with_capacity(alloc, fronts)?,
        })?;
    }
    Ok(made)
}

// Names with the same text.
fn copies(alloc: Global, names: &[Name]) -> Result<Vec<Name>, OutOfMemory>
    ensures { IfOk result (λ copies. copies.items ≡ names.now) }
{
    let mut held = Vec::new(alloc);
    for name in names {
        held.push(Name::new(alloc, name.text())?)?;
    }
    Ok(held)
}

// Gives each kit the pass of its number.
fn deal(kits: &mut Vec<Kit>, passes: Vec<Pass>) -> Result<(), OutOfMemory>
    requires { length passes.items ≡ length kits.old.items }
    ensures { OnOk result (AreDealt kits.old.items passes.items kits.new.items) }
{
    let mut left = passes;
    while let Some(pass) = left.pop() {
        kits[left.len()].add(pass)?;
    }
    Ok(())
}

// Admits each of these ended passes to the pass of the same table.
fn admit_all(tables: &[SnapTable], passes: &mut Vec<Pass>, ended: Vec<Pass>)
    requires a_pass_each { length passes.old.items ≡ length tables.now }
    requires all_ended { length ended.items ≡ length tables.now }
    requires passes { (t : ℕ) → t < length tables.now
        → IsSeated (slice_index_or tables.now t nowhere) (pass_at passes.old.items t) }
    requires ended { (t : ℕ) → t < length tables.now
        → IsSeated (slice_index_or tables.now t nowhere) (pass_at ended.items t) }
    ensures a_pass_each { length passes.new.items ≡ length passes.old.items }
    ensures joins { JoinsAll passes.old.items ended.items passes.new.items }
{
    let mut left = ended;
    while let Some(pass) = left.pop() {
        let place = left.len();
        let table = &tables[place];
        let receipt = table.finish(pass);
        table.admit(&mut passes[place], receipt);
    }
}

// Closes each table by its pass. There is space for the fronts.
fn close_all(tables: Vec<SnapTable>, passes: Vec<Pass>, space: Vec<Front>) -> Vec<Front>
    requires a_pass_each { length passes.items ≡ length tables.items }
    requires passes { (t : ℕ) → t < length tables.items
        → IsSeated (slice_index_or tables.items t nowhere) (pass_at passes.items t) }
    requires all { AdmitsAll passes.items }
    requires empty { space.items ≡ [] }
    requires space { length tables.items ≤ vec_capacity space }
    ensures { AreClosed passes.items result.items }
{
    let mut fronts = space;
    let mut open = tables;
    let mut left = passes;
    while let Some(pass) = left.pop() {
        let Some(table) = open.pop() else {
            unreachable!()
        };
        if fronts.push(table.close(pass)).is_err() {
            unreachable!()
        }
    }
    fronts.reverse();
    fronts
}
