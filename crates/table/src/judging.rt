//! Judges the rows of a sheet's tables.
ghost use Rattle.std.specs.Prelude.{◌≡◌, ℕ, ◌<◌, [], length};
ghost use Rattle.fault.specs.declared.table.TableFault.TheVariants.{Column, Part};
ghost use Rattle.eff.specs.Dirt.{sets};
ghost use Rattle.sheet.specs.Answer.{listing, held};
ghost use Rattle.sheet.specs.Rows.{operation_of, first_type};
ghost use Rattle.sheet.specs.Faults.{count, row_line, operations, instances, types, parts};
ghost use Rattle.table.specs.Meant.{tables_of};
ghost use Rattle.table.specs.Tests.{operation_ok, instance_ok, type_ok, part_ok};
ghost use Rattle.fault.specs.Search.{search};
ghost use Rattle.table.specs.Answer.{ranged, judged, told, shown, answer, Judged, Kept};

use crate::effects::has_effect;
use crate::heights::Heights;
use crate::ranged::Ranged;
use crate::rows::{Declared, operation_ok};
use crate::search::search;
use fault::{At, TableFault};
use sheet::{FIRST_TYPE, Instance, Table, Tables, TypeRow};

fn operations_ranged(tables: &Tables) -> Result<(), At<TableFault>>
    ensures { result ≡ search Column (λ n o. operation_ok o) (row_line (count (listing tables.now)) operations 0) 0 (listing tables.now).operations }
{
    let line = tables.first_line(Table::Operations);
    let rows = tables.operations.listed();
    search(TableFault::Column, |_, o| operation_ok(o), line, 0, rows)
}

fn instances_ranged(tables: &Tables) -> Result<(), At<TableFault>>
    ensures { result ≡ search Column (λ n i. instance_ok (listing tables.now) i) (row_line (count (listing tables.now)) instances 0) 0 (listing tables.now).instances }
{
    let operations = tables.operations.listed();
    let known = |_, i: &Instance| has_effect(operations, i.effect);
    let line = tables.first_line(Table::Instances);
    search(
        TableFault::Column,
        known,
        line,
        0,
        tables.instances.listed(),
    )
}

impl Declared<'_> {
    fn types_ranged(&self) -> Result<(), At<TableFault>>
        ensures { result ≡ search Column (λ n t. type_ok (listing self.now.tables.now) n t) (row_line (count (listing self.now.tables.now)) types 0) first_type (listing self.now.tables.now).types }
    {
        let heights = Heights::of(&self.tables.types);
        let ok = |n, t: &TypeRow| self.type_ok(heights.at(n), n, t);
        let line = self.tables.first_line(Table::Types);
        search(
            TableFault::Column,
            ok,
            line,
            FIRST_TYPE,
            self.tables.types.listed(),
        )
    }

    fn parts_ranged(&self) -> Result<(), At<TableFault>>
        ensures { result ≡ search Part (λ n p. part_ok (listing self.now.tables.now) p) (row_line (count (listing self.now.tables.now)) parts 0) 0 (listing self.now.tables.now).parts }
    {
        let line = self.tables.first_line(Table::Parts);
        let rows = self.tables.parts.listed();
        search(TableFault::Part, |_, p| self.part_ok(p), line, 0, rows)
    }
}

// Refusals 4 and 5: 4 is looked for in the first three tables, then 5 in the parts.
fn ranged(tables: &Tables) -> Result<(), At<TableFault>>
    ensures { result ≡ ranged (listing tables.now) }
{
    operations_ranged(tables)?;
    instances_ranged(tables)?;
    let declared = Declared::of(tables);
    declared.types_ranged()?;
    declared.parts_ranged()
}

/// The tables where every row is in range, or refusal 4 or 5 with its line: 4 is looked for through the whole sheet before 5.
pub fn judge(tables: Tables) -> Result<Ranged, At<TableFault>>
    ensures value { told result ≡ judged (listing tables) }
    ensures means { Judged (listing tables) (told result) }
    ensures kept { Kept tables result }
{
    ranged(&tables)?;
    Ok(Ranged { tables })
}

impl Ranged {
    /// The tables.
    pub fn tables(&self) -> &Tables
        ensures { result.now ≡ self.now.tables }
    {
        &self.tables
    }

    /// The tables, by value.
    pub fn into_tables(self) -> Tables
        ensures { result ≡ self.tables }
    {
        let Ranged { tables } = self;
        tables
    }
}

/// The tables of a sheet, or the first of refusals 1 to 5 with its line.
pub fn read(bytes: &[u8]) -> Result<Ranged, At<TableFault>>
    ensures value { shown result ≡ held (answer bytes.now) }
    ensures rows { told result ≡ answer bytes.now }
{
    let tables = sheet::read(bytes)?;
    judge(tables)
}
