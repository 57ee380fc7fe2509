//! What a sheet declares: effects, regions and calls.
ghost use Rattle.std.specs.Prelude.{◌≡◌, ℕ, ◌<◌, [], map, length, slice_index_or};
ghost use Rattle.sheet.specs.Rows.{operation_of};
ghost use Rattle.sheet.specs.Answer.{listing, rows_of};
ghost use Rattle.eff.specs.Sets.{inside};
ghost use Rattle.eff.specs.Dirt.{sets, calls_of};
ghost use Rattle.eff.specs.Tables.{declared, signature};
ghost use Rattle.table.specs.Meant.{declaration, effect_of, tables_of};
ghost use Rattle.table.specs.Tests.{has_effect, instances_of};

use eff::ground::Ground;
use sheet::{INSTANCES, Instance, Operation, Rows, Tables};

// Whether some operation is of this effect.
pub(crate) fn has_effect(operations: &[Operation], effect: u64) -> bool
    ensures { result ≡ has_effect operations.now effect }
{
    operations.iter().any(|o| o.effect == effect)
}

// Whether an operation is declared for an effect.
pub(crate) fn declares(operations: &[Operation], effect: u64, op: u64) -> bool
    ensures { result ≡ declared (map declaration operations.now) effect op }
{
    operations.iter().any(|o| o.effect == effect && o.op == op)
}

/// The first row for operation `op` of an effect; where there is none, an operation of unit to unit.
// An operation's two numbers are two parameters, as they are two columns: a struct of them would only be made to be taken apart.
pub fn signature(tables: &Tables, effect: u64, op: u64) -> Operation
    ensures { declaration result ≡ signature (tables_of (listing tables.now)).operations effect op }
{
    let operations = tables.operations.listed();
    let found = operations.iter().find(|o| o.effect == effect && o.op == op);
    found.copied().unwrap_or(Operation {
        effect,
        op,
        takes: u8::from(Ground::Unit) as u64,
        gives: u8::from(Ground::Unit) as u64,
    })
}

// The instances of an effect as a region, instance i weighing 2^i.
pub(crate) fn instances_of(effect: u64, instances: &Rows<Instance, INSTANCES>) -> u64
    ensures { result ≡ instances_of effect 0 (rows_of instances.now) }
{
    let mut region = 0;
    for (i, instance) in instances.listed().iter().enumerate() {
        if instance.effect == effect {
            region |= 1 << i;
        }
    }
    region
}

/// Whether one set lies within another.
pub fn inside(m: u64, n: u64) -> bool
    ensures { result ≡ inside m n }
{
    m | n == n
}

// The calls of one operation on the instances of its effect, i#op weighing 2^(4i + op). One loop for this and `instances_of` would be no
// plainer: it would take the two numbers of a weight, 4 and op here, 1 and 0 there. Crate `claim` weighs a call so too: one function for both would be
// public, and so without the condition that the shift needs.
fn calls_of(o: &Operation, instances: &Rows<Instance, INSTANCES>) -> u64
    requires { o.now.op < 4 }
    ensures { result ≡ calls_of (declaration o.now) 0 (map effect_of (rows_of instances.now)) }
{
    let mut dirt = 0;
    for (i, instance) in instances.listed().iter().enumerate() {
        if o.effect == instance.effect {
            dirt |= 1 << (4 * i + o.op as usize);
        }
    }
    dirt
}

// The declared calls.
pub(crate) fn calls(tables: &Tables) -> u64
    requires { (r : ℕ) → r < length (listing tables.now).operations → (slice_index_or (listing tables.now).operations r (operation_of [])).op < 4 }
    ensures { result ≡ (sets (tables_of (listing tables.now))).all }
{
    let mut dirt = 0;
    for o in tables.operations.listed() {
        dirt |= calls_of(o, &tables.instances);
    }
    dirt
}
