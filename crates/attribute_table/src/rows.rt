// What calls do to the rows.
ghost use Rattle.std.specs.Prelude.{◌≡◌, ℕ, ◌<◌, ◌≤◌, length, ◌==◌, slice_index};
ghost use Rattle.equations.specs.Equations.{Lawful, equation};
ghost use Rattle.table_model.specs.Rows.{row, values};
ghost use Rattle.table_model.specs.declared.row.Mark.TheVariants.{Untouched};
ghost use Rattle.table_model.specs.declared.row.Row.{Row};
ghost use Rattle.attribute_table.specs.Effects.{opened_row, closed_row, released_row, EachRow, EachReplaced, PendingReplaced, EvaluatedAt, Evaluated, Iterated, PendingAtBottom, pending_rows};
ghost use Rattle.attribute_table.specs.Lent.{rows_of};

use equations::System;
use lattices::Lattice;
use reach_search::is_marked;
use table_model::row::{Mark, Row};

// The row of an instance that nobody asked for.
fn untouched<V: Lattice>() -> Row<V>
    ensures { result ≡ row Untouched V.Lattice.bot }
{
    Row {
        mark: Mark::Untouched,
        value: V::bottom(),
    }
}

// A row after opening, whether the instance is in reach or not.
fn opened<V: Lattice>(before: Row<V>, reached: bool) -> Row<V>
    ensures { result ≡ opened_row V.Lattice.bot reached before }
{
    match (before.mark, reached) {
        (Mark::Final, _) => before,
        (Mark::Untouched | Mark::Pending, true) => Row {
            mark: Mark::Pending,
            value: V::bottom(),
        },
        (Mark::Pending, false) => untouched(),
        (Mark::Untouched, false) => before,
    }
}

// Replaces each row by what `by` makes of its number and it.
fn replace_each<V: Lattice, F: Fn(usize, Row<V>) -> Row<V>>(rows: &mut [Row<V>], by: F)
    requires { (i : ℕ) (r : Row V) → i < length rows.old → F.pre by i r }
    ensures { EachReplaced V.Lattice.bot (length rows.old) (F.post by) rows.old rows.new }
{
    for (i, row) in rows.iter_mut().enumerate() {
        *row = by(i, *row);
    }
}

// A new table's rows.
pub(crate) fn clear<V: Lattice>(rows: &mut [Row<V>])
    ensures { EachRow V.Lattice.bot (length rows.old) (λ _ _. row Untouched V.Lattice.bot) rows.old rows.new }
{
    replace_each(rows, |_, _| untouched());
}

// Makes the marked rows pending that are not final, and releases any other.
pub(crate) fn open_rows<V: Lattice>(rows: &mut [Row<V>], marks: &[usize])
    requires { length rows.old ≤ length marks.now }
    ensures { EachRow V.Lattice.bot (length rows.old) (λ j. opened_row V.Lattice.bot (slice_index marks.now j == 1)) rows.old rows.new }
{
    replace_each(rows, |i, row| opened(row, is_marked(marks[i])));
}

// Replaces each pending row by what `by` makes of it. Answers how many there were.
// A loop of its own: one pass counts, and writes the pending rows alone.
fn replace_pending<V: Lattice, F: Fn(Row<V>) -> Row<V>>(rows: &mut [Row<V>], by: F) -> usize
    requires { (r : Row V) → F.pre by r }
    ensures rows { EachReplaced V.Lattice.bot (length rows.old) (λ _. PendingReplaced (F.post by)) rows.old rows.new }
    ensures count { result ≡ pending_rows rows.old }
{
    let mut count = 0;
    for row in rows.iter_mut() {
        if row.mark == Mark::Pending {
            *row = by(*row);
            count += 1;
        }
    }
    count
}

// Makes the pending rows final. Answers how many there were.
pub(crate) fn make_final<V: Lattice>(rows: &mut [Row<V>]) -> usize
    ensures rows { EachRow V.Lattice.bot (length rows.old) (λ _. closed_row V.Lattice.bot) rows.old rows.new }
    ensures count { result ≡ pending_rows rows.old }
{
    replace_pending(
        rows,
        |row| Row {
            mark: Mark::Final,
            value: row.value,
        },
    )
}

// Returns the pending rows to untouched. Answers how many there were.
pub(crate) fn release<V: Lattice>(rows: &mut [Row<V>]) -> usize
    ensures rows { EachRow V.Lattice.bot (length rows.old) (λ _. released_row V.Lattice.bot) rows.old rows.new }
    ensures count { result ≡ pending_rows rows.old }
{
    replace_pending(rows, |_| untouched())
}

// The value of the equation of `instance` over the values in the rows.
// A loop of its own, and not `equation_value` over a `Family` of rows, which tests each operand against the end of the rows.
fn value_over_rows<S: System>(system: &S, rows: &[Row<S::Value>], instance: usize) -> S::Value
    requires { (S.System.equations system.now).size ≤ length rows.now }
    ensures { result ≡ equation (S.System.equations system.now) (values (rows_of S.Value.Lattice.bot rows.now)) instance }
{
    let mut so_far = system.start(instance);
    for k in 0..system.operand_count(instance) {
        if let Ok(j) = system.operand(instance, k) {
            let row = rows[j];
            so_far = system.step(instance, k, so_far, row.value);
        }
    }
    so_far
}

// Gives a pending row its equation's value. Tells whether that is another value.
fn evaluate<S: System>(system: &S, rows: &mut [Row<S::Value>], instance: usize) -> bool
    requires { (S.System.equations system.now).size ≤ length rows.old }
    ensures { EvaluatedAt S.Value.Lattice.bot S.Value.Lattice.same (S.System.equations system.now) instance rows.old rows.new result }
{
    match rows.get(instance) {
        Some(&row) if row.mark == Mark::Pending => {
            let value = value_over_rows(system, rows, instance);
            rows[instance] = Row {
                mark: row.mark,
                value,
            };
            !value.equal(row.value)
        }
        _ => false,
    }
}

// Gives each pending row its equation's value, in ascending number. Answers how many values changed.
// A loop with a counter: after a closure that changes the rows nothing would be known of them.
pub(crate) fn evaluate_all<S: System>(system: &S, rows: &mut [Row<S::Value>]) -> usize
    requires { (S.System.equations system.now).size ≤ length rows.old }
    ensures { Evaluated S.Value.Lattice.bot S.Value.Lattice.same (S.System.equations system.now) (S.System.equations system.now).size rows.old rows.new result }
{
    let mut changed = 0;
    for instance in 0..system.size() {
        if evaluate(system, rows, instance) {
            changed += 1;
        }
    }
    changed
}

// Rounds until one changes nothing. Answers how many, that one too.
pub(crate) fn iterate<S: System>(system: &S, rows: &mut [Row<S::Value>]) -> u32
    requires rows { (S.System.equations system.now).size ≤ length rows.old }
    requires lawful { Lawful S.Value.Lattice.bot S.Value.Lattice.le (S.System.equations system.now) }
    requires bottom { PendingAtBottom S.Value.Lattice.bot S.Value.Lattice.same (S.System.equations system.now) rows.old }
    ensures { Iterated S.Value.Lattice.bot S.Value.Lattice.same (S.System.equations system.now) rows.old rows.new result }
{
    let mut rounds: u32 = 1;
    while evaluate_all(system, rows) != 0 {
        rounds = rounds.saturating_add(1);
    }
    rounds
}
