//! What the tables of a plan order.
ghost use Rattle.std.specs.Prelude.{◌≡◌, ℕ, Bool, length};
ghost use Rattle.rule_types.specs.declared.action.ActionAt.{ActionAt as AnyPair};
ghost use Rattle.table_plan.specs.Plan.{first_by};
ghost use Rattle.table_run.specs.Planned.{AreFirsts};

use rule_types::ActionAt;
use table_plan::{TablePlan, Truths};

/// Writes what each table orders by pieces and conditions.
pub(crate) fn order_all<T: Truths>(
    plan: &TablePlan,
    truths: &T,
    pieces: &[Option<usize>],
    firsts: &mut [Option<ActionAt>],
    rows_tried: &mut u64,
)
    ensures firsts { AreFirsts plan.now pieces.now (T.truth truths.now) firsts.new }
    ensures each { length firsts.new ≡ length firsts.old }
{
    for table in 0..firsts.len() {
        let first = plan.first_row(table, pieces, truths, rows_tried);
        firsts[table] = first;
    }
}

/// Writes what each table orders by new pieces and conditions, where `firsts` are what they ordered
/// by old pieces: a table that surely orders the same is not looked at.
pub(crate) fn order_changed<T: Truths>(
    plan: &TablePlan,
    truths: &T,
    old: &[Option<usize>],
    new: &[Option<usize>],
    firsts: &[Option<ActionAt>],
    next: &mut [Option<ActionAt>],
    rows_tried: &mut u64,
)
    requires each { length next.old ≡ length firsts.now }
    ensures next { (other : AnyPair → ℕ → Bool) → AreFirsts plan.now old.now other firsts.now
        → AreFirsts plan.now new.now (T.truth truths.now) next.new }
    ensures each { length next.new ≡ length firsts.now }
{
    for table in 0..firsts.len() {
        let first = order_of(plan, truths, old, new, table, &firsts[table], rows_tried);
        next[table] = first;
    }
}

/// What a table orders by new pieces and conditions, where it ordered `first` by old pieces.
fn order_of<T: Truths>(
    plan: &TablePlan,
    truths: &T,
    old: &[Option<usize>],
    new: &[Option<usize>],
    table: usize,
    first: &Option<ActionAt>,
    rows_tried: &mut u64,
) -> Option<ActionAt>
    ensures first { (other : AnyPair → ℕ → Bool)
        → first.now ≡ first_by plan.now table old.now other
        → result ≡ first_by plan.now table new.now (T.truth truths.now) }
{
    if plan.keeps_order(table, old, new) {
        return *first;
    }
    plan.first_row(table, new, truths, rows_tried)
}
