//! The rule of the words, and what passes step with.

ghost use Rattle.atomic_table.specs.Table.{State};
ghost use Rattle.tree_passes.specs.declared.view.View.{View};
ghost use Rattle.tree_passes.specs.Opening.{opening_of};
ghost use Rattle.tree_passes.specs.Rules.{RuleOf};
ghost use Rattle.tree_passes.specs.Between.{cells_elsewhere, HoldsBetween};

use crate::view::{Told, View};
use atomic_table::{Seat, Shared, TableRule};

/// The rule of the words of a shared tree, without locks or with them.
pub struct TreeRule;

impl TableRule<(), View, Told> for TreeRule {
    ghost use Rattle.tree_passes.specs.Opening.{opening_of, first_view};
    ghost use Rattle.tree_passes.specs.Rules.{RuleOf};

    ghost holds = { λ k. RuleOf k.writing (opening_of k) };

    ghost first = { first_view };
}

/// The words of a shared tree.
pub type Words = Shared<(), View, Told, TreeRule>;

/// What a pass steps with. It takes no bytes.
pub type Pass = Seat<(), View>;

/// What the rule says, which holds between any two steps on the words of a table: the published words
/// name exactly the published cells and bodies, they give the canonical octree of these bodies, the
/// lists of the passes part what the opening entrusted, and what a word tells each pass is so.
pub fn between_steps(table: &Words)
    ensures { (s : State (Unit {0}) View) → RuleOf table.now.key.writing (opening_of table.now.key) s → HoldsBetween (opening_of table.now.key) (cells_elsewhere table.now.key.writing s) s }
{
    let _read = table;
}
