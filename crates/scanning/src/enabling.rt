// Which statements a table and a frame enable.
ghost use Rattle.std.specs.Prelude.{◌≡◌, map};
ghost use Rattle.tables.specs.Contents.{rows_of};
ghost use Rattle.tables.specs.Rows.{statement_row, plan_row};
ghost use Rattle.rules.specs.Enabling.{plan_lists, enabled as enabled_by};
ghost use Rattle.scanning.specs.EnabledNames.{EnabledBy};

use crate::frame::Frame;
use crate::names::EnabledNames;
use tables::number::Number;
use tables::plan::Plan;
use tables::statement::{Mark, Name, Statement};
use tables::table::Table;

// Whether the plan of a number lists a name.
fn is_planned(plans: &[Plan], number: u16, name: Name) -> bool
    ensures { result ≡ plan_lists (map plan_row plans.now) number name.0 }
{
    plans.iter().any(|plan| u16::from(plan.number) == number
        && plan.names.as_slice().contains(&name))
}

// Whether a statement is enabled while a plan is in effect.
#[tactic(auto, unfolding(rules::specs::Enabling::enabled))]
fn is_enabled(plans: &[Plan], plan: u16, statement: &Statement) -> bool
    ensures { result ≡ enabled_by (map plan_row plans.now) (record { plan = plan }) (statement_row statement.now) }
{
    match statement.mark {
        Mark::Enabled => true,
        Mark::Disabled => false,
        Mark::Planned => is_planned(plans, plan, statement.name),
    }
}

/// The names that a table and a frame enable.
pub fn enabled_names(table: &Table, frame: &Frame) -> EnabledNames
    ensures { EnabledBy (rows_of table.now) frame.now result }
{
    let plans = table.plans();
    let plan = frame.number(Number::ActionPlan);
    let mut names = EnabledNames::none();
    for statement in table.statements() {
        if is_enabled(plans, plan, statement) {
            names.add(statement.name);
        }
    }
    names
}
