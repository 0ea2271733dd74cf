// Calls one after another, with the promise at every moment.
ghost use Rattle.std.specs.Prelude.{◌≡◌, [], IfErr, OnOk};
ghost use Rattle.tables.specs.Contents.{Contents};
ghost use Rattle.tables.specs.Plan.{plan, plan_of};
ghost use Rattle.layout.specs.Reading.{FaultOf};
ghost use Rattle.files.specs.Pairs.{Laid};
ghost use Rattle.history.specs.History.{Stands, Kept};
ghost use Rattle.evening.specs.Run.{Run};

use crate::step::Step;
use console::console::Console;
use faults::layers::FitFault;
use fields::spot::Pair;
use opening::open;
use rules::rule::ClearingRule;
use tables::reserve::Reserve;

// Makes each call, and writes its answer and the home figures after it beside it.
fn run<R: ClearingRule>(console: &mut Console<R>, steps: &mut [Step])
    requires stands { let t = plan console.old.stage.tables in Stands t (R.AdmissionRule.allowed console.old.rule t) (R.ClearingRule.named console.old.rule t) [] console.old.placing }
    requires kept { let t = plan console.old.stage.tables in Kept t (R.AdmissionRule.allowed console.old.rule t) (R.ClearingRule.named console.old.rule t) [] }
    ensures { let t = plan console.old.stage.tables in Run t (R.AdmissionRule.allowed console.old.rule t) (R.ClearingRule.named console.old.rule t) steps.old steps.new }
{
    for step in steps.iter_mut() {
        let call = step.call;
        let answer = console.call(call);
        let (pieces, distance) = console.home();
        *step = Step {
            call,
            answer,
            pieces,
            distance,
        };
    }
}

// Reads both files and makes each call of the steps on a fresh console under the rule. The steps are left as they were where the files are refused.
pub fn evening<R: ClearingRule + Drop>(
    reserve: Reserve,
    pair: Pair<'_>,
    rule: R,
    steps: &mut [Step],
) -> Result<(), FitFault>
    ensures accepted { (c : Contents) → Laid pair.entry.venue.now pair.entry.show.now c → let t = plan_of c in OnOk result (Run t (R.AdmissionRule.allowed rule t) (R.ClearingRule.named rule t) steps.old steps.new) }
    ensures granted { OnOk result ((c : Contents) × Laid pair.entry.venue.now pair.entry.show.now c) }
    ensures fault { IfErr result (λ e. FaultOf pair.entry.venue.now pair.entry.show.now e × (steps.new ≡ steps.old)) }
{
    let stage = open(reserve, pair)?;
    let mut console = Console::begin(stage, rule);
    run(&mut console, steps);
    Ok(())
}
