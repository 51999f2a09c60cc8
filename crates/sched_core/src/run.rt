//! A run: a list of steps made in turn, with an answer to each.

ghost use Rattle.std.specs.Prelude.{◌≡◌, All, IfOk};
ghost use Rattle.journal_core.specs.JournalLaws.{JournalLaws, WaitWithoutFate};
ghost use Rattle.fair_core.specs.FairQueues.{queue_of};
ghost use Rattle.fair_core.specs.FqCodel.{fq_codel};
ghost use Rattle.journal_core.specs.Runs.{IsRun, StandsIn, steps_made};
ghost use Rattle.packet_core.specs.declared.flow.Seed.{Seed};
ghost use Rattle.packet_core.specs.declared.params.ParamFields.{ParamFields};
ghost use Rattle.sched_core.specs.Engines.{HasRun, new_engine};
ghost use Rattle.sched_core.specs.LastSteps.{AreFewOfLast, AreTurnsOfLast};
ghost use Rattle.sched_core.specs.Schedulers.{flows_of};

use crate::engine::Engine;
use journal_core::{Memory, Outcome, Step};
use packet_core::{Params, Seed};
use std::alloc::Global;

/// A run of a list of steps.
#[derive(Debug, Drop)]
pub struct Ran {
    /// The engine after the last step.
    pub engine: Engine,
    /// One outcome for each step, in order.
    pub outcomes: Vec<Outcome>,
}

/// Makes the steps in turn with a new engine of those parameters and that seed. A refused step changes nothing and
/// isn't stored, and the run goes on after it. It answers Err where a growth is refused, and then nothing is given.
pub fn run_steps(alloc: Global, params: Params, seed: Seed, steps: &[Step]) -> Result<Ran, Memory>
    ensures run { IfOk result
        (λ ran. IsRun (fq_codel params seed) steps.now ran.engine.sched.standing ran.outcomes.items) }
    ensures steps { IfOk result
        (λ ran. ran.engine.steps ≡ steps_made steps.now ran.outcomes.items (λ o. o.answer)) }
    ensures made_with { IfOk result (λ ran. (ran.engine.sched.params ≡ params) × (ran.engine.sched.seed ≡ seed)) }
    ensures places { IfOk result (λ ran. All (StandsIn ran.engine.sched.standing.events) ran.outcomes.items) }
    ensures laws { IfOk result (λ ran. JournalLaws (fq_codel params seed).flow_of ran.engine.sched.standing.events) }
    ensures waiting { IfOk result
        (λ ran. WaitWithoutFate (queue_of (flows_of ran.engine.sched)) ran.engine.sched.standing.events) }
    ensures turns { IfOk result
        (λ ran. AreTurnsOfLast params seed steps.now ran.outcomes.items ran.engine.sched.turns) }
    ensures comparisons { IfOk result (λ ran. AreFewOfLast params ran.outcomes.items ran.engine.sched.comparisons) }
{
    let mut engine = Engine::try_new(alloc, params, seed)?;
    let outcomes = make_all(alloc, &mut engine, steps)?;
    Ok(Ran { engine, outcomes })
}

/// Makes the steps in turn with a new engine, and gives one outcome for each.
fn make_all(alloc: Global, engine: &mut Engine, steps: &[Step]) -> Result<Vec<Outcome>, Memory>
    ensures { IfOk result (λ outcomes. (params : ParamFields) → (seed : Seed) → engine.old ≡ new_engine params seed
        → HasRun params seed steps.now steps.now outcomes.items engine.new) }
{
    let mut outcomes = Vec::with_capacity(alloc, steps.len())?;
    for step in steps {
        let first_event = engine.events().len();
        let answer = engine.make(step)?;
        outcomes.push(Outcome {
            answer,
            first_event,
            end_event: engine.events().len(),
        })?;
    }
    Ok(outcomes)
}
