// Whether a horizon is too long: the steps of the first plan, before anything runs.
ghost use Rattle.std.specs.Prelude.{◌≡◌};
ghost use Rattle.quote.specs.Horizon.{desk_plan};

use amounts::seconds_to_terminal;
use model::{GLFTConfig, Model};
use vector::FirstPlan;

// The steps of the first plan that `exact_quotes` makes, or its cap report; 0 where no time is left.
// Refused by 2, then 1, 3, 4, 5 and 11.
pub fn first_plan(
    mid_price: i64,
    inventory: i64,
    config: GLFTConfig,
    volatility: i64,
    current_time: u64,
) -> FirstPlan
    ensures { result ≡ desk_plan mid_price inventory config volatility current_time }
{
    let terminal = config.terminal_time;
    match Model::exact(mid_price, inventory, config, volatility, current_time) {
        Ok((m, q)) => {
            let tau = seconds_to_terminal(terminal, current_time);
            distances::step_count(m.k, m.base, model::run_input(m, tau), q)
        }
        Err(refusal) => FirstPlan::Refused(refusal),
    }
}
