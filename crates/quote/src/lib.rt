// The quote layer: the exact quotes, their wrapper, the closed form, and the count of the first plan.
#![tactic(auto)]

mod closed_form;
mod horizon;
mod quotes;
pub mod refusals;

ghost use Rattle.std.specs.Prelude.{◌≡◌};
ghost use Rattle.quote.specs.Quotes.{exact_quotes, optimal_quotes, closed_form_quotes};

pub use amounts::{BILLION, to_billionths};
pub use elementary::Refusal;
pub use horizon::first_plan;
pub use model::{GLFTConfig, Model, check_call, limits_fit};
pub use prices::{GlftQuotes, Price};
use quotes::Around;
pub use quotes::quotes_by;

// The exact quotes with the steps spent; or the steps needed, the budget left and the steps spent; or
// a refusal. A report is no refusal, so the three stand beside one another.
#[derive(Clone, Copy)]
pub enum ExactQuotes {
    Quotes(GlftQuotes, u32),
    OverStepCap(f64, u32, u32),
    Refused(Refusal),
}

#[derive(Clone, Copy)]
pub struct GLFTStrategy;

impl GLFTStrategy {
    // The exact quotes with the steps spent, or the cap report: refused by 2, then 1, 3, 4, 5, 11, 13
    // and 14.
    pub fn exact_quotes(
        mid_price: i64,
        inventory: i64,
        config: GLFTConfig,
        volatility: i64,
        current_time: u64,
    ) -> ExactQuotes
        ensures { result ≡ exact_quotes mid_price inventory config volatility current_time }
    {
        let terminal = config.terminal_time;
        match Model::exact(mid_price, inventory, config, volatility, current_time) {
            Ok((m, q)) => {
                let tau = amounts::seconds_to_terminal(terminal, current_time);
                let around = Around {
                    mid: mid_price,
                    least: config.min_spread,
                };
                quotes::exact_of(around, m, q, tau)
            }
            Err(refusal) => ExactQuotes::Refused(refusal),
        }
    }

    // The exact quotes with the steps spent: refused as `exact_quotes`, and by 12 where that reports
    // the cap.
    pub fn calculate_optimal_quotes(
        mid_price: i64,
        inventory: i64,
        config: GLFTConfig,
        volatility: i64,
        current_time: u64,
    ) -> Result<(GlftQuotes, u32), Refusal>
        ensures { result ≡ optimal_quotes mid_price inventory config volatility current_time }
    {
        match GLFTStrategy::exact_quotes(mid_price, inventory, config, volatility, current_time) {
            ExactQuotes::Quotes(q, steps) => Ok((q, steps)),
            ExactQuotes::OverStepCap(_, _, _) => Err(refusals::CAPPED),
            ExactQuotes::Refused(refusal) => Err(refusal),
        }
    }

    // The quotes of the closed form, which has no current time: refused by 2, then 1, 22, 3, 4, 5, 11,
    // 13 and 14.
    pub fn closed_form_quotes(
        mid_price: i64,
        inventory: i64,
        config: GLFTConfig,
        volatility: i64,
    ) -> Result<GlftQuotes, Refusal>
        ensures { result ≡ closed_form_quotes mid_price inventory config volatility }
    {
        let (m, q) = Model::closed_form(mid_price, inventory, config, volatility)?;
        let around = Around {
            mid: mid_price,
            least: config.min_spread,
        };
        quotes::closed_of(around, closed_form::distances(m, q))
    }
}
