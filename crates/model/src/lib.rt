// The configuration of a desk with its checks, and the model that it gives: floats per second and per
// lot, and the holding in lots. An amount is a count of billionths.
#![tactic(auto)]

mod checks;
mod config;
mod parameters;
pub mod refusals;

ghost use Rattle.std.specs.Prelude.{◌≡◌};
ghost use Rattle.model.specs.Configuration.{new_config};
ghost use Rattle.model.specs.Model.{new_model, exact_model, closed_model, model_after};

pub use checks::{check_call, check_closed_form, check_exact, first_refusal, one_check};
pub use elementary::Refusal;
pub use parameters::{floats_fit, limits_fit, model_of, run_input};

// The configuration. The drift is an amount of price a year. Its fields are public, so every call
// checks them again.
#[derive(Clone, Copy)]
pub struct GLFTConfig {
    pub risk_aversion: i64,
    pub order_intensity_k: i64,
    pub intensity_scale_a: i64,
    pub max_inventory_lots: u32,
    pub lot_size: i64,
    pub terminal_time: u64,
    pub min_spread: i64,
    pub drift: i64,
}

// The model in floats, per second and per lot, beside the bound.
#[derive(Clone, Copy)]
pub struct Model {
    pub k: f64,
    pub gamma: f64,
    pub a: f64,
    pub sigma2: f64,
    pub alpha: f64,
    pub eta: f64,
    pub base: f64,
    pub beta: f64,
    pub q_max: u32,
}

impl GLFTConfig {
    pub const MAX_INVENTORY_LOTS: u32 = plan::MAX_INVENTORY_LOTS;

    pub const MAX_AMOUNT: i64 = amounts::MAX_AMOUNT;

    pub const MAX_TIME: u64 = amounts::MAX_TIME;

    // A configuration whose numbers pass: refused by 2, then 1.
    pub fn new(
        risk_aversion: i64,
        order_intensity_k: i64,
        intensity_scale_a: i64,
        max_inventory_lots: u32,
        lot_size: i64,
        terminal_time: u64,
        min_spread: i64,
        drift: i64,
    ) -> Result<GLFTConfig, Refusal>
        ensures { result ≡ new_config (record {
          risk_aversion = risk_aversion;
          order_intensity_k = order_intensity_k;
          intensity_scale_a = intensity_scale_a;
          max_inventory_lots = max_inventory_lots;
          lot_size = lot_size;
          terminal_time = terminal_time;
          min_spread = min_spread;
          drift = drift;
        }) }
    {
        let c = GLFTConfig {
            risk_aversion,
            order_intensity_k,
            intensity_scale_a,
            max_inventory_lots,
            lot_size,
            terminal_time,
            min_spread,
            drift,
        };
        checks::check_numbers(config::within_limits(c), c)?;
        Ok(c)
    }
}

impl Model {
    // The model and the holding in lots: refused by 2, then 1, 3, 4 and 5.
    pub fn new(
        mid_price: i64,
        inventory: i64,
        config: GLFTConfig,
        volatility: i64,
    ) -> Result<(Model, i64), Refusal>
        ensures { result ≡ new_model mid_price inventory config volatility }
    {
        Model::exact(mid_price, inventory, config, volatility, 0)
    }

    // The same for an exact call: its current time is one of the numbers that 2 looks at.
    pub fn exact(
        mid_price: i64,
        inventory: i64,
        config: GLFTConfig,
        volatility: i64,
        current_time: u64,
    ) -> Result<(Model, i64), Refusal>
        ensures { result ≡ exact_model mid_price inventory config volatility current_time }
    {
        let check = check_exact(mid_price, inventory, config, volatility, current_time);
        Model::after(check, inventory, config, volatility)
    }

    // The same for the closed form, where there is no drift: refused by 2, then 1, 22, 3, 4 and 5.
    pub fn closed_form(
        mid_price: i64,
        inventory: i64,
        config: GLFTConfig,
        volatility: i64,
    ) -> Result<(Model, i64), Refusal>
        ensures { result ≡ closed_model mid_price inventory config volatility }
    {
        let check = check_closed_form(mid_price, inventory, config, volatility);
        Model::after(check, inventory, config, volatility)
    }

    // The model after a call's checks: refused as they are, by 1 where the lot size is not positive, then
    // by 4 and 5.
    pub fn after(
        check: Result<(), Refusal>,
        inventory: i64,
        config: GLFTConfig,
        volatility: i64,
    ) -> Result<(Model, i64), Refusal>
        ensures { result ≡ model_after check inventory config volatility }
    {
        check?;
        parameters::of_holding(inventory, config, volatility)
    }
}
