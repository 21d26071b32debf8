// The model's floats, and the holding in lots.
ghost use Rattle.std.specs.Prelude.{◌≡◌, T, Ok};
ghost use Rattle.amounts.specs.Amounts.{above0};
ghost use Rattle.model.specs.Model.{lots, holding_ok, model_from, model_of, model_ok, model_limits, input_of, model_after};

use crate::{GLFTConfig, Model};
use amounts::{amount_fits, is_positive, to_f64};
use elementary::Refusal;
use plan::RunInput;

const SECONDS_PER_YEAR: f64 = 31536000.0;

// Whether every amount and time of a call is within its limit.
pub fn limits_fit(mid: i64, inventory: i64, config: GLFTConfig, volatility: i64) -> bool
    ensures { result ≡ model_limits mid inventory config volatility }
{
    amount_fits(mid)
        & amount_fits(inventory)
        & amount_fits(volatility)
        & crate::config::within_limits(config)
}

// What a run is made from: a model, and the seconds to the end.
pub fn run_input(m: Model, tau: f64) -> RunInput
    ensures { result ≡ input_of m tau }
{
    RunInput {
        alpha: m.alpha,
        beta: m.beta,
        eta: m.eta,
        bound: m.q_max,
        tau,
    }
}

// The holding in lots, cut toward zero.
fn lots_of(inventory: i64, config: GLFTConfig) -> i64
    requires { T (above0 config.lot_size) }
    ensures { result ≡ lots inventory config }
{
    inventory / config.lot_size
}

// Whether a holding is a whole number of lots within the bound.
fn holding_fits(inventory: i64, config: GLFTConfig) -> bool
    requires { T (above0 config.lot_size) }
    ensures { result ≡ holding_ok inventory config }
{
    let q = lots_of(inventory, config);
    (inventory % config.lot_size == 0) & distances::within(q, config.max_inventory_lots)
}

// The model from its five given floats; the drift is a second's.
fn from_floats(k: f64, gamma: f64, a: f64, sigma2: f64, drift: f64, bound: u32) -> Model
    ensures { result ≡ model_from k gamma a sigma2 drift bound }
{
    let log1p_ratio = elementary::or_nan(elementary::ln_1p(gamma / k));
    let decay = elementary::or_nan(elementary::exp(-(1.0 + k / gamma) * log1p_ratio));
    Model {
        k,
        gamma,
        a,
        sigma2,
        alpha: k * gamma * sigma2 / 2.0,
        eta: a * decay,
        base: log1p_ratio / gamma,
        beta: k * drift,
        q_max: bound,
    }
}

// The model of a configuration and a volatility; a NaN stands where an elementary function refuses.
pub fn model_of(config: GLFTConfig, volatility: i64) -> Model
    ensures { result ≡ model_of config volatility }
{
    let sigma = to_f64(volatility);
    from_floats(
        to_f64(config.order_intensity_k),
        to_f64(config.risk_aversion) * to_f64(config.lot_size),
        to_f64(config.intensity_scale_a),
        sigma * sigma / SECONDS_PER_YEAR,
        to_f64(config.drift) / SECONDS_PER_YEAR,
        config.max_inventory_lots,
    )
}

// Whether the seven floats are finite and above zero, and beta is finite.
pub fn floats_fit(m: Model) -> bool
    ensures { result ≡ model_ok m }
{
    elementary::is_positive_finite(m.k)
        & elementary::is_positive_finite(m.gamma)
        & elementary::is_positive_finite(m.a)
        & elementary::is_positive_finite(m.sigma2)
        & elementary::is_positive_finite(m.alpha)
        & elementary::is_positive_finite(m.eta)
        & elementary::is_positive_finite(m.base)
        & elementary::is_finite(m.beta)
}

// The model after checks that pass: refused by 1 where the lot size is not positive, then by 4 and 5.
pub(crate) fn of_holding(
    inventory: i64,
    config: GLFTConfig,
    volatility: i64,
) -> Result<(Model, i64), Refusal>
    ensures { result ≡ model_after (Ok tt) inventory config volatility }
{
    if is_positive(config.lot_size) {
        if holding_fits(inventory, config) {
            let m = model_of(config, volatility);
            if floats_fit(m) {
                return Ok((m, lots_of(inventory, config)));
            }
            return Err(elementary::OUTSIDE);
        }
        return Err(distances::refusals::HOLDING);
    }
    Err(plan::refusals::CONFIGURATION)
}
