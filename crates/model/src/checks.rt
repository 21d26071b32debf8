// The checks of a call, in order, each with the number that refuses where it fails.
ghost use Rattle.std.specs.Prelude.{◌≡◌};
ghost use Rattle.elementary.specs.Checks.{first_failing, check_of, by};
ghost use Rattle.model.specs.Refusals.{market};
ghost use Rattle.model.specs.Checks.{one_check, first_refusal};
ghost use Rattle.model.specs.Configuration.{number_checks};
ghost use Rattle.model.specs.Model.{market_ok, check_exact, check_closed_form, check_call};

use crate::parameters::limits_fit;
use crate::{GLFTConfig, config, refusals};
use amounts::refusals::LIMITS;
use amounts::{is_positive, time_fits};
use elementary::Refusal;
use plan::refusals::CONFIGURATION;

// One check: passed, or refused.
pub fn one_check(passes: bool, refusal: Refusal) -> Result<(), Refusal>
    ensures { result ≡ one_check passes refusal }
{
    if passes {
        return Ok(());
    }
    Err(refusal)
}

// Of two checks the first that refuses.
pub fn first_refusal(first: Result<(), Refusal>, second: Result<(), Refusal>) -> Result<(), Refusal>
    ensures { result ≡ first_refusal first second }
{
    first.and(second)
}

// 2, where the numbers of a call do not fit, then 1.
pub(crate) fn check_numbers(fit: bool, config: GLFTConfig) -> Result<(), Refusal>
    ensures { result ≡ check_of (first_failing (number_checks fit config)) }
{
    first_refusal(
        one_check(fit, LIMITS),
        one_check(config::validate(config), CONFIGURATION),
    )
}

// 3.
fn check_prices(mid_price: i64, volatility: i64) -> Result<(), Refusal>
    ensures { result ≡ one_check (market_ok mid_price volatility) (by market) }
{
    one_check(
        is_positive(mid_price) & is_positive(volatility),
        refusals::MARKET,
    )
}

// What refuses an exact call before its holding is looked at: 2, then 1, then 3.
pub fn check_exact(
    mid_price: i64,
    inventory: i64,
    config: GLFTConfig,
    volatility: i64,
    current_time: u64,
) -> Result<(), Refusal>
    ensures { result ≡ check_exact mid_price inventory config volatility current_time }
{
    let fit = time_fits(current_time) & limits_fit(mid_price, inventory, config, volatility);
    first_refusal(
        check_numbers(fit, config),
        check_prices(mid_price, volatility),
    )
}

// The same of a closed-form call, which has no current time: 2, then 1, 22 and 3.
pub fn check_closed_form(
    mid_price: i64,
    inventory: i64,
    config: GLFTConfig,
    volatility: i64,
) -> Result<(), Refusal>
    ensures { result ≡ check_closed_form mid_price inventory config volatility }
{
    let fit = limits_fit(mid_price, inventory, config, volatility);
    let driftless = config.drift == 0;
    first_refusal(
        check_numbers(fit, config),
        first_refusal(
            one_check(driftless, refusals::DRIFT),
            check_prices(mid_price, volatility),
        ),
    )
}

// Whether the numbers of a call pass, whatever the holding: refused by 2, then 1, then 3.
pub fn check_call(
    mid_price: i64,
    config: GLFTConfig,
    volatility: i64,
    current_time: u64,
) -> Result<(), Refusal>
    ensures { result ≡ check_call mid_price config volatility current_time }
{
    check_exact(mid_price, 0, config, volatility, current_time)
}
