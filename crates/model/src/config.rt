// The checks of a configuration.
ghost use Rattle.std.specs.Prelude.{◌≡◌};
ghost use Rattle.model.specs.Configuration.{config_limits, config_ok};

use crate::GLFTConfig;
use amounts::{amount_fits, is_positive, time_fits};

// Whether the amounts and the time are within their limits.
pub(crate) fn within_limits(c: GLFTConfig) -> bool
    ensures { result ≡ config_limits c }
{
    amount_fits(c.risk_aversion)
        & amount_fits(c.order_intensity_k)
        & amount_fits(c.intensity_scale_a)
        & amount_fits(c.lot_size)
        & amount_fits(c.min_spread)
        & amount_fits(c.drift)
        & time_fits(c.terminal_time)
}

// Whether the configuration is valid.
pub(crate) fn validate(c: GLFTConfig) -> bool
    ensures { result ≡ config_ok c }
{
    let bound = c.max_inventory_lots;
    is_positive(c.risk_aversion)
        & is_positive(c.order_intensity_k)
        & is_positive(c.intensity_scale_a)
        & is_positive(c.lot_size)
        & ((1 <= bound) & (bound <= GLFTConfig::MAX_INVENTORY_LOTS))
        & (0 < c.terminal_time)
        & (0 <= c.min_spread)
}
