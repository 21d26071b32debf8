// Quotes one desk at three holdings: flat, at its bound, and one lot beyond. Amounts are counts of
// billionths, times are milliseconds.
#![tactic(auto)]

use quote::{ExactQuotes, GLFTConfig, GLFTStrategy, Price};

// The number of standard output.
const STDOUT: i32 = 1;

// The amount 1.
const ONE: i64 = 1000000000;

fn print(text: &[u8]) {
    io::write_all(STDOUT, text);
}

fn print_number(name: &[u8], number: u64) {
    print(name);
    io::print_decimal(STDOUT, number);
    print(b"\n");
}

// Prices are positive: `size_of` gives the same number as a u64.
fn print_price(name: &[u8], price: Price) {
    match price {
        Some(billionths) => print_number(name, amounts::size_of(billionths)),
        None => {
            print(name);
            print(b"withheld\n");
        }
    }
}

fn quote_at(inventory: i64) {
    let config = GLFTConfig {
        risk_aversion: ONE / 100,
        order_intensity_k: ONE * 3 / 10,
        intensity_scale_a: ONE * 9 / 10,
        max_inventory_lots: 30,
        lot_size: ONE,
        terminal_time: 600000,
        min_spread: 0,
        drift: 0,
    };
    let mid_price = 1000 * ONE;
    let volatility = ONE * 16847 / 10;
    let current_time = 0;
    match GLFTStrategy::exact_quotes(mid_price, inventory, config, volatility, current_time) {
        ExactQuotes::Quotes(quotes, steps) => {
            print_price(b"bid ", quotes.bid);
            print_price(b"ask ", quotes.ask);
            print_number(b"steps ", steps as u64);
        }
        ExactQuotes::OverStepCap(_, budget, _) => print_number(
            b"over the cap, budget ",
            budget as u64,
        ),
        ExactQuotes::Refused(refusal) => print_number(b"refused by ", refusal.0 as u64),
    }
}

fn main() {
    quote_at(0);
    quote_at(30 * ONE);
    quote_at(31 * ONE);
}
