//! Whether the numbers that a terminal sends, or that a record holds, are in their ranges.
#![tactic(auto)]

ghost use Rattle.std.specs.Prelude.{◌≡◌};
ghost use Rattle.records.specs.Ranges.{badge_number_fits, code_fits, serial_fits, attribute_fits, units_fit, price_fits, prices_fit, limit_fits, clock_fits, temperature_fits};

/// A badge's number: 1 to 4,294,967,295.
pub fn badge_number_fits(number: u32) -> bool
    ensures { result ≡ badge_number_fits number }
{
    number >= 1
}

/// A lot's code: each byte 0x21 to 0x7E.
pub fn code_fits(code: &[u8; 8]) -> bool
    ensures { result ≡ code_fits code.now }
{
    code.iter().all(|byte| (0x21..=0x7E).contains(byte))
}

/// A serial: 1 to 1,000,000,000.
pub fn serial_fits(serial: u32) -> bool
    ensures { result ≡ serial_fits serial }
{
    (1..=1_000_000_000).contains(&serial)
}

/// A level, a role or an account: 0 to 15.
pub fn attribute_fits(attribute: u32) -> bool
    ensures { result ≡ attribute_fits attribute }
{
    attribute <= 15
}

/// Units of one call: 0 to 1,000.
pub fn units_fit(units: u32) -> bool
    ensures { result ≡ units_fit units }
{
    units <= 1_000
}

/// A price: 0 to 1,000.
pub fn price_fits(price: u32) -> bool
    ensures { result ≡ price_fits price }
{
    price <= 1_000
}

/// The four prices of a lot.
pub fn prices_fit(prices: &[u32; 4]) -> bool
    ensures { result ≡ prices_fit prices.now }
{
    prices.iter().all(|&price| price_fits(price))
}

/// A head limit: 0 to 64.
pub fn limit_fits(limit: u32) -> bool
    ensures { result ≡ limit_fits limit }
{
    limit <= 64
}

/// The room's clock, or minutes that are added to it: 0 to 10,000,000.
pub fn clock_fits(minutes: u32) -> bool
    ensures { result ≡ clock_fits minutes }
{
    minutes <= 10_000_000
}

/// A temperature: -400 to 600 tenths of a degree Celsius.
pub fn temperature_fits(temperature: i64) -> bool
    ensures { result ≡ temperature_fits temperature }
{
    (-400..=600).contains(&temperature)
}
