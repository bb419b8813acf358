// The director's settings.

// What a kind of business brings to the operational charge.
#[derive(Clone, Copy, PartialEq, Eq, Debug)]
pub struct Business {
    // This year.
    pub premium: i64,
    pub last_premium: i64,
    // Of the insurance liabilities.
    pub estimate: i64,
}

// Twelve numbers, in types wide enough to hold what is out of range.
#[derive(Clone, Copy, PartialEq, Eq, Debug)]
pub struct Settings {
    // Life business whose investment risk the company bears.
    pub life: Business,
    // The estimate of life business whose investment risk the policyholders bear.
    pub life_without_risk: i64,
    pub non_life: Business,
    // In hundredths of a percent.
    pub tax_rate: i64,
    pub carry_back_refund: i64,
    // Before tax, the last five years added.
    pub profit: i64,
    // Liabilities less assets.
    pub net_deferred_tax: i64,
    pub management_deduction: i64,
}
