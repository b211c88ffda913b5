//! What a query shows of the rows that its walk meets: items, groups, and DISTINCT, ORDER BY and
//! TOP behind them.
#![tactic(auto)]

mod answered;
pub mod grouping;
pub mod queries;
