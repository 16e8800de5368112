//! The parameters of main.cf: which there are, what their values are, and what is there by default (postconf(5)).
#![tactic(auto)]

mod arguments;
mod catalogue;
mod clients;
mod count;
mod hosts;
mod kind;
mod lists;
mod named;
mod numbers;
mod params;
mod tables;
mod value;

pub use catalogue::Row;
pub use count::PARAMS;
pub use kind::Kind;
pub use lists::table_in;
pub use named::{param, param_name};
pub use params::Param;
pub use tables::add_tables;
pub use value::{Value, value_of};
