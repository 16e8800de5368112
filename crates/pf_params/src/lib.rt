//! Parameters of main.cf: the values of settings, with the values of names in them (postconf(5)).
#![tactic(auto)]

mod classes;
mod known;
mod openings;
mod readings;
mod refusals;
mod settings;
mod table;

pub use known::Known;
pub use readings::Reading;
pub use refusals::cause_of;
pub use settings::Settings;
