//! main.cf: the file, its settings in order (postconf(5)), and its edit (postconf(1), -e).
#![tactic(auto)]

mod assignments;
mod edit;
mod file;
mod maincf;
mod places;
mod setting;

pub use assignments::{are_assignments, is_writable};
pub use file::{FileFault, conf_name, conf_text, failed_line};
pub use maincf::MainCf;
pub use setting::{Setting, is_name};
