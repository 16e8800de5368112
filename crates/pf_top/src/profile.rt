//! The parameters that a session can be set up with, and the first that is refused.
ghost use Rattle.std.specs.Prelude.{◌≡◌, IfOk};
ghost use Rattle.pf_catalogue.specs.Catalogue.{catalogue, row_at};
ghost use Rattle.pf_maincf.specs.Settings.{is_set};
ghost use Rattle.pf_params.specs.Parameters as parameters;
ghost use Rattle.pf_top.specs.Profile as profile;

use crate::values::{hosts_of, nets_of};
use pf_base::{Cause, NoMemory, Refused, is_host_name};
use pf_catalogue::{PARAMS, Param, param_name};
use pf_params::{Known, Reading};
use std::alloc::Global;

// Whether a parameter may have any text.
fn is_free(name: &[u8]) -> bool
    ensures { result ≡ profile.is_free name.now }
{
    name == b"mail_name".as_slice()
        || name == b"mydomain".as_slice()
        || name == b"smtpd_banner".as_slice()
}

// Whether what is read of the parameter of this name, set or not, is within what is built.
fn is_within(alloc: Global, name: &[u8], set: bool, reading: &Reading) -> Result<bool, NoMemory>
    ensures { IfOk result (λ is. is ≡ profile.is_within name.now set reading.now) }
{
    if name == b"mydestination".as_slice() {
        let hosts = hosts_of(alloc, reading.value.items())?;
        Ok(hosts.is_some())
    } else if name == b"myhostname".as_slice() {
        Ok(is_host_name(reading.text.as_slice()))
    } else if name == b"mynetworks".as_slice() {
        let networks = nets_of(alloc, reading.value.items())?;
        Ok(networks.is_some())
    } else if name == b"smtpd_relay_restrictions".as_slice() {
        Ok(set)
    } else {
        Ok(is_free(name) || !set)
    }
}

// The cause of a parameter's refusal.
fn cause_of(alloc: Global, known: &Known, p: Param) -> Result<Option<Cause>, NoMemory>
    ensures { IfOk result (λ cause. cause
        ≡ profile.cause_from (row_at p).name (is_set known.now (row_at p).name) (parameters.reading_of known.now (row_at p))) }
{
    match known.reading(alloc, p)? {
        Err(cause) => Ok(Some(cause)),
        Ok(reading) => {
            let name = param_name(p);
            if is_within(alloc, name, known.is_set(name), &reading)? {
                Ok(None)
            } else {
                Ok(Some(Cause::C14))
            }
        }
    }
}

// The refusal of a parameter.
#[tactic(auto, unfolding(crate::specs::Profile::parameter_refusal))]
fn parameter_refusal(alloc: Global, known: &Known, p: Param) -> Result<Option<Refused>, NoMemory>
    ensures { IfOk result (λ refusal. refusal ≡ profile.parameter_refusal known.now (row_at p)) }
{
    match cause_of(alloc, known, p)? {
        None => Ok(None),
        Some(cause) => {
            let refusal = known.refusal(alloc, param_name(p), cause)?;
            Ok(Some(refusal))
        }
    }
}

/// The first refusal of the parameters in byte order of their names.
pub(crate) fn parameters_refusal(alloc: Global, known: &Known) -> Result<Option<Refused>, NoMemory>
    ensures { IfOk result (λ refusal. refusal ≡ profile.first_refused known.now catalogue) }
{
    for place in 0..PARAMS {
        if let Some(refusal) = parameter_refusal(alloc, known, Param::at(place))? {
            return Ok(Some(refusal));
        }
    }
    Ok(None)
}
