//! The words of a command line, without the program's own name.
ghost use Rattle.std.specs.Prelude.{◌≡◌, IfOk, IfSome, map, option_map};
ghost use Rattle.std.specs.String.{string_bytes};
ghost use Rattle.pf_words.specs.Words as spec;

use crate::postconf::{ConfWords, conf_words};
use crate::postmap::{MapWords, map_words};
use crate::smtpd::{SmtpdWords, smtpd_options, smtpd_words};
use pf_base::NoMemory;
use std::alloc::Global;

/// What the words of a command line say, by the command that the first of them names.
#[derive(Debug, Drop)]
pub enum Words {
    Smtpd(SmtpdWords),
    Postconf(ConfWords),
    Postmap(MapWords),
}

/// The names of the files that a command gives to its record of messages and its log.
#[derive(Clone, Copy, Debug, PartialEq, Eq)]
pub struct SinkNames<'a> {
    pub mail: Option<&'a str>,
    pub log: Option<&'a str>,
}

// Whether the first word is this name.
fn names_command(name: &str, words: &[String]) -> bool
    ensures { result ≡ spec.names_command name.now (map string_bytes words.now) }
{
    match words {
        [] => false,
        [first, ..] => name == first.as_str(),
    }
}

/// What words say, the first of which names the command: `smtpd [-c folder] -p client -m mail [-l log] [-b budget]`,
/// `postconf [-n or -d] [-x] [-h or -H] [-c folder] [-o name=value] [name ..]`, `postconf -e [-c folder] name=value ..`,
/// `postmap [-r or -w] [-f] [cdb:]name`, `postmap -q key [-f] type:name`, `postmap -q - [-f] [-b budget] type:name` or
/// `postmap -s [-f] type:name`. None where they are not of these forms. No option comes twice; its value is the next word or the rest of its word, a leading `=` dropped; flags may be
/// joined; `--` ends the options; options may be after other words. The commands are postgate's own, the letters of postconf are those of
/// postconf(1), and how options are written is that of the kit's clap.
#[tactic(auto, unfolding(crate::specs::Words::words_of))]
pub fn words_of(alloc: Global, words: &[String]) -> Result<Option<Words>, NoMemory>
    ensures is { IfOk result (λ said. said ≡ spec.words_of (map string_bytes words.now)) }
    ensures sets { IfOk result (λ said. IfSome said spec.SetsParameters) }
{
    if names_command("smtpd", words) {
        match smtpd_words(alloc, words)? {
            None => Ok(None),
            Some(words) => Ok(Some(Words::Smtpd(words))),
        }
    } else if names_command("postconf", words) {
        match conf_words(alloc, words)? {
            None => Ok(None),
            Some(words) => Ok(Some(Words::Postconf(words))),
        }
    } else if names_command("postmap", words) {
        match map_words(alloc, words)? {
            None => Ok(None),
            Some(words) => Ok(Some(Words::Postmap(words))),
        }
    } else {
        Ok(None)
    }
}

/// The values of `-m` and `-l` where the words are a well-formed smtpd command, else none.
#[tactic(auto, unfolding(crate::specs::Words::words_of))]
pub fn sink_names(alloc: Global, words: &[String]) -> Result<SinkNames<'_>, NoMemory>
    ensures mail { IfOk result (λ names. option_map (λ name. name.now) names.mail ≡ spec.mail_name (spec.words_of (map string_bytes words.now))) }
    ensures log { IfOk result (λ names. option_map (λ name. name.now) names.log ≡ spec.log_name (spec.words_of (map string_bytes words.now))) }
{
    if !names_command("smtpd", words) {
        return Ok(SinkNames {
            mail: None,
            log: None,
        });
    }
    match smtpd_options(alloc, words)? {
        None => Ok(SinkNames {
            mail: None,
            log: None,
        }),
        Some(options) => Ok(SinkNames {
            mail: Some(options.mail),
            log: options.log,
        }),
    }
}
