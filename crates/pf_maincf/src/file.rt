//! main.cf as a file.
ghost use Rattle.std.specs.Prelude.{◌≡◌, ◌≢◌, ◌⊎◌, List as Seq, Some, Err, IfOk};
ghost use Rattle.std.specs.Str.{IsUtf8};
ghost use Rattle.pf_base.specs.Outside.Known.{failed_tree};
ghost use Rattle.pf_base.specs.declared.pair.Pair.{Pair};
ghost use Rattle.pf_base.specs.declared.refused.Refused.{Refused as Refusal};
ghost use Rattle.pf_maincf.specs.Clauses.Faults.{Answers};
ghost use Rattle.pf_maincf.specs.File as spec;
ghost use Rattle.pf_maincf.specs.File.{Kept, bytes_in};

use pf_base::{
    Bytes, Cause, ConfFault, Files, NoMemory, ReadFault, Refused, add_line, read_all, refuse,
};
use std::alloc::Global;

/// Why main.cf is not accepted.
#[derive(Debug, Drop)]
pub enum FileFault {
    /// It is refused.
    Refused(Refused),
    /// A call on the files failed.
    Failed,
    /// Out of memory.
    NoMemory,
}

impl From<ConfFault> for FileFault {
    ghost use Rattle.std.specs.Prelude.{◌≡◌};
    ghost use Rattle.pf_maincf.specs.Clauses.Faults.{as_file_fault};

    ghost from_gives = { λ conf fault. fault ≡ as_file_fault conf };

    fn from(fault: ConfFault) -> FileFault {
        match fault {
            ConfFault::Refused(refusal) => FileFault::Refused(refusal),
            ConfFault::NoMemory => FileFault::NoMemory,
        }
    }
}

/// The name of main.cf in the folder of `-c`, as both are, with `/` between them; `main.cf` alone where there is none
/// (postconf(1), -c).
pub fn conf_name(alloc: Global, folder: &Option<Bytes>) -> Result<Bytes, NoMemory>
    ensures { IfOk result (λ file. file ≡ spec.conf_name folder.now) }
{
    match folder {
        None => Bytes::from_slice(alloc, b"main.cf"),
        Some(folder) => {
            let mut file = folder.copy(alloc)?;
            file.extend(b"/main.cf")?;
            Ok(file)
        }
    }
}

/// The line of a call on the file of this name that failed.
pub fn failed_line(alloc: Global, file: &[u8], call: &[u8]) -> Result<Bytes, NoMemory>
    ensures { IfOk result (λ line. line ≡ spec.failed_line file.now call.now) }
{
    let mut text = Bytes::new(alloc);
    text.extend_all(&[b"postgate: ", file, b": ", call, b" failed"])?;
    let mut line = Bytes::new(alloc);
    add_line(&mut line, text.as_slice())?;
    Ok(line)
}

// The refusal of a whole file.
fn file_refused(alloc: Global, file: &[u8], cause: Cause) -> Result<Bytes, FileFault>
    ensures said { Answers (Err (spec.file_refused file.now cause)) result }
    ensures nothing { IfOk result (λ text. ⊥) }
    ensures files { result ≢ Err FileFault.Failed }
{
    Err(FileFault::from(refuse(alloc, file, 0, cause, file)))
}

/// The text of the main.cf of this name; a name that is no UTF-8 is that of no file. `Failed` comes only where the count of faults of
/// `files` rose by one.
pub fn conf_text<F: Files>(alloc: Global, file: &[u8], files: &mut F) -> Result<Bytes, FileFault>
    ensures known { (all : Seq Pair) → (F.known files.old).content ≡ Some all
        → Answers (spec.conf_text file.now (bytes_in all file.now)) result }
    ensures text { IfOk result (λ text. IsUtf8 file.now) }
    ensures refused { (refusal : Refusal) → result ≡ Err (FileFault.Refused refusal)
        → (refusal ≡ spec.file_refused file.now Cause.C10) ⊎ (refusal ≡ spec.file_refused file.now Cause.C15) }
    ensures failed { result ≡ Err FileFault.Failed → Kept (failed_tree (F.known files.old)) (F.known files.new) }
    ensures kept { result ≢ Err FileFault.Failed → Kept (F.known files.old) (F.known files.new) }
{
    let Ok(name) = str::from_utf8(file) else {
        return file_refused(alloc, file, Cause::C10);
    };
    match read_all(alloc, files, name) {
        Ok(None) => file_refused(alloc, file, Cause::C10),
        Ok(Some(text)) => Ok(text),
        Err(ReadFault::TooLarge) => file_refused(alloc, file, Cause::C15),
        Err(ReadFault::Failed) => Err(FileFault::Failed),
        Err(ReadFault::NoMemory) => Err(FileFault::NoMemory),
    }
}
