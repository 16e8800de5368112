//! The objects outside: where bytes come from, where they go, and files. The content of each is known to contracts or not, and its
//! counts that never fall and stay at the greatest u64 once they are there.
ghost use Rattle.std.specs.Prelude.{◌≡◌, List as Seq, [], Some, length, IfOk, unwrap_or};
ghost use Rattle.std.specs.Option.{option_map};
ghost use Rattle.std.specs.Io.{ReadsAtMost};
ghost use Rattle.pf_base.specs.Outside.FileList.{file_of, ReadsFrom};
ghost use Rattle.pf_base.specs.Outside.Known.{Input, Looks, Output, Reads, Replaces, Tree, Writes, read_once};
ghost use Rattle.pf_base.specs.declared.pair.Pair.{Pair};

pub(crate) mod memory;
pub(crate) mod reading;
pub mod status;
pub(crate) mod texts;

use crate::fault::{Failed, OuterFault};

/// Where bytes come from.
pub trait Source {
    /// The bytes that are left, where they are known, how many were given, how often a read has found the end, how many were given
    /// before it last did, and how often one has failed.
    ghost known: { Self → Input };

    /// Reads some bytes into the buffer and says how many: 0 at the end alone, where the buffer is not empty. A read that finds
    /// the end is counted once, and so is a failed one, which takes no byte.
    fn read(&mut self, buf: &mut [u8]) -> Result<usize, Failed>
        ensures bound { ReadsAtMost result buf.new }
        ensures bytes { Reads (known self.old) (known self.new) result buf.new };
}

/// Where bytes go.
pub trait Sink {
    /// The bytes that were written, where they are known, and how often a write has failed.
    ghost known: { Self → Output };

    /// Writes the whole piece, or, where it is refused, a prefix of it. One that failed is counted once.
    fn write(&mut self, piece: &[u8]) -> Result<(), OuterFault>
        ensures { Writes (known self.old) (known self.new) result piece.now };
}

/// Files under their names.
pub trait Files {
    /// The files and their bytes, where they are known; of several with one name the first counts. How often a file was read
    /// from, and how often a call has failed.
    ghost known: { Self → Tree };

    /// How many bytes the file has; None where there is no such file. A failed call is counted once.
    fn size(&mut self, name: &str) -> Result<Option<u64>, Failed>
        ensures known { (all : Seq Pair) → (known self.old).content ≡ Some all →
            IfOk result (λ size. size ≡ option_map length (file_of all name.now)) }
        ensures same { Looks (known self.old) (known self.new) result };

    /// Reads bytes of the file from the place `at` on, counted from 0, and says how many: 0 at the end alone,
    /// where the buffer is not empty. A file that is absent reads as an empty one. Each call is counted, and a failed one as
    /// a fault too.
    fn read_at(&mut self, name: &str, at: u64, buf: &mut [u8]) -> Result<usize, Failed>
        ensures bound { ReadsAtMost result buf.new }
        ensures known { (all : Seq Pair) → (known self.old).content ≡ Some all →
            IfOk result (λ n. ReadsFrom (unwrap_or (file_of all name.now) []) at n buf.new) }
        ensures same { Looks (read_once (known self.old)) (known self.new) result };

    /// Puts these bytes in the place of the file, in one step. Refused, it left the file as before or with the new bytes. A
    /// call that failed is counted once.
    fn replace(&mut self, name: &str, bytes: &[u8]) -> Result<(), OuterFault>
        ensures { Replaces (known self.old) (known self.new) result name.now bytes.now };
}
