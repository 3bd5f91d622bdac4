//! Sums of the bytes of files, by which part files and summaries name their inputs.

ghost use Rattle.std.specs.Prelude.{◌≡◌, ℕ, List, IfOk, IfSome, string_bytes};
ghost use Rattle.std.specs.Prelude.{is_some};
ghost use Rattle.test_threads.specs.Pieces.{IsEnded};
ghost use Rattle.job_loading.specs.Sums.{IsSummed, sum_text};

use hex::encode;
use sha2::{Digest, Sha256};
use std::alloc::{AllocError, Global};
use std::io;
use std::io::Read;
use std::marker::{Brand, PhantomData};

/// The sums of the two files of a run, as [`sum_of`] returns them.
#[derive(Clone, Copy)]
pub struct FileSums<'a> {
    pub bench: &'a str,
    pub tests: &'a str,
}

/// Returns the SHA-256 of a text in lower-case hex digits.
pub fn sum_of(alloc: Global, text: &[u8]) -> Result<String, AllocError>
    ensures { IfOk result (λ sum. string_bytes sum ≡ sum_text text.now) }
{
    encode(alloc, Sha256::digest(text))
}

/// What is known of a file that is read.
pub(crate) trait FileText {
    ghost use Rattle.std.specs.Prelude.{ℕ, Bool, List, Option};

    /// The bytes of the file, if they are known.
    ghost text: { Option (List ℕ) };

    /// Whether the bytes are summed.
    ghost summed: { Bool };
}

impl FileText for Brand {
    ghost use Rattle.std.specs.Prelude.{None, false};

    ghost text = { None };

    ghost summed = { false };
}

/// A reader of a file that sums the bytes that it reads, if that is requested.
#[derive(Drop)]
pub(crate) struct SummedFile<F: Read, T: FileText> {
    file: F,
    hasher: Option<Sha256>,
    of: PhantomData<T>,
    ghost known: { IsSummed T.text (F.remaining file) hasher },
    ghost summed: { is_some hasher ≡ T.summed },
}

impl<F: Read + Drop, T: FileText> SummedFile<F, T> {
    /// Begins to read a file.
    pub(crate) fn new(file: F, is_summed: bool) -> SummedFile<F, T>
        requires text { T.text ≡ F.remaining file }
        requires summed { T.summed ≡ is_summed }
        ensures { F.remaining result.file ≡ F.remaining file }
    {
        let hasher = if is_summed { Some(Sha256::new()) } else { None };
        SummedFile {
            file,
            hasher,
            of: PhantomData,
        }
    }

    /// Returns the sum of a file that was read to its end, if it was requested.
    pub(crate) fn sum(self, alloc: Global) -> Result<Option<String>, AllocError>
        requires { IsEnded T.text (F.remaining self.file) }
        ensures sum { IfOk result (λ sum. IfSome sum (λ words. (text : List ℕ)
            → T.text ≡ Some text → string_bytes words ≡ sum_text text)) }
        ensures summed { IfOk result (λ sum. is_some sum ≡ T.summed) }
    {
        let SummedFile {
            file: _file,
            hasher,
            of: _,
        } = self;
        match hasher {
            Some(hasher) => Ok(Some(encode(alloc, hasher.finalize())?)),
            None => Ok(None),
        }
    }
}

impl<F: Read, T: FileText> Read for SummedFile<F, T> {
    ghost remaining = { λ s. F.remaining s.file };

    fn read(&mut self, buf: &mut [u8]) -> io::Result<usize> {
        let count = self.file.read(buf)?;
        if let Some(hasher) = &mut self.hasher {
            hasher.update(&buf[..count]);
        }
        Ok(count)
    }
}
