// Cases as they were recorded: whether an answer is the recorded one, and how many of a file's are.
ghost use Rattle.std.specs.Prelude.{◌≡◌};
ghost use Rattle.report.specs.Recorded.{is_recorded};

use definition::Refusal;
use std::io::BufReader;
use std::rt::Files;
use std::{fmt, fs, io};

// Whether an answer is the recorded one: the number 0 stands for the value that was answered, any other for a refusal at that place.
// Kept: by the numbers, since a `Reason` of a number would be a `match` of all 29, for recorded cases alone.
pub fn as_recorded(answer: Result<usize, Refusal>, number: usize, value: usize) -> bool
    ensures { result ≡ is_recorded answer number value }
{
    match answer {
        Ok(n) => (number == 0) & (n == value),
        Err(r) => (r.reason.number() == number as u64) & (r.place == value),
    }
}

// How many cases of a file agree, and how many differ.
#[derive(Clone, Copy, Default)]
pub struct Counts {
    pub agree: u64,
    pub differ: u64,
}

impl fmt::Display for Counts {
    fn fmt<W: fmt::Write>(&self, f: &mut fmt::Formatter<W>) -> fmt::Result {
        let agree = self.agree;
        let differ = self.differ;
        write!(f, "{agree} agree, {differ} differ")
    }
}

// The cases of a file, to be read; it says why the file was not opened.
pub fn open_cases<R: Files + Eprint + Alloc>(
    rt: &R,
    path: &str,
) -> io::Result<Option<BufReader<R::File, R::A>>> {
    match fs::open(rt, path) {
        Ok(file) => Ok(Some(BufReader::new(rt.alloc(), file)?)),
        Err(e) => {
            crate::print_failure(rt, path, &e)?;
            Ok(None)
        }
    }
}
