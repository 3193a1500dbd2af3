//! Where bytes are cut in two, and how often.
ghost use Rattle.std.specs.Prelude.{◌≡◌, ◌++◌, ◌≤◌};
ghost use Rattle.pol_script.specs.Lines.{lines_of};

use memchr::memchr;

/// How often a job is halved, so at most eight threads work on it.
const HALVINGS: u32 = 3;

/// How often a job of so much work is halved, where less than so much isn't worth a thread.
pub(crate) fn halvings(work: usize, least: usize) -> u32
    ensures { result ≤ 3 }
{
    if work < least { 0 } else { HALVINGS }
}

/// The bytes, cut behind a newline of their second half. Where it has none, nothing is left behind the cut.
pub(crate) fn cut_at_line(bytes: &[u8]) -> (&[u8], &[u8])
    ensures { lines_of bytes.now ≡ lines_of result.0.now ++ lines_of result.1.now }
{
    let half = bytes.len() / 2;
    match memchr(b'\n', &bytes[half..]) {
        Some(end) => bytes.split_at(half + end + 1),
        None => bytes.split_at(bytes.len()),
    }
}
