//! The parts of a text, before and behind its divider.
ghost use Rattle.std.specs.Prelude.{◌≡◌, ◌≤◌, ◌&&◌, nat_eq, IsTrue, length, option_map};
ghost use Rattle.std.specs.List.{starts_with};
ghost use Rattle.pol_compare.specs.Parts.{divider, parts_of};

/// The line that stands between two tables.
const DIVIDER: &[u8] = b"--\n";

/// Whether bytes, of which the first begins a line or doesn't, begin with the divider.
fn divides(begins: bool, bytes: &[u8]) -> bool
    ensures divides { result ≡ (begins && starts_with nat_eq bytes.now divider) }
    ensures long { IsTrue result → 3 ≤ length bytes.now }
{
    begins && bytes.starts_with(DIVIDER)
}

/// What stands before the divider, and what stands behind it, if there is one. The divider is the first line that is `--` and
/// ends with a newline byte ('profile').
pub fn parts_of(text: &[u8]) -> (&[u8], Option<&[u8]>)
    ensures front { result.0.now ≡ (parts_of text.now).front }
    ensures back { option_map (λ back. back.now) result.1 ≡ (parts_of text.now).back }
{
    let mut begins = true;
    for place in 0..text.len() {
        let (front, rest) = text.split_at(place);
        if divides(begins, rest) {
            let (_, back) = rest.split_at(3);
            return (front, Some(back));
        }
        begins = text[place] == b'\n';
    }
    (text, None)
}
