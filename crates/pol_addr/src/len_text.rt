//! The length of a prefix as a text writes it.
ghost use Rattle.std.specs.Prelude.{◌≡◌, ◌≢◌, ◌≤◌, ◌↔◌, IsTrue, IfSome, slice_index, length};
ghost use Rattle.pol_addr.specs.Prefix.{read_len};

/// Whether the text begins with neither a plus sign nor a zero before another byte.
fn begins_plainly(text: &str) -> bool
    ensures { IsTrue result ↔ ((slice_index text.now 0 ≢ 43) × (slice_index text.now 0 ≡ 48 → length text.now ≡ 1)) }
{
    !matches!(text.as_bytes(), [b'+', ..] | [b'0', _, ..])
}

/// The length that the text writes: 0 to `most`, in decimal digits without leading zeros.
pub(crate) fn parse_len(text: &str, most: u8) -> Option<u8>
    ensures reads { result ≡ read_len most text.now }
    ensures within { IfSome result (λ len. len ≤ most) }
{
    if !begins_plainly(text) {
        return None;
    }
    let len = text.parse::<u8>().ok()?;
    if len <= most { Some(len) } else { None }
}
