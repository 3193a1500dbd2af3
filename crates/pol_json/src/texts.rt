//! The forms of names, and how they are printed.
ghost use Rattle.std.specs.Prelude.{◌≡◌, ◌++◌, OnOk};
ghost use Rattle.std.specs.List.{list_all};
ghost use Rattle.std.specs.String.{string_bytes};
ghost use Rattle.pol_json.specs.Texts.{is_dns_byte, is_name_byte, has_name_length, is_dns_name, is_name, printable, printable_byte};

use pol_data::Memory;

/// The greatest length of a name, in bytes.
const NAME_MAX: usize = 253;

fn is_dns_byte(byte: u8) -> bool
    ensures { result ≡ is_dns_byte byte }
{
    matches!(byte, b'a'..=b'z' | b'0'..=b'9' | b'.' | b'-')
}

fn is_name_byte(byte: u8) -> bool
    ensures { result ≡ is_name_byte byte }
{
    matches!(byte, b'a'..=b'z' | b'A'..=b'Z' | b'0'..=b'9' | b'.' | b'_' | b'-' | b'/')
}

fn has_name_length(text: &str) -> bool
    ensures { result ≡ has_name_length text.now }
{
    1 <= text.len() && text.len() <= NAME_MAX
}

fn has_dns_bytes(text: &str) -> bool
    ensures { result ≡ list_all is_dns_byte text.now }
{
    text.as_bytes().iter().all(|byte| is_dns_byte(*byte))
}

fn has_name_bytes(text: &str) -> bool
    ensures { result ≡ list_all is_name_byte text.now }
{
    text.as_bytes().iter().all(|byte| is_name_byte(*byte))
}

/// Whether the text may name a policy or a namespace: 1 to 253 bytes from `a` to `z`, `0` to `9`, `.`
/// and `-` (Kubernetes, "Object Names and IDs").
pub fn is_dns_name(text: &str) -> bool
    ensures { result ≡ is_dns_name text.now }
{
    has_name_length(text) && has_dns_bytes(text)
}

/// Whether the text may be a name of the script: 1 to 253 bytes from the letters, the digits, `.`, `_`,
/// `-` and `/` (profile).
pub fn is_name(text: &str) -> bool
    ensures { result ≡ is_name text.now }
{
    has_name_length(text) && has_name_bytes(text)
}

/// The character that a byte of a name is printed as.
fn printable_char(byte: u8) -> char
    ensures { result ≡ printable_byte byte }
{
    if 33 <= byte && byte <= 126 {
        char::from(byte)
    } else {
        '?'
    }
}

/// Appends a name: each byte outside 0x21 to 0x7E is printed as `?` (profile).
pub fn push_printable(out: &mut String, name: &str) -> Result<(), Memory>
    ensures { OnOk result (string_bytes out.new ≡ string_bytes out.old ++ printable name.now) }
{
    for byte in name.as_bytes() {
        out.push(printable_char(*byte))?;
    }
    Ok(())
}
