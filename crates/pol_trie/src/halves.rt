//! The halves of a port prefix.
ghost use Rattle.std.specs.Prelude.{◌≡◌};
ghost use Rattle.pol_trie.specs.Tree.{middle, is_upper};

use pol_ports::PortPrefix;

/// The first port of the prefix.
pub(crate) fn first_port(port: &PortPrefix) -> u16
    ensures { result ≡ port.now.bits }
{
    port.bits
}

/// The first port of the prefix's upper half.
pub(crate) fn middle(port: &PortPrefix) -> u32
    ensures { result ≡ middle port.now }
{
    (u32::from(port.bits) + port.end()) / 2
}

/// Whether a port lies past the prefix's lower half.
pub(crate) fn is_upper(prefix: &PortPrefix, port: u16) -> bool
    ensures { result ≡ is_upper prefix.now port }
{
    middle(prefix) <= u32::from(port)
}
