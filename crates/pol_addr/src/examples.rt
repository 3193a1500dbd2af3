//! Computed examples of the definitions: what texts write, what is printed, and which addresses a prefix contains.
ghost use Rattle.std.specs.Prelude.{◌≡◌, [], ◌∷◌, Some, None, codes, false, true};
ghost use Rattle.pol_addr.specs.Families.{Ipv4, Ipv6};
ghost use Rattle.pol_addr.specs.Address.{V4, V6, addr_of_groups, addr_of_octets, read_addr};
ghost use Rattle.pol_addr.specs.Prefix.{contains, covers, read_prefix, world};
ghost use Rattle.pol_addr.specs.Text.{addr_text};

/// IPv6 texts that are read: eight groups, `::` inside and at either end, digits of either case, and zeros before a group.
pub fn texts_of_ipv6_addresses()
    ensures eight { read_addr (codes "2001:db8:0:0:0:0:0:1")
        ≡ Some (addr_of_groups (8193 ∷ 3512 ∷ 0 ∷ 0 ∷ 0 ∷ 0 ∷ 0 ∷ 1 ∷ [])) }
    ensures inside { read_addr (codes "2001:db8::1")
        ≡ Some (addr_of_groups (8193 ∷ 3512 ∷ 0 ∷ 0 ∷ 0 ∷ 0 ∷ 0 ∷ 1 ∷ [])) }
    ensures one_group { read_addr (codes "1:2:3:4::6:7:8")
        ≡ Some (addr_of_groups (1 ∷ 2 ∷ 3 ∷ 4 ∷ 0 ∷ 6 ∷ 7 ∷ 8 ∷ [])) }
    ensures before { read_addr (codes "::1") ≡ Some (V6 1) }
    ensures behind { read_addr (codes "1::") ≡ Some (addr_of_groups (1 ∷ 0 ∷ 0 ∷ 0 ∷ 0 ∷ 0 ∷ 0 ∷ 0 ∷ [])) }
    ensures alone { read_addr (codes "::") ≡ Some (V6 0) }
    ensures upper { read_addr (codes "FD00::aB") ≡ Some (addr_of_groups (64768 ∷ 0 ∷ 0 ∷ 0 ∷ 0 ∷ 0 ∷ 0 ∷ 171 ∷ [])) }
    ensures zeros { read_addr (codes "fd00::00ab") ≡ Some (addr_of_groups (64768 ∷ 0 ∷ 0 ∷ 0 ∷ 0 ∷ 0 ∷ 0 ∷ 171 ∷ [])) }
{}

/// Texts that are no address: `::` for no group or twice, too many or too few groups, a group of five digits, an IPv4 address at
/// the end of an IPv6 address, a zone, and a leading zero in an IPv4 address.
pub fn texts_of_no_address()
    ensures for_none { read_addr (codes "1:2:3:4::5:6:7:8") ≡ None }
    ensures twice { read_addr (codes "1::2::3") ≡ None }
    ensures nine { read_addr (codes "1:2:3:4:5:6:7:8:9") ≡ None }
    ensures seven { read_addr (codes "1:2:3:4:5:6:7") ≡ None }
    ensures five_digits { read_addr (codes "::00001") ≡ None }
    ensures three_colons { read_addr (codes ":::") ≡ None }
    ensures dotted { read_addr (codes "::ffff:1.2.3.4") ≡ None }
    ensures zone { read_addr (codes "fe80::1%1") ≡ None }
    ensures leading_zero { read_addr (codes "10.0.0.01") ≡ None }
    ensures nothing { read_addr [] ≡ None }
{}

/// Prefix texts: host bits are cleared, at 65 bits too; a bare address has the greatest length of its family; and a length that is
/// too great for the family, or has a leading zero, is refused.
pub fn texts_of_prefixes()
    ensures host_bits { read_prefix (codes "10.1.2.3/8") ≡ Some (record { addr = addr_of_octets 10 0 0 0; len = 8 }) }
    ensures host_bits_of_65 { read_prefix (codes "1:2:3:4:ffff::1/65")
        ≡ Some (record { addr = addr_of_groups (1 ∷ 2 ∷ 3 ∷ 4 ∷ 32768 ∷ 0 ∷ 0 ∷ 0 ∷ []); len = 65 }) }
    ensures bare { read_prefix (codes "::1") ≡ Some (record { addr = V6 1; len = 128 }) }
    ensures bare_ipv4 { read_prefix (codes "0.0.0.1") ≡ Some (record { addr = V4 1; len = 32 }) }
    ensures world { read_prefix (codes "::/0") ≡ Some (world Ipv6) }
    ensures world_ipv4 { read_prefix (codes "0.0.0.0/0") ≡ Some (world Ipv4) }
    ensures too_long { read_prefix (codes "::/129") ≡ None }
    ensures too_long_ipv4 { read_prefix (codes "0.0.0.0/33") ≡ None }
    ensures leading_zero { read_prefix (codes "::/064") ≡ None }
{}

/// What is printed: small letters without leading zeros, `::` for the longest run of zeros, the first of two, and for no single
/// group; an address that ends in an IPv4 address is printed as groups too.
pub fn printed_texts()
    ensures small { addr_text (addr_of_groups (64768 ∷ 0 ∷ 0 ∷ 0 ∷ 0 ∷ 0 ∷ 0 ∷ 171 ∷ [])) ≡ codes "fd00::ab" }
    ensures first_run { addr_text (addr_of_groups (1 ∷ 0 ∷ 0 ∷ 2 ∷ 0 ∷ 0 ∷ 3 ∷ 4 ∷ [])) ≡ codes "1::2:0:0:3:4" }
    ensures longest_run { addr_text (addr_of_groups (1 ∷ 0 ∷ 0 ∷ 2 ∷ 0 ∷ 0 ∷ 0 ∷ 4 ∷ [])) ≡ codes "1:0:0:2::4" }
    ensures single { addr_text (addr_of_groups (1 ∷ 0 ∷ 3 ∷ 4 ∷ 5 ∷ 6 ∷ 7 ∷ 8 ∷ [])) ≡ codes "1:0:3:4:5:6:7:8" }
    ensures mapped { addr_text (addr_of_groups (0 ∷ 0 ∷ 0 ∷ 0 ∷ 0 ∷ 65535 ∷ 258 ∷ 772 ∷ [])) ≡ codes "::ffff:102:304" }
    ensures none { addr_text (V6 0) ≡ codes "::" }
{}

/// The prefix of length 0 of a family contains no address of the other, covers no prefix of it, and neither does a longer one.
pub fn other_families()
    ensures ipv6 { contains (world Ipv6) (V4 1) ≡ false }
    ensures ipv4 { contains (world Ipv4) (V6 1) ≡ false }
    ensures covers { covers (world Ipv6) (world Ipv4) ≡ false }
    ensures longer { contains (record { addr = V6 0; len = 96 }) (V4 1) ≡ false }
    ensures own { contains (record { addr = V6 0; len = 96 }) (V6 1) ≡ true }
{}
