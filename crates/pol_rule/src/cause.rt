//! What a rule can be refused for, and the numbers of these causes ('profile').
ghost use Rattle.std.specs.Prelude.{◌≡◌, Some};
ghost use Rattle.pol_rule.specs.Causes.{cause_of, number_of};

/// Why a rule of a policy is refused ('profile').
#[derive(Clone, Copy, Debug, PartialEq, Eq)]
pub enum RuleCause {
    /// 15: a rule has no selector of its subject.
    NoSelector,
    /// 16: two kinds of peers of one entry have items.
    Combining,
    /// 17: a selector of the subject or of the entry is bad.
    BadSelector,
    /// 18: a CIDR text of the entry isn't one of a prefix.
    BadCidr,
    /// 19: an exception isn't inside its `cidr`.
    ExceptOutside,
    /// 20: no entity has such a name.
    UnknownEntity,
    /// 21: a port text isn't one of 1 to 5 digits up to 65535, or an `endPort` is above 65535.
    BadPort,
    /// 22: a protocol is none of those that are known.
    BadProtocol,
    /// 23: a port item has more than 40 ports.
    TooManyPorts,
    /// 24: a port item has no ports.
    EmptyPorts,
    /// 26: a text of `policyTypes` is neither `Ingress` nor `Egress`.
    BadPolicyType,
    /// 27: a peer of a NetworkPolicy has none of its three members, or has `ipBlock` beside another.
    BadPeer,
    /// 28: an `endPort` of a NetworkPolicy stands without a `port`, or is below it.
    BadEndPort,
}

impl RuleCause {
    /// The number of this cause, 15 to 24 or 26 to 28.
    pub fn number(self) -> u8
        ensures number { result ≡ number_of self }
        ensures again { cause_of result ≡ Some self }
    {
        match self {
            RuleCause::NoSelector => 15,
            RuleCause::Combining => 16,
            RuleCause::BadSelector => 17,
            RuleCause::BadCidr => 18,
            RuleCause::ExceptOutside => 19,
            RuleCause::UnknownEntity => 20,
            RuleCause::BadPort => 21,
            RuleCause::BadProtocol => 22,
            RuleCause::TooManyPorts => 23,
            RuleCause::EmptyPorts => 24,
            RuleCause::BadPolicyType => 26,
            RuleCause::BadPeer => 27,
            RuleCause::BadEndPort => 28,
        }
    }

    /// The cause of that number; none where no cause has it.
    pub fn of_number(number: u8) -> Option<RuleCause>
        ensures { result ≡ cause_of number }
    {
        match number {
            15 => Some(RuleCause::NoSelector),
            16 => Some(RuleCause::Combining),
            17 => Some(RuleCause::BadSelector),
            18 => Some(RuleCause::BadCidr),
            19 => Some(RuleCause::ExceptOutside),
            20 => Some(RuleCause::UnknownEntity),
            21 => Some(RuleCause::BadPort),
            22 => Some(RuleCause::BadProtocol),
            23 => Some(RuleCause::TooManyPorts),
            24 => Some(RuleCause::EmptyPorts),
            26 => Some(RuleCause::BadPolicyType),
            27 => Some(RuleCause::BadPeer),
            28 => Some(RuleCause::BadEndPort),
            _ => None,
        }
    }
}
