//! The words of answers, and the numbers and names of faults ('profile').
ghost use Rattle.std.specs.Prelude.{◌≡◌};
ghost use Rattle.pol_answer.specs.Faults.{fault_name, doc_fault_name, cause_name, rule_fault_name, line_fault_name};
ghost use Rattle.pol_answer.specs.Text.{word_text, section_text};

use pol_json::DocFault;
use pol_mapkey::Word;
use pol_model::Fault;
use pol_rule::{RuleCause, Section};
use pol_script::LineFault;

/// The word of a verdict.
pub(crate) fn word_text(word: Word) -> &'static str
    ensures { result.now ≡ word_text word }
{
    match word {
        Word::Allowed => "allowed",
        Word::DeniedByRule => "denied-by-rule",
        Word::DeniedByDefault => "denied-by-default",
    }
}

/// The name of a section.
pub(crate) fn section_text(section: Section) -> &'static str
    ensures { result.now ≡ section_text section }
{
    match section {
        Section::Ingress => "ingress",
        Section::IngressDeny => "ingressDeny",
        Section::Egress => "egress",
        Section::EgressDeny => "egressDeny",
    }
}

/// The number and name of a request's fault.
pub(crate) fn fault_name(fault: Fault) -> &'static str
    ensures { result.now ≡ fault_name fault }
{
    match fault {
        Fault::DuplicateEndpoint => "30 duplicate-endpoint",
        Fault::UnknownEndpoint => "31 unknown-endpoint",
        Fault::EndpointsFull => "32 endpoints-full",
        Fault::DuplicateIdentityName => "33 duplicate-identity-name",
        Fault::UnknownIdentityName => "34 unknown-identity-name",
        Fault::AddressTaken => "35 address-taken",
        Fault::UnknownPolicy => "36 unknown-policy",
        Fault::IdentitiesExhausted => "37 identities-exhausted",
        Fault::LocalExhausted => "38 local-exhausted",
        Fault::ReservedLabel => "41 reserved-label",
    }
}

/// The number and name of a document's fault.
fn doc_fault_name(fault: &DocFault) -> &'static str
    ensures { result.now ≡ doc_fault_name fault.now }
{
    match fault {
        DocFault::NotPolicy => "10 not-policy",
        DocFault::NoName => "11 no-name",
        DocFault::NoSpec => "12 no-spec",
        DocFault::UnknownMember(_) => "13 unknown-member",
        DocFault::Unsupported(_) => "14 unsupported",
        DocFault::WrongShape(_) => "25 wrong-shape",
    }
}

/// The number and name of a rule's fault, by its cause.
fn cause_name(cause: RuleCause) -> &'static str
    ensures { result.now ≡ cause_name cause }
{
    match cause {
        RuleCause::NoSelector => "15 no-selector",
        RuleCause::Combining => "16 combining",
        RuleCause::BadSelector => "17 bad-selector",
        RuleCause::BadCidr => "18 bad-cidr",
        RuleCause::ExceptOutside => "19 except-outside",
        RuleCause::UnknownEntity => "20 unknown-entity",
        RuleCause::BadPort => "21 bad-port",
        RuleCause::BadProtocol => "22 bad-protocol",
        RuleCause::TooManyPorts => "23 too-many-ports",
        RuleCause::EmptyPorts => "24 empty-ports",
        RuleCause::BadPolicyType => "26 bad-policy-type",
        RuleCause::BadPeer => "27 bad-peer",
        RuleCause::BadEndPort => "28 bad-end-port",
    }
}

/// The number and name of a rule's fault, by its number. Reading gives no number that no cause has.
fn rule_fault_name(number: u8) -> &'static str
    ensures { result.now ≡ rule_fault_name number }
{
    match RuleCause::of_number(number) {
        Some(cause) => cause_name(cause),
        None => "0 no-such-fault",
    }
}

/// The number and name of a line's fault.
pub(crate) fn line_fault_name(fault: &LineFault) -> &'static str
    ensures { result.now ≡ line_fault_name fault.now }
{
    match fault {
        LineFault::Json => "1 json",
        LineFault::NoOp => "2 no-op",
        LineFault::BadField(_) => "3 bad-field",
        LineFault::UnknownField(_) => "4 unknown-field",
        LineFault::Doc(fault) => doc_fault_name(fault),
        LineFault::Rule(fault) => rule_fault_name(fault.number),
        LineFault::BadLabel => "39 bad-label",
        LineFault::DuplicateLabelKey => "40 duplicate-label-key",
        LineFault::BadAddress => "42 bad-address",
    }
}
