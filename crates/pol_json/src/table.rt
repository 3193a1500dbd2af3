//! The table of members: what stands where in a policy document (Cilium, "CiliumNetworkPolicy"; Kubernetes,
//! `NetworkPolicy`).
ghost use Rattle.std.specs.Prelude.{◌≡◌};
ghost use Rattle.pol_json.specs.Table.{seen, shape_of};

/// What an object of a policy document is.
#[derive(Clone, Copy)]
pub(crate) enum ObjectKind {
    /// The whole document.
    Policy,
    /// `metadata`.
    Metadata,
    /// `spec`, or an item of `specs`.
    Rule,
    /// `enableDefaultDeny` of a rule.
    DefaultDeny,
    /// A selector of a rule's subject or of a peer.
    Selector,
    /// `matchLabels`.
    MatchLabels,
    /// An item of `matchExpressions`.
    Expression,
    /// An entry of `ingress` or `ingressDeny`.
    IngressEntry,
    /// An entry of `egress` or `egressDeny`.
    EgressEntry,
    /// An item of `fromCIDRSet` or `toCIDRSet`.
    CidrSet,
    /// An item of `toPorts`.
    PortItem,
    /// A port of a port item.
    Port,
    /// The whole document of a Kubernetes NetworkPolicy.
    NetworkPolicy,
    /// The `spec` of a NetworkPolicy.
    NetworkSpec,
    /// An entry of its `ingress`.
    NetworkIngress,
    /// An entry of its `egress`.
    NetworkEgress,
    /// A peer of such an entry.
    NetworkPeer,
    /// The `ipBlock` of such a peer.
    IpBlock,
    /// A port of such an entry.
    NetworkPort,
}

/// What a text of a policy document is.
#[derive(Clone, Copy)]
pub(crate) enum TextForm {
    /// Any text.
    Any,
    /// The name of a policy or of a namespace.
    Name,
    /// A port.
    Port,
    /// A protocol.
    Protocol,
}

/// What a value of a policy document is.
#[derive(Clone, Copy)]
pub(crate) enum Content {
    /// Anything, with all that it holds.
    Ignored,
    /// A text.
    Text(TextForm),
    /// True or false.
    Boolean,
    /// A whole number that is not negative.
    Number,
    /// A port by its number, a whole number that is not negative; by its name it is left out.
    PortNumber,
    /// An object.
    Object(ObjectKind),
}

/// What should stand at a member.
#[derive(Clone, Copy)]
pub(crate) enum Shape {
    /// Nothing: the name is unknown.
    Unknown,
    /// Nothing: Cilium knows the name, and this profile leaves it out.
    Unsupported,
    /// A value.
    One(Content),
    /// A list of such values.
    List(Content),
}

const TEXT: Shape = Shape::One(Content::Text(TextForm::Any));

const NAME: Shape = Shape::One(Content::Text(TextForm::Name));

const TEXTS: Shape = Shape::List(Content::Text(TextForm::Any));

const IGNORED: Shape = Shape::One(Content::Ignored);

const SELECTOR: Shape = Shape::One(Content::Object(ObjectKind::Selector));

const SELECTORS: Shape = Shape::List(Content::Object(ObjectKind::Selector));

const CIDR_SETS: Shape = Shape::List(Content::Object(ObjectKind::CidrSet));

const PORT_ITEMS: Shape = Shape::List(Content::Object(ObjectKind::PortItem));

const INGRESS: Shape = Shape::List(Content::Object(ObjectKind::IngressEntry));

const EGRESS: Shape = Shape::List(Content::Object(ObjectKind::EgressEntry));

const METADATA: Shape = Shape::One(Content::Object(ObjectKind::Metadata));

const NETWORK_PEERS: Shape = Shape::List(Content::Object(ObjectKind::NetworkPeer));

const NETWORK_PORTS: Shape = Shape::List(Content::Object(ObjectKind::NetworkPort));

fn policy_member(name: &str) -> Shape
    ensures { seen name.now result ≡ shape_of ObjectKind.Policy name.now }
{
    match name {
        "apiVersion" | "kind" => TEXT,
        "metadata" => METADATA,
        "spec" => Shape::One(Content::Object(ObjectKind::Rule)),
        "specs" => Shape::List(Content::Object(ObjectKind::Rule)),
        "status" => IGNORED,
        _ => Shape::Unknown,
    }
}

fn metadata_member(name: &str) -> Shape
    ensures { seen name.now result ≡ shape_of ObjectKind.Metadata name.now }
{
    match name {
        "name" | "namespace" => NAME,
        _ => IGNORED,
    }
}

fn rule_member(name: &str) -> Shape
    ensures { seen name.now result ≡ shape_of ObjectKind.Rule name.now }
{
    match name {
        "endpointSelector" => SELECTOR,
        "ingress" | "ingressDeny" => INGRESS,
        "egress" | "egressDeny" => EGRESS,
        "description" => TEXT,
        "labels" => Shape::List(Content::Ignored),
        "enableDefaultDeny" => Shape::One(Content::Object(ObjectKind::DefaultDeny)),
        "nodeSelector" => Shape::Unsupported,
        _ => Shape::Unknown,
    }
}

fn default_deny_member(name: &str) -> Shape
    ensures { seen name.now result ≡ shape_of ObjectKind.DefaultDeny name.now }
{
    match name {
        "ingress" | "egress" => Shape::One(Content::Boolean),
        _ => Shape::Unknown,
    }
}

fn selector_member(name: &str) -> Shape
    ensures { seen name.now result ≡ shape_of ObjectKind.Selector name.now }
{
    match name {
        "matchLabels" => Shape::One(Content::Object(ObjectKind::MatchLabels)),
        "matchExpressions" => Shape::List(Content::Object(ObjectKind::Expression)),
        _ => Shape::Unknown,
    }
}

fn expression_member(name: &str) -> Shape
    ensures { seen name.now result ≡ shape_of ObjectKind.Expression name.now }
{
    match name {
        "key" | "operator" => TEXT,
        "values" => TEXTS,
        _ => Shape::Unknown,
    }
}

fn ingress_member(name: &str) -> Shape
    ensures { seen name.now result ≡ shape_of ObjectKind.IngressEntry name.now }
{
    match name {
        "fromEndpoints" => SELECTORS,
        "toPorts" => PORT_ITEMS,
        "fromCIDR" | "fromEntities" => TEXTS,
        "fromCIDRSet" => CIDR_SETS,
        "fromRequires" | "fromNodes" | "fromGroups" | "icmps" | "authentication" => {
            Shape::Unsupported
        }
        _ => Shape::Unknown,
    }
}

fn egress_member(name: &str) -> Shape
    ensures { seen name.now result ≡ shape_of ObjectKind.EgressEntry name.now }
{
    match name {
        "toEndpoints" => SELECTORS,
        "toPorts" => PORT_ITEMS,
        "toCIDR" | "toEntities" => TEXTS,
        "toCIDRSet" => CIDR_SETS,
        "toRequires"
        | "toNodes"
        | "toGroups"
        | "toFQDNs"
        | "toServices"
        | "icmps"
        | "authentication" => Shape::Unsupported,
        _ => Shape::Unknown,
    }
}

fn cidr_set_member(name: &str) -> Shape
    ensures { seen name.now result ≡ shape_of ObjectKind.CidrSet name.now }
{
    match name {
        "cidr" => TEXT,
        "except" => TEXTS,
        "cidrGroupRef" | "cidrGroupSelector" => Shape::Unsupported,
        _ => Shape::Unknown,
    }
}

fn port_item_member(name: &str) -> Shape
    ensures { seen name.now result ≡ shape_of ObjectKind.PortItem name.now }
{
    match name {
        "ports" => Shape::List(Content::Object(ObjectKind::Port)),
        "rules" | "terminatingTLS" | "originatingTLS" | "listener" | "serverNames" => {
            Shape::Unsupported
        }
        _ => Shape::Unknown,
    }
}

fn port_member(name: &str) -> Shape
    ensures { seen name.now result ≡ shape_of ObjectKind.Port name.now }
{
    match name {
        "port" => Shape::One(Content::Text(TextForm::Port)),
        "protocol" => Shape::One(Content::Text(TextForm::Protocol)),
        "endPort" => Shape::One(Content::Number),
        _ => Shape::Unknown,
    }
}

// ---- Kubernetes' NetworkPolicy

fn network_policy_member(name: &str) -> Shape
    ensures { seen name.now result ≡ shape_of ObjectKind.NetworkPolicy name.now }
{
    match name {
        "apiVersion" | "kind" => TEXT,
        "metadata" => METADATA,
        "spec" => Shape::One(Content::Object(ObjectKind::NetworkSpec)),
        "status" => IGNORED,
        _ => Shape::Unknown,
    }
}

fn network_spec_member(name: &str) -> Shape
    ensures { seen name.now result ≡ shape_of ObjectKind.NetworkSpec name.now }
{
    match name {
        "podSelector" => SELECTOR,
        "policyTypes" => TEXTS,
        "ingress" => Shape::List(Content::Object(ObjectKind::NetworkIngress)),
        "egress" => Shape::List(Content::Object(ObjectKind::NetworkEgress)),
        _ => Shape::Unknown,
    }
}

fn network_ingress_member(name: &str) -> Shape
    ensures { seen name.now result ≡ shape_of ObjectKind.NetworkIngress name.now }
{
    match name {
        "from" => NETWORK_PEERS,
        "ports" => NETWORK_PORTS,
        _ => Shape::Unknown,
    }
}

fn network_egress_member(name: &str) -> Shape
    ensures { seen name.now result ≡ shape_of ObjectKind.NetworkEgress name.now }
{
    match name {
        "to" => NETWORK_PEERS,
        "ports" => NETWORK_PORTS,
        _ => Shape::Unknown,
    }
}

fn network_peer_member(name: &str) -> Shape
    ensures { seen name.now result ≡ shape_of ObjectKind.NetworkPeer name.now }
{
    match name {
        "podSelector" | "namespaceSelector" => SELECTOR,
        "ipBlock" => Shape::One(Content::Object(ObjectKind::IpBlock)),
        _ => Shape::Unknown,
    }
}

fn ip_block_member(name: &str) -> Shape
    ensures { seen name.now result ≡ shape_of ObjectKind.IpBlock name.now }
{
    match name {
        "cidr" => TEXT,
        "except" => TEXTS,
        _ => Shape::Unknown,
    }
}

fn network_port_member(name: &str) -> Shape
    ensures { seen name.now result ≡ shape_of ObjectKind.NetworkPort name.now }
{
    match name {
        "port" => Shape::One(Content::PortNumber),
        "protocol" => TEXT,
        "endPort" => Shape::One(Content::Number),
        _ => Shape::Unknown,
    }
}

/// What should stand at the member of this name.
pub(crate) fn shape_of(kind: ObjectKind, name: &str) -> Shape
    ensures { seen name.now result ≡ shape_of kind name.now }
{
    match kind {
        ObjectKind::Policy => policy_member(name),
        ObjectKind::Metadata => metadata_member(name),
        ObjectKind::Rule => rule_member(name),
        ObjectKind::DefaultDeny => default_deny_member(name),
        ObjectKind::Selector => selector_member(name),
        ObjectKind::MatchLabels => TEXT,
        ObjectKind::Expression => expression_member(name),
        ObjectKind::IngressEntry => ingress_member(name),
        ObjectKind::EgressEntry => egress_member(name),
        ObjectKind::CidrSet => cidr_set_member(name),
        ObjectKind::PortItem => port_item_member(name),
        ObjectKind::Port => port_member(name),
        ObjectKind::NetworkPolicy => network_policy_member(name),
        ObjectKind::NetworkSpec => network_spec_member(name),
        ObjectKind::NetworkIngress => network_ingress_member(name),
        ObjectKind::NetworkEgress => network_egress_member(name),
        ObjectKind::NetworkPeer => network_peer_member(name),
        ObjectKind::IpBlock => ip_block_member(name),
        ObjectKind::NetworkPort => network_port_member(name),
    }
}
