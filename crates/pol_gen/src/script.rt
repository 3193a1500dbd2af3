//! The lines of a generated script.
ghost use Rattle.std.specs.Prelude.{◌≡◌, ◌≤◌, ◌<◌, ◌+◌, ◌*◌, ◌++◌, OnOk, IfOk};
ghost use Rattle.std.specs.List.{flat_map, range_with_len};
ghost use Rattle.std.specs.String.{string_bytes};
ghost use Rattle.std.specs.Fmt.{decimal};
ghost use Rattle.pol_gen.specs.Draws.{after};
ghost use Rattle.pol_gen.specs.Generated.{endpoint_text, endpoint_line, section_text, policy_head, policy_entry, apply_line, verdict_text, verdict_line, endpoints, check, check_behind, draws_before, round_lines, last_check, generated};

use crate::draws::Draws;
use pol_data::Memory;
use std::alloc::Global;

// How many endpoints there are.
const ENDPOINTS: u64 = 32;

// Appends a text and a number.
#[tactic(auto, using(std::proofs::Common::append_assoc))]
fn push_field(out: &mut String, text: &str, number: u64) -> Result<(), Memory>
    ensures { OnOk result (string_bytes out.new ≡ string_bytes out.old ++ text.now ++ decimal number) }
{
    out.push_str(text)?;
    write!(out, "{number}")
}

fn push_text(out: &mut String, text: &str) -> Result<(), Memory>
    ensures { OnOk result (string_bytes out.new ≡ string_bytes out.old ++ text.now) }
{
    out.push_str(text)
}

fn push_endpoint_text(out: &mut String, i: u64, app: u64) -> Result<(), Memory>
    requires { i < 32 }
    ensures { OnOk result (string_bytes out.new ≡ string_bytes out.old ++ endpoint_text i app) }
{
    push_field(out, "{\"op\":\"endpoint\",\"name\":\"e", i)?;
    push_field(out, "\",\"labels\":[\"k8s:app=a", app)?;
    push_field(
        out,
        "\",\"k8s:io.kubernetes.pod.namespace=default\"],\"address\":\"10.0.0.",
        i + 1,
    )?;
    push_text(out, "\"}\n")
}

#[tactic(auto, unfolding(crate::specs::Draws::after))]
fn push_endpoint(out: &mut String, draws: &mut Draws, i: u64) -> Result<(), Memory>
    requires { i < 32 }
    ensures draws { draws.new.x ≡ after 1 draws.old.x }
    ensures line { OnOk result (string_bytes out.new ≡ string_bytes out.old ++ endpoint_line i draws.old.x) }
{
    let app = draws.draw(8);
    push_endpoint_text(out, i, app)
}

fn push_endpoints(out: &mut String, draws: &mut Draws) -> Result<(), Memory>
    ensures draws { OnOk result (draws.new.x ≡ after 32 draws.old.x) }
    ensures lines { OnOk result (string_bytes out.new ≡ string_bytes out.old ++ endpoints draws.old.x) }
{
    for i in 0..ENDPOINTS {
        push_endpoint(out, draws, i)?;
    }
    Ok(())
}

fn section_text(section: u64) -> &'static str
    ensures { result.now ≡ section_text section }
{
    if section == 0 {
        "\"}},\"ingressDeny\":["
    } else {
        "\"}},\"ingress\":["
    }
}

fn push_policy_head(out: &mut String, name: u64, app: u64, section: u64) -> Result<(), Memory>
    ensures { OnOk result (string_bytes out.new ≡ string_bytes out.old ++ policy_head name app section) }
{
    push_field(
        out,
        "{\"op\":\"apply\",\"policy\":{\"apiVersion\":\"cilium.io/v2\",\"kind\":\"CiliumNetworkPolicy\",\"metadata\":{\"name\":\"p",
        name,
    )?;
    push_field(
        out,
        "\"},\"spec\":{\"endpointSelector\":{\"matchLabels\":{\"app\":\"a",
        app,
    )?;
    push_text(out, section_text(section))
}

fn push_policy_entry(out: &mut String, from: u64, first: u64, last: u64) -> Result<(), Memory>
    ensures { OnOk result (string_bytes out.new ≡ string_bytes out.old ++ policy_entry from first last) }
{
    push_field(
        out,
        "{\"fromEndpoints\":[{\"matchLabels\":{\"app\":\"a",
        from,
    )?;
    push_field(out, "\"}}],\"toPorts\":[{\"ports\":[{\"port\":\"", first)?;
    push_field(out, "\",\"endPort\":", last)?;
    push_text(out, ",\"protocol\":\"TCP\"}]}]}]}}}\n")
}

#[tactic(auto, using(std::proofs::Common::append_assoc), unfolding(crate::specs::Draws::after))]
fn push_apply(out: &mut String, draws: &mut Draws) -> Result<(), Memory>
    ensures draws { draws.new.x ≡ after 6 draws.old.x }
    ensures line { OnOk result (string_bytes out.new ≡ string_bytes out.old ++ apply_line draws.old.x) }
{
    let name = draws.draw(64);
    let app = draws.draw(8);
    let from = draws.draw(8);
    let port = draws.draw(1024) + 1;
    let wide = draws.draw(100);
    let section = draws.draw(4);
    push_policy_head(out, name, app, section)?;
    push_policy_entry(out, from, port, port + wide)
}

fn push_verdict_text(out: &mut String, i: u64, host: u64, port: u64) -> Result<(), Memory>
    ensures { OnOk result (string_bytes out.new ≡ string_bytes out.old ++ verdict_text i host port) }
{
    push_field(out, "{\"op\":\"verdict\",\"endpoint\":\"e", i)?;
    push_field(
        out,
        "\",\"direction\":\"ingress\",\"address\":\"10.0.0.",
        host,
    )?;
    push_field(out, "\",\"protocol\":\"TCP\",\"port\":", port)?;
    push_text(out, "}\n")
}

#[tactic(auto, unfolding(crate::specs::Draws::after))]
fn push_verdict(out: &mut String, draws: &mut Draws, i: u64) -> Result<(), Memory>
    ensures draws { draws.new.x ≡ after 2 draws.old.x }
    ensures line { OnOk result (string_bytes out.new ≡ string_bytes out.old ++ verdict_line i draws.old.x) }
{
    let host = draws.draw(32) + 1;
    let port = draws.draw(1124) + 1;
    push_verdict_text(out, i, host, port)
}

// Appends a verdict for each endpoint.
fn push_verdicts(out: &mut String, draws: &mut Draws) -> Result<(), Memory>
    ensures draws { OnOk result (draws.new.x ≡ after 64 draws.old.x) }
    ensures lines { OnOk result (string_bytes out.new
        ≡ string_bytes out.old ++ flat_map (λ i. verdict_line i (after (2 * i) draws.old.x)) (range_with_len 0 32)) }
{
    for i in 0..ENDPOINTS {
        push_verdict(out, draws, i)?;
    }
    Ok(())
}

fn push_check(out: &mut String, draws: &mut Draws) -> Result<(), Memory>
    ensures draws { OnOk result (draws.new.x ≡ after 64 draws.old.x) }
    ensures lines { OnOk result (string_bytes out.new ≡ string_bytes out.old ++ check draws.old.x) }
{
    push_text(out, "{\"op\":\"sync\"}\n")?;
    push_verdicts(out, draws)
}

// Appends a round, counted from 0, of the script of that number.
fn push_round(out: &mut String, draws: &mut Draws, n: u32, round: u32) -> Result<(), Memory>
    requires round { round < n }
    requires before { draws.old.x ≡ after (draws_before round) n }
    ensures draws { OnOk result (draws.new.x ≡ after (draws_before (round + 1)) n) }
    ensures lines { OnOk result (string_bytes out.new ≡ string_bytes out.old ++ round_lines n round) }
{
    push_apply(out, draws)?;
    if (round + 1) % 10 == 0 {
        push_check(out, draws)
    } else {
        Ok(())
    }
}

fn push_rounds(out: &mut String, draws: &mut Draws, n: u32) -> Result<(), Memory>
    requires before { draws.old.x ≡ after 32 n }
    ensures draws { OnOk result (draws.new.x ≡ after (draws_before n) n) }
    ensures lines { OnOk result (string_bytes out.new
        ≡ string_bytes out.old ++ flat_map (round_lines n) (range_with_len 0 n)) }
{
    for round in 0..n {
        push_round(out, draws, n, round)?;
    }
    Ok(())
}

// Appends the check behind the last round, where that is no tenth one.
fn push_last_check(out: &mut String, draws: &mut Draws, n: u32) -> Result<(), Memory>
    requires before { draws.old.x ≡ after (draws_before n) n }
    ensures lines { OnOk result (string_bytes out.new ≡ string_bytes out.old ++ last_check n) }
{
    if n % 10 == 0 {
        Ok(())
    } else {
        push_check(out, draws)
    }
}

/// The script of so many rounds, 1 to 10,000: 32 endpoints, then in each round a policy, and behind every tenth
/// round and the last one a synchronisation and a verdict for each endpoint. It is always the same for the same
/// number. The one error is want of memory ('profile').
pub fn generated(alloc: Global, n: u32) -> Result<Vec<u8>, Memory>
    requires { (1 ≤ n) × (n ≤ 10000) }
    ensures { IfOk result (λ script. script.items ≡ generated n) }
{
    let mut out = String::new(alloc);
    let mut draws = Draws { x: u64::from(n) };
    push_endpoints(&mut out, &mut draws)?;
    push_rounds(&mut out, &mut draws, n)?;
    push_last_check(&mut out, &mut draws, n)?;
    Ok(out.into_bytes())
}
