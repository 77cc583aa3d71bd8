ghost use Rattle.std.specs.Prelude.{ℕ, List, Option, codes, IfOk, IfSome, IfNone, []};
ghost use Rattle.serde_json.specs.View.{view};
ghost use Rattle.serde_json.specs.Find.{get};
ghost use Rattle.net_addr.specs.declared.address.Addr.{Addr};
ghost use Rattle.net_rules.specs.declared.answer.Answer.{Answer};
ghost use Rattle.net_rules.specs.declared.answer.AnswerRoute.{AnswerRoute};
ghost use Rattle.answer_json.specs.Members.{IsOptional, IsOr, IsArray};
ghost use Rattle.answer_json.specs.AnswerJson.{IsDevice, IsAddress, IsPrefix, IsMetric, IsRoute};
ghost use Rattle.answer_json.specs.AnswerJson.{IsAnswer};

use kern_model::{DevName, read_name};
use net_addr::{Addr, Cidr, read_addr, read_cidr};
use net_rules::{Answer, AnswerRoute};
use plane_io::{Items, Memory};
use serde_json::Value;
use std::alloc::Global;

/// The answer of the handler of an interface: an object with the member `up`, and perhaps `device`,
/// `addresses` and `routes`. `None` where it is no answer. Other members are passed over.
///
/// # Errors
///
/// Want of memory.
pub fn read_answer(alloc: Global, value: &Value) -> Result<Option<Answer>, Memory>
    ensures found { IfOk result (λ found. IfSome found (IsAnswer (view value.now))) }
    ensures none { IfOk result (λ found.
        IfNone found ((answer : Answer) → IsAnswer (view value.now) answer → ⊥)) }
{
    let Some(up) = value.get("up").and_then(Value::as_bool) else {
        return Ok(None);
    };
    let Some(device) = device_of(value) else {
        return Ok(None);
    };
    let Some(addresses) = addresses_of(alloc, value)? else {
        return Ok(None);
    };
    let Some(routes) = routes_of(alloc, value)? else {
        return Ok(None);
    };
    Ok(Some(Answer {
        up,
        device,
        addresses,
        routes,
    }))
}

/// The text that names a device.
pub(crate) fn read_device(value: &Value) -> Option<DevName>
    ensures found { IfSome result (IsDevice (view value.now)) }
    ensures none { IfNone result ((name : List ℕ) → IsDevice (view value.now) name → ⊥) }
{
    let text = value.as_str()?;
    read_name(text.as_bytes())
}

fn read_prefix(value: &Value) -> Option<Cidr>
    ensures found { IfSome result (IsPrefix (view value.now)) }
    ensures none { IfNone result ((prefix : Addr × ℕ) → IsPrefix (view value.now) prefix → ⊥) }
{
    let text = value.as_str()?;
    match read_cidr(text.as_bytes()) {
        Ok(cidr) => Some(cidr),
        Err(_) => None,
    }
}

fn read_address(value: &Value) -> Option<Addr>
    ensures found { IfSome result (IsAddress (view value.now)) }
    ensures none { IfNone result ((address : Addr) → IsAddress (view value.now) address → ⊥) }
{
    let text = value.as_str()?;
    match read_addr(text.as_bytes()) {
        Ok(addr) => Some(addr),
        Err(_) => None,
    }
}

fn read_metric(value: &Value) -> Option<u32>
    ensures found { IfSome result (IsMetric (view value.now)) }
    ensures none { IfNone result ((metric : ℕ) → IsMetric (view value.now) metric → ⊥) }
{
    let number = value.as_u64()?;
    match u32::try_from(number) {
        Ok(metric) => Some(metric),
        Err(_) => None,
    }
}

fn read_route(value: &Value) -> Option<AnswerRoute>
    ensures found { IfSome result (IsRoute (view value.now)) }
    ensures none { IfNone result ((route : AnswerRoute) → IsRoute (view value.now) route → ⊥) }
{
    let target = read_prefix(value.get("target")?)?;
    let via = via_of(value)?;
    let metric = metric_of(value)?;
    Some(AnswerRoute {
        target,
        via,
        metric,
    })
}

fn device_of(value: &Value) -> Option<Option<DevName>>
    ensures found { IfSome result (IsOptional IsDevice (get (codes "device") (view value.now))) }
    ensures none { IfNone result ((device : Option (List ℕ)) →
        IsOptional IsDevice (get (codes "device") (view value.now)) device → ⊥) }
{
    match value.get("device") {
        Some(member) => Some(Some(read_device(member)?)),
        None => Some(None),
    }
}

fn via_of(value: &Value) -> Option<Option<Addr>>
    ensures found { IfSome result (IsOptional IsAddress (get (codes "gateway") (view value.now))) }
    ensures none { IfNone result ((via : Option Addr) →
        IsOptional IsAddress (get (codes "gateway") (view value.now)) via → ⊥) }
{
    match value.get("gateway") {
        Some(member) => Some(Some(read_address(member)?)),
        None => Some(None),
    }
}

fn metric_of(value: &Value) -> Option<u32>
    ensures found { IfSome result (IsOr IsMetric 0 (get (codes "metric") (view value.now))) }
    ensures none { IfNone result ((metric : ℕ) →
        IsOr IsMetric 0 (get (codes "metric") (view value.now)) metric → ⊥) }
{
    match value.get("metric") {
        Some(member) => read_metric(member),
        None => Some(0),
    }
}

fn addresses_of(alloc: Global, value: &Value) -> Result<Option<Items<Cidr>>, Memory>
    ensures found { IfOk result (λ found.
        IfSome found (IsOr (IsArray IsPrefix) [] (get (codes "addresses") (view value.now)))) }
    ensures none { IfOk result (λ found. IfNone found ((addresses : List (Addr × ℕ)) →
        IsOr (IsArray IsPrefix) [] (get (codes "addresses") (view value.now)) addresses → ⊥)) }
{
    match value.get("addresses") {
        Some(member) => read_prefixes(alloc, member),
        None => Ok(Some(Items::new(alloc))),
    }
}

fn read_prefixes(alloc: Global, value: &Value) -> Result<Option<Items<Cidr>>, Memory>
    ensures found { IfOk result (λ found. IfSome found (IsArray IsPrefix (view value.now))) }
    ensures none { IfOk result (λ found. IfNone found ((prefixes : List (Addr × ℕ)) →
        IsArray IsPrefix (view value.now) prefixes → ⊥)) }
{
    let Some(values) = value.as_array() else {
        return Ok(None);
    };
    let mut prefixes = Items::new(alloc);
    for item in values.as_slice() {
        let Some(prefix) = read_prefix(item) else {
            return Ok(None);
        };
        prefixes.push(prefix)?;
    }
    Ok(Some(prefixes))
}

fn routes_of(alloc: Global, value: &Value) -> Result<Option<Items<AnswerRoute>>, Memory>
    ensures found { IfOk result (λ found.
        IfSome found (IsOr (IsArray IsRoute) [] (get (codes "routes") (view value.now)))) }
    ensures none { IfOk result (λ found. IfNone found ((routes : List AnswerRoute) →
        IsOr (IsArray IsRoute) [] (get (codes "routes") (view value.now)) routes → ⊥)) }
{
    match value.get("routes") {
        Some(member) => read_routes(alloc, member),
        None => Ok(Some(Items::new(alloc))),
    }
}

fn read_routes(alloc: Global, value: &Value) -> Result<Option<Items<AnswerRoute>>, Memory>
    ensures found { IfOk result (λ found. IfSome found (IsArray IsRoute (view value.now))) }
    ensures none { IfOk result (λ found. IfNone found ((routes : List AnswerRoute) →
        IsArray IsRoute (view value.now) routes → ⊥)) }
{
    let Some(values) = value.as_array() else {
        return Ok(None);
    };
    let mut routes = Items::new(alloc);
    for item in values.as_slice() {
        let Some(route) = read_route(item) else {
            return Ok(None);
        };
        routes.push(route)?;
    }
    Ok(Some(routes))
}
