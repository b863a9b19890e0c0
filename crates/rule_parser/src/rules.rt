//! The rules of a file, with the lists of what they read and act on.
ghost use Rattle.std.specs.Prelude.{◌≡◌, slice_get, All, IfOk};
ghost use Rattle.object_index.specs.Holding.{HoldsObjects};
ghost use Rattle.rule_types.specs.WellFormed.{WellFormed, IsRoutingStep, IsCountable};
ghost use Rattle.network_lines.specs.Bounds.{IsLinkData};
ghost use Rattle.rule_parser.specs.internal.Fitting.{IsDone, AreCounted};
ghost use Rattle.network_lines.specs.internal.Views.{IsStart};
ghost use Rattle.rule_parser.specs.Controls.{with_last as with_last_rule};
ghost use Rattle.rule_parser.specs.Projects.{rules_of as all_rules, rules_with as all_with};
ghost use Rattle.rule_parser.specs.Projects.{is_pump as pumps, setting_in, rate_in};
ghost use Rattle.rule_parser.specs.Projects.{pumps_among as all_pumps, settings_among as settings};
ghost use Rattle.rule_parser.specs.Projects.{rates_among as all_rates, controlled_links};
ghost use Rattle.rule_parser.specs.Projects.{input_keys, tracked_links};
ghost use Rattle.rule_parser.specs.internal.RuleLists.{AreListed, links_of, lists_of};

use crate::draft::Draft;
use crate::noted::{Noted, links_acted};
use byte_edge::NoMemory;
use exact_fraction::frac::Frac;
use list_types::Items;
use network_lines::{LinkData, Network, OptionSet};
use object_index::ObjectIndex;
use rule_types::{Key, NameDef, ObjectKind, ObjectNo, Rule, Rules, Space};
use std::alloc::Global;
use std::collections::BTreeSet;

/// The rules of a file with these options, objects and control lines.
#[tactic(auto, unfolding(crate::specs::Projects::rules_of))]
pub(crate) fn rules_of(
    alloc: Global,
    options: &OptionSet,
    network: &Network,
    draft: Draft,
) -> Result<Rules, NoMemory>
    requires start { IsStart options.now }
    requires done { IsDone network.now.objects draft }
    requires step { IsRoutingStep options.now.routing_step }
    requires links { All IsLinkData network.now.links }
    ensures value { IfOk result (λ rules. rules ≡ all_rules options.now network.now draft) }
    ensures well_formed { IfOk result WellFormed }
    ensures objects { IfOk result (HoldsObjects network.now.objects) }
{
    let Draft {
        stage: _,
        names,
        closed,
        last,
        pids: _,
    } = draft;
    let rules = with_last(closed, last)?;
    match rules_with(alloc, options, network, names.into_items(), rules) {
        Ok(found) => Ok(found),
        Err(_) => Err(NoMemory),
    }
}

/// All rules.
fn with_last(closed: Items<Rule>, last: Option<Rule>) -> Result<Items<Rule>, NoMemory>
    ensures { IfOk result (λ rules. rules ≡ with_last_rule closed last) }
{
    let mut rules = closed;
    match last {
        Some(rule) => match rules.push(rule) {
            Ok(()) => Ok(rules),
            Err(_) => Err(NoMemory),
        },
        None => Ok(rules),
    }
}

/// The rules of a file with these options, objects, names and rules.
fn rules_with(
    alloc: Global,
    options: &OptionSet,
    network: &Network,
    names: Items<NameDef>,
    rules: Items<Rule>,
) -> Result<Rules, NoMemory>
    requires start { IsStart options.now }
    ensures value { IfOk result (λ found. found ≡ all_with options.now network.now names rules) }
    ensures counted { IfOk result AreCounted }
{
    let lists = lists_of(alloc, names.as_slice(), rules.as_slice())?;
    let links = links_of(alloc, network, &lists)?;
    Ok(Rules {
        rules,
        names,
        input_keys: lists.input_keys,
        tracked: lists.tracked,
        controlled: lists.controlled,
        pumps: links.pumps,
        initial: links.initial,
        rates: links.rates,
        start: options.start(),
        routing_step: options.routing_step,
        rule_step: options.rule_step,
    })
}

/// The links that rules act on, these and the links that they read, and the keys that they read
/// from the trace, each in order.
#[derive(Drop)]
pub(crate) struct RuleLists {
    pub(crate) controlled: Items<u32>,
    pub(crate) tracked: Items<u32>,
    pub(crate) input_keys: Items<Key>,
}

/// What rules act on and read.
fn lists_of(alloc: Global, names: &[NameDef], rules: &[Rule]) -> Result<RuleLists, NoMemory>
    ensures value { IfOk result (λ lists. lists ≡ lists_of names.now rules.now) }
    ensures counted { IfOk result AreListed }
{
    let controlled = controlled_of(alloc, rules)?;
    let noted = noted_of(alloc, names, rules)?;
    let tracked = listed_links(alloc, &noted.links)?;
    let input_keys = listed_keys(alloc, &noted.keys)?;
    Ok(RuleLists {
        controlled,
        tracked,
        input_keys,
    })
}

/// The links that rules act on, in order.
fn controlled_of(alloc: Global, rules: &[Rule]) -> Result<Items<u32>, NoMemory>
    ensures value { IfOk result (λ list. list ≡ controlled_links rules.now) }
    ensures few { IfOk result IsCountable }
{
    let acted = links_acted(alloc, rules)?;
    listed_links(alloc, &acted)
}

/// The keys that rules read, and the links that they act on or read.
#[tactic(auto, using(crate::proofs::Sums::tracked_are))]
fn noted_of(alloc: Global, names: &[NameDef], rules: &[Rule]) -> Result<Noted, NoMemory>
    ensures keys { IfOk result (λ noted. noted.keys.keys ≡ input_keys names.now rules.now) }
    ensures links { IfOk result (λ noted. noted.links.keys ≡ tracked_links names.now rules.now) }
{
    let mut noted = Noted {
        keys: BTreeSet::new(alloc),
        links: links_acted(alloc, rules)?,
    };
    noted.rules(alloc, names, rules)?;
    Ok(noted)
}

/// Of each controlled link whether it is a pump, and the initial setting and the rate of each
/// tracked link.
#[derive(Drop)]
pub(crate) struct LinkLists {
    pub(crate) pumps: Items<bool>,
    pub(crate) initial: Items<Frac>,
    pub(crate) rates: Items<Frac>,
}

/// What the network says of the links of rules.
fn links_of(alloc: Global, network: &Network, lists: &RuleLists) -> Result<LinkLists, NoMemory>
    ensures value { IfOk result (λ links. links ≡ links_of network.now lists.now) }
{
    let tracked = lists.tracked.as_slice();
    let pumps = pumps_among(alloc, &network.objects, lists.controlled.as_slice())?;
    let initial = settings_among(alloc, network.links.as_slice(), tracked)?;
    let rates = rates_among(alloc, network.links.as_slice(), tracked)?;
    Ok(LinkLists {
        pumps,
        initial,
        rates,
    })
}

/// The links of a set, in their order.
fn listed_links(alloc: Global, found: &BTreeSet<u32>) -> Result<Items<u32>, NoMemory>
    ensures value { IfOk result (λ list. list ≡ found.now.keys) }
    ensures few { IfOk result IsCountable }
{
    const MOST: u64 = 1 << 32;
    if found.len() as u64 >= MOST {
        return Err(NoMemory);
    }
    let mut list = Items::new(alloc);
    for link in found.iter() {
        let Ok(()) = list.push(*link) else {
            return Err(NoMemory);
        };
    }
    Ok(list)
}

/// The keys of a set, in their order.
fn listed_keys(alloc: Global, found: &BTreeSet<Key>) -> Result<Items<Key>, NoMemory>
    ensures value { IfOk result (λ list. list ≡ found.now.keys) }
    ensures few { IfOk result IsCountable }
{
    const MOST: u64 = 1 << 32;
    if found.len() as u64 >= MOST {
        return Err(NoMemory);
    }
    let mut list = Items::new(alloc);
    for key in found.iter() {
        let Ok(()) = list.push(*key) else {
            return Err(NoMemory);
        };
    }
    Ok(list)
}

/// Whether each of some links is a pump.
fn pumps_among(alloc: Global, objects: &ObjectIndex, links: &[u32]) -> Result<Items<bool>, NoMemory>
    ensures { IfOk result (λ list. list ≡ all_pumps objects.now links.now) }
{
    let mut list = Items::new(alloc);
    for link in links {
        let Ok(()) = list.push(is_pump(objects, *link)) else {
            return Err(NoMemory);
        };
    }
    Ok(list)
}

/// Whether a link is a pump.
fn is_pump(objects: &ObjectIndex, link: u32) -> bool
    ensures { result ≡ pumps (slice_get objects.now.links link) }
{
    let object = ObjectNo {
        space: Space::Links,
        index: link,
    };
    match objects.kind(object) {
        Some(ObjectKind::Pump) => true,
        _ => false,
    }
}

/// The initial setting of each of some links.
fn settings_among(alloc: Global, found: &[LinkData], links: &[u32]) -> Result<Items<Frac>, NoMemory>
    ensures { IfOk result (λ list. list ≡ settings found.now links.now) }
{
    let mut list = Items::new(alloc);
    for link in links {
        let Ok(()) = list.push(setting_of(found, *link)) else {
            return Err(NoMemory);
        };
    }
    Ok(list)
}

/// The initial setting of a link.
fn setting_of(found: &[LinkData], link: u32) -> Frac
    ensures { result ≡ setting_in (slice_get found.now link) }
{
    match found.get(link as usize) {
        Some(link) => link.setting,
        None => Frac::one(),
    }
}

/// The rate of each of some links.
fn rates_among(alloc: Global, found: &[LinkData], links: &[u32]) -> Result<Items<Frac>, NoMemory>
    ensures { IfOk result (λ list. list ≡ all_rates found.now links.now) }
{
    let mut list = Items::new(alloc);
    for link in links {
        let Ok(()) = list.push(rate_of(found, *link)) else {
            return Err(NoMemory);
        };
    }
    Ok(list)
}

/// The rate of a link.
fn rate_of(found: &[LinkData], link: u32) -> Frac
    ensures { result ≡ rate_in (slice_get found.now link) }
{
    match found.get(link as usize) {
        Some(link) => link.rate,
        None => Frac::zero(),
    }
}
