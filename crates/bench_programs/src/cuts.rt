//! Least cuts of nets: of random ones, which bench/cut.cc makes too, and of those that words spell.

ghost use Rattle.std.specs.Prelude.{◌≡◌, ◌+◌, ◌<◌, ◌≤◌, ◌^◌, length, IfOk, OnOk};
ghost use Rattle.cut_place.specs.Flows.{HasEnds, HasSmallCapacities};

use anyhow::{Context, Result, bail};
use cut_place::{Arc, Arcs, Net, least_cut};
use std::alloc::{AllocError, Global};
use std::rt::HostRuntime;
use target_base::List;

/// The most nodes of a net.
const MOST_NODES: u64 = 4096;

/// The most arcs of a net.
const MOST_ARCS: u64 = 16_384;

/// What capacities of a random net are multiples of: 2^80.
const CAPACITY_UNIT: u128 = 1_208_925_819_614_629_174_706_176;

/// The most capacity of an arc: 2^112.
const MOST_CAPACITY: u128 = 5_192_296_858_534_827_628_530_496_329_220_096;

/// The next state of the generator.
fn next_state(state: u64) -> u64 {
    state
        .wrapping_mul(6_364_136_223_846_793_005)
        .wrapping_add(1_442_695_040_888_963_407)
}

/// Draws a number of 31 bits.
pub fn draw(state: &mut u64) -> u32 {
    *state = next_state(*state);
    (*state >> 33) as u32
}

/// Draws an arc between nodes. A sixteenth of the arcs leave the source, and another enters the sink.
fn draw_arc(state: &mut u64, nodes: u32, number: u32) -> Arc
    requires { 2 ≤ nodes }
{
    let from = draw(state) % nodes;
    let to = draw(state) % nodes;
    let cap = draw(state) as u128 * CAPACITY_UNIT;
    match number % 16 {
        0 => Arc { from: 0, to, cap },
        1 => Arc { from, to: 1, cap },
        _ => Arc { from, to, cap },
    }
}

/// Adds an arc, if it is one between different nodes, of a capacity that isn't too large.
#[tactic(auto, using(crate::proofs::Arcs::ends_more, crate::proofs::Arcs::small_more))]
fn add_arc(arcs: &mut Arcs, arc: Arc, nodes: u32) -> Result<(), AllocError>
    requires ends { HasEnds nodes arcs.old }
    requires small { HasSmallCapacities arcs.old }
    ensures ends { OnOk result (HasEnds nodes arcs.new) }
    ensures small { OnOk result (HasSmallCapacities arcs.new) }
    ensures more { OnOk result (length arcs.new ≤ length arcs.old + 1) }
{
    if arc.from == arc.to || arc.from >= nodes || arc.to >= nodes || arc.cap > MOST_CAPACITY {
        return Ok(());
    }
    arcs.push(arc)
}

/// A net by a linear congruential generator, with at most so many arcs.
fn random_net(alloc: Global, nodes: u32, arcs: u32, seed: u64) -> Result<Net, AllocError>
    requires { 2 ≤ nodes }
    ensures nodes { IfOk result (λ net. net.nodes ≡ nodes) }
    ensures few { IfOk result (λ net. length net.arcs ≤ arcs) }
    ensures ends { IfOk result (λ net. HasEnds nodes net.arcs) }
    ensures small { IfOk result (λ net. HasSmallCapacities net.arcs) }
{
    let mut state = seed;
    let mut list = List::new(alloc);
    for number in 0..arcs {
        let arc = draw_arc(&mut state, nodes, number);
        add_arc(&mut list, arc, nodes)?;
    }
    Ok(Net { nodes, arcs: list })
}

/// The arc that a word spells.
fn arc_of(word: &str) -> Result<Arc> {
    let Some((from, rest)) = word.split_once('-') else {
        bail!("an arc is FROM-TO:CAPACITY");
    };
    let Some((to, cap)) = rest.split_once(':') else {
        bail!("an arc is FROM-TO:CAPACITY");
    };
    Ok(Arc {
        from: from.parse::<u32>().context("reading a node")?,
        to: to.parse::<u32>().context("reading a node")?,
        cap: cap.parse::<u128>().context("reading a capacity")?,
    })
}

/// The net of the arcs that words spell.
fn net_of(alloc: Global, nodes: u32, words: &[String]) -> Result<Net>
    ensures nodes { IfOk result (λ net. net.nodes ≡ nodes) }
    ensures few { IfOk result (λ net. length net.arcs ≤ length words.now) }
    ensures ends { IfOk result (λ net. HasEnds nodes net.arcs) }
    ensures small { IfOk result (λ net. HasSmallCapacities net.arcs) }
{
    let mut list = List::new(alloc);
    for word in words {
        let arc = arc_of(word.as_str())?;
        add_arc(&mut list, arc, nodes)?;
    }
    Ok(Net { nodes, arcs: list })
}

/// What a least cut of a random net costs, found so many times.
fn cost_of_cut(
    alloc: Global,
    nodes: u32,
    arcs: u32,
    seed: u64,
    rounds: u64,
) -> Result<u128, AllocError>
    requires nodes { 2 ≤ nodes }
    requires most { nodes ≤ 4096 }
    requires few { arcs ≤ 16384 }
{
    let net = random_net(alloc, nodes, arcs, seed)?;
    let mut cost = 0;
    for _ in 0..rounds {
        let cut = least_cut(alloc, &net)?;
        cost = cut.cost;
    }
    Ok(cost)
}

/// Prints what a least cut of the random net of these numbers costs.
fn tell_cost(rt: &HostRuntime, nodes: u64, arcs: u64, seed: u64, rounds: u64) -> Result<()> {
    if nodes < 2 || nodes > MOST_NODES || arcs > MOST_ARCS {
        bail!("a net has 2 to 4,096 nodes and at most 16,384 arcs");
    }
    let cost = cost_of_cut(rt.alloc(), nodes as u32, arcs as u32, seed, rounds)?;
    println!(rt; "cost {cost}")?;
    Ok(())
}

/// The number that a word spells.
fn number_of(word: &str) -> Result<u64> {
    word.parse::<u64>().context("reading a number")
}

/// Answers `--cut`.
pub fn answer_cut(rt: &HostRuntime, words: &[String]) -> Result<()> {
    let [nodes, arcs, seed, rounds] = words else {
        bail!("a net is four numbers");
    };
    tell_cost(
        rt,
        number_of(nodes.as_str())?,
        number_of(arcs.as_str())?,
        number_of(seed.as_str())?,
        number_of(rounds.as_str())?,
    )
}

/// Prints what a cut costs, and the nodes on the side of the source.
fn tell_side(rt: &HostRuntime, cost: u128, inside: &[bool]) -> Result<()> {
    print!(rt; "cost {cost} inside")?;
    for (node, is_inside) in inside.iter().enumerate() {
        if *is_inside {
            print!(rt; " {node}")?;
        }
    }
    println!(rt; "")?;
    Ok(())
}

/// Prints a least cut of a net.
fn tell_least(rt: &HostRuntime, net: &Net) -> Result<()>
    requires nodes { 2 ≤ net.now.nodes }
    requires most { net.now.nodes ≤ 4096 }
    requires few { length net.now.arcs ≤ 16384 }
    requires ends { HasEnds net.now.nodes net.now.arcs }
    requires small { HasSmallCapacities net.now.arcs }
{
    let cut = least_cut(rt.alloc(), net)?;
    tell_side(rt, cut.cost, cut.inside.as_slice())
}

/// Prints a least cut of the net of the arcs that words spell.
fn tell_net(rt: &HostRuntime, nodes: u32, words: &[String]) -> Result<()>
    requires nodes { 2 ≤ nodes }
    requires most { nodes ≤ 4096 }
    requires few { length words.now ≤ 16384 }
{
    let net = net_of(rt.alloc(), nodes, words)?;
    print!(rt; "arcs {} ", net.arcs.len())?;
    tell_least(rt, &net)
}

/// Answers `--net`.
pub fn answer_net(rt: &HostRuntime, words: &[String]) -> Result<()> {
    let [nodes, words @ ..] = words else {
        bail!("a number of nodes is missing");
    };
    let nodes = number_of(nodes.as_str())?;
    if nodes < 2 || nodes > MOST_NODES || words.len() > MOST_ARCS as usize {
        bail!("a net has 2 to 4,096 nodes and at most 16,384 arcs");
    }
    tell_net(rt, nodes as u32, words)
}
