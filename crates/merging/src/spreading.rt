//! Advances nodes from before an event: ticks and loose events are inserted, and then the event itself runs.

ghost use Rattle.std.specs.Prelude.{◌≡◌, ◌+◌, ◌<◌, ◌≤◌, ℕ, List, ◌∷◌, length, map, true, false, [], IfErr, IfOk, OnOk, Some, slice_get};
ghost use Rattle.counting.specs.Tallies.{both};
ghost use Rattle.merging.specs.Merging.{AllStand, AreNodes, AreReady, Bound, CanPut, HasLed, HasPut, IsStop, NonePassed, Point, Property, StandsAt, event_put, from_spots, list_of, loose_tally, most_of, nodes_tally, point, put_tally, seen, tick_tally, without_spots};

use crate::begun::Begun;
use crate::layer::Layer;
use crate::node::Node;
use crate::search::{Search, Stop};
use counting::Line;
use posix::Event;
use schedules::{event_of, spot};
use std::alloc::AllocError;

/// Returns the index of the node that an insertion leads to from the node with this index. Adds that node if it is not
/// found. Runs a machine only if it is not known where the insertion leads.
fn lead(
    here: &mut Layer,
    index: usize,
    begun: &Begun,
    which: usize,
    event: Event,
    search: &Search<'_, '_, '_>,
    lines: &mut Vec<Line>,
) -> Result<usize, AllocError>
    requires node { (place : ℕ) × CanPut search.now place here.old.nodes.items index begun.now which }
    requires event { (p : Point) → slice_get (map point here.old.nodes.items) index ≡ Some p → event ≡ event_put search.now which p }
    ensures { IfOk result (λ to. HasLed search.now index begun.now which to here.old.nodes.items here.new.nodes.items) }
{
    if let Some(to) = here.nodes[index].edge(which) {
        return Ok(to);
    }
    let node = here.nodes[index].after(begun, which, event, search, lines)?;
    let to = here.locate(node)?;
    here.nodes[index].set_edge(which, to)?;
    Ok(to)
}

/// Adds what beginnings become by an insertion before the event with this place: to the node that the node with this
/// index leads to.
fn put(
    here: &mut Layer,
    index: usize,
    begun: &Begun,
    which: usize,
    place: u64,
    search: &Search<'_, '_, '_>,
    lines: &mut Vec<Line>,
) -> Result<(), AllocError>
    requires { CanPut search.now place here.old.nodes.items index begun.now which }
    ensures { OnOk result (HasPut search.now place index begun.now (λ has p. put_tally has search.now place p begun.now which) here.old.nodes.items here.new.nodes.items) }
{
    let loose = search.family.loose;
    let kind = here.nodes[index].kind(which);
    let event = event_of(loose, usize::from(kind));
    let with = begun.with(search.alloc, spot(loose.len(), place, kind), event)?;
    let to = lead(here, index, begun, which, event, search, lines)?;
    here.nodes[to].begun.add(with)?;
    Ok(())
}

/// Adds what beginnings become by a tick, if one more is allowed.
fn put_tick(
    here: &mut Layer,
    index: usize,
    begun: &Begun,
    place: u64,
    search: &Search<'_, '_, '_>,
    lines: &mut Vec<Line>,
) -> Result<(), AllocError>
    requires { AreReady search.now place here.old.nodes.items index begun.now }
    ensures { OnOk result (HasPut search.now place index begun.now (λ has p. tick_tally has search.now place p begun.now) here.old.nodes.items here.new.nodes.items) }
{
    let family = search.family;
    if begun.spots.len() + here.nodes[index].left.len() >= family.ticks + family.loose.len() {
        return Ok(());
    }
    put(here, index, begun, 0, place, search, lines)?;
    Ok(())
}

/// Adds what beginnings become by each of the loose events that are left.
fn put_loose(
    here: &mut Layer,
    index: usize,
    begun: &Begun,
    place: u64,
    search: &Search<'_, '_, '_>,
    lines: &mut Vec<Line>,
) -> Result<(), AllocError>
    requires { AreReady search.now place here.old.nodes.items index begun.now }
    ensures { OnOk result (HasPut search.now place index begun.now (λ has p. loose_tally has search.now place p begun.now) here.old.nodes.items here.new.nodes.items) }
{
    for number in 0..here.nodes[index].left.len() {
        put(here, index, begun, number + 1, place, search, lines)?;
    }
    Ok(())
}

/// Adds what beginnings become by a tick, if one more is allowed, and by each of the loose events that are left.
fn put_all(
    here: &mut Layer,
    index: usize,
    begun: &Begun,
    place: u64,
    search: &Search<'_, '_, '_>,
    lines: &mut Vec<Line>,
) -> Result<(), AllocError>
    requires { AreReady search.now place here.old.nodes.items index begun.now }
    ensures { OnOk result (HasPut search.now place index begun.now (λ has p. both (tick_tally has search.now place p begun.now) (loose_tally has search.now place p begun.now)) here.old.nodes.items here.new.nodes.items) }
{
    put_tick(here, index, begun, place, search, lines)?;
    put_loose(here, index, begun, place, search, lines)?;
    Ok(())
}

/// Takes the beginnings with this many spots from a node, and adds what they become by one more insertion before the
/// event with this place. The beginnings themselves have passed then.
fn advance(
    here: &mut Layer,
    index: usize,
    spots: usize,
    place: u64,
    search: &Search<'_, '_, '_>,
    lines: &mut Vec<Line>,
) -> Result<(), AllocError>
    requires place { place < search.now.family.now.upto }
    requires index { index < length here.old.nodes.items }
    requires nodes { (bounds : ℕ → Bound) × AllStand search.now place bounds (map point here.old.nodes.items) here.old.nodes.items × ((bounds index).fewest ≡ spots) × ((j : ℕ) → (bounds j).fewest ≤ spots + 1) }
    ensures stand { (bounds : ℕ → Bound) → AllStand search.now place bounds (map point here.old.nodes.items) here.old.nodes.items → (bounds index).fewest ≡ spots → ((j : ℕ) → (bounds j).fewest ≤ spots + 1)
        → OnOk result (AllStand search.now place (without_spots spots index bounds) (map point here.new.nodes.items) here.new.nodes.items) }
    ensures tally { (has : Property) → OnOk result (nodes_tally has search.now place here.new.nodes.items ≡ nodes_tally has search.now place here.old.nodes.items) }
    ensures grow { OnOk result (length here.old.nodes.items ≤ length here.new.nodes.items) }
{
    let Some(begun) = here.nodes[index].begun.take(spots) else {
        return Ok(());
    };
    put_all(here, index, &begun, place, search, lines)?;
    here.nodes[index].passed.add(begun)?;
    Ok(())
}

/// Advances all beginnings with this many spots. What they become has one spot more. Fails if there are more nodes than
/// the search may keep.
fn advance_all(
    here: &mut Layer,
    spots: usize,
    place: u64,
    search: &Search<'_, '_, '_>,
    lines: &mut Vec<Line>,
) -> Result<(), Stop>
    requires place { place < search.now.family.now.upto }
    requires spots { spots ≤ most_of search.now }
    requires nodes { AreNodes search.now place spots here.old.nodes.items }
    ensures nodes { OnOk result (AreNodes search.now place (spots + 1) here.new.nodes.items) }
    ensures tally { (has : Property) → OnOk result (nodes_tally has search.now place here.new.nodes.items ≡ nodes_tally has search.now place here.old.nodes.items) }
    ensures stop { IfErr result (IsStop search.now (λ has. nodes_tally has search.now place here.old.nodes.items)) }
{
    let most = search.family.states;
    for index in 0..here.nodes.len() {
        if here.nodes.len() > most {
            return Err(Stop::States(most, place));
        }
        advance(here, index, spots, place, search, lines)?;
    }
    Ok(())
}

/// Makes all insertions before the event with this place: from the beginnings with the fewest spots on, so that all
/// that lead to one node with equally many spots are there before they advance.
fn insert_all(
    here: &mut Layer,
    place: u64,
    search: &Search<'_, '_, '_>,
    lines: &mut Vec<Line>,
) -> Result<(), Stop>
    requires place { place < search.now.family.now.upto }
    requires nodes { AreNodes search.now place 0 here.old.nodes.items }
    ensures nodes { OnOk result (AreNodes search.now place (most_of search.now + 1) here.new.nodes.items) }
    ensures tally { (has : Property) → OnOk result (nodes_tally has search.now place here.new.nodes.items ≡ nodes_tally has search.now place here.old.nodes.items) }
    ensures stop { IfErr result (IsStop search.now (λ has. nodes_tally has search.now place here.old.nodes.items)) }
{
    for spots in 0..search.family.ticks + search.family.loose.len() + 1 {
        advance_all(here, spots, place, search, lines)?;
    }
    Ok(())
}

/// Returns true if a node has a loose event left, and the event with this place is the last that it can be inserted
/// before.
fn is_late(node: &Node, place: u64, search: &Search<'_, '_, '_>) -> bool
    requires { place < search.now.family.now.upto }
    ensures late { result ≡ true → (place + 1 ≡ search.now.family.now.upto) × (0 < length node.now.left.items) }
    ensures in_time { result ≡ false → place + 1 ≡ search.now.family.now.upto → node.now.left.items ≡ [] }
{
    place + 1 == search.family.upto && !node.left.is_empty()
}

/// Runs the event with this place from a node, all of whose beginnings have passed, and adds it to a layer. Drops the
/// node instead if it has a loose event left and this is the last event that can have insertions.
fn give_to(
    next: &mut Layer,
    node: Node,
    place: u64,
    event: Event,
    search: &Search<'_, '_, '_>,
    lines: &mut Vec<Line>,
) -> Result<(), AllocError>
    requires place { place < search.now.family.now.upto }
    requires event { slice_get (list_of search.now) place ≡ Some event }
    requires node { (points : List Point) × StandsAt search.now place (from_spots (most_of search.now + 1) 0) points (seen node) }
    requires next { AreNodes search.now (place + 1) 0 next.old.nodes.items }
    ensures passed { NonePassed next.old.nodes.items → OnOk result (NonePassed next.new.nodes.items) }
    ensures nodes { OnOk result (AreNodes search.now (place + 1) 0 next.new.nodes.items) }
    ensures tally { (has : Property) → OnOk result (nodes_tally has search.now (place + 1) next.new.nodes.items ≡ both (nodes_tally has search.now (place + 1) next.old.nodes.items) (nodes_tally has search.now place (node ∷ []))) }
{
    let mut node = node;
    if is_late(&node, place, search) {
        drop(node);
        return Ok(());
    }
    if let Err(e) = node.give(event, search.texts, lines) {
        drop(node);
        return Err(e);
    }
    let mut begun = node.take_passed(search.alloc);
    match begun.give(event) {
        Ok(()) => {
            next.insert(node, begun)?;
            Ok(())
        }
        Err(e) => {
            drop(node);
            Err(e)
        }
    }
}

/// Runs the event with this place from all nodes, and removes them, the last one first. Fails if the next layer has
/// more nodes than the search may keep.
fn give_all(
    nodes: &mut Vec<Node>,
    next: &mut Layer,
    place: u64,
    event: Event,
    search: &Search<'_, '_, '_>,
    lines: &mut Vec<Line>,
) -> Result<(), Stop>
    requires place { place < search.now.family.now.upto }
    requires event { slice_get (list_of search.now) place ≡ Some event }
    requires nodes { (points : List Point) × AllStand search.now place (from_spots (most_of search.now + 1)) points nodes.old.items }
    requires next { next.old.nodes.items ≡ [] }
    ensures passed { OnOk result (NonePassed next.new.nodes.items) }
    ensures nodes { OnOk result (AreNodes search.now (place + 1) 0 next.new.nodes.items) }
    ensures tally { (has : Property) → OnOk result (nodes_tally has search.now (place + 1) next.new.nodes.items ≡ nodes_tally has search.now place nodes.old.items) }
    ensures stop { IfErr result (IsStop search.now (λ has. nodes_tally has search.now place nodes.old.items)) }
{
    let most = search.family.states;
    while let Some(node) = nodes.pop() {
        give_to(next, node, place, event, search, lines)?;
        if next.nodes.len() > most {
            return Err(Stop::States(most, place + 1));
        }
    }
    Ok(())
}

/// Returns the nodes after the event with this place, from those before it, with all insertions before it.
pub fn layer_after(
    layer: Layer,
    place: u64,
    event: Event,
    search: &Search<'_, '_, '_>,
    lines: &mut Vec<Line>,
) -> Result<Layer, Stop>
    requires place { place < search.now.family.now.upto }
    requires event { slice_get (list_of search.now) place ≡ Some event }
    requires nodes { AreNodes search.now place 0 layer.nodes.items }
    ensures nodes { IfOk result (λ next. AreNodes search.now (place + 1) 0 next.nodes.items) }
    ensures passed { IfOk result (λ next. NonePassed next.nodes.items) }
    ensures tally { (has : Property) → IfOk result (λ next. nodes_tally has search.now (place + 1) next.nodes.items ≡ nodes_tally has search.now place layer.nodes.items) }
    ensures stop { IfErr result (IsStop search.now (λ has. nodes_tally has search.now place layer.nodes.items)) }
{
    let mut here = layer;
    insert_all(&mut here, place, search, lines)?;
    let mut next = Layer::new(search.alloc);
    give_all(&mut here.nodes, &mut next, place, event, search, lines)?;
    Ok(next)
}
