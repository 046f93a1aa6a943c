//! Merges schedules that reach the same state: they continue as one.

ghost use Rattle.std.specs.Prelude.{◌≡◌, ◌+◌, ◌≤◌, length, map, IfErr, IfOk, OnOk, Some};
ghost use Rattle.schedules.specs.Families.{family as family_of};
ghost use Rattle.text.specs.EventTexts.{most_events};
ghost use Rattle.counting.specs.Books.{with_many_runs};
ghost use Rattle.counting.specs.Counts.{book_over};
ghost use Rattle.merging.specs.Merging.{AreNodes, IsStop, IsStopOf, NonePassed, Property, counted_all, counted_slots, from_start, list_of, nodes_tally, point, texts_of, with_slots};

use crate::begun::{Beginnings, Begun};
use crate::layer::Layer;
use crate::node::Node;
use crate::search::{Search, Stop};
use crate::spreading::layer_after;
use counting::{Book, Ending, Family, Line, Progress, event_at, events_from, mark, run_all};
use std::alloc::{AllocError, Global};
use std::mem::replace;
use text::EventList;

/// Counts the schedules of beginnings that insert nothing more, end in this way, and show the marked texts.
fn count_begun(
    alloc: Global,
    begun: &Begun,
    ending: Ending,
    marks: &[bool],
    book: &mut Book<'_>,
) -> Result<(), AllocError>
    ensures { OnOk result (book.new ≡ with_many_runs ending marks.now (record { count = begun.now.count; first = Some begun.now.spots }) book.old) }
{
    let spots = begun.spots.to_vec(alloc)?;
    book.add_many(ending, marks, spots.as_slice(), &begun.count)
}

/// Counts the schedules of all these beginnings, the last first.
fn count_slots(
    alloc: Global,
    begun: Beginnings,
    ending: Ending,
    marks: &[bool],
    book: &mut Book<'_>,
) -> Result<(), AllocError>
    ensures { OnOk result (book.new ≡ with_slots ending marks.now begun book.old) }
{
    let mut begun = begun;
    while let Some(slot) = begun.pop() {
        if let Some(one) = slot {
            count_begun(alloc, &one, ending, marks, book)?;
        }
    }
    Ok(())
}

/// Runs the remaining events from a node, and counts its schedules, which insert nothing more.
fn count_node(
    alloc: Global,
    node: Node,
    events: &EventList,
    texts: &[&str],
    book: &mut Book<'_>,
    lines: &mut Vec<Line>,
) -> Result<(), AllocError>
    requires few { node.kernel.events + length events.now ≤ most_events }
    ensures { OnOk result (book.new ≡ counted_slots (map (λ t. t.now) texts.now) events.now (point node) node.begun book.old) }
{
    let mut node = node;
    lines.clear();
    match run_all(&mut node.kernel, events, lines) {
        Ok(ending) => {
            mark(texts, lines.as_slice(), node.marks.as_mut_slice());
            let begun = replace(&mut node.begun, Beginnings::new(alloc));
            count_slots(alloc, begun, ending, node.marks.as_slice(), book)
        }
        Err(e) => {
            drop(node);
            Err(e)
        }
    }
}

/// Counts the schedules of all nodes, which insert nothing more, by how the remaining events end. Removes the nodes.
fn count_all(
    nodes: &mut Vec<Node>,
    events: &EventList,
    search: &Search<'_, '_, '_>,
    book: &mut Book<'_>,
    lines: &mut Vec<Line>,
) -> Result<(), AllocError>
    requires nodes { AreNodes search.now search.now.family.now.upto 0 nodes.old.items }
    requires few { search.now.family.now.upto + length events.now ≤ length (list_of search.now) }
    ensures { OnOk result (book.new ≡ counted_all (texts_of search.now) events.now nodes.old.items book.old) }
{
    while let Some(node) = nodes.pop() {
        count_node(search.alloc, node, events, search.texts, book, lines)?;
    }
    Ok(())
}

/// Returns the nodes after the first `upto` events of the list, each with the beginnings that lead to it.
fn reach<P: Progress>(
    first: Layer,
    search: &Search<'_, '_, '_>,
    lines: &mut Vec<Line>,
    progress: &mut P,
) -> Result<Layer, Stop>
    requires nodes { AreNodes search.now 0 0 first.nodes.items }
    requires passed { NonePassed first.nodes.items }
    ensures nodes { IfOk result (λ last. AreNodes search.now search.now.family.now.upto 0 last.nodes.items) }
    ensures passed { IfOk result (λ last. NonePassed last.nodes.items) }
    ensures tally { (has : Property) → IfOk result (λ last. nodes_tally has search.now search.now.family.now.upto last.nodes.items ≡ nodes_tally has search.now 0 first.nodes.items) }
    ensures stop { IfErr result (IsStop search.now (λ has. nodes_tally has search.now 0 first.nodes.items)) }
{
    let upto = search.family.upto;
    let mut layer = first;
    for place in 0..upto {
        let Some(event) = event_at(search.family.events, place) else {
            unreachable!()
        };
        layer = layer_after(layer, place, event, search, lines)?;
        progress.reach(place + 1, upto, layer.nodes.len() as u64);
    }
    Ok(layer)
}

/// Returns the node at the start of a world, from which all schedules continue.
fn start(search: &Search<'_, '_, '_>) -> Result<Layer, AllocError>
    ensures nodes { IfOk result (λ layer. AreNodes search.now 0 0 layer.nodes.items) }
    ensures passed { IfOk result (λ layer. NonePassed layer.nodes.items) }
    ensures tally { (has : Property) → IfOk result (λ layer. nodes_tally has search.now 0 layer.nodes.items ≡ from_start has search.now) }
{
    let alloc = search.alloc;
    let family = search.family;
    let mut begun = Beginnings::new(alloc);
    begun.add(Begun::first(alloc)?)?;
    let node = Node::first(alloc, family.world, family.loose.len(), search.texts)?;
    let mut layer = Layer::new(alloc);
    layer.insert(node, begun)?;
    Ok(layer)
}

/// Counts all schedules of a family, by how they end and by the texts that their lines have. Schedules that reach the
/// same state continue as one, whenever they reach it. Fails if memory runs out, or if there are more than
/// `family.states` states before one event.
pub fn merge<'a, P: Progress>(
    alloc: Global,
    family: &Family<'_>,
    texts: &[&'a str],
    progress: &mut P,
) -> Result<Book<'a>, Stop>
    ensures book { IfOk result (λ book. book ≡ book_over family.now.world.now family.now.loose.now family.now.events.now (map (λ t. t.now) texts.now) (family_of family.now.upto family.now.ticks (length family.now.loose.now))) }
    ensures stop { IfErr result (IsStopOf (record { alloc = alloc; family = family.entry; texts = texts.entry })) }
{
    let search = Search {
        alloc,
        family,
        texts,
    };
    let mut lines = Vec::new(alloc);
    let first = start(&search)?;
    let mut last = reach(first, &search, &mut lines, progress)?;
    let rest = events_from(alloc, family.events, family.upto)?;
    let mut book = Book::new(alloc, texts)?;
    book.tell_states(last.nodes.len() as u64);
    count_all(&mut last.nodes, &rest, &search, &mut book, &mut lines)?;
    Ok(book)
}
