// The order in which families are claimed.

use crate::family::FamilyName;
use crate::order::Nesting;
use indexmap::IndexMap;
use mlk_text::push_sparing;
use std::alloc::{AllocError, Global};

/// The maximum number of passes over an order in which neighbors are exchanged.
const MOST_SWEEPS: usize = 16;

// A nesting, by the indexes of its families, with its weight against another order.
#[derive(Clone, Copy, Drop)]
struct Edge {
    held: usize,
    claimed: usize,
    weight: usize,
}

// A family while an order is being chosen.
#[derive(Clone, Copy, Drop)]
struct Node {
    // whether it is not in the order yet
    is_left: bool,
    // the weight of the claims of remaining families while it is held
    out: usize,
    // the weight of its claims while remaining families are held
    into: usize,
}

// The families while an order is being chosen.
#[derive(Drop)]
struct Left {
    nodes: Vec<Node>,
    // the edges at each family
    edges: Vec<Vec<Edge>>,
}

// The edges between families.
fn edges_of(
    alloc: Global,
    names: &[FamilyName],
    nestings: &[Nesting],
) -> Result<Vec<Edge>, AllocError> {
    let mut places = IndexMap::new(alloc);
    for (place, name) in names.iter().enumerate() {
        let Ok(_) = places.insert(*name, place) else {
            return Err(AllocError);
        };
    }
    let mut edges = Vec::new(alloc);
    for nesting in nestings {
        if let (Some(held), Some(claimed)) = (
            places.get(&nesting.held),
            places.get(&nesting.claimed),
        ) {
            let edge = Edge {
                held: *held,
                claimed: *claimed,
                weight: nesting.places.saturating_add(nesting.untimed),
            };
            push_sparing(&mut edges, edge)?;
        }
    }
    Ok(edges)
}

impl Left {
    // `count` families with `edges`, none of which is in the order yet.
    fn of(alloc: Global, count: usize, edges: &[Edge]) -> Result<Left, AllocError> {
        let mut left = Left {
            nodes: Vec::with_capacity(alloc, count)?,
            edges: Vec::with_capacity(alloc, count)?,
        };
        for _ in 0..count {
            let node = Node {
                is_left: true,
                out: 0,
                into: 0,
            };
            push_sparing(&mut left.nodes, node)?;
            push_sparing(&mut left.edges, Vec::new(alloc))?;
        }
        for edge in edges {
            left.add(edge.held, *edge)?;
            left.add(edge.claimed, *edge)?;
        }
        Ok(left)
    }

    // Adds an edge to one of its families.
    fn add(&mut self, place: usize, edge: Edge) -> Result<(), AllocError> {
        if let Some(node) = self.nodes.get_mut(place) {
            if edge.held == place {
                node.out = node.out.saturating_add(edge.weight);
            } else {
                node.into = node.into.saturating_add(edge.weight);
            }
        }
        match self.edges.get_mut(place) {
            Some(edges) => push_sparing(edges, edge),
            None => Ok(()),
        }
    }

    // Removes the weight of an edge of a family from the other family.
    fn cut(&mut self, place: usize, edge: Edge) {
        let other = if edge.held == place {
            edge.claimed
        } else {
            edge.held
        };
        if let Some(node) = self.nodes.get_mut(other) {
            if edge.held == place {
                node.into = node.into.saturating_sub(edge.weight);
            } else {
                node.out = node.out.saturating_sub(edge.weight);
            }
        }
    }

    // Removes a family from the remaining ones.
    fn remove(&mut self, alloc: Global, place: usize) -> Result<(), AllocError> {
        if let Some(node) = self.nodes.get_mut(place) {
            node.is_left = false;
        }
        let edges = match self.edges.get(place) {
            Some(edges) => Vec::from_slice(alloc, edges.as_slice())?,
            None => Vec::new(alloc),
        };
        for edge in edges {
            self.cut(place, edge);
        }
        Ok(())
    }

    // The last remaining family during which no other remaining family is claimed.
    fn sink(&self) -> Option<usize> {
        self.nodes
            .iter()
            .rposition(|node| node.is_left && node.out == 0)
    }

    // The remaining family that, by the weights, is most clearly claimed first.
    fn source(&self) -> Option<usize> {
        let mut best: Option<(usize, usize, usize)> = None;
        for (place, node) in self.nodes.iter().enumerate() {
            if node.is_left {
                let is_better = match best {
                    None => true,
                    Some((_, out, into)) => {
                        node.out.saturating_add(into) > out.saturating_add(node.into)
                    }
                };
                if is_better {
                    best = Some((place, node.out, node.into));
                }
            }
        }
        best.map(|(place, _, _)| place)
    }
}

// An order of the families that has little weight against it: the family that is claimed first comes first.
fn choose_order(alloc: Global, count: usize, edges: &[Edge]) -> Result<Vec<usize>, AllocError> {
    let mut left = Left::of(alloc, count, edges)?;
    let mut front = Vec::new(alloc);
    let mut back = Vec::new(alloc);
    for _ in 0..count {
        if let Some(place) = left.sink() {
            left.remove(alloc, place)?;
            push_sparing(&mut back, place)?;
        } else if let Some(place) = left.source() {
            left.remove(alloc, place)?;
            push_sparing(&mut front, place)?;
        }
    }
    back.reverse();
    for place in back {
        push_sparing(&mut front, place)?;
    }
    Ok(front)
}

// The weights of the edges, by the families that are held and claimed.
#[derive(Drop)]
struct Weights {
    weights: IndexMap<(usize, usize), usize>,
}

impl Weights {
    fn of(alloc: Global, edges: &[Edge]) -> Result<Weights, AllocError> {
        let mut weights = IndexMap::new(alloc);
        for edge in edges {
            let Ok(_) = weights.insert((edge.held, edge.claimed), edge.weight) else {
                return Err(AllocError);
            };
        }
        Ok(Weights { weights })
    }

    fn weight(&self, held: usize, claimed: usize) -> usize {
        self.weights.get(&(held, claimed)).copied().unwrap_or(0)
    }
}

// Exchanges the family at an index and the one before it if the weights favor it. Returns whether it does.
fn exchange(weights: &Weights, order: &mut [usize], place: usize) -> bool {
    if place == 0 || place >= order.len() {
        return false;
    }
    let first = order[place - 1];
    let second = order[place];
    if weights.weight(second, first) <= weights.weight(first, second) {
        return false;
    }
    order.swap(place - 1, place);
    true
}

// Exchanges neighbors as long as the weights favor it.
fn improve(weights: &Weights, order: &mut [usize]) {
    for _ in 0..MOST_SWEEPS {
        let mut is_better = false;
        for place in 0..order.len() {
            if exchange(weights, order, place) {
                is_better = true;
            }
        }
        if !is_better {
            break;
        }
    }
}

// The index of each family in an order.
fn places_in(alloc: Global, order: &[usize]) -> Result<Vec<usize>, AllocError> {
    let mut places = Vec::with_capacity(alloc, order.len())?;
    for _ in order {
        push_sparing(&mut places, 0)?;
    }
    for (place, family) in order.iter().enumerate() {
        if let Some(slot) = places.get_mut(*family) {
            *slot = place;
        }
    }
    Ok(places)
}

// For each family, the length of the longest chain that begins with it: families each of which is claimed while the one before it
// is held, and that follow the order.
fn heights_of(alloc: Global, order: &[usize], edges: &[Edge]) -> Result<Vec<usize>, AllocError> {
    let places = places_in(alloc, order)?;
    let left = Left::of(alloc, order.len(), edges)?;
    let mut heights = Vec::with_capacity(alloc, order.len())?;
    for _ in order {
        push_sparing(&mut heights, 0)?;
    }
    for family in order.iter().rev() {
        let height = height_of(
            left.edges.get(*family),
            places.as_slice(),
            heights.as_slice(),
            *family,
        );
        if let Some(slot) = heights.get_mut(*family) {
            *slot = height;
        }
    }
    Ok(heights)
}

// The height of a family, given those of the families that come after it.
fn height_of(
    edges: Option<&Vec<Edge>>,
    places: &[usize],
    heights: &[usize],
    family: usize,
) -> usize {
    let Some(edges) = edges else {
        return 0;
    };
    let own = places.get(family).copied().unwrap_or(0);
    let mut height: usize = 0;
    for edge in edges {
        let place = places.get(edge.claimed).copied().unwrap_or(0);
        if edge.held == family && place > own {
            let below = heights.get(edge.claimed).copied().unwrap_or(0);
            height = height.max(below.saturating_add(1));
        }
    }
    height
}

/// An order for the claims of the families `names`, as indexes. The weight of the nestings against it is small, and a family with
/// a longer chain of families below it comes earlier.
pub fn order_of(
    alloc: Global,
    names: &[FamilyName],
    nestings: &[Nesting],
) -> Result<Vec<usize>, AllocError> {
    let edges = edges_of(alloc, names, nestings)?;
    let mut order = choose_order(alloc, names.len(), edges.as_slice())?;
    let weights = Weights::of(alloc, edges.as_slice())?;
    improve(&weights, order.as_mut_slice());
    let heights = heights_of(alloc, order.as_slice(), edges.as_slice())?;
    order.sort_by(|first, second| {
        heights
            .get(*second)
            .copied()
            .unwrap_or(0)
            .cmp(&heights.get(*first).copied().unwrap_or(0))
    })?;
    Ok(order)
}
