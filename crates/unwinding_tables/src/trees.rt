//! `tree STEP ; ..`: steps over the tree of one vertex at the graph's entry. `expand VERTEX`, and `closed VERTEX` where it may
//! not be expanded; `put TERM = NUMBER`; `strengthen VERTEX NUMBER` by a term, and `weak VERTEX NUMBER` where that may not be;
//! `relabel VERTEX VERSION = NUMBERS`; `vertices COUNT`; `vertex VERTEX = NODE PARENT EDGE`, the latter two `none` at the root;
//! `label VERTEX = NUMBERS`; `version VERTEX = NUMBER`.
ghost use Rattle.std.specs.Prelude.{◌<◌, All, IsTrue, length};
ghost use Rattle.c_graph.specs.Shape.{HasWidth};
ghost use Rattle.reach_tree.specs.Trees.{IsLabel};

use bv_term::{TermId, Terms};
use c_graph::Graph;
use graph_rows::whole_graph;
use reach_tree::{Label, NewLabel, Tree, VertexId};
use row_text::{RowFail, Table, fields, halves, number, numbers, one_term};
use std::alloc::Global;

// Expands a vertex, where it may be expanded.
fn expand(alloc: Global, graph: &Graph, tree: &mut Tree, rest: &str) -> Result<bool, RowFail> {
    let v = VertexId(number(Some(rest))?);
    if !tree.may_expand(graph, v) {
        return Ok(false);
    }
    tree.expand(alloc, graph, v)?;
    Ok(true)
}

// Puts the terms of a table, behind the ones that are there, into the tree's table.
fn put_all(tree: &mut Tree, terms: &Terms) -> Result<(), RowFail> {
    for k in tree.terms().count()..terms.count() {
        let term = terms.get(TermId(k));
        if !tree.terms().fits(term) {
            return Err(RowFail::Bad);
        }
        tree.put(term)?;
    }
    Ok(())
}

// Puts a term, which is to get a number.
fn put(alloc: Global, tree: &mut Tree, rest: &str) -> Result<bool, RowFail> {
    let (text, wanted) = halves(rest)?;
    let mut terms = tree.terms().copy()?;
    let found = one_term(alloc, &mut terms, TermId(0), text)?;
    put_all(tree, &terms)?;
    Ok(found == Some(TermId(number(Some(wanted))?)) && tree.terms().count() == terms.count())
}

// A vertex and a term.
fn two_in(rest: &str) -> Result<(VertexId, TermId), RowFail> {
    let (v, term) = fields(rest);
    Ok((VertexId(number(Some(v))?), TermId(number(Some(term))?)))
}

fn strengthen(tree: &mut Tree, rest: &str) -> Result<bool, RowFail> {
    let (v, term) = two_in(rest)?;
    if !tree.may_strengthen(v, term) {
        return Ok(false);
    }
    tree.strengthen(v, term)?;
    Ok(true)
}

// The label of a vertex, with the version that it is to have.
fn new_label(
    alloc: Global,
    vertex: VertexId,
    version: u32,
    numbers: &[u32],
) -> Result<Vec<NewLabel>, RowFail> {
    let mut conjuncts = Vec::new(alloc);
    for number in numbers {
        conjuncts.push(TermId(*number))?;
    }
    let mut labels = Vec::new(alloc);
    labels.push(NewLabel {
        vertex,
        label: Label::new(conjuncts),
        version,
    })?;
    Ok(labels)
}

// Whether the term is there, and one bit wide.
fn is_bit(terms: &Terms, term: TermId) -> bool
    ensures { IsTrue result → HasWidth terms.now term 1 }
{
    if term.0 >= terms.count() {
        return false;
    }
    terms.width_of(term) == 1
}

// Whether these are terms of one bit.
fn is_label(terms: &Terms, label: &[TermId]) -> bool
    ensures { IsTrue result → IsLabel terms.now label.now }
{
    for conjunct in label {
        if !is_bit(terms, *conjunct) {
            return false;
        }
    }
    true
}

// Whether these are labels of terms of one bit.
fn are_labels(terms: &Terms, labels: &[NewLabel]) -> bool
    ensures { IsTrue result → All (λ l. IsLabel terms.now l.label) labels.now }
{
    for label in labels {
        if !is_label(terms, label.label.as_slice()) {
            return false;
        }
    }
    true
}

// Whether the tree has each of the vertices that are to get these labels.
fn are_there(tree: &Tree, labels: &[NewLabel]) -> bool
    ensures { IsTrue result → All (λ l. l.vertex.0 < length tree.now.vertices) labels.now }
{
    for label in labels {
        if label.vertex.0 as usize >= tree.vertices().len() {
            return false;
        }
    }
    true
}

fn relabel(alloc: Global, tree: &mut Tree, rest: &str) -> Result<bool, RowFail> {
    let (head, conjuncts) = halves(rest)?;
    let (v, version) = fields(head);
    let v = VertexId(number(Some(v))?);
    let conjuncts = numbers(alloc, conjuncts)?;
    let labels = new_label(alloc, v, number(Some(version))?, &conjuncts)?;
    if !are_there(tree, &labels) || !are_labels(tree.terms(), &labels) {
        return Err(RowFail::Bad);
    }
    tree.relabel(labels);
    Ok(true)
}

// A number, or none.
fn option_in(word: &str) -> Result<Option<u32>, RowFail> {
    if word == "none" {
        Ok(None)
    } else {
        Ok(Some(number(Some(word))?))
    }
}

// Whether a vertex has this node, parent and edge.
fn is_vertex(tree: &Tree, rest: &str) -> Result<bool, RowFail> {
    let (v, wanted) = halves(rest)?;
    let Some(vertex) = tree.vertices().get(number(Some(v))? as usize) else {
        return Ok(false);
    };
    let (node, links) = fields(wanted);
    let (parent, edge) = fields(links);
    Ok(
        vertex.node.0 == number(Some(node))?
            && vertex.parent.map(|p| p.0) == option_in(parent)?
            && vertex.by.map(|e| e.0) == option_in(edge)?,
    )
}

// Whether a vertex has this label.
fn has_label(alloc: Global, tree: &Tree, rest: &str) -> Result<bool, RowFail> {
    let (v, wanted) = halves(rest)?;
    let Some(vertex) = tree.vertices().get(number(Some(v))? as usize) else {
        return Ok(false);
    };
    let wanted = numbers(alloc, wanted)?;
    let label = vertex.label.as_slice();
    Ok(label.len() == wanted.len() && label.iter().zip(&wanted).all(|(t, n)| t.0 == *n))
}

// Whether a vertex has this version.
fn has_version(tree: &Tree, rest: &str) -> Result<bool, RowFail> {
    let (v, wanted) = halves(rest)?;
    let Some(vertex) = tree.vertices().get(number(Some(v))? as usize) else {
        return Ok(false);
    };
    Ok(vertex.version == number(Some(wanted))?)
}

// Whether what a step asks of the tree is so.
fn ask(alloc: Global, graph: &Graph, tree: &Tree, word: &str, rest: &str) -> Result<bool, RowFail> {
    match word {
        "closed" => Ok(!tree.may_expand(graph, VertexId(number(Some(rest))?))),
        "weak" => {
            let (v, term) = two_in(rest)?;
            Ok(!tree.may_strengthen(v, term))
        }
        "vertices" => Ok(tree.vertices().len() == number(Some(rest))? as usize),
        "vertex" => is_vertex(tree, rest),
        "label" => has_label(alloc, tree, rest),
        "version" => has_version(tree, rest),
        _ => Err(RowFail::Bad),
    }
}

fn step(alloc: Global, graph: &Graph, tree: &mut Tree, part: &str) -> Result<bool, RowFail> {
    let (word, rest) = fields(part);
    match word {
        "expand" => expand(alloc, graph, tree, rest),
        "put" => put(alloc, tree, rest),
        "strengthen" => strengthen(tree, rest),
        "relabel" => relabel(alloc, tree, rest),
        _ => ask(alloc, graph, tree, word, rest),
    }
}

// Tries the row.
fn goes(alloc: Global, text: &str, rest: &str) -> Result<bool, RowFail> {
    let graph = whole_graph(alloc, text)?;
    let mut tree = Tree::new(alloc, &graph)?;
    for part in rest.split(';') {
        if !step(alloc, &graph, &mut tree, part)? {
            return Ok(false);
        }
    }
    Ok(true)
}

/// Rows of trees of paths in a graph of these parts.
#[derive(Drop)]
pub(crate) struct TreeRows<'a> {
    pub(crate) parts: &'a str,
}

impl Table for TreeRows<'_> {
    fn is_so(&mut self, alloc: Global, row: &str) -> Result<bool, RowFail> {
        let (kind, rest) = fields(row);
        match kind {
            "tree" => goes(alloc, self.parts, rest),
            _ => Err(RowFail::Bad),
        }
    }
}
