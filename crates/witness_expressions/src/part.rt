//! The text of one term, written without recursion: what is still to be written is a list of pieces.

ghost use Rattle.std.specs.Prelude.{◌≡◌, ◌<◌, ◌+◌, ◌++◌, ◌∷◌, [], OnOk, codes, slice_get};
ghost use Rattle.witness_expressions.specs.Names.{named};
ghost use Rattle.witness_expressions.specs.Expressions.{bit_text, operand_name, row_at, rows_of, truth_text};
ghost use Rattle.witness_expressions.specs.Pieces.{piece_text, piece_weight, pieces_text, pieces_weight, term_weight};

use crate::look::{Shape, shape_at};
use crate::names::Spelling;
use crate::sizes::{bit, operand};
use bv_term::{TermId, Terms};
use c_graph::Cell;
use lv_base::Memory;
use std::alloc::Global;

/// A piece of a text.
#[derive(Clone, Copy, Debug, Drop)]
pub enum Piece {
    /// The text of a term.
    Whole(TermId),
    /// ` && `
    AndMark,
    /// ` || `
    OrMark,
    /// `)`
    Close,
}

fn put(text: &mut Vec<u8>, piece: &[u8]) -> Result<(), Memory>
    ensures { OnOk result (text.new.items ≡ text.old.items ++ piece.now) }
{
    text.extend_from_slice(piece)?;
    Ok(())
}

fn put_and(
    text: &mut Vec<u8>,
    pieces: &mut Vec<Piece>,
    left: TermId,
    right: TermId,
) -> Result<(), Memory>
    ensures text { OnOk result (text.new.items ≡ text.old.items ++ codes "(") }
    ensures pieces { OnOk result (pieces.new.items ≡ pieces.old.items ++ (Piece.Close ∷ Piece.Whole right ∷ Piece.AndMark ∷ Piece.Whole left ∷ [])) }
{
    put(text, b"(")?;
    pieces.extend_from_slice(&[
        Piece::Close,
        Piece::Whole(right),
        Piece::AndMark,
        Piece::Whole(left),
    ])?;
    Ok(())
}

fn put_or(
    text: &mut Vec<u8>,
    pieces: &mut Vec<Piece>,
    left: TermId,
    right: TermId,
) -> Result<(), Memory>
    ensures text { OnOk result (text.new.items ≡ text.old.items ++ codes "(") }
    ensures pieces { OnOk result (pieces.new.items ≡ pieces.old.items ++ (Piece.Close ∷ Piece.Whole right ∷ Piece.OrMark ∷ Piece.Whole left ∷ [])) }
{
    put(text, b"(")?;
    pieces.extend_from_slice(&[
        Piece::Close,
        Piece::Whole(right),
        Piece::OrMark,
        Piece::Whole(left),
    ])?;
    Ok(())
}

fn put_not(text: &mut Vec<u8>, pieces: &mut Vec<Piece>, operand: TermId) -> Result<(), Memory>
    ensures text { OnOk result (text.new.items ≡ text.old.items ++ codes "(!") }
    ensures pieces { OnOk result (pieces.new.items ≡ pieces.old.items ++ (Piece.Close ∷ Piece.Whole operand ∷ [])) }
{
    put(text, b"(!")?;
    pieces.extend_from_slice(&[Piece::Close, Piece::Whole(operand)])?;
    Ok(())
}

fn put_truth(text: &mut Vec<u8>, value: u128) -> Result<(), Memory>
    ensures { OnOk result (text.new.items ≡ text.old.items ++ truth_text value) }
{
    if value == 1 {
        put(text, b"1")
    } else {
        put(text, b"0")
    }
}

fn put_bit(
    alloc: Global,
    text: &mut Vec<u8>,
    terms: &Terms,
    cells: &[Cell],
    spellings: &[Spelling],
    number: u32,
    term: TermId,
) -> Result<(), Memory>
    ensures { OnOk result (text.new.items ≡ text.old.items ++ bit_text number (operand_name (named spellings.now cells.now) (slice_get terms.now.terms term.0))) }
{
    let name = operand(alloc, terms, cells, spellings, term)?;
    let written = bit(alloc, number, &name)?;
    put(text, written.as_bytes())
}

/// A piece, of which the rest is left behind the others.
fn put_piece(
    alloc: Global,
    text: &mut Vec<u8>,
    pieces: &mut Vec<Piece>,
    terms: &Terms,
    cells: &[Cell],
    spellings: &[Spelling],
    piece: Piece,
) -> Result<(), Memory>
    ensures kept { let rows = rows_of (named spellings.now cells.now) terms.now.terms in OnOk result (text.new.items ++ pieces_text rows pieces.new.items ≡ text.old.items ++ (piece_text rows piece ++ pieces_text rows pieces.old.items)) }
    ensures falls { OnOk result (pieces_weight pieces.new.items < piece_weight piece + pieces_weight pieces.old.items) }
{
    match piece {
        Piece::Whole(term) => put_whole(alloc, text, pieces, terms, cells, spellings, term),
        Piece::AndMark => put(text, b" && "),
        Piece::OrMark => put(text, b" || "),
        Piece::Close => put(text, b")"),
    }
}

fn put_whole(
    alloc: Global,
    text: &mut Vec<u8>,
    pieces: &mut Vec<Piece>,
    terms: &Terms,
    cells: &[Cell],
    spellings: &[Spelling],
    term: TermId,
) -> Result<(), Memory>
    ensures kept { let rows = rows_of (named spellings.now cells.now) terms.now.terms in OnOk result (text.new.items ++ pieces_text rows pieces.new.items ≡ text.old.items ++ ((row_at rows term).text ++ pieces_text rows pieces.old.items)) }
    ensures falls { OnOk result (pieces_weight pieces.new.items < term_weight term + pieces_weight pieces.old.items) }
{
    match shape_at(terms, term) {
        Shape::Truth(value) => {
            put_truth(text, value)?;
            Ok(())
        }
        Shape::Both(i, j) => {
            put_and(text, pieces, i, j)?;
            Ok(())
        }
        Shape::Either(i, j) => {
            put_or(text, pieces, i, j)?;
            Ok(())
        }
        Shape::Complement(i) => {
            put_not(text, pieces, i)?;
            Ok(())
        }
        Shape::BitOf(number, i) => {
            put_bit(alloc, text, terms, cells, spellings, number, i)?;
            Ok(())
        }
        Shape::Other => Ok(()),
    }
}

/// The text of a term.
pub(crate) fn put_text(
    alloc: Global,
    text: &mut Vec<u8>,
    terms: &Terms,
    cells: &[Cell],
    spellings: &[Spelling],
    term: TermId,
) -> Result<(), Memory>
    ensures { OnOk result (text.new.items ≡ text.old.items ++ (row_at (rows_of (named spellings.now cells.now) terms.now.terms) term).text) }
{
    let mut pieces = Vec::new(alloc);
    pieces.push(Piece::Whole(term))?;
    while let Some(piece) = pieces.pop() {
        put_piece(alloc, text, &mut pieces, terms, cells, spellings, piece)?;
    }
    Ok(())
}
