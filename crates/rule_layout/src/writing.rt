//! Writes pieces with their gaps.

ghost use Rattle.std.specs.Prelude.{◌≡◌, ◌++◌, replicate, option_map, IfOk, OnOk};
ghost use Rattle.rule_layout.specs.Gaps.{gap_bytes};
ghost use Rattle.rule_layout.specs.Layout.{gap_of, laid_out};
ghost use Rattle.rule_layout.specs.Pieces.{shape_of, shapes_of};

use crate::gap::{Gap, sound_gap};
use crate::layout::Layout;
use crate::piece::Piece;
use std::alloc::{AllocError, Global};

/// Adds this byte so many times.
fn push_times(out: &mut Vec<u8>, byte: u8, times: usize) -> Result<(), AllocError>
    ensures { OnOk result (out.new.items ≡ out.old.items ++ replicate times byte) }
{
    for _ in 0..times {
        out.push(byte)?;
    }
    Ok(())
}

/// Adds a gap and a piece.
fn push_piece(out: &mut Vec<u8>, gap: Gap, text: &[u8]) -> Result<(), AllocError>
    ensures { OnOk result (out.new.items ≡ out.old.items ++ (gap_bytes gap ++ text.now)) }
{
    push_times(out, b'\n', gap.lines as usize)?;
    push_times(out, b' ', gap.blanks)?;
    out.extend_from_slice(text)?;
    Ok(())
}

/// The gap between a piece and the one before it, if there is one.
fn gap_of(layout: Layout, before: Option<&[u8]>, piece: &Piece, rest: &[Piece]) -> Gap
    ensures { result ≡ gap_of layout (option_map (λ before. before.now) before.entry)
        (shape_of piece.now) (shapes_of rest.now) }
{
    match before {
        None => sound_gap(None, Gap::of_blanks(0), piece.text),
        Some(text) => sound_gap(before, layout.gap_before(text, piece, rest), piece.text),
    }
}

/// The text that has these pieces, in the one layout.
pub(crate) fn text_of(alloc: Global, pieces: &[Piece]) -> Result<Vec<u8>, AllocError>
    ensures { IfOk result (λ out. out.items ≡ laid_out (shapes_of pieces.now)) }
{
    let mut out = Vec::new(alloc);
    let mut layout = Layout::new();
    let mut last: Option<&[u8]> = None;
    let mut count = 0;
    while count < pieces.len() {
        let piece = pieces[count];
        let (_, rest) = pieces.split_at(count + 1);
        let gap = gap_of(layout, last, &piece, rest);
        push_piece(&mut out, gap, piece.text)?;
        layout = layout.after(gap, piece.text, rest);
        last = Some(piece.text);
        count += 1;
    }
    match last {
        None => Ok(out),
        Some(_) => {
            out.push(b'\n')?;
            Ok(out)
        }
    }
}
